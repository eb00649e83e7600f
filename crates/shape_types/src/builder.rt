ghost use Rattle.std.specs.Prelude.{◌≡◌, ◌<◌, ◌≤◌, [], ◌∷◌, ◌++◌, length, slice_get, slice_set, IfOk, IfErr, IfSome, OnOk, OnErr};
ghost use Rattle.semantics_lines.specs.Scalars.{scalar_drafts};
ghost use Rattle.semantics_lines.specs.ShapeFaults.{shape_limit};
ghost use Rattle.shape_types.specs.Builder.{named, redefined, IsDraftList, IsNameFault};
ghost use Rattle.shape_types.specs.Shapes.{definition_of, draft_of, drafts_of};

use crate::definition::Def;
use crate::draft::Draft;
use crate::fault::NameFault;
use crate::memory::OutOfMemory;
use crate::name::Name;
use crate::scalar::ScalarType;
use crate::shape::ShapeId;
use std::alloc::Global;
use std::marker::Model;

/// The most shapes of a registry.
const LIMIT: usize = 65535;

/// Shapes that are being named and defined, by their numbers. The first seventeen are the scalars.
///
/// `'v` is how long texts of declared defaults are borrowed.
#[derive(Drop)]
pub struct DraftsBuilder<'v> {
    alloc: Global,
    drafts: Vec<Draft<'v>>,
}

impl<'v> Model for DraftsBuilder<'v> {
    ghost use mir.Syntax.{static};
    ghost use Rattle.std.specs.Prelude.{List, []};
    ghost use Rattle.std.specs.Coded.{coded_list};
    ghost use Rattle.shape_types.specs.declared.draft.Draft.{Draft};
    ghost use Rattle.shape_types.specs.contracts.draft.Draft.{the_row};
    ghost use Rattle.shape_types.specs.Builder.{IsDraftList};

    ghost Value = { List Draft };

    ghost coded = { coded_list (the_row (record { mir = static; lft = [] })).coded };

    ghost view = { λ b. b.drafts.items };

    ghost invariant = { λ b. IsDraftList b.drafts.items };
}

impl<'v> DraftsBuilder<'v> {
    /// A builder that holds the scalars, in the order of [`ScalarType::ALL`].
    pub fn new(alloc: Global) -> Result<DraftsBuilder<'v>, OutOfMemory>
        ensures { IfOk result (λ builder. drafts_of builder ≡ scalar_drafts) }
    {
        let drafts = scalar_drafts(alloc)?;
        Ok(DraftsBuilder { alloc, drafts })
    }

    /// Gives the next number to a shape of this name, which is still to be defined.
    ///
    /// `TooMany` comes where 65,535 shapes are there. A refusal changes nothing.
    pub fn name(&mut self, name: &str) -> Result<ShapeId, NameFault>
        ensures number { IfOk result (λ id. id.0 ≡ length (drafts_of self.old)) }
        ensures free { IfOk result (λ id. 17 ≤ id.0) }
        ensures added { IfOk result (λ id. drafts_of self.new ≡ drafts_of self.old ++ named name.now ∷ []) }
        ensures room { IfOk result (λ id. length (drafts_of self.old) < shape_limit) }
        ensures cause { IfErr result (λ fault. IsNameFault (drafts_of self.old) fault) }
        ensures unchanged { OnErr result (self.new ≡ self.old) }
    {
        let count = self.drafts.len();
        if count >= LIMIT {
            return Err(NameFault::TooMany);
        }
        let name = Name::copy(self.alloc, name)?;
        let draft = Draft {
            name,
            def: None,
            proxy: None,
        };
        push_draft(&mut self.drafts, draft)?;
        Ok(ShapeId(count as u32))
    }

    /// Says what a named shape is made of, in place of what was said before. It takes no memory.
    pub fn define(&mut self, id: ShapeId, def: Def<'v>)
        requires scalars { 17 ≤ id.0 }
        requires named { id.0 < length (drafts_of self.old) }
        ensures { IfSome (slice_get (drafts_of self.old) id.0) (λ draft. drafts_of self.new ≡ slice_set (drafts_of self.old) id.0 (redefined draft (definition_of def.entry))) }
    {
        redefine(&mut self.drafts[id.0 as usize], def);
    }

    /// The shapes that were named, by their numbers, as a `Vec`.
    pub fn into_vec(self) -> Vec<Draft<'v>>
        ensures items { result.items ≡ self.entry }
        ensures rules { IsDraftList self.entry }
    {
        let DraftsBuilder { alloc: _, drafts } = self;
        drafts
    }
}

fn scalar_drafts<'v>(alloc: Global) -> Result<Vec<Draft<'v>>, OutOfMemory>
    ensures { IfOk result (λ drafts. drafts_of drafts.items ≡ scalar_drafts) }
{
    let mut drafts = Vec::new(alloc);
    for scalar in ScalarType::ALL.iter() {
        let name = Name::copy(alloc, scalar.name())?;
        drafts.push(Draft {
            name,
            def: Some(Def::Scalar(*scalar)),
            proxy: None,
        })?;
    }
    Ok(drafts)
}

fn push_draft<'v>(drafts: &mut Vec<Draft<'v>>, draft: Draft<'v>) -> Result<(), OutOfMemory>
    ensures ok { OnOk result (drafts.new.items ≡ drafts.old.items ++ draft.entry ∷ []) }
    ensures err { OnErr result (drafts.new.items ≡ drafts.old.items) }
{
    drafts.push(draft)?;
    Ok(())
}

fn redefine<'v>(draft: &mut Draft<'v>, def: Def<'v>)
    ensures { draft_of draft.new ≡ redefined (draft_of draft.old) (definition_of def.entry) }
{
    draft.def = Some(def);
}
