ghost use Rattle.std.specs.Prelude.{◌≡◌, ◌<◌, ◌≤◌, [], ◌∷◌, ◌++◌, map, length, slice_get, slice_set, IfOk, IfErr, IfSome, OnErr};
ghost use Rattle.std.specs.List.{filter_map};
ghost use Rattle.semantics_lines.specs.Scalars.{scalar_drafts};
ghost use Rattle.semantics_lines.specs.ShapeFaults.{shape_limit};
ghost use Rattle.semantics.specs.Registry.{NoFault, drafted};
ghost use Rattle.shape_core.specs.Builder.{finished, IsCheckFault};
ghost use Rattle.shape_types.specs.Builder.{named, redefined, IsNameFault};
ghost use Rattle.shape_types.specs.Shapes.{definition_of, drafts_of, registry};

use crate::check::first_fault;
use crate::shapes::Shapes;
use crate::utf8::drafts_utf8;
use shape_types::{
    CheckFault, Def, Draft, DraftsBuilder, Items, NameFault, OutOfMemory, Shape, ShapeId,
};
use std::alloc::Global;
use std::marker::Model;

/// Shapes that are being named and defined, by their numbers. The first seventeen are the scalars.
///
/// `'v` is how long texts of declared defaults are borrowed.
#[derive(Drop)]
pub struct ShapesBuilder<'v> {
    drafts: DraftsBuilder<'v>,
}

impl<'v> Model for ShapesBuilder<'v> {
    ghost use mir.Syntax.{static};
    ghost use Rattle.std.specs.Prelude.{List, []};
    ghost use Rattle.std.specs.Coded.{coded_list};
    ghost use Rattle.shape_types.specs.declared.draft.Draft.{Draft};
    ghost use Rattle.shape_types.specs.contracts.draft.Draft.{the_row};

    ghost Value = { List Draft };

    ghost coded = { coded_list (the_row (record { mir = static; lft = [] })).coded };

    ghost view = { λ b. b.drafts };
}

impl<'v> ShapesBuilder<'v> {
    /// A builder that holds the scalars, in the order of [`crate::ScalarType::ALL`].
    pub fn new(alloc: Global) -> Result<ShapesBuilder<'v>, OutOfMemory>
        ensures { IfOk result (λ builder. drafts_of builder ≡ scalar_drafts) }
    {
        let drafts = DraftsBuilder::new(alloc)?;
        Ok(ShapesBuilder { drafts })
    }

    /// Gives the next number to a shape of this name, which is still to be defined.
    ///
    /// `TooMany` comes where 65,535 shapes are there. A refusal changes nothing.
    pub fn name(&mut self, name: &str) -> Result<ShapeId, NameFault>
        ensures number { IfOk result (λ id. id.0 ≡ length (drafts_of self.old)) }
        ensures free { IfOk result (λ id. 17 ≤ id.0) }
        ensures added { IfOk result (λ id. drafts_of self.new ≡ drafts_of self.old ++ named name.now ∷ []) }
        ensures room { IfOk result (λ id. length (drafts_of self.old) < shape_limit) }
        ensures cause { IfErr result (λ fault. IsNameFault (drafts_of self.old) fault) }
        ensures unchanged { OnErr result (self.new ≡ self.old) }
    {
        self.drafts.name(name)
    }

    /// Says what a named shape is made of, in place of what was said before. It takes no memory.
    pub fn define(&mut self, id: ShapeId, def: Def<'v>)
        requires scalars { 17 ≤ id.0 }
        requires named { id.0 < length (drafts_of self.old) }
        ensures { IfSome (slice_get (drafts_of self.old) id.0) (λ draft. drafts_of self.new ≡ slice_set (drafts_of self.old) id.0 (redefined draft (definition_of def.entry))) }
    {
        self.drafts.define(id, def)
    }

    /// The registry of these shapes.
    ///
    /// Where a rule is broken, `Fault` names the least such shape and the first of the rules that it breaks.
    pub fn check(self, alloc: Global) -> Result<Shapes<'v>, CheckFault>
        ensures sound { IfOk result (λ shapes. NoFault (drafts_of self.entry)) }
        ensures shapes { IfOk result (λ shapes. map drafted (registry shapes) ≡ drafts_of self.entry) }
        ensures cause { IfErr result (λ fault. IsCheckFault (drafts_of self.entry) fault) }
    {
        let ShapesBuilder { drafts } = self;
        Shapes::from_drafts(alloc, drafts)
    }
}

impl<'v> Shapes<'v> {
    /// The registry of these shapes, as [`ShapesBuilder::check`] gives it.
    pub fn from_drafts(alloc: Global, builder: DraftsBuilder<'v>) -> Result<Shapes<'v>, CheckFault>
        ensures sound { IfOk result (λ shapes. NoFault (drafts_of builder.entry)) }
        ensures shapes { IfOk result (λ shapes. map drafted (registry shapes) ≡ drafts_of builder.entry) }
        ensures cause { IfErr result (λ fault. IsCheckFault (drafts_of builder.entry) fault) }
    {
        let drafts = builder.into_vec();
        if let Some(fault) = first_fault(alloc, &drafts)? {
            return Err(CheckFault::Fault(fault));
        }
        drafts_utf8(&drafts);
        let shapes = finished(alloc, drafts)?;
        Ok(Shapes::from_items(alloc, shapes)?)
    }
}

/// The shapes that are defined.
fn finished<'v>(alloc: Global, drafts: Vec<Draft<'v>>) -> Result<Items<Shape<'v>>, OutOfMemory>
    ensures { IfOk result (λ shapes. registry shapes ≡ filter_map finished (drafts_of drafts.entry.items)) }
{
    let mut shapes = Items::new(alloc);
    for draft in drafts {
        let Draft { name, def, proxy } = draft;
        if let Some(def) = def {
            shapes.push(Shape { name, def, proxy })?;
        }
    }
    Ok(shapes)
}
