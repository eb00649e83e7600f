//! The way from a value to one of its parts.
ghost use Rattle.std.specs.Prelude.{◌≡◌, [], ◌∷◌, ◌++◌, Some, IfOk, OnOk, OnErr};
ghost use Rattle.std.specs.List.{flat_map};
ghost use Rattle.std.specs.Fmt.{DisplaysOnOk};
ghost use Rattle.event_core.specs.ErrorTexts.{step_text};

use shape_types::{Items, OutOfMemory, Text};
use std::alloc::Global;
use std::fmt;
use std::marker::Model;

/// One step from a value to a part of it. `'e` is how long its name is borrowed.
#[derive(Debug, PartialEq, Eq, Drop)]
pub enum PathSegment<'e> {
    /// To a field, by its name.
    Field(Text<'e>),
    /// To an item, by its place.
    Index(usize),
    /// To a variant, by its name.
    Variant(Text<'e>),
}

/// The steps from a value to a part of it, the outermost first. `'e` is how long their names are borrowed.
#[derive(Debug, Drop)]
pub struct Path<'e> {
    steps: Items<PathSegment<'e>>,
}

impl<'e> Model for Path<'e> {
    ghost use Rattle.std.specs.Prelude.{List};
    ghost use Rattle.event_core.specs.declared.path.PathSegment.{PathSegment};

    ghost Value = { List PathSegment };

    ghost view = { λ path. path.steps };
}

impl PartialEq for Path<'_> {
    ghost use Rattle.std.specs.Cmp.Lexicographic.{pointwise, lists_per};
    ghost use Rattle.event_core.specs.contracts.path.PathSegmentPartialEq.TheImpl as step;
    ghost use Rattle.event_core.specs.contracts.path.PathSegmentPartialEq.TheImpl.Laws as step_laws;

    ghost eq = { pointwise step.ghosts.eq };

    ghost laws = { lists_per step_laws.laws-law };

    fn eq(&self, other: &Self) -> bool {
        self.steps == other.steps
    }
}

impl Eq for Path<'_> {
    ghost use Rattle.std.specs.Cmp.Lexicographic.{lists_equiv};
    ghost use Rattle.event_core.specs.contracts.path.PathSegmentEq.TheImpl.Laws as step_laws;

    ghost laws = { lists_equiv step_laws.laws-law };
}

impl<'e> PathSegment<'e> {
    /// The same step again. It is refused for want of memory alone.
    pub fn try_clone(&self, alloc: Global) -> Result<PathSegment<'e>, OutOfMemory>
        ensures { IfOk result (λ copy. copy ≡ self.now) }
    {
        match self {
            PathSegment::Field(name) => match name.try_clone(alloc) {
                Ok(name) => Ok(PathSegment::Field(name)),
                Err(refused) => Err(refused),
            },
            PathSegment::Index(at) => Ok(PathSegment::Index(*at)),
            PathSegment::Variant(name) => match name.try_clone(alloc) {
                Ok(name) => Ok(PathSegment::Variant(name)),
                Err(refused) => Err(refused),
            },
        }
    }
}

impl<'e> Path<'e> {
    /// The path to the value itself.
    pub fn new(alloc: Global) -> Path<'e>
        ensures { result ≡ [] }
    {
        Path {
            steps: Items::new(alloc),
        }
    }

    /// Goes one step further. A refusal, for want of memory alone, changes nothing.
    pub fn push(&mut self, step: PathSegment<'e>) -> Result<(), OutOfMemory>
        ensures ok { OnOk result (self.new ≡ self.old ++ step.entry ∷ []) }
        ensures err { OnErr result (self.new ≡ self.old) }
    {
        self.steps.push(step)
    }

    /// The steps, the outermost first.
    pub fn steps(&self) -> &[PathSegment<'e>]
        ensures { result.now ≡ self.now }
    {
        self.steps.as_slice()
    }

    /// The same path again. It is refused for want of memory alone.
    pub fn try_clone(&self, alloc: Global) -> Result<Path<'e>, OutOfMemory>
        ensures { IfOk result (λ copy. copy ≡ self.now) }
    {
        let mut copy = Path::new(alloc);
        'steps: for step in self.steps() {
            push_copy(alloc, &mut copy, step)?;
        }
        Ok(copy)
    }
}

impl fmt::Display for PathSegment<'_> {
    ghost use Rattle.std.specs.Prelude.{Some};
    ghost use Rattle.event_core.specs.ErrorTexts.{step_text};

    ghost output = { λ step. Some (step_text step) };

    fn fmt<W: fmt::Write>(&self, f: &mut fmt::Formatter<W>) -> fmt::Result {
        match self {
            PathSegment::Field(name) => {
                let name = name.as_str();
                write!(f, ".{name}")
            }
            PathSegment::Index(at) => write!(f, "[{at}]"),
            PathSegment::Variant(name) => {
                let name = name.as_str();
                write!(f, "::{name}")
            }
        }
    }
}

impl fmt::Display for Path<'_> {
    ghost use Rattle.std.specs.Prelude.{Some};
    ghost use Rattle.event_core.specs.ErrorTexts.{path_text};

    ghost output = { λ path. Some (path_text path) };

    fn fmt<W: fmt::Write>(&self, f: &mut fmt::Formatter<W>) -> fmt::Result {
        let steps = self.steps();
        if steps.is_empty() {
            f.write_str("<root>")
        } else {
            write_steps(steps, f)
        }
    }
}

/// Goes a copy of the step further.
fn push_copy<'e>(
    alloc: Global,
    path: &mut Path<'e>,
    step: &PathSegment<'e>,
) -> Result<(), OutOfMemory>
    ensures { OnOk result (path.new ≡ path.old ++ step.now ∷ []) }
{
    match step.try_clone(alloc) {
        Ok(step) => path.push(step),
        Err(refused) => Err(refused),
    }
}

/// Writes the steps one behind the other.
fn write_steps<W: fmt::Write>(steps: &[PathSegment], f: &mut fmt::Formatter<W>) -> fmt::Result
    ensures { DisplaysOnOk W.write_str_gives f.old result (Some (flat_map step_text steps.now)) f.new }
{
    'steps: for step in steps {
        write!(f, "{step}")?;
    }
    Ok(())
}
