ghost use Rattle.std.specs.Prelude.{map, IfOk, IfErr};
ghost use Rattle.semantics.specs.Registry.{drafted};
ghost use Rattle.semantics.specs.CheckedText.{IsShapeText};
ghost use Rattle.shape_types.specs.Shapes.{registry};
ghost use Rattle.shape_text.specs.ShapeErrors.{IsReadShapesError};

use shape_core::{CheckFault, Shapes};
use shape_lines::{ReadShapesError, ShapeTextKind, describe, fault, line_of_shape, read_lines};
use shape_types::DraftsBuilder;
use std::alloc::Global;

/// The registry that a text describes: the scalars, and then the shapes of the text in their order.
///
/// A line `shape NAME ..` begins a shape, and lines `item ..`, `field ..` and `variant ..` behind it say what it is made
/// of. A name is one or more ASCII letters, digits or `_`, and refers to the first shape that has it. One space stands
/// between two words, and each line ends in a line feed. The document `docs/FORMATS.md` has each line of the text.
///
/// `Fault` has the first fault and its line, in the order of [`ShapeTextKind`]: first the lines one by one, then the
/// references line by line, and then the rules of the registry, where the line is that on which the shape begins.
pub fn read_shapes<'v>(alloc: Global, text: &[u8]) -> Result<Shapes<'v>, ReadShapesError>
    ensures shapes { IfOk result (λ shapes. IsShapeText text.now (map drafted (registry shapes))) }
    ensures fault { IfErr result (λ error. IsReadShapesError text.now error) }
{
    let mut builder = DraftsBuilder::new(alloc)?;
    let lines = read_lines(alloc, text, &mut builder)?;
    describe(alloc, lines.as_slice(), &mut builder)?;
    match Shapes::from_drafts(alloc, builder) {
        Ok(shapes) => Ok(shapes),
        Err(CheckFault::Fault(found)) => {
            let line = line_of_shape(lines.as_slice(), found.shape);
            Err(fault(line, ShapeTextKind::Check(found)))
        }
        Err(CheckFault::Alloc) => Err(ReadShapesError::Alloc),
    }
}
