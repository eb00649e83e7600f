//! Writes a value as a tape.
ghost use Rattle.std.specs.Prelude.{IfOk, IfErr};
ghost use Rattle.semantics.specs.Writing.{write};
ghost use Rattle.shape_types.specs.Shapes.{registry};
ghost use Rattle.shape_types.specs.Trees.{tree_of};
ghost use Rattle.recode_top.specs.Recode.{IsWritten, Unwrites};

use event_core::SerializeError;
use format_write::serialize_root;
use laws::calls_write;
use shape_core::{ShapeId, Shapes, Value};
use std::alloc::Global;
use tape_text::{NoFault, TapeBytes, TapeWriter};

/// The tape of what a value of the shape is written as.
///
/// It answers `Unsupported` exactly where the value has no written form, and `Alloc` for want of memory. The other
/// errors never come.
pub(crate) fn write_tape(
    alloc: Global,
    shapes: &Shapes,
    root: ShapeId,
    value: &Value<'_>,
) -> Result<TapeBytes, SerializeError<NoFault>>
    ensures written { IfOk result (IsWritten (write (registry shapes.now) root.0 (tree_of value.now))) }
    ensures refused { IfErr result (Unwrites (write (registry shapes.now) root.0 (tree_of value.now))) }
{
    calls_write();
    let mut writer = TapeWriter::new(alloc);
    match serialize_root(alloc, shapes, root, value, &mut writer) {
        Ok(()) => Ok(writer.into_bytes()),
        Err(error) => Err(error),
    }
}
