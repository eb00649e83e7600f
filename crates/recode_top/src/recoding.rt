//! Recodes a tape.
ghost use Rattle.std.specs.Prelude.{◌<◌, ◌≤◌, ℕ, length, IfOk, IfErr};
ghost use Rattle.semantics_lines.specs.Trees.{Tree};
ghost use Rattle.semantics_lines.specs.Documents.{Document};
ghost use Rattle.semantics.specs.Writing.{write};
ghost use Rattle.semantics_lines.specs.Tapes.{document_tape};
ghost use Rattle.semantics.specs.Recoding.{Recodes, IsReadable, IsValid};
ghost use Rattle.shape_types.specs.Shapes.{registry};
ghost use Rattle.shape_types.specs.Trees.{tree_of};
ghost use Rattle.recode_top.specs.Recode.{IsTapeUnlessMemory, IsRefusedFor, IsWritten, IsUnwritten};

use crate::error::RecodeError;
use crate::reading::read_tape;
use crate::writing::write_tape;
use event_core::SerializeError;
use laws::valid_is_readable;
use shape_core::{ShapeId, Shapes, Value};
use std::alloc::Global;
use tape_text::{TapeBytes, tape_is_read};

/// Reads the one value of a tape by its shape, its keys in any order, and writes its tape in canonical order.
///
/// `depth` bounds how deep values nest, and at most `capacity` events are read ahead: at 0 none is read. An `Ok` says
/// that the whole input was read.
pub fn recode<'a>(
    alloc: Global,
    shapes: &Shapes,
    root: ShapeId,
    capacity: usize,
    depth: usize,
    input: &'a [u8],
) -> Result<TapeBytes, RecodeError<'a>>
    requires { root.0 < length (registry shapes.now) }

    // What is answered is the tape of the value that the whole input is read as.
    ensures sound { IfOk result (λ out. Recodes (registry shapes.now) root.0 depth input.now out) }

    // Nothing is where no event may be read ahead.
    ensures room { IfOk result (λ out. 1 ≤ capacity) }

    // What can be read and written is answered, unless memory ran out.
    ensures complete { (document : Document) → 1 ≤ capacity
        → IsReadable (registry shapes.now) root.0 depth input.now document
        → IsTapeUnlessMemory (document_tape document) result }

    // A value's tape, its entries in any order, is answered by the value's own tape.
    ensures canonical { (value : Tree) (document : Document) → 1 ≤ capacity
        → IsValid (registry shapes.now) root.0 depth input.now value document
        → IsTapeUnlessMemory (document_tape document) result }

    // Each refusal has its cause in the input.
    ensures cause { IfErr result (IsRefusedFor (registry shapes.now) root.0 capacity depth input.now) }
{
    // What every registry and every tape keeps.
    shapes.rules();
    tape_is_read();
    valid_is_readable();

    match read_tape(alloc, shapes, root, capacity, depth, input) {
        Ok(value) => rewritten(alloc, shapes, root, &value),
        Err(error) => Err(error),
    }
}

/// The tape of a value. It is refused where the value has no written form, and for want of memory.
fn rewritten<'e>(
    alloc: Global,
    shapes: &Shapes,
    root: ShapeId,
    value: &Value<'_>,
) -> Result<TapeBytes, RecodeError<'e>>
    ensures written { IfOk result (IsWritten (write (registry shapes.now) root.0 (tree_of value.now))) }
    ensures refused { IfErr result (IsUnwritten (write (registry shapes.now) root.0 (tree_of value.now))) }
{
    match write_tape(alloc, shapes, root, value) {
        Ok(out) => Ok(out),
        Err(SerializeError::Alloc) => Err(RecodeError::Alloc),
        Err(error) => Err(RecodeError::Serialize(error)),
    }
}
