//! What is answered to an input: a shape text, the line `---` and a tape.
ghost use Rattle.std.specs.Prelude.{◌≤◌, ◌<◌, length, IfOk, IfErr};
ghost use Rattle.semantics_lines.specs.Documents.{Document};
ghost use Rattle.semantics_lines.specs.Tapes.{document_tape};
ghost use Rattle.semantics.specs.Recoding.{Recodes, IsReadable};
ghost use Rattle.shape_types.specs.Shapes.{registry};
ghost use Rattle.recode_top.specs.Requests.{request_of};
ghost use Rattle.recode_top.specs.Running.{HasOutput, IsAnswerable, IsInputStop, IsOutputUnlessMemory, IsTapeStop, IsRefused, IsRefusal, IsShapesStop};

use crate::command::Request;
use crate::error::RecodeError;
use crate::outside::divided;
use crate::recoding::recode;
use crate::shape_note::shapes_note;
use crate::stop::Stop;
use laws::one_shape_text;
use laws_lines::one_division;
use shape_core::{Name, ShapeId, Shapes};
use shape_text::{ReadShapesError, read_shapes};
use std::alloc::Global;
use tape_text::TapeBytes;

/// The canonical tape of an input: a shape text, the line `---` and a tape of a value of the root.
#[tactic(auto, using(crate::proofs::Answering::is_loaded, crate::proofs::Answering::output_made, crate::proofs::Answering::stop_made, crate::proofs::Answering::shapes_refused, crate::proofs::Answering::root_missing, crate::proofs::Answering::fault_excluded, crate::proofs::Answering::root_found, crate::proofs::Answering::readable_here))]
pub(crate) fn answer<'a>(
    alloc: Global,
    request: Request<'a>,
    input: &[u8],
) -> Result<TapeBytes, Stop<'a>>
    ensures output { IfOk result (HasOutput (request_of request.entry) input.now) }
    ensures stop { IfErr result (IsInputStop (request_of request.entry) input.now) }
    ensures complete { (document : Document) → IsAnswerable (request_of request.entry) input.now document
        → IsOutputUnlessMemory (document_tape document) result }
{
    // An input is divided in one way, and a text describes one registry.
    one_division();
    one_shape_text();

    let Some((text, tape)) = divided(input) else {
        return Err(Stop::NoDivider);
    };
    let shapes = match read_shapes(alloc, text) {
        Ok(shapes) => shapes,
        Err(error) => return Err(shapes_stop(alloc, error)),
    };
    match shapes.find(request.root) {
        Some(root) => recoded(alloc, &shapes, root, request.capacity, request.depth, tape),
        None => Err(Stop::UnknownRoot(request.root)),
    }
}

/// The canonical tape of a tape, by the root's number.
#[tactic(auto, using(crate::proofs::Answering::tape_refused, crate::proofs::Answering::tape_complete))]
fn recoded(
    alloc: Global,
    shapes: &Shapes,
    root: ShapeId,
    capacity: usize,
    depth: usize,
    tape: &[u8],
) -> Result<TapeBytes, Stop<'static>>
    requires { root.0 < length (registry shapes.now) }
    ensures output { IfOk result (Recodes (registry shapes.now) root.0 depth tape.now) }
    ensures room { IfOk result (λ out. 1 ≤ capacity) }
    ensures stop { IfErr result (IsTapeStop (registry shapes.now) root.0 capacity depth tape.now) }
    ensures complete { (document : Document) → 1 ≤ capacity
        → IsReadable (registry shapes.now) root.0 depth tape.now document
        → IsOutputUnlessMemory (document_tape document) result }
{
    match recode(alloc, shapes, root, capacity, depth, tape) {
        Ok(out) => Ok(out),
        Err(error) => {
            let stop = tape_stop(alloc, &error);
            drop(error);
            Err(stop)
        }
    }
}

/// Says why the tape is refused.
fn tape_stop(alloc: Global, error: &RecodeError) -> Stop<'static>
    ensures { IsRefusal error.now result }
{
    match error {
        RecodeError::Alloc => Stop::Memory,
        RecodeError::Deserialize(_)
        | RecodeError::Trailing { kind: _, span: _ }
        | RecodeError::Serialize(_) => refused(alloc, error),
    }
}

/// The refusal with the text of its error.
fn refused(alloc: Global, error: &RecodeError) -> Stop<'static>
    ensures { IsRefused error.now result }
{
    match format!(in alloc; "{error}") {
        Ok(text) => Stop::Refused(Name::from_string(text)),
        Err(_) => Stop::Memory,
    }
}

/// Says why the shape text is refused.
fn shapes_stop(alloc: Global, error: ReadShapesError) -> Stop<'static>
    ensures { IsShapesStop error result }
{
    match error {
        ReadShapesError::Alloc => Stop::Memory,
        ReadShapesError::Fault(fault) => match shapes_note(alloc, fault) {
            Ok(text) => Stop::Shapes(text),
            Err(_) => Stop::Memory,
        },
    }
}
