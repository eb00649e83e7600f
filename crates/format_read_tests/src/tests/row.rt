//! A reader over an input, and what its calls answer.
use crate::tests::asking::{Answers, Calls, Input, ask};
use crate::tests::outcome::{Cause, Outcome, Part, Refusal};
use event_core::Span;
use shape_core::{OutOfMemory, ShapeId};
use std::alloc::Global;
use std::process::Abort;

/// Where the input is broken, behind all events.
pub const BROKEN: Span = Span {
    offset: 100,
    len: 3,
};

/// The parser's fault.
pub const IO: Outcome = Outcome::Refused(Refusal {
    cause: Cause::Io,
    span: Some(BROKEN),
    part: Part::None,
});

/// A shape, an input, the calls, and what they answer.
pub type Row = (ShapeId, Input, Calls, Answers);

/// The calls of the row are answered so.
pub fn is_answered(
    rt: &impl Abort,
    alloc: Global,
    at: usize,
    row: &Row,
) -> Result<(), OutOfMemory> {
    let (root, input, calls, want) = *row;
    let found = ask(rt, alloc, root, input, calls)?;
    assert_eq!(rt; found, want, "row {at}");
    Ok(())
}
