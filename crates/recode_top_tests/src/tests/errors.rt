//! The parts of errors that no line tells.
use crate::tests::assert_row;
use event_core::{DeserializeErrorKind, Span};
use recode_top::{ReadShapesError, RecodeError, read_shapes, recode};
use shape_core::Shapes;
use std::alloc::Global;
use std::process::Abort;

/// What an error tells beside its text.
#[derive(Clone, Copy, PartialEq)]
enum Told {
    /// Where the first of two equal keys stands.
    First(Span),
    /// Where the event behind the value stands.
    Trailing(Span),
}

fn part_of(error: &RecodeError<'_>) -> Option<Told> {
    match error {
        RecodeError::Deserialize(error) => part_of_kind(&error.kind),
        RecodeError::Trailing { kind: _, span } => Some(Told::Trailing(*span)),
        RecodeError::Serialize(_) | RecodeError::Alloc => None,
    }
}

fn part_of_kind(kind: &DeserializeErrorKind<'_>) -> Option<Told> {
    match kind {
        DeserializeErrorKind::DuplicateField {
            field: _,
            first_span: Some(span),
        } => Some(Told::First(*span)),
        _ => None,
    }
}

/// What the refusal of a tape tells. None where the root isn't there, or the tape is recoded.
fn refusal(alloc: Global, shapes: &Shapes, root: &str, tape: &str) -> Option<Told> {
    let root = shapes.find(root)?;
    let answer = recode(alloc, shapes, root, 512, 128, tape.as_bytes());
    let part = match &answer {
        Ok(_) => None,
        Err(error) => part_of(error),
    };
    drop(answer);
    part
}

/// The root, a tape, and what its refusal tells.
static REFUSED: [(&str, &str, Told); 3] = [
    (
        "Point",
        "{\nk \"x\"\nu 1\nk \"x\"\nu 2\n}\n",
        Told::First(Span { offset: 2, len: 5 }),
    ),
    (
        "u64",
        "{\nk \"_arg\"\nu 3\nk \"_arg\"\nu 4\n}\n",
        Told::First(Span { offset: 2, len: 8 }),
    ),
    (
        "u64",
        "u 1\nnull\n",
        Told::Trailing(Span { offset: 4, len: 4 }),
    ),
];

fn check_parts(rt: &impl Abort, alloc: Global, shapes: &Shapes) {
    for (at, (root, tape, part)) in REFUSED.iter().enumerate() {
        let found = refusal(alloc, shapes, root, tape);
        assert_row(rt, at, found == Some(*part));
    }
}

#[test]
fn errors_tell_their_parts(rt: HostRuntime) -> Result<(), ReadShapesError> {
    let text = b"shape Point struct\nfield x u64\nfield y u64\n";
    let shapes = read_shapes(rt.alloc(), text)?;
    check_parts(&rt, rt.alloc(), &shapes);
    drop(shapes);
    Ok(())
}
