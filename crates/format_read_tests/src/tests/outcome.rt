//! What calls answer, in values that are cheap to compare.
ghost use Rattle.std.specs.Prelude.{◌≡◌, ◌<◌, length};
ghost use Rattle.shape_types.specs.Shapes.{registry};

use crate::tests::listed::Listed;
use crate::tests::told::is_told;
use event_core::{
    DeserializeError, DeserializeErrorKind, ParseEvent, ParseEventKind, Path, PathSegment,
    ReflectErrorKind, ScalarValue, Span,
};
use format_read::FormatDeserializer;
use shape_core::{ShapeId, Text, Value};

pub type Reader<'parser, 'de, 's, 'v> = FormatDeserializer<'parser, 'de, 's, 'v, Listed<'de>, 1>;

/// What a call is refused for.
#[derive(Debug, Clone, Copy, PartialEq, Eq)]
pub enum Cause {
    Memory,
    Io,
    UnexpectedEof,
    ParseFailed,
    /// The start of an array, where a sequence has to come.
    ArrayStart,
    Other,
}

/// The part of a value at which a call is refused.
#[derive(Debug, Clone, Copy, PartialEq, Eq)]
pub enum Part {
    None,
    /// The field `x`.
    X,
    Other,
}

/// Why a call is refused, and where.
#[derive(Debug, Clone, Copy, PartialEq, Eq)]
pub struct Refusal {
    pub cause: Cause,
    pub span: Option<Span>,
    pub part: Part,
}

/// What a call for a value or for an event answers.
#[derive(Debug, Clone, Copy, PartialEq, Eq)]
pub enum Outcome {
    /// The value of its shape that the events tell.
    Read,
    /// Another value.
    ReadOther,
    /// The event of a number.
    Number(u64, Span),
    /// Another event.
    OtherEvent,
    End,
    Refused(Refusal),
}

fn cause_of(kind: &DeserializeErrorKind<'_>) -> Cause {
    match kind {
        DeserializeErrorKind::Alloc { operation: _ } => Cause::Memory,
        DeserializeErrorKind::Io { message: _ } => Cause::Io,
        DeserializeErrorKind::UnexpectedEof { expected: _ } => Cause::UnexpectedEof,
        DeserializeErrorKind::Reflect {
            kind: ReflectErrorKind::ParseFailed { shape: _, text: _ },
            context: _,
        } => Cause::ParseFailed,
        DeserializeErrorKind::UnexpectedToken { got, expected } => unexpected(got, *expected),
        _ => Cause::Other,
    }
}

fn unexpected(got: &Text<'_>, expected: &str) -> Cause {
    if got.as_str() == "array" && expected == "array" {
        return Cause::ArrayStart;
    }
    Cause::Other
}

fn part_of(path: Option<&Path<'_>>) -> Part {
    match path {
        Some(path) => part_at(path.steps()),
        None => Part::None,
    }
}

fn part_at(steps: &[PathSegment<'_>]) -> Part {
    match steps {
        [step] if is_field(step, "x") => Part::X,
        _ => Part::Other,
    }
}

fn is_field(step: &PathSegment<'_>, wanted: &str) -> bool {
    match step {
        PathSegment::Field(name) => name.as_str() == wanted,
        _ => false,
    }
}

/// Why a call was refused.
fn refusal_of(error: &DeserializeError<'_>) -> Refusal {
    Refusal {
        cause: cause_of(&error.kind),
        span: error.span,
        part: part_of(error.path()),
    }
}

fn told_value(root: ShapeId, value: &Value<'_>) -> Outcome {
    if is_told(root, value) {
        return Outcome::Read;
    }
    Outcome::ReadOther
}

fn told_answer(root: ShapeId, answer: &Result<Value<'_>, DeserializeError<'_>>) -> Outcome {
    match answer {
        Ok(value) => told_value(root, value),
        Err(error) => Outcome::Refused(refusal_of(error)),
    }
}

/// Asks for the next value of a shape.
pub fn outcome_of(reader: &mut Reader<'_, '_, '_, '_>, root: ShapeId) -> Outcome
    requires { root.0 < length (registry reader.old.plans.now.shapes.now) }
    ensures same { registry reader.new.plans.now.shapes.now ≡ registry reader.old.plans.now.shapes.now }
{
    let answer = reader.deserialize_value(root);
    let outcome = told_answer(root, &answer);
    drop(answer);
    outcome
}

fn told_event(event: &ParseEvent<'_>) -> Outcome {
    match &event.kind {
        ParseEventKind::Scalar(ScalarValue::U64(number)) => Outcome::Number(*number, event.span),
        _ => Outcome::OtherEvent,
    }
}

fn told_next(answer: &Result<Option<ParseEvent<'_>>, DeserializeError<'_>>) -> Outcome {
    match answer {
        Ok(Some(event)) => told_event(event),
        Ok(None) => Outcome::End,
        Err(error) => Outcome::Refused(refusal_of(error)),
    }
}

/// Asks for the next event.
pub fn next_of(reader: &mut Reader<'_, '_, '_, '_>) -> Outcome {
    let answer = reader.finish_input();
    let outcome = told_next(&answer);
    drop(answer);
    outcome
}
