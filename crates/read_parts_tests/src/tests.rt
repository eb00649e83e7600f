mod numbers;
mod read;
mod simple;

use event_core::ScalarValue;
use read_parts::scalar_value;
use shape_core::{Bytes, Name, ScalarType, ShapeId, Shapes, ShapesBuilder, Text};
use std::alloc::Global;
use std::fmt::{Debug, Display};
use std::process::Abort;

/// What is answered, as it is printed.
#[derive(Clone, Copy)]
enum Want {
    /// The debug form of the value.
    Is(&'static str),
    /// A number that is out of range.
    OutOfRange(&'static str),
    /// A text that is none of the type's values.
    Unread(&'static str),
    /// A text that isn't borrowed.
    Unlent,
}

/// The answers of the types from one to another; every type that stands in none takes no such event.
type Answers = (usize, usize, Want);

fn registry(rt: &impl Abort, alloc: Global) -> Shapes<'static> {
    let builder = ShapesBuilder::new(alloc).expect(rt, "memory");
    builder.check(alloc).expect(rt, "a registry")
}

/// The value's debug form, or what the error prints.
fn printed<V: Debug + Drop, E: Display + Drop>(
    rt: &impl Abort,
    alloc: Global,
    answer: Result<V, E>,
) -> String {
    match answer {
        Ok(value) => format!(in alloc; "{value:?}").expect(rt, "memory"),
        Err(error) => format!(in alloc; "{error}").expect(rt, "memory"),
    }
}

/// The number of the type's shape.
fn shape_of(rt: &impl Abort, shapes: &Shapes<'static>, target: ScalarType) -> ShapeId {
    shapes.find(target.name()).expect(rt, "a shape")
}

/// What the type answers to the event.
fn answer(
    rt: &impl Abort,
    alloc: Global,
    shapes: &Shapes<'static>,
    target: ScalarType,
    scalar: ScalarValue<'static>,
    borrow: bool,
) -> String {
    let shape = shape_of(rt, shapes, target);
    assert!(rt; shapes.has(shape) && shapes.scalar_at(shape).is_some());
    printed(
        rt,
        alloc,
        scalar_value(alloc, shapes, shape, scalar, borrow),
    )
}

/// What is printed where this is wanted.
fn wanted(rt: &impl Abort, alloc: Global, want: Option<Want>, name: &str, event: &str) -> String {
    let text = match want {
        Some(Want::Is(text)) => format!(in alloc; "{text}"),
        Some(Want::OutOfRange(number)) => {
            format!(in alloc; "number `{number}` out of range for {name}")
        }
        Some(Want::Unread(text)) => format!(in alloc; "failed to parse `{text}` as {name}"),
        Some(Want::Unlent) => format!(in alloc; "text is not borrowed from the input"),
        None => format!(in alloc; "wrong kind: got {event}, expected {name}"),
    };
    text.expect(rt, "memory")
}

/// What the row says of the type of this number.
fn want_at(row: &[Answers], at: usize) -> Option<Want> {
    for (first, last, want) in row.iter() {
        if *first <= at && at <= *last {
            return Some(*want);
        }
    }
    None
}

/// The scalar of an event.
#[derive(Clone, Copy)]
enum Scalar {
    Null,
    Unit,
    Bool(bool),
    Char(char),
    Bytes(&'static [u8]),
    U64(u64),
    I64(i64),
    U128(u128),
    I128(i128),
    /// A text that is borrowed.
    Lent(&'static str),
    /// A text in memory of its own.
    Own(&'static str),
}

/// The text, in memory of its own.
fn own(rt: &impl Abort, alloc: Global, text: &str) -> ScalarValue<'static> {
    let name = Name::copy(alloc, text).expect(rt, "memory");
    ScalarValue::Str(Text::Owned(name))
}

fn scalar_of(rt: &impl Abort, alloc: Global, scalar: Scalar) -> ScalarValue<'static> {
    match scalar {
        Scalar::Null => ScalarValue::Null,
        Scalar::Unit => ScalarValue::Unit,
        Scalar::Bool(told) => ScalarValue::Bool(told),
        Scalar::Char(letter) => ScalarValue::Char(letter),
        Scalar::Bytes(bytes) => ScalarValue::Bytes(Bytes::Borrowed(bytes)),
        Scalar::U64(number) => ScalarValue::U64(number),
        Scalar::I64(number) => ScalarValue::I64(number),
        Scalar::U128(number) => ScalarValue::U128(number),
        Scalar::I128(number) => ScalarValue::I128(number),
        Scalar::Lent(text) => ScalarValue::Str(Text::Borrowed(text)),
        Scalar::Own(text) => own(rt, alloc, text),
    }
}

/// An event, whether borrowed texts stay so, and what that gives over all types.
type Row = (Scalar, bool, &'static [Answers]);

/// Both texts are the same.
fn assert_text(rt: &impl Abort, found: String, want: String) {
    assert_eq!(rt; found.as_str(), want.as_str());
    drop(found);
    drop(want);
}

/// The event gives this to the type.
fn gives_type(
    rt: &impl Abort,
    alloc: Global,
    shapes: &Shapes<'static>,
    target: ScalarType,
    row: &Row,
    want: Option<Want>,
) {
    let (scalar, borrow, _) = *row;
    let scalar = scalar_of(rt, alloc, scalar);
    let want = wanted(rt, alloc, want, target.name(), scalar.kind_name());
    let found = answer(rt, alloc, shapes, target, scalar, borrow);
    assert_text(rt, found, want);
}

/// The event gives this row over all types.
fn gives(rt: &impl Abort, alloc: Global, shapes: &Shapes<'static>, row: &Row) {
    let (_, _, answers) = *row;
    for (at, target) in ScalarType::ALL.iter().enumerate() {
        gives_type(rt, alloc, shapes, *target, row, want_at(answers, at));
    }
}

/// Each event gives its row.
fn give(rt: &impl Abort, alloc: Global, rows: &[Row]) {
    let shapes = registry(rt, alloc);
    for row in rows.iter() {
        gives(rt, alloc, &shapes, row);
    }
    drop(shapes);
}
