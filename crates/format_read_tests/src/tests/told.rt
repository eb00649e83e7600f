//! Events, told in a short form, and values.
use crate::tests::registry::{NUMBERS, POINT, U64};
use event_core::{
    ContainerKind, FieldKey, FieldLocationHint, ParseEvent, ParseEventKind, ScalarValue, Span,
};
use shape_core::{OutOfMemory, ShapeId, Text, Value};
use std::alloc::Global;
use std::collections::VecDeque;

/// An event.
#[derive(Clone, Copy)]
pub enum Word {
    Open,
    /// The start of an object that says it is an array.
    OpenArray,
    Close,
    Begin,
    End,
    Key(&'static str),
    Number(u64),
    Text(&'static str),
}

/// The events of a point, whose fields stand in the other order, and of a number behind it.
pub const POINT_EVENTS: [Word; 7] = [
    Word::Open,
    Word::Key("y"),
    Word::Number(2),
    Word::Key("x"),
    Word::Number(1),
    Word::Close,
    Word::Number(9),
];

/// The events of a list of two points.
pub const POINTS_EVENTS: [Word; 14] = [
    Word::Begin,
    Word::Open,
    Word::Key("x"),
    Word::Number(1),
    Word::Key("y"),
    Word::Number(2),
    Word::Close,
    Word::Open,
    Word::Key("y"),
    Word::Number(4),
    Word::Key("x"),
    Word::Number(3),
    Word::Close,
    Word::End,
];

/// The events of a list of six numbers, which are 8, and of six numbers behind it.
pub const NUMBERS_EVENTS: [Word; 14] = [
    Word::Begin,
    Word::Number(1),
    Word::Number(2),
    Word::Number(3),
    Word::Number(4),
    Word::Number(5),
    Word::Number(6),
    Word::End,
    Word::Number(7),
    Word::Number(8),
    Word::Number(9),
    Word::Number(10),
    Word::Number(11),
    Word::Number(12),
];

/// The events of five numbers.
pub const SINGLE_EVENTS: [Word; 5] = [
    Word::Number(1),
    Word::Number(2),
    Word::Number(3),
    Word::Number(4),
    Word::Number(5),
];

/// The events of a point up to a text in place of its field `x`.
pub const TEXT_EVENTS: [Word; 3] = [Word::Open, Word::Key("x"), Word::Text("q")];

/// The events of an object that says it is an array.
pub const ARRAY_EVENTS: [Word; 2] = [Word::OpenArray, Word::Close];

fn kind_of<'de>(word: Word) -> ParseEventKind<'de> {
    match word {
        Word::Open => ParseEventKind::StructStart(ContainerKind::Object),
        Word::OpenArray => ParseEventKind::StructStart(ContainerKind::Array),
        Word::Close => ParseEventKind::StructEnd,
        Word::Begin => ParseEventKind::SequenceStart(ContainerKind::Array),
        Word::End => ParseEventKind::SequenceEnd,
        Word::Key(name) => ParseEventKind::FieldKey(FieldKey::new(
            Text::Borrowed(name),
            FieldLocationHint::KeyValue,
        )),
        Word::Number(number) => ParseEventKind::Scalar(ScalarValue::U64(number)),
        Word::Text(text) => ParseEventKind::Scalar(ScalarValue::Str(Text::Borrowed(text))),
    }
}

/// Where the event of a place stands: each has a span of its own.
pub fn span_at(place: usize) -> Span {
    Span {
        offset: place.saturating_mul(2),
        len: 1,
    }
}

fn event_at<'de>(place: usize, word: Word) -> ParseEvent<'de> {
    ParseEvent::new(kind_of(word), span_at(place))
}

fn push_all<'de>(
    events: &mut VecDeque<ParseEvent<'de>>,
    words: &[Word],
    count: usize,
) -> Result<(), OutOfMemory> {
    for (place, word) in words.iter().enumerate() {
        if place < count {
            events.push_back(event_at(place, *word))?;
        }
    }
    Ok(())
}

/// The first of these events.
pub fn events<'de>(
    alloc: Global,
    words: &[Word],
    count: usize,
) -> Result<VecDeque<ParseEvent<'de>>, OutOfMemory> {
    let mut events = VecDeque::new(alloc);
    match push_all(&mut events, words, count) {
        Ok(()) => Ok(events),
        Err(refused) => {
            drop(events);
            Err(refused)
        }
    }
}

fn is_number(value: &Value<'_>, want: u128) -> bool {
    match value {
        Value::Unsigned(number) => *number == want,
        _ => false,
    }
}

fn are_numbers(values: &[Value<'_>], want: &[u128]) -> bool {
    if values.len() != want.len() {
        return false;
    }
    for (value, number) in values.iter().zip(want) {
        if !is_number(value, *number) {
            return false;
        }
    }
    true
}

fn is_point(value: &Value<'_>, x: u128, y: u128) -> bool {
    match value {
        Value::Struct(fields) => are_numbers(fields.as_slice(), &[x, y]),
        _ => false,
    }
}

fn are_points(values: &[Value<'_>]) -> bool {
    match values {
        [first, second] => is_point(first, 1, 2) && is_point(second, 3, 4),
        _ => false,
    }
}

fn is_list_of_points(value: &Value<'_>) -> bool {
    match value {
        Value::List(items) => are_points(items.as_slice()),
        _ => false,
    }
}

fn is_list_of_numbers(value: &Value<'_>) -> bool {
    match value {
        Value::List(items) => are_numbers(items.as_slice(), &[1, 2, 3, 4, 5, 6]),
        _ => false,
    }
}

/// This is the value of the shape that the events tell.
pub fn is_told(root: ShapeId, value: &Value<'_>) -> bool {
    if root == U64 {
        return is_number(value, 1);
    }
    if root == POINT {
        return is_point(value, 1, 2);
    }
    if root == NUMBERS {
        return is_list_of_numbers(value);
    }
    is_list_of_points(value)
}
