use crate::tests::{PLACE, debugs, made, name_key, owned_bytes};
use event_core::{ContainerKind, ParseEvent, ParseEventKind, ScalarValue, ValueMetaBuilder};
use shape_types::{Name, Text};
use std::alloc::Global;
use std::process::Abort;

/// The text is this one, where there is one.
fn is_text(rt: &impl Abort, text: Option<Name>, want: Option<&str>) {
    assert_eq!(rt; text.as_ref().map(|text| text.as_str()), want);
    drop(text);
}

/// The scalar is of this kind, has this text, and is shown so.
fn told(
    rt: &impl Abort,
    alloc: Global,
    scalar: ScalarValue<'static>,
    kind: &str,
    text: Option<&str>,
    display: &str,
) {
    assert_eq!(rt; scalar.kind_name(), kind);
    is_text(rt, made(rt, scalar.to_string_value(alloc)), text);
    let shown = made(rt, scalar.to_display_string(alloc));
    is_text(rt, Some(shown), Some(display));
    drop(scalar);
}

fn scalar(rt: &impl Abort, alloc: Global, at: usize) -> ScalarValue<'static> {
    match at {
        0 => ScalarValue::Unit,
        1 => ScalarValue::Null,
        2 => ScalarValue::Bool(true),
        3 => ScalarValue::Char('é'),
        4 => ScalarValue::Str(Text::Borrowed("s")),
        5 => ScalarValue::I64(-5),
        6 => ScalarValue::U64(7),
        7 => ScalarValue::I128(-6),
        8 => ScalarValue::U128(8),
        _ => owned_bytes(rt, alloc),
    }
}

/// The kind of each scalar, its text, and what it is shown as.
static SCALARS: [(&str, Option<&str>, &str); 10] = [
    ("unit", Some(""), "unit"),
    ("null", Some("null"), "null"),
    ("bool", Some("true"), "bool(true)"),
    ("char", Some("é"), "char(é)"),
    ("string", Some("s"), "s"),
    ("i64", Some("-5"), "i64(-5)"),
    ("u64", Some("7"), "u64(7)"),
    ("i128", Some("-6"), "i128(-6)"),
    ("u128", Some("8"), "u128(8)"),
    ("bytes", None, "bytes"),
];

#[test]
fn scalars_are_told_as_texts(rt: HostRuntime) {
    let alloc = rt.alloc();
    for (at, (kind, text, display)) in SCALARS.iter().enumerate() {
        told(&rt, alloc, scalar(&rt, alloc, at), kind, *text, display);
    }
}

fn called(rt: &impl Abort, kind: ParseEventKind<'static>, word: &str) {
    assert_eq!(rt; kind.kind_name(), word);
    let event = ParseEvent::new(kind, PLACE);
    assert_eq!(rt; event.kind_name(), word);
    drop(event);
}

fn kind(at: usize) -> ParseEventKind<'static> {
    match at {
        0 => ParseEventKind::StructStart(ContainerKind::Object),
        1 => ParseEventKind::StructEnd,
        2 => ParseEventKind::FieldKey(name_key()),
        3 => ParseEventKind::OrderedField,
        4 => ParseEventKind::SequenceStart(ContainerKind::Array),
        5 => ParseEventKind::SequenceEnd,
        6 => ParseEventKind::Scalar(ScalarValue::U64(7)),
        _ => ParseEventKind::VariantTag(None),
    }
}

static KINDS: [&str; 8] = [
    "struct start",
    "struct end",
    "field key",
    "ordered field",
    "sequence start",
    "sequence end",
    "scalar",
    "variant tag",
];

#[test]
fn events_are_called_by_their_kind(rt: HostRuntime) {
    for (at, word) in KINDS.iter().enumerate() {
        called(&rt, kind(at), word);
    }
}

#[test]
fn containers_have_names(rt: HostRuntime) {
    assert_eq!(rt; ContainerKind::Object.name(), "object");
    assert_eq!(rt; ContainerKind::Array.name(), "array");
}

fn shown_event(at: usize) -> ParseEvent<'static> {
    match at {
        0 => ParseEvent::new(ParseEventKind::Scalar(ScalarValue::U64(7)), PLACE),
        _ => ParseEvent::new(ParseEventKind::VariantTag(Some("a")), PLACE),
    }
}

static DEBUG_FORMS: [&str; 2] = ["Scalar(U64(7))@[3..7)", "VariantTag(Some(\"a\"))@[3..7)"];

#[test]
fn events_have_a_debug_form(rt: HostRuntime) {
    for (at, want) in DEBUG_FORMS.iter().enumerate() {
        debugs(&rt, rt.alloc(), shown_event(at), want);
    }
}

/// Tells a tag.
fn with_tag<'de>(told: ValueMetaBuilder<'de>) -> ValueMetaBuilder<'de> {
    told.tag(Text::Borrowed("t"))
}

/// Tells nothing.
fn with_nothing<'de>(told: ValueMetaBuilder<'de>) -> ValueMetaBuilder<'de> {
    told
}

fn has_tag(event: &ParseEvent<'_>, tag: &str) -> bool {
    match &event.meta {
        Some(meta) => match meta.tag() {
            Some(text) => text.as_str() == tag,
            None => false,
        },
        None => false,
    }
}

#[test]
fn an_event_is_told_a_tag(rt: HostRuntime) {
    let event = ParseEvent::new(ParseEventKind::StructEnd, PLACE).with_meta(with_tag);
    let has_tag = has_tag(&event, "t");
    drop(event);
    assert!(rt; has_tag);
}

#[test]
fn an_event_that_is_told_nothing_has_no_metadata(rt: HostRuntime) {
    let event = ParseEvent::new(ParseEventKind::StructEnd, PLACE).with_meta(with_nothing);
    let is_bare = event.meta.is_none();
    drop(event);
    assert!(rt; is_bare);
}
