//! What each kind of fault prints.
use crate::tests::{PLACE, name, point, shows};
use event_core::{DeserializeErrorKind, ReflectErrorKind};
use shape_types::Text;
use std::alloc::Global;
use std::process::Abort;

/// A fault of a text or of an event.
fn fault_of_input(at: usize) -> DeserializeErrorKind<'static> {
    match at {
        0 => DeserializeErrorKind::UnexpectedChar {
            ch: 'x',
            expected: "digit",
        },
        1 => DeserializeErrorKind::UnexpectedEof { expected: "value" },
        2 => DeserializeErrorKind::InvalidUtf8 {
            context: [255, 10, 0, 0, 0, 0, 0, 0, 0, 0, 0, 0, 0, 0, 0, 0],
            context_len: 2,
        },
        3 => DeserializeErrorKind::InvalidUtf8 {
            context: [7; 16],
            context_len: 0,
        },
        4 => DeserializeErrorKind::UnexpectedToken {
            got: Text::Borrowed("object"),
            expected: "array",
        },
        5 => DeserializeErrorKind::NumberOutOfRange {
            value: Text::Borrowed("300"),
            target_type: "u8",
        },
        6 => DeserializeErrorKind::InvalidValue {
            message: Text::Borrowed("bad bool"),
        },
        _ => DeserializeErrorKind::CannotBorrow {
            reason: Text::Borrowed("text is not borrowed from the input"),
        },
    }
}

static OF_INPUT: [&str; 8] = [
    "unexpected character 'x', expected digit",
    "unexpected end of input, expected value",
    "invalid UTF-8 near: [255, 10]",
    "invalid UTF-8",
    "unexpected token: got object, expected array",
    "number `300` out of range for u8",
    "invalid value: bad bool",
    "text is not borrowed from the input",
];

#[test]
fn faults_of_texts_and_events_print(rt: HostRuntime) {
    for (at, want) in OF_INPUT.iter().enumerate() {
        shows(&rt, rt.alloc(), fault_of_input(at), want);
    }
}

/// A fault of a limit.
fn fault_of_limit(at: usize) -> DeserializeErrorKind<'static> {
    match at {
        0 => DeserializeErrorKind::Alloc {
            operation: "buffer of events",
        },
        _ => DeserializeErrorKind::TooDeep { limit: 128 },
    }
}

static OF_LIMITS: [&str; 2] = [
    "allocation failed: buffer of events",
    "nesting deeper than 128",
];

#[test]
fn faults_of_limits_print(rt: HostRuntime) {
    for (at, want) in OF_LIMITS.iter().enumerate() {
        shows(&rt, rt.alloc(), fault_of_limit(at), want);
    }
}

/// A fault of a field or of a shape.
fn fault_of_field(rt: &impl Abort, alloc: Global, at: usize) -> DeserializeErrorKind<'static> {
    match at {
        0 => DeserializeErrorKind::UnknownField {
            field: Text::Borrowed("z"),
            suggestion: None,
        },
        1 => DeserializeErrorKind::UnknownField {
            field: Text::Borrowed("xs"),
            suggestion: Some(name(rt, alloc, "x")),
        },
        2 => DeserializeErrorKind::DuplicateField {
            field: Text::Borrowed("x"),
            first_span: Some(PLACE),
        },
        3 => DeserializeErrorKind::MissingField {
            field: name(rt, alloc, "y"),
            container_shape: point(rt, alloc),
        },
        _ => DeserializeErrorKind::Reflect {
            kind: ReflectErrorKind::NoDefault {
                shape: point(rt, alloc),
            },
            context: "filling",
        },
    }
}

static OF_FIELDS: [&str; 5] = [
    "unknown field `z`",
    "unknown field `xs` (did you mean `x`?)",
    "duplicate field `x`",
    "missing field `y` in type `Point`",
    "Point has no default (while filling)",
];

#[test]
fn faults_of_fields_and_shapes_print(rt: HostRuntime) {
    for (at, want) in OF_FIELDS.iter().enumerate() {
        shows(&rt, rt.alloc(), fault_of_field(&rt, rt.alloc(), at), want);
    }
}
