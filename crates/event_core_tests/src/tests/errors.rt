//! What errors print, and where they stand.
use crate::tests::{PLACE, debugs, name, path, point, shows};
use event_core::{
    DeserializeError, DeserializeErrorKind, ParseError, Path, ReflectError, ReflectErrorKind,
    SerializeError, Span,
};
use shape_types::Text;
use std::alloc::Global;
use std::process::Abort;

#[test]
fn places_and_paths_print(rt: HostRuntime) {
    let alloc = rt.alloc();
    shows(&rt, alloc, PLACE, "[3..7)");
    shows(&rt, alloc, Span::default(), "[0..0)");
    shows(&rt, alloc, Path::new(alloc), "<root>");
    shows(&rt, alloc, path(&rt, alloc), ".a[3]::Ok");
}

/// A refusal at the value itself.
fn refusal(alloc: Global, kind: ReflectErrorKind<'static>) -> ReflectError<'static> {
    ReflectError {
        path: Path::new(alloc),
        kind,
    }
}

/// A fault of the input, one level too deep.
fn early() -> ParseError<'static> {
    ParseError::new(PLACE, DeserializeErrorKind::TooDeep { limit: 1 })
}

/// A form that isn't supported, at a part of the value.
fn unsupported(rt: &impl Abort, alloc: Global) -> DeserializeError<'static> {
    let sets = DeserializeErrorKind::Unsupported {
        message: Text::Borrowed("sets"),
    };
    sets.with_span(PLACE).with_path(path(rt, alloc))
}

#[test]
fn errors_of_reading_print(rt: HostRuntime) {
    let alloc = rt.alloc();
    shows(&rt, alloc, early(), "nesting deeper than 1 at [3..7)");
    let error = unsupported(&rt, alloc);
    shows(&rt, alloc, error, "unsupported: sets at .a[3]::Ok");
    let error = refusal(alloc, ReflectErrorKind::Alloc);
    shows(&rt, alloc, error, "out of memory at <root>");
}

fn error_of_writing(at: usize) -> SerializeError<u8> {
    match at {
        0 => SerializeError::Backend(1),
        _ => SerializeError::Unsupported(Text::Borrowed("no text form")),
    }
}

static OF_WRITING: [&str; 2] = ["format serializer error", "no text form"];

#[test]
fn errors_of_writing_print(rt: HostRuntime) {
    for (at, want) in OF_WRITING.iter().enumerate() {
        shows(&rt, rt.alloc(), error_of_writing(at), want);
    }
}

/// The input ended at a place.
fn ended() -> DeserializeError<'static> {
    let place = Span { offset: 3, len: 2 };
    DeserializeErrorKind::UnexpectedEof { expected: "value" }.with_span(place)
}

/// Memory ran out at a part of the value.
fn refused(rt: &impl Abort, alloc: Global) -> DeserializeError<'static> {
    DeserializeError {
        span: None,
        path: Some(path(rt, alloc)),
        kind: DeserializeErrorKind::Alloc { operation: "value" },
    }
}

#[test]
fn errors_have_a_debug_form(rt: HostRuntime) {
    debugs(
        &rt,
        rt.alloc(),
        ended(),
        "DeserializeError { span: [3..5), path: none, kind: unexpected end of input, expected value }",
    );
    debugs(
        &rt,
        rt.alloc(),
        refused(&rt, rt.alloc()),
        "DeserializeError { span: none, path: .a[3]::Ok, kind: allocation failed: value }",
    );
}

/// The error stands at this place.
fn stands_at(rt: &impl Abort, error: &DeserializeError<'static>, place: &Span) {
    assert_eq!(rt; error.span(), Some(place));
}

/// The error stands at this part of the value, or at none.
fn is_of(rt: &impl Abort, error: &DeserializeError<'static>, path: Option<Path<'static>>) {
    assert!(rt; error.path() == path.as_ref());
    drop(path);
}

/// An error at a place.
fn placed() -> DeserializeError<'static> {
    let kind = DeserializeErrorKind::TooDeep { limit: 128 };
    DeserializeError::from(ParseError::new(PLACE, kind))
}

/// The error, moved to the start of the input and to a part of the value.
fn moved(rt: &impl Abort, alloc: Global) -> DeserializeError<'static> {
    placed().set_span(Span::default()).set_path(path(rt, alloc))
}

/// The error stands at this place and part.
fn stands(
    rt: &impl Abort,
    error: DeserializeError<'static>,
    place: &Span,
    path: Option<Path<'static>>,
) {
    stands_at(rt, &error, place);
    is_of(rt, &error, path);
    drop(error);
}

#[test]
fn errors_are_looked_at(rt: HostRuntime) {
    let alloc = rt.alloc();
    stands(&rt, placed(), &PLACE, None);
    let start = Span { offset: 0, len: 0 };
    stands(&rt, moved(&rt, alloc), &start, Some(path(&rt, alloc)));
}

/// A refusal at a place becomes an error there that prints so.
fn becomes(rt: &impl Abort, alloc: Global, kind: ReflectErrorKind<'static>, want: &str) {
    let error = DeserializeError::from_reflect(refusal(alloc, kind), PLACE);
    stands_at(rt, &error, &PLACE);
    shows(rt, alloc, error, want);
}

fn refusal_kind(rt: &impl Abort, alloc: Global, at: usize) -> ReflectErrorKind<'static> {
    match at {
        0 => ReflectErrorKind::UninitializedField {
            shape: point(rt, alloc),
            field: name(rt, alloc, "y"),
        },
        _ => ReflectErrorKind::KeyForm {
            shape: point(rt, alloc),
        },
    }
}

static REFUSALS: [&str; 2] = [
    "missing field `y` in type `Point` at <root>",
    "Point can't be a map key at <root>",
];

#[test]
fn refusals_become_errors(rt: HostRuntime) {
    for (at, want) in REFUSALS.iter().enumerate() {
        becomes(&rt, rt.alloc(), refusal_kind(&rt, rt.alloc(), at), want);
    }
}

/// The error is want of memory, and stands nowhere.
fn is_bare_memory(error: &DeserializeError<'_>) -> bool {
    matches!(&error.kind, DeserializeErrorKind::Alloc { .. })
        && error.span().is_none()
        && error.path().is_none()
}

#[test]
fn want_of_memory_stands_nowhere(rt: HostRuntime) {
    let refused = refusal(rt.alloc(), ReflectErrorKind::Alloc);
    let error = DeserializeError::from_reflect(refused, PLACE);
    let is_bare = is_bare_memory(&error);
    drop(error);
    assert!(rt; is_bare);
}
