mod copies;
mod errors;
mod events;
mod faults;
mod keys;
mod metadata;
mod queue;

use event_core::{
    Docs, FieldKey, FieldLocationHint, Path, PathSegment, ScalarValue, Span, ValueMeta,
};
use shape_types::{Bytes, Items, Name, OutOfMemory, ShapeId, ShapeName, Text};
use std::alloc::Global;
use std::fmt::{Debug, Display};
use std::process::Abort;

const PLACE: Span = Span { offset: 3, len: 4 };

const AFTER_KEY: FieldLocationHint = FieldLocationHint::KeyValue;

/// What was made, where there was memory for it.
fn made<T: Drop>(rt: &impl Abort, made: Result<T, OutOfMemory>) -> T {
    made.expect(rt, "memory")
}

/// A text that is printed is this one.
fn shows(rt: &impl Abort, alloc: Global, shown: impl Display + Drop, want: &str) {
    let text = shown.to_string(alloc).expect(rt, "memory");
    assert_eq!(rt; text.as_str(), want);
}

/// A debug form is this one.
fn debugs(rt: &impl Abort, alloc: Global, shown: impl Debug + Drop, want: &str) {
    let text = format!(in alloc; "{shown:?}").expect(rt, "memory");
    assert_eq!(rt; text.as_str(), want);
}

/// The text, in memory of its own.
fn name(rt: &impl Abort, alloc: Global, text: &str) -> Name {
    made(rt, Name::copy(alloc, text))
}

/// The shape number 17, `Point`.
fn point(rt: &impl Abort, alloc: Global) -> ShapeName {
    ShapeName {
        id: ShapeId(17),
        name: name(rt, alloc, "Point"),
    }
}

/// The path `.a[3]::Ok`.
fn path(rt: &impl Abort, alloc: Global) -> Path<'static> {
    let mut path = Path::new(alloc);
    made(rt, path.push(PathSegment::Field(Text::Borrowed("a"))));
    made(rt, path.push(PathSegment::Index(3)));
    made(rt, path.push(PathSegment::Variant(Text::Borrowed("Ok"))));
    path
}

/// Two lines of documentation, the second of which is owned.
fn lines(rt: &impl Abort, alloc: Global) -> Docs<'static> {
    let mut lines = Items::new(alloc);
    made(rt, lines.push(Text::Borrowed("one")));
    made(rt, lines.push(Text::Owned(name(rt, alloc, "two"))));
    lines
}

/// Both lines, the tag `t` and a place.
fn told(rt: &impl Abort, alloc: Global) -> ValueMeta<'static> {
    let tag = Text::Owned(name(rt, alloc, "t"));
    ValueMeta::builder()
        .doc(lines(rt, alloc))
        .tag(tag)
        .span(PLACE)
        .build()
}

/// The name `a` alone.
fn name_key() -> FieldKey<'static> {
    FieldKey::new(Text::Borrowed("a"), AFTER_KEY)
}

/// The name `a` with the tag `t` and both lines.
fn full_key(rt: &impl Abort, alloc: Global) -> FieldKey<'static> {
    let lines = lines(rt, alloc);
    let tag = Text::Borrowed("t");
    let name = Text::Borrowed("a");
    made(
        rt,
        FieldKey::tagged_with_name_and_doc(alloc, tag, name, AFTER_KEY, lines),
    )
}

/// The bytes 1 and 255, owned.
fn owned_bytes(rt: &impl Abort, alloc: Global) -> ScalarValue<'static> {
    let items = made(rt, Items::from_slice(alloc, &[1u8, 255]));
    ScalarValue::Bytes(Bytes::Owned(items))
}
