use crate::tests::{AFTER_KEY, full_key, lines, made, name_key};
use event_core::{FieldKey, FieldLocationHint};
use shape_types::{Items, Text};
use std::alloc::Global;
use std::process::Abort;

/// The text is this one, where there is one.
fn is_text(rt: &impl Abort, text: Option<&Text<'static>>, want: Option<&str>) {
    assert_eq!(rt; text.map(|text| text.as_str()), want);
}

/// The key has this name, this tag and this first line of documentation.
fn holds(
    rt: &impl Abort,
    key: FieldKey<'static>,
    name: Option<&str>,
    tag: Option<&str>,
    line: Option<&str>,
) {
    is_text(rt, key.name(), name);
    is_text(rt, key.tag(), tag);
    is_text(rt, key.doc().and_then(|lines| lines.first()), line);
    assert_eq!(rt; key.meta().is_some(), tag.is_some() || line.is_some());
    assert_eq!(rt; key.location(), FieldLocationHint::default());
    drop(key);
}

/// Two ways to make a key give the same one, or two.
fn compares(rt: &impl Abort, key: FieldKey<'static>, other: FieldKey<'static>, same: bool) {
    assert_eq!(rt; key == other, same);
    drop(key);
    drop(other);
}

const X: Text<'static> = Text::Borrowed("x");

const T: Text<'static> = Text::Borrowed("t");

/// A key with a name.
fn name_with(rt: &impl Abort, alloc: Global, at: usize) -> FieldKey<'static> {
    match at {
        0 => FieldKey::new(X, AFTER_KEY),
        1 => made(
            rt,
            FieldKey::with_doc(alloc, X, AFTER_KEY, lines(rt, alloc)),
        ),
        2 => made(rt, FieldKey::tagged_with_name(alloc, T, X, AFTER_KEY)),
        _ => full_key(rt, alloc),
    }
}

/// The name of a key, its tag, and its first line of documentation.
type Parts = (
    Option<&'static str>,
    Option<&'static str>,
    Option<&'static str>,
);

static NAMES: [Parts; 4] = [
    (Some("x"), None, None),
    (Some("x"), None, Some("one")),
    (Some("x"), Some("t"), None),
    (Some("a"), Some("t"), Some("one")),
];

#[test]
fn names_hold_what_they_are_made_with(rt: HostRuntime) {
    let alloc = rt.alloc();
    for (at, (name, tag, line)) in NAMES.iter().enumerate() {
        holds(&rt, name_with(&rt, alloc, at), *name, *tag, *line);
    }
}

/// A key with a tag, that of a unit last.
fn tag_with(rt: &impl Abort, alloc: Global, at: usize) -> FieldKey<'static> {
    match at {
        0 => made(rt, FieldKey::tagged(alloc, T, AFTER_KEY)),
        1 => made(
            rt,
            FieldKey::tagged_with_doc(alloc, T, AFTER_KEY, lines(rt, alloc)),
        ),
        2 => made(rt, FieldKey::unit(alloc, AFTER_KEY)),
        _ => made(
            rt,
            FieldKey::unit_with_doc(alloc, AFTER_KEY, lines(rt, alloc)),
        ),
    }
}

static TAGS: [Parts; 4] = [
    (None, Some("t"), None),
    (None, Some("t"), Some("one")),
    (None, Some(""), None),
    (None, Some(""), Some("one")),
];

#[test]
fn tags_hold_what_they_are_made_with(rt: HostRuntime) {
    let alloc = rt.alloc();
    for (at, (name, tag, line)) in TAGS.iter().enumerate() {
        holds(&rt, tag_with(&rt, alloc, at), *name, *tag, *line);
    }
}

fn empty_tag(rt: &impl Abort, alloc: Global) -> FieldKey<'static> {
    made(rt, FieldKey::tagged(alloc, Text::Borrowed(""), AFTER_KEY))
}

#[test]
fn a_unit_has_the_empty_tag(rt: HostRuntime) {
    let alloc = rt.alloc();
    let unit = tag_with(&rt, alloc, 2);
    compares(&rt, unit, empty_tag(&rt, alloc), true);
}

fn without_lines(rt: &impl Abort, alloc: Global) -> FieldKey<'static> {
    made(
        rt,
        FieldKey::with_doc(alloc, X, AFTER_KEY, Items::new(alloc)),
    )
}

#[test]
fn a_name_without_a_line_is_a_name_alone(rt: HostRuntime) {
    let plain = without_lines(&rt, rt.alloc());
    compares(&rt, plain, FieldKey::new(X, AFTER_KEY), true);
    compares(&rt, name_key(), FieldKey::new(X, AFTER_KEY), false);
}
