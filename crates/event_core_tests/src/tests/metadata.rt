use crate::tests::{PLACE, lines, told};
use event_core::{MetaSource, ValueMeta, ValueMetaBuilder};
use shape_types::{Items, Text};
use std::alloc::Global;
use std::process::Abort;

/// There are two lines, the tag `t` and a place.
fn is_told(told: &ValueMeta<'_>) -> bool {
    told.doc().map(|lines| lines.len()) == Some(2)
        && told.tag() == Some(&Text::Borrowed("t"))
        && told.span() == Some(PLACE)
}

/// Both lines, the tag `t` and a place, each where it is there.
fn maybe_told(rt: &impl Abort, alloc: Global) -> ValueMeta<'static> {
    ValueMeta::builder()
        .maybe_doc(Some(lines(rt, alloc)))
        .maybe_tag(Some(Text::Borrowed("t")))
        .span(PLACE)
        .build()
}

fn is_same(meta: ValueMeta<'static>, other: &ValueMeta<'static>) -> bool {
    let is_same = meta == *other;
    drop(meta);
    is_same
}

#[test]
fn metadata_are_set_part_by_part(rt: HostRuntime) {
    let told = told(&rt, rt.alloc());
    let is_told = is_told(&told);
    let is_same = is_same(maybe_told(&rt, rt.alloc()), &told);
    drop(told);
    assert!(rt; is_told);
    assert!(rt; is_same);
}

/// What was set is nothing, or something.
fn is_empty(rt: &impl Abort, meta: ValueMeta<'static>, empty: bool, at: usize) {
    let is_empty = meta.is_empty();
    drop(meta);
    assert_eq!(rt; is_empty, empty, "row {at}");
}

/// Nothing is set, in each way.
fn nothing(alloc: Global) -> ValueMeta<'static> {
    ValueMeta::builder()
        .doc(Items::new(alloc))
        .maybe_doc(Some(Items::new(alloc)))
        .maybe_doc(None)
        .maybe_tag(None)
        .build()
}

fn meta(alloc: Global, at: usize) -> ValueMeta<'static> {
    match at {
        0 => nothing(alloc),
        1 => ValueMeta::default(),
        2 => ValueMetaBuilder::default().build(),
        3 => ValueMeta::builder().span(PLACE).build(),
        _ => ValueMeta::builder().tag(Text::Borrowed("")).build(),
    }
}

static EMPTY: [bool; 5] = [true, true, true, false, false];

#[test]
fn nothing_set_is_empty(rt: HostRuntime) {
    for (at, empty) in EMPTY.iter().enumerate() {
        is_empty(&rt, meta(rt.alloc(), at), *empty, at);
    }
    let empty = ValueMeta::empty();
    let is_same = is_same(nothing(rt.alloc()), &empty);
    drop(empty);
    assert!(rt; is_same);
}

#[test]
fn metadata_come_from_a_source(rt: HostRuntime) {
    let given = MetaSource::from(ValueMeta::empty());
    let is_owned = matches!(&given, MetaSource::Owned(_));
    drop(given);
    let none = MetaSource::default();
    let is_none = matches!(&none, MetaSource::FromEvents);
    drop(none);
    assert!(rt; is_owned);
    assert!(rt; is_none);
}
