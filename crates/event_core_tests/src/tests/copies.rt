use crate::tests::{AFTER_KEY, PLACE, full_key, made, name, name_key, owned_bytes, path, told};
use event_core::{
    ContainerKind, FieldEvidence, FieldKey, ParseEvent, ParseEventKind, Path, PathSegment,
    ScalarValue, ValueTypeHint,
};
use shape_types::{OutOfMemory, Text};
use std::alloc::Global;
use std::process::Abort;

/// The copy came, and is the same.
fn same<T: PartialEq + Drop>(rt: &impl Abort, copy: Result<T, OutOfMemory>, value: T) {
    let copy = made(rt, copy);
    assert!(rt; copy == value);
}

fn path_is_copied(rt: &impl Abort, alloc: Global, path: Path<'static>) {
    same(rt, path.try_clone(alloc), path);
}

fn step_is_copied(rt: &impl Abort, alloc: Global, step: PathSegment<'static>) {
    same(rt, step.try_clone(alloc), step);
}

#[test]
fn paths_are_copied(rt: HostRuntime) {
    let alloc = rt.alloc();
    path_is_copied(&rt, alloc, path(&rt, alloc));
    let step = PathSegment::Variant(Text::Owned(name(&rt, alloc, "Ok")));
    step_is_copied(&rt, alloc, step);
}

#[test]
fn metadata_are_copied(rt: HostRuntime) {
    let told = told(&rt, rt.alloc());
    same(&rt, told.try_clone(rt.alloc()), told);
}

/// A key that is no name alone holds one that can be copied too.
fn full_part_is_copied(rt: &impl Abort, alloc: Global, key: &FieldKey<'static>) {
    if let FieldKey::Full(full) = key {
        let copy = made(rt, full.get().try_clone(alloc));
        assert!(rt; copy == *full.get());
        drop(copy);
    }
}

fn key_is_copied(rt: &impl Abort, alloc: Global, key: FieldKey<'static>) {
    full_part_is_copied(rt, alloc, &key);
    same(rt, key.try_clone(alloc), key);
}

#[test]
fn keys_are_copied(rt: HostRuntime) {
    key_is_copied(&rt, rt.alloc(), name_key());
    key_is_copied(&rt, rt.alloc(), full_key(&rt, rt.alloc()));
}

fn scalar_is_copied(rt: &impl Abort, alloc: Global, scalar: ScalarValue<'static>) {
    same(rt, scalar.try_clone(alloc), scalar);
}

fn scalar(rt: &impl Abort, alloc: Global, at: usize) -> ScalarValue<'static> {
    match at {
        0 => ScalarValue::Unit,
        1 => ScalarValue::Char('c'),
        2 => ScalarValue::I128(-6),
        3 => ScalarValue::Str(Text::Owned(name(rt, alloc, "own"))),
        _ => owned_bytes(rt, alloc),
    }
}

#[test]
fn scalars_are_copied(rt: HostRuntime) {
    for at in 0..5 {
        scalar_is_copied(&rt, rt.alloc(), scalar(&rt, rt.alloc(), at));
    }
}

fn event_is_copied(rt: &impl Abort, alloc: Global, kind: ParseEventKind<'static>) {
    let event = ParseEvent {
        kind,
        span: PLACE,
        meta: Some(told(rt, alloc)),
    };
    same(rt, event.try_clone(alloc), event);
}

fn kind(at: usize) -> ParseEventKind<'static> {
    match at {
        0 => ParseEventKind::StructStart(ContainerKind::Object),
        1 => ParseEventKind::FieldKey(name_key()),
        2 => ParseEventKind::Scalar(ScalarValue::Null),
        _ => ParseEventKind::VariantTag(Some("v")),
    }
}

#[test]
fn events_are_copied(rt: HostRuntime) {
    for at in 0..4 {
        event_is_copied(&rt, rt.alloc(), kind(at));
    }
}

fn evidence_is_copied(
    rt: &impl Abort,
    alloc: Global,
    seen: FieldEvidence<'static>,
    has_value: bool,
) {
    assert_eq!(rt; seen.scalar_value.is_some(), has_value);
    same(rt, seen.try_clone(alloc), seen);
}

fn plain_evidence() -> FieldEvidence<'static> {
    FieldEvidence::new(Text::Borrowed("a"), AFTER_KEY, None)
}

fn full_evidence() -> FieldEvidence<'static> {
    let kind = Some(ValueTypeHint::Number);
    let number = ScalarValue::U64(7);
    FieldEvidence::with_scalar_value(Text::Borrowed("a"), AFTER_KEY, kind, number)
}

#[test]
fn evidence_is_copied_with_its_value(rt: HostRuntime) {
    evidence_is_copied(&rt, rt.alloc(), plain_evidence(), false);
    evidence_is_copied(&rt, rt.alloc(), full_evidence(), true);
}
