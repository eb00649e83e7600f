use crate::tests::building::{FORMS, assert_row, registry};
use crate::tests::made::{Made, Plain, value_of};
use shape_core::{CheckFault, OutOfMemory, ScalarType, ShapeId, Shapes, Value};
use std::alloc::Global;
use std::process::Abort;

/// The shapes by their numbers, each with its default, where it has one.
static DEFAULTS: [(u32, Option<Made>); 27] = [
    (0, Some(Made::Plain(Plain::Unit))),
    (1, Some(Made::Plain(Plain::Bool(false)))),
    (2, Some(Made::Plain(Plain::Char('\0')))),
    (3, Some(Made::Plain(Plain::Unsigned(0)))),
    (4, Some(Made::Plain(Plain::Unsigned(0)))),
    (5, Some(Made::Plain(Plain::Unsigned(0)))),
    (6, Some(Made::Plain(Plain::Unsigned(0)))),
    (7, Some(Made::Plain(Plain::Unsigned(0)))),
    (8, Some(Made::Plain(Plain::Unsigned(0)))),
    (9, Some(Made::Plain(Plain::Signed(0)))),
    (10, Some(Made::Plain(Plain::Signed(0)))),
    (11, Some(Made::Plain(Plain::Signed(0)))),
    (12, Some(Made::Plain(Plain::Signed(0)))),
    (13, Some(Made::Plain(Plain::Signed(0)))),
    (14, Some(Made::Plain(Plain::Signed(0)))),
    (15, Some(Made::Plain(Plain::Text("")))),
    (16, Some(Made::Plain(Plain::Text("")))),
    (17, None),
    (18, None),
    (19, None),
    (20, Some(Made::Plain(Plain::None))),
    (21, None),
    (22, Some(Made::List(&[]))),
    (23, None),
    (24, None),
    (25, Some(Made::Plain(Plain::None))),
    (26, None),
];

fn default_of(
    rt: &impl Abort,
    alloc: Global,
    shapes: &Shapes<'_>,
    id: u32,
) -> Result<Option<Value<'static>>, OutOfMemory> {
    assert!(rt; shapes.has(ShapeId(id)));
    shapes.default_of(alloc, ShapeId(id))
}

fn is(found: &Option<Value<'static>>, want: &Value<'static>) -> bool {
    match found {
        Some(found) => found == want,
        None => false,
    }
}

fn is_made(alloc: Global, found: &Option<Value<'static>>, want: Made) -> Result<bool, OutOfMemory> {
    let want = value_of(alloc, want)?;
    let is_equal = is(found, &want);
    drop(want);
    Ok(is_equal)
}

/// The value is this one, or there is none.
fn is_wanted(
    alloc: Global,
    found: &Option<Value<'static>>,
    want: Option<Made>,
) -> Result<bool, OutOfMemory> {
    match want {
        Some(want) => is_made(alloc, found, want),
        None => Ok(found.is_none()),
    }
}

/// The default of the shape is this value, or it has none.
fn has_default(
    rt: &impl Abort,
    alloc: Global,
    shapes: &Shapes<'_>,
    id: u32,
    want: Option<Made>,
) -> Result<bool, OutOfMemory> {
    let found = default_of(rt, alloc, shapes, id)?;
    let has_it = is_wanted(alloc, &found, want);
    drop(found);
    has_it
}

fn check_defaults(rt: &impl Abort, alloc: Global, shapes: &Shapes<'_>) -> Result<(), OutOfMemory> {
    for (at, (id, want)) in DEFAULTS.iter().enumerate() {
        let has_it = has_default(rt, alloc, shapes, *id, *want)?;
        assert_row(rt, at, has_it);
    }
    Ok(())
}

#[test]
fn defaults_of_shapes(rt: HostRuntime) -> Result<(), CheckFault> {
    let shapes = registry(rt.alloc(), FORMS)?;
    let checked = check_defaults(&rt, rt.alloc(), &shapes);
    drop(shapes);
    Ok(checked?)
}

#[test]
fn the_default_of_a_scalar(rt: HostRuntime) -> Result<(), OutOfMemory> {
    let value: Value<'static> = ScalarType::Char.default_value(rt.alloc())?;
    let is_null = matches!(value, Value::Char('\0'));
    drop(value);
    assert_row(&rt, 0, is_null);
    Ok(())
}
