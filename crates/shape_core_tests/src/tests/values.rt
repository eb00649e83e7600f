use crate::tests::building::{FORMS, assert_row, registry};
use crate::tests::made::{Made, Plain, plain_value, value_of};
use shape_core::{CheckFault, OutOfMemory, ShapeId, Shapes, Value};
use std::alloc::Global;
use std::process::Abort;

/// Whether the value is of the shape of this number, which has to be there.
fn types(rt: &impl Abort, shapes: &Shapes<'_>, id: u32, value: &Value<'_>) -> bool {
    assert!(rt; shapes.has(ShapeId(id)));
    shapes.types(ShapeId(id), value)
}

fn types_made(
    rt: &impl Abort,
    alloc: Global,
    shapes: &Shapes<'_>,
    id: u32,
    value: Made,
) -> Result<bool, OutOfMemory> {
    let value = value_of(alloc, value)?;
    let is_typed = types(rt, shapes, id, &value);
    drop(value);
    Ok(is_typed)
}

const ONE: Plain = Plain::Unsigned(1);

const A: Plain = Plain::Text("a");

/// Values, and whether they are of the shape of this number.
static VALUES: [(u32, Made, bool); 44] = [
    (0, Made::Plain(Plain::Unit), true),
    (0, Made::Plain(Plain::Bool(false)), false),
    (1, Made::Plain(Plain::Bool(true)), true),
    (1, Made::Plain(Plain::Unit), false),
    (2, Made::Plain(Plain::Char('a')), true),
    (2, Made::Plain(Plain::Unsigned(97)), false),
    (9, Made::Plain(ONE), false),
    (6, Made::Plain(Plain::Signed(1)), false),
    (15, Made::Plain(A), true),
    (16, Made::Plain(A), true),
    (15, Made::Plain(Plain::Char('a')), false),
    (6, Made::Plain(A), false),
    // Structs of two fields, of none, and of a number and a truth value.
    (17, Made::Struct(&[ONE]), false),
    (17, Made::Struct(&[ONE, ONE]), true),
    (17, Made::Struct(&[ONE, ONE, ONE]), false),
    (18, Made::Struct(&[]), true),
    (18, Made::Struct(&[ONE]), false),
    (18, Made::Plain(Plain::Unit), false),
    (19, Made::Struct(&[ONE, ONE]), false),
    (19, Made::Struct(&[ONE, Plain::Bool(true)]), true),
    // Options.
    (20, Made::Plain(Plain::None), true),
    (25, Made::Plain(Plain::None), true),
    (20, Made::Plain(ONE), false),
    (20, Made::Some(ONE), true),
    (20, Made::Some(Plain::Unit), false),
    // Results.
    (21, Made::Ok(ONE), true),
    (21, Made::Ok(A), false),
    (21, Made::Err(A), true),
    (21, Made::Err(ONE), false),
    // Lists, arrays of two items, and arrays of none.
    (22, Made::List(&[]), true),
    (22, Made::List(&[ONE, ONE, ONE]), true),
    (22, Made::Struct(&[ONE]), false),
    (22, Made::List(&[Plain::Unit]), false),
    (23, Made::List(&[ONE]), false),
    (23, Made::List(&[ONE, ONE]), true),
    (23, Made::List(&[ONE, ONE, ONE]), false),
    (24, Made::List(&[ONE, ONE]), true),
    (24, Made::List(&[ONE, ONE, ONE]), false),
    (26, Made::List(&[]), true),
    (26, Made::List(&[ONE]), false),
    // The widest numbers.
    (7, Made::Plain(Plain::Unsigned(u128::MAX)), true),
    (13, Made::Plain(Plain::Signed(i128::MAX)), true),
    (13, Made::Plain(Plain::Signed(i128::MIN)), true),
    (13, Made::Plain(Plain::Unsigned(0)), false),
];

fn check_values(rt: &impl Abort, alloc: Global, shapes: &Shapes<'_>) -> Result<(), OutOfMemory> {
    for (at, (id, value, want)) in VALUES.iter().enumerate() {
        let is_typed = types_made(rt, alloc, shapes, *id, *value)?;
        assert_row(rt, at, is_typed == *want);
    }
    Ok(())
}

#[test]
fn values_of_their_shapes(rt: HostRuntime) -> Result<(), CheckFault> {
    let shapes = registry(rt.alloc(), FORMS)?;
    let checked = check_values(&rt, rt.alloc(), &shapes);
    drop(shapes);
    Ok(checked?)
}

/// The greatest number of each whole number type without a sign, up to 64 bits.
static UNSIGNED: [(u32, u64); 5] = [
    (3, 0xff),
    (4, 0xffff),
    (5, 0xffff_ffff),
    (6, 0xffff_ffff_ffff_ffff),
    (8, 0xffff_ffff_ffff_ffff),
];

/// The greatest number of each whole number type with a sign, up to 64 bits.
static SIGNED: [(u32, i64); 5] = [
    (9, 0x7f),
    (10, 0x7fff),
    (11, 0x7fff_ffff),
    (12, 0x7fff_ffff_ffff_ffff),
    (14, 0x7fff_ffff_ffff_ffff),
];

fn types_plain(rt: &impl Abort, shapes: &Shapes<'_>, id: u32, value: Plain) -> bool {
    let value = plain_value(value);
    let is_typed = types(rt, shapes, id, &value);
    drop(value);
    is_typed
}

/// The type ends with this number.
fn ends_unsigned(rt: &impl Abort, shapes: &Shapes<'_>, id: u32, most: u64) -> bool {
    let most = u128::from(most);
    types_plain(rt, shapes, id, Plain::Unsigned(most))
        && !types_plain(rt, shapes, id, Plain::Unsigned(most + 1))
}

/// The type ends with this number, and begins with the one below its opposite.
fn ends_signed(rt: &impl Abort, shapes: &Shapes<'_>, id: u32, most: i64) -> bool {
    let most = i128::from(most);
    types_plain(rt, shapes, id, Plain::Signed(most))
        && !types_plain(rt, shapes, id, Plain::Signed(most + 1))
        && types_plain(rt, shapes, id, Plain::Signed(-most - 1))
        && !types_plain(rt, shapes, id, Plain::Signed(-most - 2))
}

fn check_ranges(rt: &impl Abort, shapes: &Shapes<'_>) {
    for (at, (id, most)) in UNSIGNED.iter().enumerate() {
        assert_row(rt, at, ends_unsigned(rt, shapes, *id, *most));
    }
    for (at, (id, most)) in SIGNED.iter().enumerate() {
        assert_row(rt, at, ends_signed(rt, shapes, *id, *most));
    }
}

#[test]
fn numbers_in_range(rt: HostRuntime) -> Result<(), CheckFault> {
    let shapes = registry(rt.alloc(), FORMS)?;
    check_ranges(&rt, &shapes);
    drop(shapes);
    Ok(())
}
