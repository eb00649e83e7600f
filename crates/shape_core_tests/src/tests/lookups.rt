use crate::tests::building::{FORMS, assert_row, registry};
use shape_core::{CheckFault, Def, ScalarType, ShapeId, Shapes};
use std::process::Abort;

/// Names with the number of the shape that has them.
static NAMES: [(&str, Option<ShapeId>); 6] = [
    ("unit", Some(ShapeId(0))),
    ("u64", Some(ShapeId(6))),
    ("Str", Some(ShapeId(16))),
    ("Point", Some(ShapeId(17))),
    ("Empty", Some(ShapeId(26))),
    ("point", None),
];

fn name_of<'s>(shapes: &'s Shapes<'_>, id: u32) -> Option<&'s str> {
    match shapes.get(ShapeId(id)) {
        Some(shape) => Some(shape.name.as_str()),
        None => None,
    }
}

/// Numbers with the name of the shape, where there is one.
static NUMBERS: [(u32, Option<&str>); 5] = [
    (0, Some("unit")),
    (17, Some("Point")),
    (26, Some("Empty")),
    (27, Some("Spelled")),
    (28, None),
];

/// The shape is there under its number, and has this name.
fn has_name(shapes: &Shapes<'_>, id: u32, want: Option<&str>) -> bool {
    shapes.has(ShapeId(id)) == want.is_some() && name_of(shapes, id) == want
}

fn find_shapes(rt: &impl Abort, shapes: &Shapes<'_>) {
    for (at, (name, id)) in NAMES.iter().enumerate() {
        assert_row(rt, at, shapes.find(name) == *id);
    }
    for (at, (id, name)) in NUMBERS.iter().enumerate() {
        assert_row(rt, at, has_name(shapes, *id, *name));
    }
    shapes.rules();
    assert_row(rt, 28, shapes.as_slice().len() == 28);
}

#[test]
fn shapes_by_name_and_number(rt: HostRuntime) -> Result<(), CheckFault> {
    let shapes = registry(rt.alloc(), FORMS)?;
    find_shapes(&rt, &shapes);
    drop(shapes);
    Ok(())
}

/// The parts of a shape, each where the shape has it.
#[derive(Clone, Copy, PartialEq, Eq)]
struct Parts {
    scalar: Option<ScalarType>,
    option: Option<ShapeId>,
    ok: Option<ShapeId>,
    err: Option<ShapeId>,
    item: Option<ShapeId>,
    length: Option<u32>,
    fields: Option<usize>,
}

const NO_PARTS: Parts = Parts {
    scalar: None,
    option: None,
    ok: None,
    err: None,
    item: None,
    length: None,
    fields: None,
};

fn field_count(shapes: &Shapes<'_>, id: ShapeId) -> Option<usize> {
    match shapes.struct_at(id) {
        Some(def) => Some(def.fields.len()),
        None => None,
    }
}

fn parts_of(shapes: &Shapes<'_>, id: ShapeId) -> Parts {
    Parts {
        scalar: shapes.scalar_at(id),
        option: shapes.option_at(id),
        ok: shapes.ok_at(id),
        err: shapes.err_at(id),
        item: shapes.item_at(id),
        length: shapes.length_at(id),
        fields: field_count(shapes, id),
    }
}

/// Shapes with their parts, which are looked up through transparent shapes.
static PARTS: [(u32, Parts); 7] = [
    (
        16,
        Parts {
            scalar: Some(ScalarType::Str),
            ..NO_PARTS
        },
    ),
    (
        19,
        Parts {
            fields: Some(2),
            ..NO_PARTS
        },
    ),
    (
        21,
        Parts {
            ok: Some(ShapeId(6)),
            err: Some(ShapeId(15)),
            ..NO_PARTS
        },
    ),
    (
        22,
        Parts {
            item: Some(ShapeId(6)),
            ..NO_PARTS
        },
    ),
    (
        24,
        Parts {
            item: Some(ShapeId(6)),
            length: Some(2),
            ..NO_PARTS
        },
    ),
    (
        25,
        Parts {
            option: Some(ShapeId(6)),
            ..NO_PARTS
        },
    ),
    (28, NO_PARTS),
];

/// The shape that a transparent one stands for.
fn stands_for(def: Option<&Def<'_>>) -> Option<u32> {
    match def {
        Some(Def::Transparent(inner)) => Some(inner.0),
        _ => None,
    }
}

/// The item and the length of an array.
fn array_of(def: Option<&Def<'_>>) -> Option<(u32, u32)> {
    match def {
        Some(Def::Array { item, len }) => Some((item.0, *len)),
        _ => None,
    }
}

/// Through a transparent shape stands the array behind it.
fn has_base(shapes: &Shapes<'_>) -> bool {
    stands_for(shapes.definition_at(ShapeId(24))) == Some(23)
        && array_of(shapes.base(ShapeId(24))) == Some((6, 2))
        && shapes.base(ShapeId(28)).is_none()
}

fn look_up(rt: &impl Abort, shapes: &Shapes<'_>) {
    for (at, (id, want)) in PARTS.iter().enumerate() {
        assert_row(rt, at, parts_of(shapes, ShapeId(*id)) == *want);
    }
    assert_row(rt, 24, has_base(shapes));
}

#[test]
fn parts_through_transparent_shapes(rt: HostRuntime) -> Result<(), CheckFault> {
    let shapes = registry(rt.alloc(), FORMS)?;
    look_up(&rt, &shapes);
    drop(shapes);
    Ok(())
}
