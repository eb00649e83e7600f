use crate::tests::assert_row;
use shape_core::{Def, Field, ScalarType, ShapeId, Shapes, StructKind};
use shape_text::{ReadShapesError, read_shapes};
use std::process::Abort;

const TEXT: &[u8] =
    b"shape Point struct\nfield x u64\nfield y u64\nshape Empty struct\nshape _1 struct\nfield Z9 u64\nshape Maybe option u64\nshape Later list Behind\nshape Behind unit\nshape Named transparent Str\nshape Either result unit char\nshape Long array 4294967295 u8\nshape None array 0 None\nshape Tuple tuple\nitem u8\nitem String\nitem Tuple\nshape Bare tuple\n";

/// What a shape is made of, its parts by their numbers. Of a struct: its kind and how many fields it has.
#[derive(Clone, Copy, PartialEq, Eq)]
enum Form {
    Scalar(ScalarType),
    Option(u32),
    Result(u32, u32),
    List(u32),
    Array(u32, u32),
    Struct(StructKind, usize),
    Transparent(u32),
    Unbuilt,
}

fn form_of(def: &Def<'_>) -> Form {
    match def {
        Def::Scalar(scalar) => Form::Scalar(*scalar),
        Def::Option(inner) => Form::Option(inner.0),
        Def::Result { ok, err } => Form::Result(ok.0, err.0),
        Def::List(item) => Form::List(item.0),
        Def::Array { item, len } => Form::Array(item.0, *len),
        Def::Struct(def) => Form::Struct(def.kind, def.fields.len()),
        Def::Transparent(inner) => Form::Transparent(inner.0),
        Def::Set(_) | Def::Map { .. } | Def::Enum(_) => Form::Unbuilt,
    }
}

/// Shapes by their names, with their numbers.
static SHAPES: [(&str, u32, Form); 14] = [
    ("unit", 0, Form::Scalar(ScalarType::Unit)),
    ("Str", 16, Form::Scalar(ScalarType::Str)),
    ("Point", 17, Form::Struct(StructKind::Struct, 2)),
    ("Empty", 18, Form::Struct(StructKind::Struct, 0)),
    ("_1", 19, Form::Struct(StructKind::Struct, 1)),
    ("Maybe", 20, Form::Option(6)),
    ("Later", 21, Form::List(22)),
    ("Behind", 22, Form::Struct(StructKind::Unit, 0)),
    ("Named", 23, Form::Transparent(16)),
    ("Either", 24, Form::Result(0, 2)),
    ("Long", 25, Form::Array(3, 4_294_967_295)),
    ("None", 26, Form::Array(26, 0)),
    ("Tuple", 27, Form::Struct(StructKind::TupleStruct, 3)),
    ("Bare", 28, Form::Struct(StructKind::TupleStruct, 0)),
];

fn form_at(shapes: &Shapes<'_>, id: ShapeId) -> Option<Form> {
    match shapes.definition_at(id) {
        Some(def) => Some(form_of(def)),
        None => None,
    }
}

/// Fields by their shape and their place, with their name and the number of their own shape.
static FIELDS: [(u32, usize, &str, u32); 6] = [
    (17, 0, "x", 6),
    (17, 1, "y", 6),
    (19, 0, "Z9", 6),
    (27, 0, "0", 3),
    (27, 1, "1", 15),
    (27, 2, "2", 27),
];

fn field_at<'s, 'v>(shapes: &'s Shapes<'v>, id: u32, at: usize) -> Option<&'s Field<'v>> {
    match shapes.struct_at(ShapeId(id)) {
        Some(def) => def.fields.get(at),
        None => None,
    }
}

/// The field has this name and this shape, and no attribute.
fn is_plain(field: Option<&Field<'_>>, name: &str, shape: u32) -> bool {
    match field {
        Some(field) => {
            field.name.as_str() == name
                && field.shape.0 == shape
                && field.rename.is_none()
                && field.alias.is_none()
                && field.default.is_none()
        }
        None => false,
    }
}

/// The shape of this name has this number and this form.
fn has_form(shapes: &Shapes<'_>, name: &str, number: u32, form: Form) -> bool {
    let id = ShapeId(number);
    shapes.find(name) == Some(id) && form_at(shapes, id) == Some(form)
}

fn check_shapes(rt: &impl Abort, shapes: &Shapes<'_>) {
    for (at, (name, number, form)) in SHAPES.iter().enumerate() {
        assert_row(rt, at, has_form(shapes, name, *number, *form));
    }
    for (at, (id, place, name, shape)) in FIELDS.iter().enumerate() {
        let is_plain = is_plain(field_at(shapes, *id, *place), name, *shape);
        assert_row(rt, at, is_plain);
    }
    assert_row(rt, 29, shapes.as_slice().len() == 29);
}

#[test]
fn shapes_are_read_in_their_order(rt: HostRuntime) -> Result<(), ReadShapesError> {
    let shapes = read_shapes(rt.alloc(), TEXT)?;
    check_shapes(&rt, &shapes);
    drop(shapes);
    Ok(())
}
