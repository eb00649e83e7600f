//! Which values are of a shape.
ghost use Rattle.std.specs.Prelude.{◌≡◌, ◌<◌, ◌∷◌, ◌==◌, map, length, option_map, IsTrue};
ghost use Rattle.semantics_lines.specs.Trees.{char_value, list, trees_of};
ghost use Rattle.semantics.specs.Typed.{takes_unit, takes_bool, takes_char, takes_unsigned, takes_signed, takes_text, has_length, typed, each_typed, fields_typed, tree_is_utf8, trees_are_utf8};
ghost use Rattle.shape_types.specs.Scalars.{scalar_type_of};
ghost use Rattle.shape_types.specs.Shapes.{field_of, registry};
ghost use Rattle.shape_types.specs.Trees.{tree_of};

use crate::shapes::Shapes;
use shape_types::{Field, ScalarType, ShapeId, Value};

impl Shapes<'_> {
    /// Whether the value is of the shape: numbers are in range, an array has its length, and a struct has one value
    /// for each field.
    ///
    /// The texts of such a value are UTF-8, and its characters are characters.
    pub fn types(&self, id: ShapeId, value: &Value<'_>) -> bool
        requires { id.0 < length (registry self.now) }
        ensures typed { result ≡ typed (registry self.now) id.0 (tree_of value.now) }
        ensures utf8 { IsTrue result → IsTrue (tree_is_utf8 (tree_of value.now)) }
    {
        is_typed(self, id, value)
    }
}

/// Whether there are so many items, where that is said.
fn has_length(length: Option<u32>, count: usize) -> bool
    ensures { result ≡ has_length length count }
{
    match length {
        Some(length) => length as usize == count,
        None => true,
    }
}

fn takes_unit(scalar: ScalarType) -> bool
    ensures { result ≡ takes_unit (scalar_type_of scalar) }
{
    matches!(scalar, ScalarType::Unit)
}

fn takes_bool(scalar: ScalarType) -> bool
    ensures { result ≡ takes_bool (scalar_type_of scalar) }
{
    matches!(scalar, ScalarType::Bool)
}

fn takes_char(scalar: ScalarType) -> bool
    ensures { result ≡ takes_char (scalar_type_of scalar) }
{
    matches!(scalar, ScalarType::Char)
}

fn takes_text(scalar: ScalarType) -> bool
    ensures { result ≡ takes_text (scalar_type_of scalar) }
{
    matches!(scalar, ScalarType::String | ScalarType::Str)
}

fn takes_unsigned(number: u128, scalar: ScalarType) -> bool
    ensures { result ≡ takes_unsigned number (scalar_type_of scalar) }
{
    match scalar {
        ScalarType::U8 => u8::try_from(number).is_ok(),
        ScalarType::U16 => u16::try_from(number).is_ok(),
        ScalarType::U32 => u32::try_from(number).is_ok(),
        ScalarType::U64 | ScalarType::USize => u64::try_from(number).is_ok(),
        ScalarType::U128 => true,
        _ => false,
    }
}

fn takes_signed(number: i128, scalar: ScalarType) -> bool
    ensures { result ≡ takes_signed number (scalar_type_of scalar) }
{
    match scalar {
        ScalarType::I8 => i8::try_from(number).is_ok(),
        ScalarType::I16 => i16::try_from(number).is_ok(),
        ScalarType::I32 => i32::try_from(number).is_ok(),
        ScalarType::I64 | ScalarType::ISize => i64::try_from(number).is_ok(),
        ScalarType::I128 => true,
        _ => false,
    }
}

fn char_is_typed(shapes: &Shapes, id: ShapeId, letter: char) -> bool
    ensures typed { result ≡ typed (registry shapes.now) id.0 (char_value letter) }
    ensures utf8 { IsTrue (tree_is_utf8 (char_value letter)) }
{
    match shapes.scalar_at(id) {
        Some(scalar) => takes_char(scalar),
        None => false,
    }
}

#[cycle(typed)]
fn is_typed(shapes: &Shapes, id: ShapeId, value: &Value<'_>) -> bool
    ensures typed { result ≡ typed (registry shapes.now) id.0 (tree_of value.now) }
    ensures utf8 { IsTrue result → IsTrue (tree_is_utf8 (tree_of value.now)) }
{
    match value {
        Value::Unit => match shapes.scalar_at(id) {
            Some(scalar) => takes_unit(scalar),
            None => false,
        },
        Value::Bool(_) => match shapes.scalar_at(id) {
            Some(scalar) => takes_bool(scalar),
            None => false,
        },
        Value::Char(letter) => char_is_typed(shapes, id, *letter),
        Value::Unsigned(number) => match shapes.scalar_at(id) {
            Some(scalar) => takes_unsigned(*number, scalar),
            None => false,
        },
        Value::Signed(number) => match shapes.scalar_at(id) {
            Some(scalar) => takes_signed(*number, scalar),
            None => false,
        },
        Value::Text(text) => {
            text.utf8();
            match shapes.scalar_at(id) {
                Some(scalar) => takes_text(scalar),
                None => false,
            }
        }
        Value::None => shapes.option_at(id).is_some(),
        Value::Some(inner) => match shapes.option_at(id) {
            Some(item) => is_typed(shapes, item, inner.get()),
            None => false,
        },
        Value::Ok(inner) => match shapes.ok_at(id) {
            Some(item) => is_typed(shapes, item, inner.get()),
            None => false,
        },
        Value::Err(inner) => match shapes.err_at(id) {
            Some(item) => is_typed(shapes, item, inner.get()),
            None => false,
        },
        Value::List(items) => are_items(shapes, id, items.as_slice()),
        Value::Struct(values) => match shapes.struct_at(id) {
            Some(def) => fields_typed(shapes, def.fields.as_slice(), values.as_slice()),
            None => false,
        },
        Value::Map(_) | Value::Enum { .. } => false,
    }
}

/// Whether these are the items of a list or an array of the shape.
#[cycle(typed)]
#[tactic(auto, using(crate::proofs::Typing::tree_count_of))]
fn are_items(shapes: &Shapes, id: ShapeId, values: &[Value<'_>]) -> bool
    ensures typed { result ≡ typed (registry shapes.now) id.0 (list (trees_of (map tree_of values.now))) }
    ensures utf8 { IsTrue result → IsTrue (trees_are_utf8 (trees_of (map tree_of values.now))) }
{
    if !has_length(shapes.length_at(id), values.len()) {
        return false;
    }
    match shapes.item_at(id) {
        Some(item) => each_typed(shapes, item, values),
        None => false,
    }
}

#[cycle(typed)]
fn each_typed(shapes: &Shapes, id: ShapeId, values: &[Value<'_>]) -> bool
    ensures typed { result ≡ each_typed (registry shapes.now) id.0 (trees_of (map tree_of values.now)) }
    ensures utf8 { IsTrue result → IsTrue (trees_are_utf8 (trees_of (map tree_of values.now))) }
{
    for value in values {
        if !is_typed(shapes, id, value) {
            return false;
        }
    }
    true
}

#[cycle(typed)]
fn fields_typed(shapes: &Shapes, fields: &[Field], values: &[Value<'_>]) -> bool
    ensures typed { result ≡ fields_typed (registry shapes.now) (map field_of fields.now) (trees_of (map tree_of values.now)) }
    ensures utf8 { IsTrue result → IsTrue (trees_are_utf8 (trees_of (map tree_of values.now))) }
{
    for (at, value) in values.iter().enumerate() {
        let Some(field) = fields.get(at) else {
            return false;
        };
        if !is_typed(shapes, field.shape, value) {
            return false;
        }
    }
    fields.len() == values.len()
}
