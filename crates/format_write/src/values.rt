//! The values, level by level.
ghost use Rattle.std.specs.Prelude.{map, codes};
ghost use Rattle.semantics_lines.specs.Trees.{trees_of};
ghost use Rattle.semantics.specs.Calling.{sequence_calls, object_calls, entry_calls, calls_of, calls_of_each, calls_of_items, calls_of_fields};
ghost use Rattle.shape_types.specs.Shapes.{field_of};
ghost use Rattle.shape_types.specs.Trees.{tree_of};
ghost use Rattle.format_write.specs.Wrote.{writer};
ghost use Rattle.format_write.specs.Writes.{Writes};

use crate::calls;
use crate::lookup::{is_tuple, item_for};
use crate::scalars::{
    write_bool, write_char, write_signed, write_text, write_unit, write_unsigned,
};
use crate::stop::Stop;
use event_core::ScalarValue;
use format_traits::FormatSerializer;
use shape_core::{Field, ShapeId, Shapes, Value, effective_name};

/// Writes a value of the shape of this number.
#[cycle(write)]
pub(crate) fn write_value<S: FormatSerializer>(
    shapes: &Shapes,
    id: ShapeId,
    value: &Value<'_>,
    serializer: &mut S,
) -> Result<(), Stop<S::Error>>
    ensures { Writes (calls_of (writer (S.writing serializer.old).settings shapes.now) id.0 (tree_of value.now)) (S.made serializer.old serializer.new) (S.writing serializer.old) (S.writing serializer.new) result }
{
    match value {
        Value::Unit => write_unit(shapes.scalar_at(id), serializer),
        Value::Bool(told) => write_bool(shapes.scalar_at(id), *told, serializer),
        Value::Char(letter) => write_char(shapes.scalar_at(id), *letter, serializer),
        Value::Unsigned(number) => write_unsigned(shapes.scalar_at(id), *number, serializer),
        Value::Signed(number) => write_signed(shapes.scalar_at(id), *number, serializer),
        Value::Text(text) => write_text(shapes.scalar_at(id), text.as_str(), serializer),
        Value::None => match shapes.option_at(id) {
            Some(_) => calls::scalar(ScalarValue::Null, serializer),
            None => Err(Stop::NoForm),
        },
        Value::Some(inner) => match shapes.option_at(id) {
            Some(item) => write_value(shapes, item, inner.get(), serializer),
            None => Err(Stop::NoForm),
        },
        Value::Ok(inner) => match shapes.ok_at(id) {
            Some(item) => write_under(shapes, "Ok", item, inner.get(), serializer),
            None => Err(Stop::NoForm),
        },
        Value::Err(inner) => match shapes.err_at(id) {
            Some(item) => write_under(shapes, "Err", item, inner.get(), serializer),
            None => Err(Stop::NoForm),
        },
        Value::List(items) => match item_for(shapes, id, items.len()) {
            Some(item) => write_list(shapes, item, items.as_slice(), serializer),
            None => Err(Stop::NoForm),
        },
        Value::Struct(values) => match shapes.struct_at(id) {
            Some(def) => {
                if is_tuple(def.kind) {
                    write_tuple(shapes, def.fields.as_slice(), values.as_slice(), serializer)
                } else {
                    write_struct(shapes, def.fields.as_slice(), values.as_slice(), serializer)
                }
            }
            None => Err(Stop::NoForm),
        },
        Value::Map(_) | Value::Enum { .. } => Err(Stop::NoForm),
    }
}

/// Writes an object of one entry.
#[cycle(write)]
fn write_under<S: FormatSerializer>(
    shapes: &Shapes,
    name: &str,
    id: ShapeId,
    value: &Value<'_>,
    serializer: &mut S,
) -> Result<(), Stop<S::Error>>
    ensures { Writes (object_calls (entry_calls name.now (calls_of (writer (S.writing serializer.old).settings shapes.now) id.0 (tree_of value.now)))) (S.made serializer.old serializer.new) (S.writing serializer.old) (S.writing serializer.new) result }
{
    calls::begin_struct(serializer)?;
    calls::field_key(name, serializer)?;
    write_value(shapes, id, value, serializer)?;
    calls::end_struct(serializer)
}

/// Writes a list of values of one shape.
#[cycle(write)]
fn write_list<S: FormatSerializer>(
    shapes: &Shapes,
    item: ShapeId,
    values: &[Value<'_>],
    serializer: &mut S,
) -> Result<(), Stop<S::Error>>
    ensures { Writes (sequence_calls (calls_of_each (writer (S.writing serializer.old).settings shapes.now) item.0 (trees_of (map tree_of values.now)))) (S.made serializer.old serializer.new) (S.writing serializer.old) (S.writing serializer.new) result }
{
    calls::begin_seq(serializer)?;
    'items: for value in values {
        write_value(shapes, item, value, serializer)?;
    }
    calls::end_seq(serializer)
}

/// Writes a list with a value for each of these fields.
#[cycle(write)]
fn write_tuple<S: FormatSerializer>(
    shapes: &Shapes,
    fields: &[Field],
    values: &[Value<'_>],
    serializer: &mut S,
) -> Result<(), Stop<S::Error>>
    ensures { Writes (sequence_calls (calls_of_items (writer (S.writing serializer.old).settings shapes.now) (map field_of fields.now) (trees_of (map tree_of values.now)))) (S.made serializer.old serializer.new) (S.writing serializer.old) (S.writing serializer.new) result }
{
    calls::begin_seq(serializer)?;
    'items: for (at, value) in values.iter().enumerate() {
        let Some(item) = fields.get(at) else {
            return Err(Stop::NoForm);
        };
        write_value(shapes, item.shape, value, serializer)?;
    }
    if fields.len() != values.len() {
        return Err(Stop::NoForm);
    }
    calls::end_seq(serializer)
}

/// Writes an object with a value for each of these fields, in their order.
#[cycle(write)]
fn write_struct<S: FormatSerializer>(
    shapes: &Shapes,
    fields: &[Field],
    values: &[Value<'_>],
    serializer: &mut S,
) -> Result<(), Stop<S::Error>>
    ensures { Writes (object_calls (calls_of_fields (writer (S.writing serializer.old).settings shapes.now) (map field_of fields.now) (trees_of (map tree_of values.now)))) (S.made serializer.old serializer.new) (S.writing serializer.old) (S.writing serializer.new) result }
{
    calls::begin_struct(serializer)?;
    'fields: for (at, value) in values.iter().enumerate() {
        let Some(field) = fields.get(at) else {
            return Err(Stop::NoForm);
        };
        calls::field_key(effective_name(field), serializer)?;
        write_value(shapes, field.shape, value, serializer)?;
    }
    if fields.len() != values.len() {
        return Err(Stop::NoForm);
    }
    calls::end_struct(serializer)
}
