//! Structs and tuples of what was read, where an option that is absent holds nothing.
ghost use Rattle.std.specs.Prelude.{◌≡◌, ◌<◌, ◌-◌, [], length, map, false, true, Ok, IfOk, IfErr};
ghost use Rattle.std.specs.Option.{option_map};
ghost use Rattle.semantics_lines.specs.Shapes.{definition_at};
ghost use Rattle.semantics.specs.Reading.{absent};
ghost use Rattle.semantics_lines.specs.Trees.{structure, trees_of};
ghost use Rattle.shape_types.specs.Shapes.{field_of, registry};
ghost use Rattle.shape_types.specs.Trees.{tree_of};
ghost use Rattle.event_core.specs.Metadata.{span_view};
ghost use Rattle.laws_machine.specs.Delivery.{here};
ghost use Rattle.laws_machine.specs.Frames.{path};
ghost use Rattle.laws_reading.specs.Structs.{gathered};
ghost use Rattle.read_steps.specs.Filled.{taken_view};
ghost use Rattle.read_steps.specs.Filling.{filled_at, absent_value, own_value, values_from};
ghost use Rattle.read_steps.specs.Stepping.{Goes};
ghost use Rattle.read_steps.specs.Stops.{told_stop, Gives, IsOwn};
ghost use Rattle.read_steps.specs.Tasks.{terms_of, fields_at};
ghost use Rattle.read_steps.specs.Views.{open_of, got_of, told_of};

use crate::fields::{field_at, fields_of};
use crate::filled::{Filled, Taken, take_value};
use crate::refusal::{never, refusal, shape_name};
use crate::stack::Stack;
use crate::stop::ReadStop;
use crate::task::Task;
use event_core::{DeserializeErrorKind, Span};
use shape_core::{Def, Field, Items, ShapeId, Shapes, Value};

/// The struct of what was read, where each field has a value.
#[tactic(auto, using(crate::proofs::Gathers::gathered_is, crate::proofs::Gathers::gathered_fails))]
pub fn gather<'de>(
    task: &Task<'_, '_>,
    stack: &Stack<'_>,
    shape: ShapeId,
    filled: Vec<Filled<'de>>,
    span: Span,
) -> Result<Value<'de>, ReadStop<'de>>
    ensures exact { Gives told_stop tree_of result (gathered (registry task.now.shapes.now) [] (record { fields = fields_at (registry task.now.shapes.now) shape.0; whole = false }) shape.0 (got_of 0 filled.entry.items) (path (terms_of task.now) (open_of (terms_of task.now) stack.now)) (here (span_view span))) }
    ensures own { IfErr result (λ e. IsOwn (told_stop e)) }
{
    task.shapes.rules();
    let mut filled = filled;
    match gather_fields(task, stack, shape, &mut filled, span) {
        Ok(values) => Ok(structure(values)),
        Err(stop) => Err(stop),
    }
}

/// A struct of these values.
pub fn structure<'de>(values: Items<Value<'de>>) -> Value<'de>
    ensures { tree_of result ≡ structure (trees_of (map tree_of values.entry)) }
{
    Value::Struct(values)
}

fn gather_fields<'de>(
    task: &Task<'_, '_>,
    stack: &Stack<'_>,
    shape: ShapeId,
    filled: &mut Vec<Filled<'de>>,
    span: Span,
) -> Result<Items<Value<'de>>, ReadStop<'de>>
    ensures exact { Gives told_stop (λ vs. map tree_of vs) result (values_from (registry task.now.shapes.now) (fields_at (registry task.now.shapes.now) shape.0) shape.0 0 [] (map told_of filled.old.items) (path (terms_of task.now) (open_of (terms_of task.now) stack.now)) (span_view span)) }
    ensures own { IfErr result (λ e. IsOwn (told_stop e)) }
{
    match fields_of(task.shapes, shape) {
        Some(fields) => gather_values(task, stack, shape, fields, filled, span),
        None => Ok(Items::new(task.alloc)),
    }
}

fn gather_values<'de>(
    task: &Task<'_, '_>,
    stack: &Stack<'_>,
    shape: ShapeId,
    fields: &[Field],
    filled: &mut Vec<Filled<'de>>,
    span: Span,
) -> Result<Items<Value<'de>>, ReadStop<'de>>
    ensures exact { Gives told_stop (λ vs. map tree_of vs) result (values_from (registry task.now.shapes.now) (map field_of fields.now) shape.0 0 [] (map told_of filled.old.items) (path (terms_of task.now) (open_of (terms_of task.now) stack.now)) (span_view span)) }
    ensures own { IfErr result (λ e. IsOwn (told_stop e)) }
{
    let mut values = Vec::new(task.alloc);
    'fields: for (place, field) in fields.iter().enumerate() {
        let told = take_value(filled, place);
        let value = match own_value(task, stack, shape, field, told, span) {
            Ok(value) => value,
            Err(stop) => return Err(stop),
        };
        values.push(value)?;
    }
    Ok(Items::from_vec(values))
}

/// The value of a field: what was read of it, or what its shape has where it is absent.
fn own_value<'de>(
    task: &Task<'_, '_>,
    stack: &Stack<'_>,
    shape: ShapeId,
    field: &Field,
    told: Taken<'de>,
    span: Span,
) -> Result<Value<'de>, ReadStop<'de>>
    ensures exact { Gives told_stop tree_of result (own_value (registry task.now.shapes.now) (field_of field.now) shape.0 (taken_view told.entry) (path (terms_of task.now) (open_of (terms_of task.now) stack.now)) (span_view span)) }
    ensures own { IfErr result (λ e. IsOwn (told_stop e)) }
{
    match told {
        Taken::Once(value) => Ok(value),
        Taken::Nothing => absent_value(task, stack, shape, field, span),
        Taken::Twice => Err(never(task, stack.inside(), span)),
    }
}

/// What an absent field holds: nothing, where it is an option, and else it has to be there.
fn absent_value<'de>(
    task: &Task<'_, '_>,
    stack: &Stack<'_>,
    shape: ShapeId,
    field: &Field,
    span: Span,
) -> Result<Value<'de>, ReadStop<'de>>
    ensures exact { Gives told_stop tree_of result (absent_value (registry task.now.shapes.now) (field_of field.now) shape.0 (path (terms_of task.now) (open_of (terms_of task.now) stack.now)) (span_view span)) }
    ensures own { IfErr result (λ e. IsOwn (told_stop e)) }
{
    match absent(task.shapes, field) {
        Some(value) => Ok(value),
        None => {
            let kind = DeserializeErrorKind::MissingField {
                field: field.name.try_clone(task.alloc)?,
                container_shape: shape_name(task, shape)?,
            };
            Err(refusal(task, stack.inside(), kind, span))
        }
    }
}

/// What an absent option holds.
fn absent<'de>(shapes: &Shapes, field: &Field) -> Option<Value<'de>>
    ensures { option_map tree_of result ≡ absent (definition_at (registry shapes.now) field.now.shape.0) }
{
    match shapes.definition_at(field.shape) {
        Some(Def::Option(_)) => Some(Value::None),
        _ => None,
    }
}

/// Fills the items of a tuple that are absent behind those that came.
pub fn fill_items<'de>(
    task: &Task<'_, '_>,
    stack: &Stack<'_>,
    shape: ShapeId,
    items: &mut Vec<Value<'de>>,
    span: Span,
) -> Result<(), ReadStop<'de>>
    ensures exact { Gives told_stop (λ _. map tree_of items.new.items) result (filled_at (registry task.now.shapes.now) shape.0 (map tree_of items.old.items) (path (terms_of task.now) (open_of (terms_of task.now) stack.now)) (span_view span)) }
    ensures own { IfErr result (λ e. IsOwn (told_stop e)) }
{
    'items: while fill_item(task, stack, shape, items, span)? {}
    Ok(())
}

/// One item more that is absent, or none where all are there, and then it answers false.
#[tactic(auto, using(crate::proofs::Tuples::filled_more, crate::proofs::Tuples::filled_fails, crate::proofs::Tuples::filled_all, crate::proofs::Tuples::within_fields))]
fn fill_item<'de>(
    task: &Task<'_, '_>,
    stack: &Stack<'_>,
    shape: ShapeId,
    items: &mut Vec<Value<'de>>,
    span: Span,
) -> Result<bool, ReadStop<'de>>
    ensures goes { Goes told_stop result (filled_at (registry task.now.shapes.now) shape.0 (map tree_of items.new.items) (path (terms_of task.now) (open_of (terms_of task.now) stack.now)) (span_view span)) (filled_at (registry task.now.shapes.now) shape.0 (map tree_of items.old.items) (path (terms_of task.now) (open_of (terms_of task.now) stack.now)) (span_view span)) }
    ensures last { IfOk result (λ more. more ≡ false → filled_at (registry task.now.shapes.now) shape.0 (map tree_of items.new.items) (path (terms_of task.now) (open_of (terms_of task.now) stack.now)) (span_view span) ≡ Ok (map tree_of items.new.items)) }
    ensures fewer { IfOk result (λ more. more ≡ true → length (fields_at (registry task.now.shapes.now) shape.0) - length items.new.items < length (fields_at (registry task.now.shapes.now) shape.0) - length items.old.items) }
    ensures own { IfErr result (λ e. IsOwn (told_stop e)) }
{
    task.shapes.rules();
    match field_at(task.shapes, shape, items.len()) {
        Some(field) => match absent_value(task, stack, shape, field, span) {
            Ok(value) => {
                items.push(value)?;
                Ok(true)
            }
            Err(stop) => Err(stop),
        },
        None => Ok(false),
    }
}
