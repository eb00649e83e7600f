//! Keys of structs that name their field by its order.
ghost use Rattle.std.specs.Prelude.{◌≡◌, slice_get, IfErr, IfOk};
ghost use Rattle.shape_types.specs.Shapes.{registry};
ghost use Rattle.shape_types.specs.Texts.{text_bytes};
ghost use Rattle.event_core.specs.Metadata.{span_view};
ghost use Rattle.laws_reading.specs.Values.{Terms};
ghost use Rattle.semantics_lines.specs.Faults.{duplicate_field};
ghost use Rattle.std.specs.Prelude.{Some};
ghost use Rattle.read_steps.specs.Fits.{at_order};
ghost use Rattle.read_steps.specs.Refusals.{fault_in};
ghost use Rattle.read_steps.specs.Stepping.{counted, marked_step, name_in, next_by};
ghost use Rattle.read_steps.specs.Stops.{told_stop, Gives, IsFault, IsOwn};
ghost use Rattle.read_steps.specs.Tasks.{fields_at, terms_of};
ghost use Rattle.read_steps.specs.Views.{open_of, moved_of};
ghost use Rattle.read_steps.specs.Kinds.{kind_of};
ghost use Rattle.read_steps.specs.declared.kind.FrameKind.TheVariants as kinds;

use crate::expected::Unfit;
use crate::fields::{field_at, fields_count};
use crate::filled::first_key;
use crate::frames::{Frame, Moved};
use crate::key::KeyAt;
use crate::object::{duplicate, enter};
use crate::refusal::unexpected;
use crate::stack::Stack;
use crate::stop::ReadStop;
use crate::task::Task;
use event_core::Span;
use shape_core::{Name, OutOfMemory, ShapeId, Text, effective_name};

/// A key by order: that of the next field, where there is one more.
pub fn step_order<'de>(
    task: &Task<'_, '_>,
    stack: &mut Stack<'de>,
    unfit: Unfit,
    span: Span,
) -> Result<Moved<'de>, ReadStop<'de>>
    requires { kind_of stack.old.top ≡ kinds.Object }
    ensures exact { Gives told_stop (λ m. moved_of m (open_of (terms_of task.now) stack.new)) result (marked_step at_order (terms_of task.now) (open_of (terms_of task.now) stack.old) (span_view span)) }
    ensures own { IfErr result (λ e. IsOwn (told_stop e)) }
{
    match &stack.top {
        Frame::Object(part) => {
            let place = part.ordered;
            if place < fields_count(task.shapes, part.shape) {
                step_next(task, stack, KeyAt { place, span }, place + 1)
            } else {
                Err(unexpected(task, stack, unfit, span))
            }
        }
        _ => unreachable!(),
    }
}

/// The key by order that leads to a field, and with which there are so many, unless the field was read already.
fn step_next<'de>(
    task: &Task<'_, '_>,
    stack: &mut Stack<'de>,
    key: KeyAt,
    count: usize,
) -> Result<Moved<'de>, ReadStop<'de>>
    requires { kind_of stack.old.top ≡ kinds.Object }
    ensures exact { Gives told_stop (λ m. moved_of m (open_of (terms_of task.now) stack.new)) result (next_by key.place count (terms_of task.now) (span_view key.span) (open_of (terms_of task.now) stack.old)) }
    ensures own { IfErr result (λ e. IsOwn (told_stop e)) }
{
    match &stack.top {
        Frame::Object(part) => match first_key(part.filled.as_slice(), key.place) {
            Some(first) => Err(repeated(task, stack, part.shape, key, first)),
            None => {
                count_key(stack, count);
                enter(task, stack, key)
            }
        },
        _ => unreachable!(),
    }
}

/// So many keys named their field by its order.
fn count_key(stack: &mut Stack<'_>, count: usize)
    requires { kind_of stack.old.top ≡ kinds.Object }
    ensures counted { (t : Terms) → open_of t stack.new ≡ counted count (open_of t stack.old) }
    ensures kind { kind_of stack.new.top ≡ kinds.Object }
{
    match &mut stack.top {
        Frame::Object(part) => part.ordered = count,
        _ => unreachable!(),
    }
}

/// The field was read already, under a key that stands at `first`.
fn repeated<'e>(
    task: &Task<'_, '_>,
    stack: &Stack<'_>,
    shape: ShapeId,
    key: KeyAt,
    first: Span,
) -> ReadStop<'e>
    ensures own { IsOwn (told_stop result) }
    ensures is { IsFault (told_stop result) (fault_in (terms_of task.now) (open_of (terms_of task.now) stack.now) (duplicate_field (name_in (slice_get (fields_at (registry task.now.shapes.now) shape.0) key.place)) (Some (span_view first))) (span_view key.span)) }
{
    match field_name(task, shape, key.place) {
        Ok(name) => duplicate(task, stack, name, key.span, first),
        Err(_) => ReadStop::Alloc,
    }
}

/// The name by which the field at this place is written.
fn field_name<'e>(
    task: &Task<'_, '_>,
    shape: ShapeId,
    place: usize,
) -> Result<Text<'e>, OutOfMemory>
    ensures { IfOk result (λ name. text_bytes name ≡ name_in (slice_get (fields_at (registry task.now.shapes.now) shape.0) place)) }
{
    match field_at(task.shapes, shape, place) {
        Some(field) => Ok(Text::Owned(Name::copy(task.alloc, effective_name(field))?)),
        None => Ok(Text::Borrowed("")),
    }
}
