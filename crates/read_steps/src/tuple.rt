//! The items of tuples.
ghost use Rattle.std.specs.Prelude.{◌≡◌, true, Err, IfErr, Some};
ghost use Rattle.semantics.specs.Seen.{ends_sequence};
ghost use Rattle.event_core.specs.Events.{event_of};
ghost use Rattle.event_core.specs.Metadata.{span_view};
ghost use Rattle.laws_machine.specs.Delivery.{Status};
ghost use Rattle.laws_machine.specs.Steps.{too_many, tuple_step, step_at};
ghost use Rattle.laws_reading.specs.Values.{Terms};
ghost use Rattle.read_steps.specs.Stepping.{key_taken, keyed_by};
ghost use Rattle.read_steps.specs.Stops.{told_stop, Gives, IsOwn};
ghost use Rattle.read_steps.specs.Tasks.{terms_of};
ghost use Rattle.read_steps.specs.Views.{open_of, moved_of, place_of, tuple_of};
ghost use Rattle.read_steps.specs.Kinds.{kind_of};
ghost use Rattle.read_steps.specs.declared.kind.FrameKind.TheVariants as kinds;

use crate::awaiting::await_next;
use crate::begin::begin_part;
use crate::delivery::deliver;
use crate::fields::{field_at, fields_count};
use crate::fill::{fill_items, structure};
use crate::fits::{ends_sequence, fit_any_key};
use crate::frames::{Frame, Moved, TuplePart};
use crate::parts::{close_elements, close_keyed};
use crate::refusal::{too_many, unexpected};
use crate::stack::{Place, Stack};
use crate::stop::ReadStop;
use crate::task::Task;
use event_core::{ParseEvent, Span};
use shape_core::{Items, Value};

/// One item more of a sequence, or its end.
pub fn step_elements<'de>(
    task: &Task<'_, '_>,
    stack: &mut Stack<'de>,
    before: Span,
    event: &mut ParseEvent<'de>,
) -> Result<Moved<'de>, ReadStop<'de>>
    requires { kind_of stack.old.top ≡ kinds.Elements }
    ensures exact { Gives told_stop (λ m. moved_of m (open_of (terms_of task.now) stack.new)) result (step_at (terms_of task.now) (open_of (terms_of task.now) stack.old) (span_view before) (event_of event.old)) }
    ensures own { IfErr result (λ e. IsOwn (told_stop e)) }
{
    if ends_sequence(event) {
        let span = event.span;
        let part = close_elements(stack);
        return end_tuple(task, stack, part, span);
    }
    match &stack.top {
        Frame::Elements(part) => match field_at(task.shapes, part.shape, part.front.len()) {
            Some(field) => {
                let depth = part.depth;
                begin_part(task, stack, field.shape, depth, before, event)
            }
            None => Err(past_end(task, stack.outside(), part, before)),
        },
        _ => unreachable!(),
    }
}

/// A key of an object, behind which an item has to come, or its end.
#[tactic(auto, using(crate::proofs::Tuples::keyed_at))]
pub fn step_keyed<'de>(
    task: &Task<'_, '_>,
    stack: &mut Stack<'de>,
    before: Span,
    event: &ParseEvent<'_>,
) -> Result<Moved<'de>, ReadStop<'de>>
    requires { kind_of stack.old.top ≡ kinds.Keyed }
    ensures exact { Gives told_stop (λ m. moved_of m (open_of (terms_of task.now) stack.new)) result (step_at (terms_of task.now) (open_of (terms_of task.now) stack.old) (span_view before) (event_of event.now)) }
    ensures own { IfErr result (λ e. IsOwn (told_stop e)) }
{
    let span = event.span;
    match fit_any_key(event) {
        Ok(true) => step_item(task, stack, span),
        Ok(false) => {
            let part = close_keyed(stack);
            end_tuple(task, stack, part, span)
        }
        Err(unfit) => Err(unexpected(task, stack, unfit, span)),
    }
}

/// The item after a key has to come.
fn step_item<'de>(
    task: &Task<'_, '_>,
    stack: &mut Stack<'de>,
    span: Span,
) -> Result<Moved<'de>, ReadStop<'de>>
    requires { kind_of stack.old.top ≡ kinds.Keyed }
    ensures exact { Gives told_stop (λ m. moved_of m (open_of (terms_of task.now) stack.new)) result (keyed_by (Some true) (terms_of task.now) (open_of (terms_of task.now) stack.old) (span_view span)) }
    ensures own { IfErr result (λ e. IsOwn (told_stop e)) }
{
    match &stack.top {
        Frame::Keyed(part) => match field_at(task.shapes, part.shape, part.front.len()) {
            Some(field) => {
                let depth = part.depth;
                take_key(stack);
                await_next(task, stack, field.shape, depth, span)
            }
            None => Err(past_end(task, stack.outside(), part, span)),
        },
        _ => unreachable!(),
    }
}

/// A key was taken, whose item comes.
fn take_key(stack: &mut Stack<'_>)
    requires { kind_of stack.old.top ≡ kinds.Keyed }
    ensures { (t : Terms) → open_of t stack.new ≡ key_taken (open_of t stack.old) }
{
    match &mut stack.top {
        Frame::Keyed(part) => part.after_key = true,
        _ => unreachable!(),
    }
}

/// A tuple has no more items.
pub fn past_end<'e>(
    task: &Task<'_, '_>,
    place: Place<'_, '_>,
    part: &TuplePart<'_>,
    span: Span,
) -> ReadStop<'e>
    ensures is { Gives {Y = Status} told_stop (λ s. s) (Err result) (too_many (terms_of task.now) (tuple_of (terms_of task.now) part.now) (place_of (terms_of task.now) place.entry) (span_view span)) }
    ensures own { IsOwn (told_stop result) }
{
    let count = fields_count(task.shapes, part.shape);
    too_many(task, place, part.shape, count, span)
}

/// The end of a tuple, where each of its items has a value.
fn end_tuple<'de>(
    task: &Task<'_, '_>,
    stack: &mut Stack<'de>,
    part: TuplePart<'de>,
    span: Span,
) -> Result<Moved<'de>, ReadStop<'de>>
    ensures exact { Gives told_stop (λ m. moved_of m (open_of (terms_of task.now) stack.new)) result (tuple_step (terms_of task.now) (tuple_of (terms_of task.now) part.entry) (open_of (terms_of task.now) stack.old) (span_view span)) }
    ensures own { IfErr result (λ e. IsOwn (told_stop e)) }
{
    let shape = part.shape;
    let mut items = part.front;
    match fill_items(task, stack, shape, &mut items, span) {
        Ok(()) => deliver(task, stack, structure(Items::from_vec(items))),
        Err(stop) => Err(stop),
    }
}
