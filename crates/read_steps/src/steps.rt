//! What one event does to what is open.
ghost use Rattle.std.specs.Prelude.{Err, IfErr};
ghost use Rattle.event_core.specs.Events.{event_of};
ghost use Rattle.event_core.specs.Metadata.{span_view};
ghost use Rattle.laws_machine.specs.Delivery.{Status as MachineStatus, no_step};
ghost use Rattle.laws_machine.specs.Steps.{step_at};
ghost use Rattle.read_steps.specs.Statuses.{status_of};
ghost use Rattle.read_steps.specs.Stops.{told_stop, Gives, IsOwn};
ghost use Rattle.read_steps.specs.Tasks.{terms_of};
ghost use Rattle.read_steps.specs.Views.{frames_of, next_in, open_of, moved_of};

use crate::begin::begin;
use crate::frames::{Frames, Moved, Next};
use crate::items::step_items;
use crate::kind::{FrameKind, kind_of};
use crate::node::{step_node, step_set};
use crate::object::step_object;
use crate::outcome::{step_end, step_side};
use crate::pass::pass_event;
use crate::refusal::no_step;
use crate::stack::Stack;
use crate::stop::ReadStop;
use crate::task::Task;
use crate::tuple::{step_elements, step_keyed};
use event_core::{ParseEvent, Span};
use shape_core::Value;

/// What there is behind an event.
#[derive(Drop)]
pub enum Status<'de> {
    /// More events have to come.
    Going,
    /// The whole value.
    Complete(Value<'de>),
}

/// One event, behind what stood there before it.
pub fn step<'de>(
    task: &Task<'_, '_>,
    frames: &mut Frames<'de>,
    before: Span,
    event: &mut ParseEvent<'de>,
) -> Result<Status<'de>, ReadStop<'de>>
    ensures exact { Gives told_stop (λ s. status_of s (frames_of (terms_of task.now) frames.new)) result (step_at (terms_of task.now) (frames_of (terms_of task.now) frames.old) (span_view before) (event_of event.old)) }
    ensures own { IfErr result (λ e. IsOwn (told_stop e)) }
{
    let next = std::mem::replace(&mut frames.next, Next::Inside);
    match step_next(task, &mut frames.stack, next, before, event) {
        Ok(Moved::To(next)) => {
            frames.next = next;
            Ok(Status::Going)
        }
        Ok(Moved::Whole(value)) => Ok(Status::Complete(value)),
        Err(stop) => Err(stop),
    }
}

/// One event, where this comes next.
fn step_next<'de>(
    task: &Task<'_, '_>,
    stack: &mut Stack<'de>,
    next: Next,
    before: Span,
    event: &mut ParseEvent<'de>,
) -> Result<Moved<'de>, ReadStop<'de>>
    ensures exact { Gives told_stop (λ m. moved_of m (open_of (terms_of task.now) stack.new)) result (step_at (terms_of task.now) (next_in next (open_of (terms_of task.now) stack.old)) (span_view before) (event_of event.old)) }
    ensures own { IfErr result (λ e. IsOwn (told_stop e)) }
{
    match next {
        Next::Value { shape, depth } => begin(task, stack, shape, depth, before, event),
        Next::Inside => step_inside(task, stack, before, event),
        Next::Passed(opened) => pass_event(task, stack, opened, event),
    }
}

/// One event of the innermost frame.
fn step_inside<'de>(
    task: &Task<'_, '_>,
    stack: &mut Stack<'de>,
    before: Span,
    event: &mut ParseEvent<'de>,
) -> Result<Moved<'de>, ReadStop<'de>>
    ensures exact { Gives told_stop (λ m. moved_of m (open_of (terms_of task.now) stack.new)) result (step_at (terms_of task.now) (open_of (terms_of task.now) stack.old) (span_view before) (event_of event.old)) }
    ensures own { IfErr result (λ e. IsOwn (told_stop e)) }
{
    match kind_of(&stack.top) {
        FrameKind::Items => step_items(task, stack, before, event),
        FrameKind::Object => step_object(task, stack, before, event),
        FrameKind::Elements => step_elements(task, stack, before, event),
        FrameKind::Keyed => step_keyed(task, stack, before, event),
        FrameKind::ResultKey => step_side(task, stack, before, event),
        FrameKind::ResultEnd => step_end(task, stack, before, event),
        FrameKind::Node => step_node(task, stack, before, event),
        FrameKind::Argument => step_set(task, stack, before, event),
        _ => Err(no_step(task)),
    }
}
