//! Why an event is left that a step only looks at.
ghost use Rattle.std.specs.Prelude.{◌≡◌, ◌∷◌, true, Err};
ghost use Rattle.semantics.specs.Seen.{ends_sequence};
ghost use Rattle.event_core.specs.Events.{event_of};
ghost use Rattle.event_core.specs.Metadata.{span_view};
ghost use Rattle.laws_machine.specs.Delivery.{Status};
ghost use Rattle.laws_machine.specs.Frames.{items, elements};
ghost use Rattle.laws_machine.specs.Leaves.{leaves};
ghost use Rattle.laws_machine.specs.Steps.{item_step, element_step, step_at};
ghost use Rattle.read_steps.specs.Leaving.{items_leave, tuple_leaves};
ghost use Rattle.read_steps.specs.Stops.{told_stop, Gives, IsOwn};
ghost use Rattle.read_steps.specs.Tasks.{terms_of};
ghost use Rattle.read_steps.specs.Views.{frames_of, open_of, outer_of, items_of, tuple_of};

use crate::fields::field_at;
use crate::frames::{Frame, Frames, ItemsPart, Next, TuplePart};
use crate::items::wrong_length;
use crate::refusal::{no_step, too_deep};
use crate::stack::Stack;
use crate::stop::ReadStop;
use crate::task::Task;
use crate::tuple::past_end;
use event_core::{ParseEvent, Span};

/// Why an event is left, behind what stood there before it.
#[tactic(auto, using(crate::proofs::LeftParts::part_left))]
pub fn refuse_left<'e>(
    task: &Task<'_, '_>,
    frames: &Frames<'_>,
    before: Span,
    event: &ParseEvent<'_>,
) -> ReadStop<'e>
    requires { leaves (terms_of task.now) (frames_of (terms_of task.now) frames.now) (event_of event.now) ≡ true }
    ensures exact { Gives {Y = Status} told_stop (λ s. s) (Err result) (step_at (terms_of task.now) (frames_of (terms_of task.now) frames.now) (span_view before) (event_of event.now)) }
    ensures own { IsOwn (told_stop result) }
{
    match &frames.next {
        Next::Value { shape: _, depth: _ } => too_deep(task, &frames.stack, before),
        Next::Inside => refuse_inside(task, &frames.stack, before, event),
        Next::Passed(_) => no_step(task),
    }
}

fn refuse_inside<'e>(
    task: &Task<'_, '_>,
    stack: &Stack<'_>,
    before: Span,
    event: &ParseEvent<'_>,
) -> ReadStop<'e>
    requires { leaves (terms_of task.now) (open_of (terms_of task.now) stack.now) (event_of event.now) ≡ true }
    ensures exact { Gives {Y = Status} told_stop (λ s. s) (Err result) (step_at (terms_of task.now) (open_of (terms_of task.now) stack.now) (span_view before) (event_of event.now)) }
    ensures own { IsOwn (told_stop result) }
{
    match &stack.top {
        Frame::Items(part) => refuse_item(task, stack, part, before, event),
        Frame::Elements(part) => refuse_element(task, stack, part, before, event),
        _ => no_step(task),
    }
}

/// An item more than there may be, or one that is too deep.
#[tactic(auto, using(crate::proofs::LeftParts::item_left, crate::proofs::LeftParts::item_past))]
fn refuse_item<'e>(
    task: &Task<'_, '_>,
    stack: &Stack<'_>,
    part: &ItemsPart<'_>,
    before: Span,
    event: &ParseEvent<'_>,
) -> ReadStop<'e>
    requires inside { open_of (terms_of task.now) stack.now ≡ items (items_of (terms_of task.now) part.now) ∷ outer_of (terms_of task.now) stack.now }
    requires leaves { items_leave (terms_of task.now) (event_of event.now) (items_of (terms_of task.now) part.now) ≡ true }
    ensures exact { Gives {Y = Status} told_stop (λ s. s) (Err result) (item_step (ends_sequence (event_of event.now)) (terms_of task.now) (items_of (terms_of task.now) part.now) (outer_of (terms_of task.now) stack.now) (span_view before) (event_of event.now)) }
    ensures own { IsOwn (told_stop result) }
{
    let at = part.front.len();
    if part.of.has_room(at) {
        return too_deep(task, stack, before);
    }
    wrong_length(task, stack.outside(), part.shape, part.of, at + 1, before)
}

/// An item more than a tuple has, or one that is too deep.
#[tactic(auto, using(crate::proofs::LeftParts::element_left, crate::proofs::LeftParts::element_past))]
fn refuse_element<'e>(
    task: &Task<'_, '_>,
    stack: &Stack<'_>,
    part: &TuplePart<'_>,
    before: Span,
    event: &ParseEvent<'_>,
) -> ReadStop<'e>
    requires inside { open_of (terms_of task.now) stack.now ≡ elements (tuple_of (terms_of task.now) part.now) ∷ outer_of (terms_of task.now) stack.now }
    requires leaves { tuple_leaves (terms_of task.now) (event_of event.now) (tuple_of (terms_of task.now) part.now) ≡ true }
    ensures exact { Gives {Y = Status} told_stop (λ s. s) (Err result) (element_step (ends_sequence (event_of event.now)) (terms_of task.now) (tuple_of (terms_of task.now) part.now) (outer_of (terms_of task.now) stack.now) (span_view before) (event_of event.now)) }
    ensures own { IsOwn (told_stop result) }
{
    match field_at(task.shapes, part.shape, part.front.len()) {
        Some(_) => too_deep(task, stack, before),
        None => past_end(task, stack.outside(), part, before),
    }
}
