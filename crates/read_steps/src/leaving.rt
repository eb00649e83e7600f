//! Which events a step only looks at, and refuses.
ghost use Rattle.std.specs.Prelude.{◌≡◌, ◌<◌, true, false, None, option_map};
ghost use Rattle.semantics_lines.specs.Shapes.{definition_at};
ghost use Rattle.event_core.specs.Events.{event_of};
ghost use Rattle.shape_types.specs.Shapes.{registry};
ghost use Rattle.laws_machine.specs.Leaves.{leaves, begin_leaves};
ghost use Rattle.read_steps.specs.Leaving.{inner_in, leaves_inner, items_leave, tuple_leaves};
ghost use Rattle.read_steps.specs.Tasks.{terms_of};
ghost use Rattle.read_steps.specs.Views.{frames_of, open_of, items_of, tuple_of};

use crate::fields::field_at;
use crate::fits::{ends_sequence, is_nothing_event};
use crate::frames::{Frame, Frames, ItemsPart, Next, TuplePart};
use crate::stack::Stack;
use crate::task::{Task, Wanted};
use event_core::ParseEvent;
use shape_core::{Def, ShapeId, Shapes};

/// Whether the step of this event only looks at it, and refuses. Then the event isn't taken, and [`refuse_left`](crate::refuse_left) says why.
#[tactic(auto, using(crate::proofs::Leavings::leaves_part))]
pub fn leaves(task: &Task<'_, '_>, frames: &Frames<'_>, event: &ParseEvent<'_>) -> bool
    ensures { result ≡ leaves (terms_of task.now) (frames_of (terms_of task.now) frames.now) (event_of event.now) }
{
    match &frames.next {
        Next::Value { shape, depth } => inner_leaves(
            task,
            inner(task.shapes, *shape, event),
            *depth,
            event,
        ),
        Next::Inside => open_leaves(task, &frames.stack, event),
        Next::Passed(_) => false,
    }
}

/// The part that stands where a value of the shape does, if it is read from the same event.
pub fn inner(shapes: &Shapes, shape: ShapeId, event: &ParseEvent<'_>) -> Option<ShapeId>
    ensures { option_map (λ i. i.0) result ≡ inner_in (definition_at (registry shapes.now) shape.0) (event_of event.now) }
{
    match shapes.definition_at(shape) {
        Some(Def::Option(part)) => {
            if is_nothing_event(event) {
                return None;
            }
            Some(*part)
        }
        Some(Def::Transparent(part)) => Some(*part),
        _ => None,
    }
}

fn inner_leaves(
    task: &Task<'_, '_>,
    inner: Option<ShapeId>,
    depth: usize,
    event: &ParseEvent<'_>,
) -> bool
    ensures { result ≡ leaves_inner (terms_of task.now) (event_of event.now) depth (option_map (λ i. i.0) inner) }
{
    match inner {
        Some(part) => begin_leaves(task, part, depth, event),
        None => false,
    }
}

/// Whether a value of the shape is too deep for its first event.
#[tactic(auto, using(crate::proofs::Leavings::leaves_here))]
fn begin_leaves(task: &Task<'_, '_>, shape: ShapeId, depth: usize, event: &ParseEvent<'_>) -> bool
    ensures { result ≡ begin_leaves (terms_of task.now) (event_of event.now) depth shape.0 }
{
    let mut wanted = Wanted { shape, depth };
    'parts: while descend(task, &mut wanted, event) {}
    wanted.depth == 0
}

/// Goes on to the part that is read from the same event, and answers whether there is one within the depth.
#[tactic(auto, using(crate::proofs::Leavings::leaves_on))]
fn descend(task: &Task<'_, '_>, wanted: &mut Wanted, event: &ParseEvent<'_>) -> bool
    ensures same { begin_leaves (terms_of task.now) (event_of event.now) wanted.new.depth wanted.new.shape.0 ≡ begin_leaves (terms_of task.now) (event_of event.now) wanted.old.depth wanted.old.shape.0 }
    ensures last { result ≡ false → 0 < wanted.new.depth → inner_in (definition_at (registry task.now.shapes.now) wanted.new.shape.0) (event_of event.now) ≡ None }
    ensures fewer { result ≡ true → wanted.new.depth < wanted.old.depth }
{
    if wanted.depth == 0 {
        return false;
    }
    match inner(task.shapes, wanted.shape, event) {
        Some(part) => {
            wanted.shape = part;
            wanted.depth -= 1;
            true
        }
        None => false,
    }
}

fn open_leaves(task: &Task<'_, '_>, stack: &Stack<'_>, event: &ParseEvent<'_>) -> bool
    ensures { result ≡ leaves (terms_of task.now) (open_of (terms_of task.now) stack.now) (event_of event.now) }
{
    match &stack.top {
        Frame::Items(part) => items_leave(task, part, event),
        Frame::Elements(part) => tuple_leaves(task, part, event),
        _ => false,
    }
}

fn items_leave(task: &Task<'_, '_>, part: &ItemsPart<'_>, event: &ParseEvent<'_>) -> bool
    ensures { result ≡ items_leave (terms_of task.now) (event_of event.now) (items_of (terms_of task.now) part.now) }
{
    if ends_sequence(event) {
        return false;
    }
    if !part.of.has_room(part.front.len()) {
        return true;
    }
    begin_leaves(task, part.of.item, part.depth, event)
}

fn tuple_leaves(task: &Task<'_, '_>, part: &TuplePart<'_>, event: &ParseEvent<'_>) -> bool
    ensures { result ≡ tuple_leaves (terms_of task.now) (event_of event.now) (tuple_of (terms_of task.now) part.now) }
{
    if ends_sequence(event) {
        return false;
    }
    match field_at(task.shapes, part.shape, part.front.len()) {
        Some(field) => begin_leaves(task, field.shape, part.depth, event),
        None => true,
    }
}
