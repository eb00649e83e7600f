//! Values that have to come, before their first event.
ghost use Rattle.std.specs.Prelude.{◌≡◌, ◌<◌, [], true, false, None, IfErr, option_map};
ghost use Rattle.semantics_lines.specs.Events.{Span as MachineSpan};
ghost use Rattle.semantics.specs.Reading.{from_events};
ghost use Rattle.semantics_lines.specs.Shapes.{definition_at};
ghost use Rattle.shape_types.specs.Shapes.{registry};
ghost use Rattle.event_core.specs.Metadata.{span_view};
ghost use Rattle.laws_machine.specs.Begins.{await};
ghost use Rattle.laws_machine.specs.Delivery.{going};
ghost use Rattle.laws_machine.specs.Frames.{Frames as MachineFrames};
ghost use Rattle.read_steps.specs.Leaving.{same_in};
ghost use Rattle.read_steps.specs.Stops.{told_stop, Gives, IsOwn};
ghost use Rattle.read_steps.specs.Tasks.{terms_of};
ghost use Rattle.read_steps.specs.Views.{frames_of, open_of, next_in, moved_of};

use crate::frames::{Frames, Moved, Next};
use crate::refusal::too_deep;
use crate::stack::Stack;
use crate::stop::ReadStop;
use crate::task::{Task, Wanted};
use event_core::Span;
use shape_core::{Def, ShapeId, Shapes};

/// A whole value of the shape, within the depth, has to come behind what stood there last. Nothing may be open.
#[tactic(auto, using(crate::proofs::Awaits::nothing_open))]
pub fn await_value<'de>(
    task: &Task<'_, '_>,
    frames: &mut Frames<'de>,
    shape: ShapeId,
    depth: usize,
    last: Span,
) -> Result<(), ReadStop<'de>>
    requires { frames_of (terms_of task.now) frames.old ≡ [] }
    ensures exact { Gives told_stop (λ _. going (frames_of (terms_of task.now) frames.new)) result (await (terms_of task.now) depth shape.0 from_events [] (span_view last)) }
    ensures own { IfErr result (λ e. IsOwn (told_stop e)) }
{
    match await_shape(task, &frames.stack, shape, depth, last) {
        Ok(next) => {
            frames.next = next;
            Ok(())
        }
        Err(stop) => Err(stop),
    }
}

/// A part of what is open has to come.
pub fn await_next<'de>(
    task: &Task<'_, '_>,
    stack: &Stack<'_>,
    shape: ShapeId,
    depth: usize,
    last: Span,
) -> Result<Moved<'de>, ReadStop<'de>>
    ensures exact { Gives told_stop (λ m. moved_of m (open_of (terms_of task.now) stack.now)) result (await (terms_of task.now) depth shape.0 from_events (open_of (terms_of task.now) stack.now) (span_view last)) }
    ensures own { IfErr result (λ e. IsOwn (told_stop e)) }
{
    match await_shape(task, stack, shape, depth, last) {
        Ok(next) => Ok(Moved::To(next)),
        Err(stop) => Err(stop),
    }
}

/// What comes next, where that is a value of the shape: transparent shapes are those inside them.
fn await_shape<'de>(
    task: &Task<'_, '_>,
    stack: &Stack<'_>,
    shape: ShapeId,
    depth: usize,
    last: Span,
) -> Result<Next, ReadStop<'de>>
    ensures exact { Gives told_stop (λ n. going (next_in n (open_of (terms_of task.now) stack.now))) result (await (terms_of task.now) depth shape.0 from_events (open_of (terms_of task.now) stack.now) (span_view last)) }
    ensures own { IfErr result (λ e. IsOwn (told_stop e)) }
{
    let mut wanted = Wanted { shape, depth };
    'parts: while follow(task, &mut wanted) {}
    await_here(task, stack, wanted, last)
}

/// Goes on to the shape inside a transparent one, and answers whether there is one within the depth.
#[tactic(auto, using(crate::proofs::Awaits::await_on))]
fn follow(task: &Task<'_, '_>, wanted: &mut Wanted) -> bool
    ensures same { (fs : MachineFrames) (last : MachineSpan) → await (terms_of task.now) wanted.new.depth wanted.new.shape.0 from_events fs last ≡ await (terms_of task.now) wanted.old.depth wanted.old.shape.0 from_events fs last }
    ensures last { result ≡ false → 0 < wanted.new.depth → same_in (definition_at (registry task.now.shapes.now) wanted.new.shape.0) ≡ None }
    ensures fewer { result ≡ true → wanted.new.depth < wanted.old.depth }
{
    if wanted.depth == 0 {
        return false;
    }
    match same(task.shapes, wanted.shape) {
        Some(part) => {
            wanted.shape = part;
            wanted.depth -= 1;
            true
        }
        None => false,
    }
}

/// The shape inside a transparent one.
fn same(shapes: &Shapes, shape: ShapeId) -> Option<ShapeId>
    ensures { option_map (λ i. i.0) result ≡ same_in (definition_at (registry shapes.now) shape.0) }
{
    match shapes.definition_at(shape) {
        Some(Def::Transparent(part)) => Some(*part),
        _ => None,
    }
}

#[tactic(auto, using(crate::proofs::Awaits::await_deep, crate::proofs::Awaits::await_is))]
fn await_here<'de>(
    task: &Task<'_, '_>,
    stack: &Stack<'_>,
    wanted: Wanted,
    last: Span,
) -> Result<Next, ReadStop<'de>>
    requires { 0 < wanted.depth → same_in (definition_at (registry task.now.shapes.now) wanted.shape.0) ≡ None }
    ensures exact { Gives told_stop (λ n. going (next_in n (open_of (terms_of task.now) stack.now))) result (await (terms_of task.now) wanted.depth wanted.shape.0 from_events (open_of (terms_of task.now) stack.now) (span_view last)) }
    ensures own { IfErr result (λ e. IsOwn (told_stop e)) }
{
    if wanted.depth == 0 {
        return Err(too_deep(task, stack, last));
    }
    Ok(Next::Value {
        shape: wanted.shape,
        depth: wanted.depth - 1,
    })
}
