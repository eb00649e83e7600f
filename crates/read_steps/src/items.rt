//! The items of lists and arrays.
ghost use Rattle.std.specs.Prelude.{◌≡◌, map, IfErr};
ghost use Rattle.semantics.specs.Labels.{label_at};
ghost use Rattle.semantics.specs.Seen.{ends_sequence};
ghost use Rattle.semantics_lines.specs.Trees.{list, trees_of};
ghost use Rattle.shape_types.specs.Shapes.{registry};
ghost use Rattle.shape_types.specs.Trees.{tree_of};
ghost use Rattle.event_core.specs.Events.{event_of};
ghost use Rattle.event_core.specs.Metadata.{span_view};
ghost use Rattle.laws_machine.specs.Steps.{step_at};
ghost use Rattle.read_steps.specs.Refusals.{length_fault_in};
ghost use Rattle.read_steps.specs.Stepping.{items_done};
ghost use Rattle.read_steps.specs.Stops.{told_stop, Gives, IsFault, IsOwn};
ghost use Rattle.read_steps.specs.Tasks.{terms_of};
ghost use Rattle.read_steps.specs.Views.{open_of, moved_of, items_of, place_of};
ghost use Rattle.read_steps.specs.Kinds.{kind_of};
ghost use Rattle.read_steps.specs.declared.kind.FrameKind.TheVariants as kinds;

use crate::begin::begin_part;
use crate::delivery::deliver;
use crate::fits::ends_sequence;
use crate::frames::{Frame, ItemsPart, Moved};
use crate::parts::close_items;
use crate::refusal::{never, other_length};
use crate::stack::{Place, Stack};
use crate::stop::ReadStop;
use crate::task::{ItemsOf, Task};
use event_core::{ParseEvent, Span};
use shape_core::{Items, ShapeId, Value};

/// One item more, or the end of the sequence.
#[tactic(auto, using(crate::proofs::Lengths::length_is))]
pub fn step_items<'de>(
    task: &Task<'_, '_>,
    stack: &mut Stack<'de>,
    before: Span,
    event: &mut ParseEvent<'de>,
) -> Result<Moved<'de>, ReadStop<'de>>
    requires { kind_of stack.old.top ≡ kinds.Items }
    ensures exact { Gives told_stop (λ m. moved_of m (open_of (terms_of task.now) stack.new)) result (step_at (terms_of task.now) (open_of (terms_of task.now) stack.old) (span_view before) (event_of event.old)) }
    ensures own { IfErr result (λ e. IsOwn (told_stop e)) }
{
    if ends_sequence(event) {
        let span = event.span;
        let part = close_items(stack);
        return end_items(task, stack, part, span);
    }
    match &stack.top {
        Frame::Items(part) => {
            let at = part.front.len();
            if !part.of.has_room(at) {
                return Err(wrong_length(
                    task,
                    stack.outside(),
                    part.shape,
                    part.of,
                    at + 1,
                    before,
                ));
            }
            let item = part.of.item;
            let depth = part.depth;
            begin_part(task, stack, item, depth, before, event)
        }
        _ => unreachable!(),
    }
}

/// The list or the array of all items.
#[tactic(auto, using(crate::proofs::Lengths::length_is))]
fn end_items<'de>(
    task: &Task<'_, '_>,
    stack: &mut Stack<'de>,
    part: ItemsPart<'de>,
    span: Span,
) -> Result<Moved<'de>, ReadStop<'de>>
    ensures exact { Gives told_stop (λ m. moved_of m (open_of (terms_of task.now) stack.new)) result (items_done (terms_of task.now) (items_of (terms_of task.now) part.entry) (open_of (terms_of task.now) stack.old) (span_view span)) }
    ensures own { IfErr result (λ e. IsOwn (told_stop e)) }
{
    let got = part.front.len();
    if !part.of.is_whole(got) {
        return Err(wrong_length(task, stack.inside(), part.shape, part.of, got, span));
    }
    deliver(task, stack, list_of(part.front))
}

/// The list or array of these items.
fn list_of<'de>(items: Vec<Value<'de>>) -> Value<'de>
    ensures { tree_of result ≡ list (trees_of (map tree_of items.entry.items)) }
{
    Value::List(Items::from_vec(items))
}

/// Why an array of another length is refused. A list has none.
pub fn wrong_length<'e>(
    task: &Task<'_, '_>,
    place: Place<'_, '_>,
    shape: ShapeId,
    of: ItemsOf,
    got: usize,
    span: Span,
) -> ReadStop<'e>
    ensures is { IsFault (told_stop result) (length_fault_in (terms_of task.now) (place_of (terms_of task.now) place.entry) of.len (label_at (registry task.now.shapes.now) shape.0) got (span_view span)) }
    ensures own { IsOwn (told_stop result) }
{
    match of.len {
        Some(wanted) => other_length(task, place, shape, wanted, got, span),
        None => never(task, place, span),
    }
}
