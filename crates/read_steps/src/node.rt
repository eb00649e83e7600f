//! Nodes that stand for scalars.
ghost use Rattle.std.specs.Prelude.{◌≡◌, ◌∷◌, true, Some, codes, option_map, IfErr};
ghost use Rattle.semantics_lines.specs.Events.{span_of};
ghost use Rattle.semantics_lines.specs.Faults.{duplicate_field};
ghost use Rattle.event_core.specs.Events.{event_of, scalar_of};
ghost use Rattle.event_core.specs.Metadata.{span_view};
ghost use Rattle.laws_reading.specs.Values.{Terms};
ghost use Rattle.laws_machine.specs.Frames.{Frames};
ghost use Rattle.laws_machine.specs.Steps.{step_at};
ghost use Rattle.read_steps.specs.Refusals.{fault_in};
ghost use Rattle.read_steps.specs.Stepping.{argument_in, argument_set, node_ended, node_marked, set_begun};
ghost use Rattle.read_steps.specs.Fits.{is_scalar, as_scalar, at_name, begun_of};
ghost use Rattle.read_steps.specs.Stops.{told_stop, Gives, IsFault, IsOwn};
ghost use Rattle.read_steps.specs.Tasks.{terms_of};
ghost use Rattle.read_steps.specs.Views.{open_of, moved_of, node_frame, node_of};
ghost use Rattle.read_steps.specs.Kinds.{kind_of, node_kind};
ghost use Rattle.read_steps.specs.declared.kind.FrameKind.TheVariants as kinds;
ghost use Rattle.shape_types.specs.Texts.{phrase_of};
ghost use Rattle.shape_types.specs.Trees.{tree_of};

use crate::delivery::deliver;
use crate::expected::{Expected, Unfit};
use crate::fits::{Mark, is_scalar, mark_event, take_scalar};
use crate::frames::{ArgumentKey, Frame, Moved, Next, NodePart};
use crate::opened::Opened;
use crate::parts::close_node;
use crate::pass::{pass_entry, pass_event};
use crate::refusal::{refusal, unexpected};
use crate::scalar::set_value;
use crate::stack::Stack;
use crate::stop::ReadStop;
use crate::task::Task;
use event_core::{DeserializeErrorKind, ParseEvent, ParseEventKind, ScalarValue, Span};
use shape_core::{Text, Value};

/// A key of a node, or its end.
#[tactic(auto, using(crate::proofs::Nodes::node_at, crate::proofs::Stands::stands))]
pub fn step_node<'de>(
    task: &Task<'_, '_>,
    stack: &mut Stack<'de>,
    before: Span,
    event: &mut ParseEvent<'de>,
) -> Result<Moved<'de>, ReadStop<'de>>
    requires { kind_of stack.old.top ≡ kinds.Node }
    ensures exact { Gives told_stop (λ m. moved_of m (open_of (terms_of task.now) stack.new)) result (step_at (terms_of task.now) (open_of (terms_of task.now) stack.old) (span_view before) (event_of event.old)) }
    ensures own { IfErr result (λ e. IsOwn (told_stop e)) }
{
    let span = event.span;
    match mark_event(Expected::FieldOrEnd, event) {
        Mark::End => {
            let part = close_node(stack);
            end_node(task, stack, part.value, span)
        }
        Mark::Name(name) => step_name(task, stack, name, span),
        Mark::Nameless => Ok(pass_entry(task)),
        Mark::Ordered(unfit) | Mark::Elsewhere(unfit) => {
            Err(unexpected(task, stack, unfit, span))
        }
    }
}

/// The value of a node at its end.
fn end_node<'de>(
    task: &Task<'_, '_>,
    stack: &mut Stack<'de>,
    value: Option<Value<'de>>,
    span: Span,
) -> Result<Moved<'de>, ReadStop<'de>>
    ensures exact { Gives told_stop (λ m. moved_of m (open_of (terms_of task.now) stack.new)) result (node_ended (option_map tree_of value.entry) (terms_of task.now) (open_of (terms_of task.now) stack.old) (span_view span)) }
    ensures own { IfErr result (λ e. IsOwn (told_stop e)) }
{
    match value {
        Some(value) => deliver(task, stack, value),
        None => {
            let unfit = Unfit {
                got: "node without argument",
                expected: Expected::ScalarOrNode,
            };
            Err(unexpected(task, stack, unfit, span))
        }
    }
}

/// A key with a name: that of the argument, or another one.
fn step_name<'de>(
    task: &Task<'_, '_>,
    stack: &mut Stack<'de>,
    name: Text<'de>,
    span: Span,
) -> Result<Moved<'de>, ReadStop<'de>>
    requires { kind_of stack.old.top ≡ kinds.Node }
    ensures exact { Gives told_stop (λ m. moved_of m (open_of (terms_of task.now) stack.new)) result (node_marked (at_name (phrase_of name.entry)) (terms_of task.now) (open_of (terms_of task.now) stack.old) (span_view span)) }
    ensures own { IfErr result (λ e. IsOwn (told_stop e)) }
{
    if name.as_str() == "_arg" {
        return step_argument(task, stack, span);
    }
    Ok(pass_entry(task))
}

/// The key of the argument, after which its value has to come, unless there was one.
fn step_argument<'de>(
    task: &Task<'_, '_>,
    stack: &mut Stack<'de>,
    span: Span,
) -> Result<Moved<'de>, ReadStop<'de>>
    requires { kind_of stack.old.top ≡ kinds.Node }
    ensures exact { Gives told_stop (λ m. moved_of m (open_of (terms_of task.now) stack.new)) result (argument_in (terms_of task.now) (open_of (terms_of task.now) stack.old) (span_view span)) }
    ensures own { IfErr result (λ e. IsOwn (told_stop e)) }
{
    match &mut stack.top {
        Frame::Node(part) => match part.key {
            ArgumentKey::Past(first) => Err(second_argument(task, stack, first, span)),
            _ => {
                part.key = ArgumentKey::Open(span);
                Ok(Moved::To(Next::Inside))
            }
        },
        _ => unreachable!(),
    }
}

/// A second argument, which stands there.
fn second_argument<'e>(
    task: &Task<'_, '_>,
    stack: &Stack<'_>,
    first: Span,
    span: Span,
) -> ReadStop<'e>
    ensures own { IsOwn (told_stop result) }
    ensures is { IsFault (told_stop result) (fault_in (terms_of task.now) (open_of (terms_of task.now) stack.now) (duplicate_field (codes "_arg") (Some (span_view first))) (span_view span)) }
{
    let kind = DeserializeErrorKind::DuplicateField {
        field: Text::Borrowed("_arg"),
        first_span: Some(first),
    };
    refusal(task, stack.inside(), kind, span)
}

/// What stands behind the key of the argument: a scalar that is set, or a value that is passed over.
#[tactic(auto, using(crate::proofs::Nodes::argument_passes, crate::proofs::Nodes::argument_sets))]
pub fn step_set<'de>(
    task: &Task<'_, '_>,
    stack: &mut Stack<'de>,
    before: Span,
    event: &mut ParseEvent<'de>,
) -> Result<Moved<'de>, ReadStop<'de>>
    requires { kind_of stack.old.top ≡ kinds.Argument }
    ensures exact { Gives told_stop (λ m. moved_of m (open_of (terms_of task.now) stack.new)) result (step_at (terms_of task.now) (open_of (terms_of task.now) stack.old) (span_view before) (event_of event.old)) }
    ensures own { IfErr result (λ e. IsOwn (told_stop e)) }
{
    if is_scalar(event) {
        return set_event(task, stack, event);
    }
    set_node(stack, None);
    pass_event(task, stack, Opened::new(task.alloc), event)
}

/// The argument, which is a scalar.
fn set_event<'de>(
    task: &Task<'_, '_>,
    stack: &mut Stack<'de>,
    event: &mut ParseEvent<'de>,
) -> Result<Moved<'de>, ReadStop<'de>>
    requires kind { kind_of stack.old.top ≡ kinds.Argument }
    requires scalar { is_scalar (event_of event.old) ≡ true }
    ensures exact { Gives told_stop (λ m. moved_of m (open_of (terms_of task.now) stack.new)) result (set_begun (begun_of (event_of event.old)) (terms_of task.now) (open_of (terms_of task.now) stack.old) (span_of (event_of event.old))) }
    ensures own { IfErr result (λ e. IsOwn (told_stop e)) }
{
    let span = event.span;
    match &mut event.kind {
        ParseEventKind::Scalar(scalar) => set_argument(task, stack, take_scalar(scalar), span),
        _ => unreachable!(),
    }
}

/// The argument is set.
fn set_argument<'de>(
    task: &Task<'_, '_>,
    stack: &mut Stack<'de>,
    scalar: ScalarValue<'de>,
    span: Span,
) -> Result<Moved<'de>, ReadStop<'de>>
    requires { kind_of stack.old.top ≡ kinds.Argument }
    ensures exact { Gives told_stop (λ m. moved_of m (open_of (terms_of task.now) stack.new)) result (set_begun (as_scalar (scalar_of scalar.entry)) (terms_of task.now) (open_of (terms_of task.now) stack.old) (span_view span)) }
    ensures own { IfErr result (λ e. IsOwn (told_stop e)) }
{
    match &stack.top {
        Frame::Node(part) => match set_value(task, stack, part.shape, part.scalar, scalar, span) {
            Ok(value) => {
                set_node(stack, Some(value));
                Ok(Moved::To(Next::Inside))
            }
            Err(stop) => Err(stop),
        },
        _ => unreachable!(),
    }
}

/// The node has this argument, whose key was taken.
fn set_node<'de>(stack: &mut Stack<'de>, value: Option<Value<'de>>)
    requires { kind_of stack.old.top ≡ kinds.Argument }
    ensures { (t : Terms) → open_of t stack.new ≡ argument_set (option_map tree_of value.entry) (open_of t stack.old) }
{
    match &mut stack.top {
        Frame::Node(part) => set_part(part, value),
        _ => unreachable!(),
    }
}

fn set_part<'de>(part: &mut NodePart<'de>, value: Option<Value<'de>>)
    requires { node_kind part.old.key ≡ kinds.Argument }
    ensures { (t : Terms) (fs : Frames) → node_frame (node_of t part.new) part.new.key ∷ fs ≡ argument_set (option_map tree_of value.entry) (node_frame (node_of t part.old) part.old.key ∷ fs) }
{
    match part.key {
        ArgumentKey::Open(first) => {
            part.key = ArgumentKey::Past(first);
            drop(std::mem::replace(&mut part.value, value));
        }
        _ => unreachable!(),
    }
}
