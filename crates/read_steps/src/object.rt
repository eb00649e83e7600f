//! The entries of structs.
ghost use Rattle.std.specs.Prelude.{◌≡◌, Some, IfErr};
ghost use Rattle.semantics_lines.specs.Faults.{unknown_field, duplicate_field};
ghost use Rattle.shape_types.specs.Texts.{text_bytes, phrase_of};
ghost use Rattle.event_core.specs.Events.{event_of};
ghost use Rattle.event_core.specs.Metadata.{span_view};
ghost use Rattle.laws_reading.specs.Values.{Terms};
ghost use Rattle.laws_machine.specs.Steps.{step_at};
ghost use Rattle.read_steps.specs.Fits.{at_end, at_name};
ghost use Rattle.read_steps.specs.Refusals.{fault_in};
ghost use Rattle.read_steps.specs.Stepping.{entered_by, field_entered, known_by, marked_step, unknown_by};
ghost use Rattle.read_steps.specs.Stops.{told_stop, Gives, IsFault, IsOwn};
ghost use Rattle.read_steps.specs.Tasks.{terms_of};
ghost use Rattle.read_steps.specs.Views.{open_of, moved_of, entered_of};
ghost use Rattle.read_steps.specs.Kinds.{kind_of};
ghost use Rattle.read_steps.specs.declared.kind.FrameKind.TheVariants as kinds;

use crate::awaiting::await_next;
use crate::delivery::deliver;
use crate::expected::Expected;
use crate::fields::{denies, field_at, place_of};
use crate::fill::gather;
use crate::filled::first_key;
use crate::fits::{Mark, mark_event};
use crate::frames::{Frame, Moved};
use crate::key::KeyAt;
use crate::order::step_order;
use crate::parts::close_object;
use crate::pass::pass_entry;
use crate::refusal::{never, refusal, unexpected};
use crate::stack::Stack;
use crate::stop::ReadStop;
use crate::task::Task;
use event_core::{DeserializeErrorKind, ParseEvent, Span};
use shape_core::Text;

/// A key of a struct, or its end.
#[tactic(auto, using(crate::proofs::Objects::object_at, crate::proofs::Stands::stands))]
pub fn step_object<'de>(
    task: &Task<'_, '_>,
    stack: &mut Stack<'de>,
    before: Span,
    event: &mut ParseEvent<'de>,
) -> Result<Moved<'de>, ReadStop<'de>>
    requires { kind_of stack.old.top ≡ kinds.Object }
    ensures exact { Gives told_stop (λ m. moved_of m (open_of (terms_of task.now) stack.new)) result (step_at (terms_of task.now) (open_of (terms_of task.now) stack.old) (span_view before) (event_of event.old)) }
    ensures own { IfErr result (λ e. IsOwn (told_stop e)) }
{
    task.shapes.rules();
    let span = event.span;
    match mark_event(Expected::KeyOrEnd, event) {
        Mark::End => end_struct(task, stack, span),
        Mark::Name(name) => step_name(task, stack, name, span),
        Mark::Nameless => Ok(pass_entry(task)),
        Mark::Ordered(unfit) => step_order(task, stack, unfit, span),
        Mark::Elsewhere(unfit) => Err(unexpected(task, stack, unfit, span)),
    }
}

/// The struct of what was read.
fn end_struct<'de>(
    task: &Task<'_, '_>,
    stack: &mut Stack<'de>,
    span: Span,
) -> Result<Moved<'de>, ReadStop<'de>>
    requires { kind_of stack.old.top ≡ kinds.Object }
    ensures exact { Gives told_stop (λ m. moved_of m (open_of (terms_of task.now) stack.new)) result (marked_step at_end (terms_of task.now) (open_of (terms_of task.now) stack.old) (span_view span)) }
    ensures own { IfErr result (λ e. IsOwn (told_stop e)) }
{
    let part = close_object(stack);
    match gather(task, stack, part.shape, part.filled, span) {
        Ok(value) => deliver(task, stack, value),
        Err(stop) => Err(stop),
    }
}

/// A key with a name.
fn step_name<'de>(
    task: &Task<'_, '_>,
    stack: &mut Stack<'de>,
    name: Text<'de>,
    span: Span,
) -> Result<Moved<'de>, ReadStop<'de>>
    requires { kind_of stack.old.top ≡ kinds.Object }
    ensures exact { Gives told_stop (λ m. moved_of m (open_of (terms_of task.now) stack.new)) result (marked_step (at_name (phrase_of name.entry)) (terms_of task.now) (open_of (terms_of task.now) stack.old) (span_view span)) }
    ensures own { IfErr result (λ e. IsOwn (told_stop e)) }
{
    match &stack.top {
        Frame::Object(part) => match place_of(task.shapes, part.shape, name.as_str()) {
            Some(place) => step_known(task, stack, name, KeyAt { place, span }),
            None => step_unknown(task, stack, name, span),
        },
        _ => unreachable!(),
    }
}

/// A key of this name that leads to a field, unless the field was read already.
fn step_known<'de>(
    task: &Task<'_, '_>,
    stack: &mut Stack<'de>,
    name: Text<'de>,
    key: KeyAt,
) -> Result<Moved<'de>, ReadStop<'de>>
    requires { kind_of stack.old.top ≡ kinds.Object }
    ensures exact { Gives told_stop (λ m. moved_of m (open_of (terms_of task.now) stack.new)) result (known_by (text_bytes name.entry) key.place (terms_of task.now) (span_view key.span) (open_of (terms_of task.now) stack.old)) }
    ensures own { IfErr result (λ e. IsOwn (told_stop e)) }
{
    match &stack.top {
        Frame::Object(part) => match first_key(part.filled.as_slice(), key.place) {
            Some(first) => Err(duplicate(task, stack, name, key.span, first)),
            None => {
                drop(name);
                enter(task, stack, key)
            }
        },
        _ => unreachable!(),
    }
}

/// A key of this name that leads nowhere. Its value is passed over, where such keys aren't refused.
fn step_unknown<'de>(
    task: &Task<'_, '_>,
    stack: &mut Stack<'de>,
    name: Text<'de>,
    span: Span,
) -> Result<Moved<'de>, ReadStop<'de>>
    requires { kind_of stack.old.top ≡ kinds.Object }
    ensures exact { Gives told_stop (λ m. moved_of m (open_of (terms_of task.now) stack.new)) result (unknown_by (text_bytes name.entry) (terms_of task.now) (span_view span) (open_of (terms_of task.now) stack.old)) }
    ensures own { IfErr result (λ e. IsOwn (told_stop e)) }
{
    match &stack.top {
        Frame::Object(part) => {
            if denies(task.shapes, part.shape) {
                Err(unknown(task, stack, name, span))
            } else {
                drop(name);
                Ok(pass_entry(task))
            }
        }
        _ => unreachable!(),
    }
}

/// The value of a field comes, behind its key.
pub fn enter<'de>(
    task: &Task<'_, '_>,
    stack: &mut Stack<'de>,
    key: KeyAt,
) -> Result<Moved<'de>, ReadStop<'de>>
    requires { kind_of stack.old.top ≡ kinds.Object }
    ensures exact { Gives told_stop (λ m. moved_of m (open_of (terms_of task.now) stack.new)) result (entered_by key.place (terms_of task.now) (entered_of key) (open_of (terms_of task.now) stack.old)) }
    ensures own { IfErr result (λ e. IsOwn (told_stop e)) }
{
    match &stack.top {
        Frame::Object(part) => match field_at(task.shapes, part.shape, key.place) {
            Some(field) => {
                let depth = part.depth;
                take_key(stack, key);
                await_next(task, stack, field.shape, depth, key.span)
            }
            None => Err(never(task, stack.inside(), key.span)),
        },
        _ => unreachable!(),
    }
}

/// A key was taken, whose value comes.
fn take_key(stack: &mut Stack<'_>, key: KeyAt)
    requires { kind_of stack.old.top ≡ kinds.Object }
    ensures { (t : Terms) → open_of t stack.new ≡ field_entered (entered_of key) (open_of t stack.old) }
{
    match &mut stack.top {
        Frame::Object(part) => part.key = Some(key),
        _ => unreachable!(),
    }
}

/// No field has this name, and the struct refuses such keys.
fn unknown<'e>(task: &Task<'_, '_>, stack: &Stack<'_>, name: Text<'e>, span: Span) -> ReadStop<'e>
    ensures own { IsOwn (told_stop result) }
    ensures is { IsFault (told_stop result) (fault_in (terms_of task.now) (open_of (terms_of task.now) stack.now) (unknown_field (text_bytes name.entry)) (span_view span)) }
{
    let kind = DeserializeErrorKind::UnknownField {
        field: name,
        suggestion: None,
    };
    refusal(task, stack.inside(), kind, span)
}

/// The field was read already, under a key that stands at `first`.
pub fn duplicate<'e>(
    task: &Task<'_, '_>,
    stack: &Stack<'_>,
    name: Text<'e>,
    span: Span,
    first: Span,
) -> ReadStop<'e>
    ensures own { IsOwn (told_stop result) }
    ensures is { IsFault (told_stop result) (fault_in (terms_of task.now) (open_of (terms_of task.now) stack.now) (duplicate_field (text_bytes name.entry) (Some (span_view first))) (span_view span)) }
{
    let kind = DeserializeErrorKind::DuplicateField {
        field: name,
        first_span: Some(first),
    };
    refusal(task, stack.inside(), kind, span)
}
