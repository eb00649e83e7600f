//! Results: the key, what it holds, and the end.
ghost use Rattle.std.specs.Prelude.{◌≡◌, Some, IfOk, IfErr};
ghost use Rattle.semantics_lines.specs.Events.{span_of};
ghost use Rattle.semantics_lines.specs.Faults.{unexpected_token};
ghost use Rattle.shape_types.specs.Texts.{phrase_of};
ghost use Rattle.shape_types.specs.Trees.{tree_of};
ghost use Rattle.event_core.specs.Events.{event_of};
ghost use Rattle.event_core.specs.Keys.{key_name};
ghost use Rattle.event_core.specs.Metadata.{span_view};
ghost use Rattle.laws_reading.specs.Options.{side_in, outcome};
ghost use Rattle.laws_machine.specs.Steps.{step_at};
ghost use Rattle.laws_machine.specs.Delivery.{deliver};
ghost use Rattle.read_steps.specs.Fits.{fit, named_side};
ghost use Rattle.read_steps.specs.Refusals.{fault_in};
ghost use Rattle.read_steps.specs.Stops.{told_stop, Gives, IsFault, IsOwn};
ghost use Rattle.read_steps.specs.Tasks.{terms_of};
ghost use Rattle.read_steps.specs.Views.{open_of, moved_of, result_of};
ghost use Rattle.read_steps.specs.Kinds.{kind_of};
ghost use Rattle.read_steps.specs.declared.kind.FrameKind.TheVariants as kinds;

use crate::awaiting::await_next;
use crate::delivery::deliver;
use crate::expected::{Expected, Unfit};
use crate::fits::fit_struct_end;
use crate::frames::{Frame, Moved};
use crate::key::take_name;
use crate::parts::close_result;
use crate::refusal::{refusal, unexpected};
use crate::stack::Stack;
use crate::stop::ReadStop;
use crate::task::Task;
use event_core::{DeserializeErrorKind, FieldKey, ParseEvent, ParseEventKind, Span};
use shape_core::{Boxed, Name, OutOfMemory, Text, Value};
use std::alloc::Global;

/// An event that names no side of a result.
#[derive(Drop)]
pub enum NoSide<'de> {
    /// Another event than a key, or a key without a name.
    Unfit(Unfit),
    /// A key of another name.
    Other(Text<'de>),
}

/// The key of a result, after which what it holds has to come.
pub fn step_side<'de>(
    task: &Task<'_, '_>,
    stack: &mut Stack<'de>,
    before: Span,
    event: &mut ParseEvent<'de>,
) -> Result<Moved<'de>, ReadStop<'de>>
    requires { kind_of stack.old.top ≡ kinds.ResultKey }
    ensures exact { Gives told_stop (λ m. moved_of m (open_of (terms_of task.now) stack.new)) result (step_at (terms_of task.now) (open_of (terms_of task.now) stack.old) (span_view before) (event_of event.old)) }
    ensures own { IfErr result (λ e. IsOwn (told_stop e)) }
{
    match &stack.top {
        Frame::ResultKey(part) => {
            let part = *part;
            let span = event.span;
            match fit_side(event) {
                Ok(ok) => {
                    stack.replace(Frame::ResultSide(part, ok));
                    await_next(task, stack, part.sides.side(ok).shape, part.depth, span)
                }
                Err(other) => Err(no_side(task, stack, other, span)),
            }
        }
        _ => unreachable!(),
    }
}

/// The end of a result, after what it holds.
#[tactic(auto, using(crate::proofs::Results::close_is))]
pub fn step_end<'de>(
    task: &Task<'_, '_>,
    stack: &mut Stack<'de>,
    before: Span,
    event: &ParseEvent<'_>,
) -> Result<Moved<'de>, ReadStop<'de>>
    requires { kind_of stack.old.top ≡ kinds.ResultEnd }
    ensures exact { Gives told_stop (λ m. moved_of m (open_of (terms_of task.now) stack.new)) result (step_at (terms_of task.now) (open_of (terms_of task.now) stack.old) (span_view before) (event_of event.now)) }
    ensures own { IfErr result (λ e. IsOwn (told_stop e)) }
{
    let (ok, held) = close_result(stack);
    let span = event.span;
    match fit_struct_end(Expected::ResultVariantEnd, event) {
        Ok(()) => end_result(task, stack, ok, held),
        Err(unfit) => {
            drop(held);
            Err(unexpected(task, stack, unfit, span))
        }
    }
}

fn end_result<'de>(
    task: &Task<'_, '_>,
    stack: &mut Stack<'de>,
    ok: bool,
    held: Value<'de>,
) -> Result<Moved<'de>, ReadStop<'de>>
    ensures exact { Gives told_stop (λ m. moved_of m (open_of (terms_of task.now) stack.new)) result (deliver (open_of (terms_of task.now) stack.old) (outcome ok (tree_of held.entry))) }
    ensures own { IfErr result (λ e. IsOwn (told_stop e)) }
{
    match outcome(task.alloc, ok, held) {
        Ok(value) => deliver(task, stack, value),
        Err(_) => Err(ReadStop::Alloc),
    }
}

/// A result that went well, or that didn't, and holds this value.
fn outcome<'de>(alloc: Global, ok: bool, value: Value<'de>) -> Result<Value<'de>, OutOfMemory>
    ensures { IfOk result (λ v. tree_of v ≡ outcome ok (tree_of value.entry)) }
{
    let held = Boxed::new(alloc, value)?;
    if ok {
        Ok(Value::Ok(held))
    } else {
        Ok(Value::Err(held))
    }
}

/// Whether a result went well, by its key.
#[tactic(auto, using(crate::proofs::Results::side_named))]
fn fit_side<'de>(event: &mut ParseEvent<'de>) -> Result<bool, NoSide<'de>>
    ensures { fit (λ ok. ok) result ≡ side_in (event_of event.old) }
{
    let got = event.kind_name();
    match &mut event.kind {
        ParseEventKind::FieldKey(key) => named_side(key),
        _ => Err(NoSide::Unfit(Unfit {
            got,
            expected: Expected::VariantKey,
        })),
    }
}

fn named_side<'de>(key: &mut FieldKey<'de>) -> Result<bool, NoSide<'de>>
    ensures { fit (λ ok. ok) result ≡ named_side (key_name key.old) }
{
    match take_name(key) {
        Some(name) => side_of(name),
        None => Err(NoSide::Unfit(Unfit {
            got: "unit key",
            expected: Expected::VariantName,
        })),
    }
}

fn side_of<'de>(name: Text<'de>) -> Result<bool, NoSide<'de>>
    ensures { fit (λ ok. ok) result ≡ named_side (Some (phrase_of name.entry)) }
{
    if name.as_str() == "Ok" {
        return Ok(true);
    }
    if name.as_str() == "Err" {
        return Ok(false);
    }
    Err(NoSide::Other(name))
}

/// The fault of a key that names no side, which stands there.
fn no_side<'e>(
    task: &Task<'_, '_>,
    stack: &Stack<'_>,
    no_side: NoSide<'_>,
    span: Span,
) -> ReadStop<'e>
    ensures own { IsOwn (told_stop result) }
    ensures is { IsFault (told_stop result) (fault_in (terms_of task.now) (open_of (terms_of task.now) stack.now) unexpected_token (span_view span)) }
{
    match no_side {
        NoSide::Unfit(unfit) => unexpected(task, stack, unfit, span),
        NoSide::Other(name) => match format!(in task.alloc; "variant '{}'", name.as_str()) {
            Ok(got) => {
                let kind = DeserializeErrorKind::UnexpectedToken {
                    got: Text::Owned(Name::from_string(got)),
                    expected: Expected::OkOrErr.text(),
                };
                refusal(task, stack.inside(), kind, span)
            }
            Err(_) => ReadStop::Alloc,
        },
    }
}
