//! A whole value goes into what is open.
ghost use Rattle.std.specs.Prelude.{◌≡◌, ◌<◌, ◌∷◌, length, true, false, OnOk, IfOk, IfErr, IsSome, Ok};
ghost use Rattle.shape_types.specs.Trees.{tree_of};
ghost use Rattle.laws_reading.specs.Values.{Terms};
ghost use Rattle.laws_machine.specs.Delivery.{deliver, going};
ghost use Rattle.laws_machine.specs.Frames.{Frames, option};
ghost use Rattle.read_steps.specs.Stops.{told_stop, Gives, IsOwn};
ghost use Rattle.read_steps.specs.Tasks.{terms_of};
ghost use Rattle.read_steps.specs.Views.{open_of, moved_of, object_frame, struct_of};
ghost use Rattle.read_steps.specs.Kinds.{is_option, kind_of, takes_value};
ghost use Rattle.read_steps.specs.declared.kind.FrameKind.TheVariants as kinds;

use crate::filled::Filled;
use crate::frames::{Frame, Moved, Next, StructPart};
use crate::kind::{FrameKind, kind_of};
use crate::parts::close_option;
use crate::refusal::no_step;
use crate::stack::Stack;
use crate::stop::ReadStop;
use crate::task::Task;
use shape_core::{Boxed, OutOfMemory, Value};

/// A whole value goes into what is open, or is all of it.
pub fn deliver<'de>(
    task: &Task<'_, '_>,
    stack: &mut Stack<'de>,
    value: Value<'de>,
) -> Result<Moved<'de>, ReadStop<'de>>
    ensures exact { Gives told_stop (λ m. moved_of m (open_of (terms_of task.now) stack.new)) result (deliver (open_of (terms_of task.now) stack.old) (tree_of value.entry)) }
    ensures own { IfErr result (λ e. IsOwn (told_stop e)) }
{
    let mut value = value;
    match lift_all(task, stack, &mut value) {
        Ok(()) => put_down(task, stack, value),
        Err(_) => {
            drop(value);
            Err(ReadStop::Alloc)
        }
    }
}

/// Closes all options round the value.
fn lift_all<'de>(
    task: &Task<'_, '_>,
    stack: &mut Stack<'de>,
    value: &mut Value<'de>,
) -> Result<(), OutOfMemory>
    ensures same { OnOk result (deliver (open_of (terms_of task.now) stack.new) (tree_of value.new) ≡ deliver (open_of (terms_of task.now) stack.old) (tree_of value.old)) }
    ensures last { OnOk result (is_option (kind_of stack.new.top) ≡ false) }
{
    'options: while lift(task, stack, value)? {}
    Ok(())
}

/// Closes an option round the value, and answers whether one was open.
fn lift<'de>(
    task: &Task<'_, '_>,
    stack: &mut Stack<'de>,
    value: &mut Value<'de>,
) -> Result<bool, OutOfMemory>
    ensures same { OnOk result (deliver (open_of (terms_of task.now) stack.new) (tree_of value.new) ≡ deliver (open_of (terms_of task.now) stack.old) (tree_of value.old)) }
    ensures last { IfOk result (λ more. more ≡ false → is_option (kind_of stack.new.top) ≡ false) }
    ensures fewer { IfOk result (λ more. more ≡ true → length (open_of (terms_of task.now) stack.new) < length (open_of (terms_of task.now) stack.old)) }
{
    if !closes_option(stack) {
        return Ok(false);
    }
    let inner = std::mem::replace(value, Value::None);
    let held = Boxed::new(task.alloc, inner)?;
    drop(std::mem::replace(value, Value::Some(held)));
    Ok(true)
}

/// Closes the innermost frame, if it is an option.
fn closes_option(stack: &mut Stack<'_>) -> bool
    ensures exact { result ≡ is_option (kind_of stack.old.top) }
    ensures closed { (t : Terms) → result ≡ true → open_of t stack.old ≡ option ∷ open_of t stack.new }
    ensures same { result ≡ false → stack.new ≡ stack.old }
{
    match kind_of(&stack.top) {
        FrameKind::Option => {
            close_option(stack);
            true
        }
        _ => false,
    }
}

/// The value goes into the innermost frame, which is no option.
fn put_down<'de>(
    task: &Task<'_, '_>,
    stack: &mut Stack<'de>,
    value: Value<'de>,
) -> Result<Moved<'de>, ReadStop<'de>>
    requires { is_option (kind_of stack.old.top) ≡ false }
    ensures exact { Gives told_stop (λ m. moved_of m (open_of (terms_of task.now) stack.new)) result (deliver (open_of (terms_of task.now) stack.old) (tree_of value.entry)) }
    ensures own { IfErr result (λ e. IsOwn (told_stop e)) }
{
    if !takes_value(kind_of(&stack.top)) {
        return put_whole(task, stack, value);
    }
    match put_inside(stack, value) {
        Ok(()) => Ok(Moved::To(Next::Inside)),
        Err(_) => Err(ReadStop::Alloc),
    }
}

/// Whether a value can go into such a frame.
fn takes_value(kind: FrameKind) -> bool
    ensures { result ≡ takes_value kind }
{
    matches!(
        kind,
        FrameKind::Items
            | FrameKind::Elements
            | FrameKind::KeyedItem
            | FrameKind::Field
            | FrameKind::ResultSide
    )
}

/// The whole value, where nothing is open.
fn put_whole<'de>(
    task: &Task<'_, '_>,
    stack: &Stack<'de>,
    value: Value<'de>,
) -> Result<Moved<'de>, ReadStop<'de>>
    requires open { is_option (kind_of stack.now.top) ≡ false }
    requires closed { takes_value (kind_of stack.now.top) ≡ false }
    ensures exact { Gives told_stop (λ m. moved_of m (open_of (terms_of task.now) stack.now)) result (deliver (open_of (terms_of task.now) stack.now) (tree_of value.entry)) }
    ensures own { IfErr result (λ e. IsOwn (told_stop e)) }
{
    match kind_of(&stack.top) {
        FrameKind::Bottom => Ok(Moved::Whole(value)),
        _ => {
            drop(value);
            Err(no_step(task))
        }
    }
}

/// The value goes into a frame that takes one.
fn put_inside<'de>(stack: &mut Stack<'de>, value: Value<'de>) -> Result<(), OutOfMemory>
    requires { takes_value (kind_of stack.old.top) ≡ true }
    ensures { (t : Terms) → OnOk result (Ok (going (open_of t stack.new)) ≡ deliver (open_of t stack.old) (tree_of value.entry)) }
{
    match kind_of(&stack.top) {
        FrameKind::Items => put_item(stack, value),
        FrameKind::Elements => put_element(stack, value),
        FrameKind::KeyedItem => put_keyed(stack, value),
        FrameKind::Field => put_field(stack, value),
        FrameKind::ResultSide => put_side(stack, value),
        _ => unreachable!(),
    }
}

fn put_item<'de>(stack: &mut Stack<'de>, value: Value<'de>) -> Result<(), OutOfMemory>
    requires { kind_of stack.old.top ≡ kinds.Items }
    ensures { (t : Terms) → OnOk result (Ok (going (open_of t stack.new)) ≡ deliver (open_of t stack.old) (tree_of value.entry)) }
{
    match &mut stack.top {
        Frame::Items(part) => {
            part.front.push(value)?;
            Ok(())
        }
        _ => unreachable!(),
    }
}

fn put_element<'de>(stack: &mut Stack<'de>, value: Value<'de>) -> Result<(), OutOfMemory>
    requires { kind_of stack.old.top ≡ kinds.Elements }
    ensures { (t : Terms) → OnOk result (Ok (going (open_of t stack.new)) ≡ deliver (open_of t stack.old) (tree_of value.entry)) }
{
    match &mut stack.top {
        Frame::Elements(part) => {
            part.front.push(value)?;
            Ok(())
        }
        _ => unreachable!(),
    }
}

fn put_keyed<'de>(stack: &mut Stack<'de>, value: Value<'de>) -> Result<(), OutOfMemory>
    requires { kind_of stack.old.top ≡ kinds.KeyedItem }
    ensures { (t : Terms) → OnOk result (Ok (going (open_of t stack.new)) ≡ deliver (open_of t stack.old) (tree_of value.entry)) }
{
    match &mut stack.top {
        Frame::Keyed(part) => {
            part.front.push(value)?;
            part.after_key = false;
            Ok(())
        }
        _ => unreachable!(),
    }
}

fn put_field<'de>(stack: &mut Stack<'de>, value: Value<'de>) -> Result<(), OutOfMemory>
    requires { kind_of stack.old.top ≡ kinds.Field }
    ensures { (t : Terms) → OnOk result (Ok (going (open_of t stack.new)) ≡ deliver (open_of t stack.old) (tree_of value.entry)) }
{
    match &mut stack.top {
        Frame::Object(part) => fill_field(part, value),
        _ => unreachable!(),
    }
}

/// The value goes under the key that was taken.
fn fill_field<'de>(part: &mut StructPart<'de>, value: Value<'de>) -> Result<(), OutOfMemory>
    requires { IsSome part.old.key }
    ensures { (t : Terms) (fs : Frames) → OnOk result (Ok (going (object_frame (struct_of t part.new) part.new.key ∷ fs)) ≡ deliver (object_frame (struct_of t part.old) part.old.key ∷ fs) (tree_of value.entry)) }
{
    match part.key.take() {
        Some(key) => {
            part.filled.push(Filled { key, value })?;
            Ok(())
        }
        None => unreachable!(),
    }
}

fn put_side<'de>(stack: &mut Stack<'de>, value: Value<'de>) -> Result<(), OutOfMemory>
    requires { kind_of stack.old.top ≡ kinds.ResultSide }
    ensures { (t : Terms) → OnOk result (Ok (going (open_of t stack.new)) ≡ deliver (open_of t stack.old) (tree_of value.entry)) }
{
    match &stack.top {
        Frame::ResultSide(_, ok) => {
            let ok = *ok;
            stack.replace(Frame::ResultEnd(ok, value));
            Ok(())
        }
        _ => unreachable!(),
    }
}
