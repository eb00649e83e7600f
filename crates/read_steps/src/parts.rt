//! Closes the innermost frame, where it is known which it is.
//!
//! In these calls no other frame can be innermost, so none of the others is dropped here.
ghost use Rattle.std.specs.Prelude.{◌≡◌, ◌∷◌};
ghost use Rattle.laws_machine.specs.Frames.{option, items, elements, keyed, object, outcome_end, node};
ghost use Rattle.laws_reading.specs.Values.{Terms};
ghost use Rattle.shape_types.specs.Trees.{tree_of};
ghost use Rattle.read_steps.specs.Kinds.{kind_of};
ghost use Rattle.read_steps.specs.Views.{items_of, node_of, open_of, struct_of, tuple_of};
ghost use Rattle.read_steps.specs.declared.kind.FrameKind.TheVariants as kinds;

use crate::frames::{Frame, ItemsPart, NodePart, StructPart, TuplePart};
use crate::stack::Stack;
use shape_core::Value;

/// An option.
pub fn close_option(stack: &mut Stack<'_>)
    requires { kind_of stack.old.top ≡ kinds.Option }
    ensures { (t : Terms) → open_of t stack.old ≡ option ∷ open_of t stack.new }
{
    drop(stack.close());
}

/// A list or an array.
pub fn close_items<'de>(stack: &mut Stack<'de>) -> ItemsPart<'de>
    requires { kind_of stack.old.top ≡ kinds.Items }
    ensures { (t : Terms) → open_of t stack.old ≡ items (items_of t result) ∷ open_of t stack.new }
{
    match stack.close() {
        Frame::Items(part) => part,
        _ => unreachable!(),
    }
}

/// A tuple that stands as a sequence.
pub fn close_elements<'de>(stack: &mut Stack<'de>) -> TuplePart<'de>
    requires { kind_of stack.old.top ≡ kinds.Elements }
    ensures { (t : Terms) → open_of t stack.old ≡ elements (tuple_of t result) ∷ open_of t stack.new }
{
    match stack.close() {
        Frame::Elements(part) => part,
        _ => unreachable!(),
    }
}

/// A tuple that stands as an object, before a key.
pub fn close_keyed<'de>(stack: &mut Stack<'de>) -> TuplePart<'de>
    requires { kind_of stack.old.top ≡ kinds.Keyed }
    ensures { (t : Terms) → open_of t stack.old ≡ keyed (tuple_of t result) ∷ open_of t stack.new }
{
    match stack.close() {
        Frame::Keyed(part) => part,
        _ => unreachable!(),
    }
}

/// A struct before a key.
pub fn close_object<'de>(stack: &mut Stack<'de>) -> StructPart<'de>
    requires { kind_of stack.old.top ≡ kinds.Object }
    ensures { (t : Terms) → open_of t stack.old ≡ object (struct_of t result) ∷ open_of t stack.new }
{
    match stack.close() {
        Frame::Object(part) => part,
        _ => unreachable!(),
    }
}

/// A result before its end: whether it went well, and what it holds.
pub fn close_result<'de>(stack: &mut Stack<'de>) -> (bool, Value<'de>)
    requires { kind_of stack.old.top ≡ kinds.ResultEnd }
    ensures { (t : Terms) → open_of t stack.old ≡ outcome_end result.0 (tree_of result.1) ∷ open_of t stack.new }
{
    match stack.close() {
        Frame::ResultEnd(ok, held) => (ok, held),
        _ => unreachable!(),
    }
}

/// The node of a scalar, before a key.
pub fn close_node<'de>(stack: &mut Stack<'de>) -> NodePart<'de>
    requires { kind_of stack.old.top ≡ kinds.Node }
    ensures { (t : Terms) → open_of t stack.old ≡ node (node_of t result) ∷ open_of t stack.new }
{
    match stack.close() {
        Frame::Node(part) => part,
        _ => unreachable!(),
    }
}
