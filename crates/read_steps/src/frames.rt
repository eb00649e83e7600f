//! What is open while a value is read.
ghost use Rattle.std.specs.Prelude.{◌≡◌, []};
ghost use Rattle.laws_reading.specs.Values.{Terms};
ghost use Rattle.read_steps.specs.Views.{frames_of};

use crate::filled::Filled;
use crate::key::KeyAt;
use crate::opened::Opened;
use crate::stack::Stack;
use crate::task::{ItemsOf, Sides};
use event_core::Span;
use shape_core::{ScalarType, ShapeId, Value};
use std::alloc::Global;

/// The items of a list or an array so far.
#[derive(Drop)]
pub struct ItemsPart<'de> {
    /// The number of its shape.
    pub shape: ShapeId,
    /// What it holds.
    pub of: ItemsOf,
    /// The depth of each item.
    pub depth: usize,
    /// The items.
    pub front: Vec<Value<'de>>,
}

/// The items of a tuple so far.
#[derive(Drop)]
pub struct TuplePart<'de> {
    /// The number of its shape.
    pub shape: ShapeId,
    /// The depth of each item.
    pub depth: usize,
    /// The items.
    pub front: Vec<Value<'de>>,
    /// Whether a key was taken whose item comes, where the tuple stands as an object.
    pub after_key: bool,
}

/// The fields of a struct so far.
#[derive(Drop)]
pub struct StructPart<'de> {
    /// The number of its shape.
    pub shape: ShapeId,
    /// The depth of each field.
    pub depth: usize,
    /// The fields that were read.
    pub filled: Vec<Filled<'de>>,
    /// The key whose value comes, if one does.
    pub key: Option<KeyAt>,
    /// How many keys named their field by its order.
    pub ordered: usize,
}

/// A result, before it is known what it holds.
#[derive(Clone, Copy)]
pub struct ResultPart {
    /// The shapes of both its sides.
    pub sides: Sides,
    /// The depth of what it holds.
    pub depth: usize,
}

/// What came of the node of a scalar so far.
#[derive(Drop)]
pub struct NodePart<'de> {
    /// The number of the scalar's shape.
    pub shape: ShapeId,
    /// The scalar.
    pub scalar: ScalarType,
    /// The key of its argument.
    pub key: ArgumentKey,
    /// The value that the argument set.
    pub value: Option<Value<'de>>,
}

/// The key of the argument of a node, and where it stands.
#[derive(Clone, Copy)]
pub enum ArgumentKey {
    /// There was none so far.
    Absent,
    /// It was taken, and what stands after it comes.
    Open(Span),
    /// What stands after it came.
    Past(Span),
}

/// What is open of a value, around what is read next.
#[derive(Drop)]
pub enum Frame<'de> {
    /// Nothing is open.
    Bottom,
    /// An option that holds something.
    Option,
    /// A list or an array.
    Items(ItemsPart<'de>),
    /// A tuple that stands as a sequence.
    Elements(TuplePart<'de>),
    /// A tuple that stands as an object, before a key or after one.
    Keyed(TuplePart<'de>),
    /// A struct, before a key or after one.
    Object(StructPart<'de>),
    /// A result before its key.
    ResultKey(ResultPart),
    /// The same after its key, which says whether it went well.
    ResultSide(ResultPart, bool),
    /// The same before its end, with what it holds.
    ResultEnd(bool, Value<'de>),
    /// A node that stands for a scalar, before a key or after that of its argument.
    Node(NodePart<'de>),
}

// What a level of a value costs while it is open.
const _: () = prove!(size_of::<Frame<'_>>() <= 128);

/// What comes next, inside all that is open.
#[derive(Drop)]
pub enum Next {
    /// What the innermost frame waits for.
    Inside,
    /// A value.
    Value {
        /// The number of its shape.
        shape: ShapeId,
        /// The depth of its parts.
        depth: usize,
    },
    /// A value that is passed over.
    Passed(Opened),
}

/// What there is behind an event: what comes next, or the whole value.
#[derive(Drop)]
pub enum Moved<'de> {
    /// More has to come.
    To(Next),
    /// The whole value.
    Whole(Value<'de>),
}

/// All that is open of a value, and what comes next.
#[derive(Drop)]
pub struct Frames<'de> {
    pub(crate) stack: Stack<'de>,
    pub(crate) next: Next,
}

impl<'de> Frames<'de> {
    /// Nothing is open. This takes no memory.
    pub fn new(alloc: Global) -> Frames<'de>
        ensures { (t : Terms) → frames_of t result ≡ [] }
    {
        Frames {
            stack: Stack::new(alloc),
            next: Next::Inside,
        }
    }
}
