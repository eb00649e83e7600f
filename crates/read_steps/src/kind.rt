//! Which frame is innermost.
ghost use Rattle.std.specs.Prelude.{◌≡◌};
ghost use Rattle.read_steps.specs.Kinds.{keyed_kind, kind_of, node_kind, object_kind};

use crate::frames::{ArgumentKey, Frame};
use crate::key::KeyAt;

/// Which frame it is, without what it holds.
#[derive(Clone, Copy)]
pub enum FrameKind {
    /// None: nothing is open.
    Bottom,
    /// An option.
    Option,
    /// A list or an array.
    Items,
    /// A tuple that stands as a sequence.
    Elements,
    /// A tuple that stands as an object, before a key.
    Keyed,
    /// The same after a key.
    KeyedItem,
    /// A struct before a key.
    Object,
    /// The same after a key.
    Field,
    /// A result before its key.
    ResultKey,
    /// The same after its key.
    ResultSide,
    /// The same before its end.
    ResultEnd,
    /// The node of a scalar, before a key.
    Node,
    /// The same after the key of its argument.
    Argument,
}

/// Which frame this is.
pub fn kind_of(frame: &Frame<'_>) -> FrameKind
    ensures { result ≡ kind_of frame.now }
{
    match frame {
        Frame::Bottom => FrameKind::Bottom,
        Frame::Option => FrameKind::Option,
        Frame::Items(_) => FrameKind::Items,
        Frame::Elements(_) => FrameKind::Elements,
        Frame::Keyed(part) => keyed_kind(part.after_key),
        Frame::Object(part) => object_kind(&part.key),
        Frame::ResultKey(_) => FrameKind::ResultKey,
        Frame::ResultSide(_, _) => FrameKind::ResultSide,
        Frame::ResultEnd(_, _) => FrameKind::ResultEnd,
        Frame::Node(part) => node_kind(part.key),
    }
}

fn keyed_kind(after_key: bool) -> FrameKind
    ensures { result ≡ keyed_kind after_key }
{
    if after_key {
        FrameKind::KeyedItem
    } else {
        FrameKind::Keyed
    }
}

fn object_kind(key: &Option<KeyAt>) -> FrameKind
    ensures { result ≡ object_kind key.now }
{
    match key {
        Some(_) => FrameKind::Field,
        None => FrameKind::Object,
    }
}

fn node_kind(key: ArgumentKey) -> FrameKind
    ensures { result ≡ node_kind key }
{
    match key {
        ArgumentKey::Open(_) => FrameKind::Argument,
        _ => FrameKind::Node,
    }
}
