//! What stays the same while a value is read.
ghost use Rattle.std.specs.Prelude.{◌≡◌};
ghost use Rattle.semantics.specs.Typed.{has_room};
ghost use Rattle.semantics.specs.Typed.{has_length};
ghost use Rattle.laws_reading.specs.Options.{side_of};
ghost use Rattle.read_steps.specs.Tasks.{side_view, sides_view};

use shape_core::{ShapeId, Shapes};
use std::alloc::Global;

/// What all parts of a value have in common while it is read. `'v` is how long texts of declared defaults are borrowed.
#[derive(Drop)]
pub struct Task<'s, 'v> {
    /// Where values and errors have their memory.
    pub alloc: Global,
    /// The registry.
    pub shapes: &'s Shapes<'v>,
    /// The depth that was handed in.
    pub limit: usize,
    /// Whether texts that are borrowed from the input stay borrowed.
    pub borrow: bool,
    /// Whether the parser tells by its events what its values are.
    pub describes_itself: bool,
}

/// The shapes of both sides of a result.
#[derive(Clone, Copy)]
pub struct Sides {
    /// What it holds where it went well.
    pub ok: ShapeId,
    /// What it holds where it didn't.
    pub err: ShapeId,
}

/// A side of a result.
#[derive(Clone, Copy)]
pub struct Side {
    /// The key under which it stands.
    pub name: &'static str,
    /// What it holds.
    pub shape: ShapeId,
}

impl Sides {
    /// The side that went well, or the other one.
    pub fn side(self, ok: bool) -> Side
        ensures { side_view result ≡ side_of (sides_view self) ok }
    {
        if ok {
            Side {
                name: "Ok",
                shape: self.ok,
            }
        } else {
            Side {
                name: "Err",
                shape: self.err,
            }
        }
    }
}

/// What a list or an array holds.
#[derive(Clone, Copy)]
pub struct ItemsOf {
    /// The shape of each item.
    pub item: ShapeId,
    /// How many items there are, where that is said.
    pub len: Option<u32>,
}

impl ItemsOf {
    /// Whether one item more may follow so many.
    pub fn has_room(self, count: usize) -> bool
        ensures { result ≡ has_room self.len count }
    {
        match self.len {
            Some(len) => count < len as usize,
            None => true,
        }
    }

    /// Whether so many are all.
    pub fn is_whole(self, count: usize) -> bool
        ensures { result ≡ has_length self.len count }
    {
        match self.len {
            Some(len) => len as usize == count,
            None => true,
        }
    }
}

/// A shape of which a value is wanted, and a depth.
#[derive(Clone, Copy)]
pub struct Wanted {
    /// Its number.
    pub shape: ShapeId,
    /// How deep the value, or its parts, may nest.
    pub depth: usize,
}
