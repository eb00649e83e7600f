//! A writer of one format.
ghost use Rattle.std.specs.Prelude.{◌≡◌, ◌++◌, List, []};
ghost use Rattle.semantics_lines.specs.Calls.{Call, begin_struct, field_key, end_struct, begin_seq, end_seq, write_scalar, literal_of};
ghost use Rattle.event_core.specs.Events.{scalar_of};
ghost use Rattle.format_traits.specs.Writing.{Writing, Answers};

use event_core::ScalarValue;
use std::fmt::Debug;

/// Why a call was refused.
#[derive(Debug, Drop)]
pub enum WriteStop<E> {
    /// Memory ran out.
    Alloc,
    /// The format failed.
    Fault(E),
}

/// Writes what it is called with.
///
/// A call that is refused adds nothing. A fault comes only where the serializer's count of faults
/// rose in that call or stands at its last value.
pub trait FormatSerializer {
    /// How the format fails.
    type Error: Debug + Drop;

    /// How it wants values written, and how many faults it has met.
    ghost writing: { Self → Writing };

    /// Whether the second state holds what the first one held, and after it these calls.
    ghost made: { Self → Self → List Call → Type 0 };

    /// Begins a struct or a map.
    fn begin_struct(&mut self) -> Result<(), WriteStop<Self::Error>>
        ensures { Answers (made self.old self.new) (writing self.old) (writing self.new) begin_struct result };

    /// Writes the key of a field.
    fn field_key(&mut self, key: &str) -> Result<(), WriteStop<Self::Error>>
        ensures { Answers (made self.old self.new) (writing self.old) (writing self.new) (field_key key.now) result };

    /// Ends the struct or the map.
    fn end_struct(&mut self) -> Result<(), WriteStop<Self::Error>>
        ensures { Answers (made self.old self.new) (writing self.old) (writing self.new) end_struct result };

    /// Begins a list.
    fn begin_seq(&mut self) -> Result<(), WriteStop<Self::Error>>
        ensures { Answers (made self.old self.new) (writing self.old) (writing self.new) begin_seq result };

    /// Ends the list.
    fn end_seq(&mut self) -> Result<(), WriteStop<Self::Error>>
        ensures { Answers (made self.old self.new) (writing self.old) (writing self.new) end_seq result };

    /// Writes a scalar.
    fn scalar(&mut self, scalar: ScalarValue<'_>) -> Result<(), WriteStop<Self::Error>>
        ensures { Answers (made self.old self.new) (writing self.old) (writing self.new) (write_scalar (literal_of (scalar_of scalar.entry))) result };

    ghost starts: { (a : Self) → made a a [] };

    ghost joins: { (a b c : Self) (xs ys : List Call) → made a b xs → made b c ys → made a c (xs ++ ys) };
}
