//! What a parser is told of what is read next.
ghost use Rattle.std.specs.Prelude.{◌≡◌};

use shape_types::{Name, StructKind};

/// A place that a parser can go back to.
#[derive(Debug, Clone, Copy, PartialEq, Eq)]
pub struct SavePoint(pub u64);

impl SavePoint {
    /// The place of this number.
    pub fn new(id: u64) -> SavePoint
        ensures { result ≡ record { 0 = id } }
    {
        SavePoint(id)
    }
}

/// A variant of an enum that is read.
#[derive(Debug, Drop)]
pub struct EnumVariantHint {
    /// Its name.
    pub name: Name,
    /// What kind of content it has.
    pub kind: StructKind,
    /// How many fields it has.
    pub field_count: usize,
}

/// The type of a scalar that is read.
#[derive(Debug, Clone, Copy, PartialEq, Eq)]
pub enum ScalarTypeHint {
    /// A truth value.
    Bool,
    /// A whole number of 8 bits.
    U8,
    /// A whole number of 16 bits.
    U16,
    /// A whole number of 32 bits.
    U32,
    /// A whole number of 64 bits.
    U64,
    /// A whole number of 128 bits.
    U128,
    /// A whole number as wide as an address.
    Usize,
    /// A whole number of 8 bits with a sign.
    I8,
    /// A whole number of 16 bits with a sign.
    I16,
    /// A whole number of 32 bits with a sign.
    I32,
    /// A whole number of 64 bits with a sign.
    I64,
    /// A whole number of 128 bits with a sign.
    I128,
    /// A whole number as wide as an address, with a sign.
    Isize,
    /// A text.
    String,
    /// Bytes.
    Bytes,
    /// A character.
    Char,
}
