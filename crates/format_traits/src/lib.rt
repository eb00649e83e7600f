//! What a format is read and written by: a parser that gives events, and a serializer that takes calls.
//!
//! Each has ghost members that say what it still gives and what it was called with.
#![tactic(auto)]

mod hints;
mod parser;
mod serializer;
mod settings;

pub use hints::{EnumVariantHint, SavePoint, ScalarTypeHint};
pub use parser::FormatParser;
pub use serializer::{FormatSerializer, WriteStop};
pub use settings::{EnumVariantEncoding, FieldOrdering, MapEncoding, StructFieldMode};
