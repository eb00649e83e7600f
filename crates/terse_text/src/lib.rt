//! Terse texts: a format with a byte for each event.
//!
//! `[` and `]` begin and end a list, `{` and `}` a struct, a letter from `a` to `z` is a key, a digit is a number, and
//! `-` is null.
#![tactic(auto)]

mod event;
mod parser;

pub use parser::TerseParser;
