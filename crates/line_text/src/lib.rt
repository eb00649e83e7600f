//! Readers of the lines of a tape and of a shape text.
//!
//! Each reads from the front of a text, and gives what it found with what stands after it.
#![tactic(auto)]

mod characters;
mod ends;
mod fronts;
mod hex;
mod numbers;
mod quoted;
mod spellings;

pub use characters::char_at;
pub use ends::line_end;
pub use fronts::{after, word};
pub use hex::bytes_at;
pub use numbers::{number_at, signed_at, wide_number, wide_number_at, wide_signed_at};
pub use quoted::{is_plain, text_at, unquoted};
pub use spellings::{after_quote, unquote};
