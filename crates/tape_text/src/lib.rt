//! Tapes: a line for each event, with a parser and a writer.
//!
//! Lines are read from the front: each reader gives what it found and what stands behind it.
#![tactic(auto)]

mod body;
mod bytes;
mod event;
mod grammar;
mod letters;
mod line;
mod parser;
mod spelling;
mod suffix;
mod writer;

pub use bytes::TapeBytes;
pub use grammar::{line_is_read, one_line_one_event, tape_is_read};
pub use parser::TapeParser;
pub use writer::{NoFault, TapeWriter};
