//! From the text of a shape and a tape to the tape's canonical form: what stands above all other crates.
//!
//! Shapes are read from a text, a value from a tape by a shape, and the value is written again.
#![tactic(auto)]

mod answer;
mod command;
mod error;
mod input;
mod outside;
mod program;
mod reading;
mod recoding;
mod shape_note;
mod stop;
mod writing;

pub use error::RecodeError;
pub use outside::{
    Failed, MemorySink, MemorySource, ReadStop, Sink, Source, StreamSink, StreamSource, Words,
    read_all, write_all,
};
pub use program::{out_of_memory, run};
pub use recoding::recode;
pub use shape_text::{ReadShapesError, ShapeTextFault, ShapeTextKind, read_shapes};
