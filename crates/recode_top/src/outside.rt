//! Where bytes come from and go to: sources, sinks and the words of the command line.

mod calls;
mod copying;
mod divide;
mod failed;
mod memory_sink;
mod memory_source;
mod sink;
mod source;
mod streams;
mod words;

pub use divide::divided;
pub use failed::Failed;
pub use memory_sink::MemorySink;
pub use memory_source::MemorySource;
pub use sink::{Sink, write_all};
pub use source::{ReadStop, Source, read_all};
pub use streams::{StreamSink, StreamSource};
pub use words::Words;
