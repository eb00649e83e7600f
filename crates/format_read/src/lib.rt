//! Reads values from the events of any parser, by their shapes.
//!
//! It takes the parser's events and hands them to `read_steps`, one by one. Clauses speak of the events to come as lists,
//! and of what is read of them as `laws_reading` tells it step by step.
#![tactic(auto)]

mod deserializer;
mod uncounted;

pub use deserializer::{DEFAULT_EVENT_BUFFER_SIZE, FormatDeserializer};
