//! Writes a value by its shape, as calls of a serializer.
//!
//! Clauses speak of the calls that the definition `calls_of` lists, and of a serializer as its ghost members show it:
//! how it wants values written, which calls were made, and how many faults it met.
#![tactic(auto)]

mod calls;
mod context;
mod lookup;
mod scalars;
mod stop;
mod values;

pub use context::{SerializeContext, serialize_root};
