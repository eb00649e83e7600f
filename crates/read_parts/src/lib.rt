//! Parts of reading: what a scalar of an event gives to a scalar shape.
//!
//! Clauses speak of the table `set_scalar` of the definitions, and of each answer as an outcome of it.
#![tactic(auto)]

mod number;
mod setter;
mod target;
mod text;

pub use setter::{scalar_value, typed_value};
