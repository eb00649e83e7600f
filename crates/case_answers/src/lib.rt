//! What a run answers, how an answer differs from what is wanted, and how many do.
//!
//! It stands on the lists of `shape_types` alone: a part of an answer is compared as bytes.
#![tactic(auto)]

mod difference;
mod outcome;
mod tally;

pub use difference::{Difference, compare};
pub use outcome::Outcome;
pub use tally::Tally;
