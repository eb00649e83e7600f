//! What a reader needs to know of the shapes of a registry, found before it reads.
#![tactic(auto)]

mod plans;
mod strategy;

pub use plans::TypePlans;
pub use strategy::DeserStrategy;
