//! Tests of how the values of each form of shape are read.
//!
//! A registry and its plans are let go by a function of their own.
#![tactic(auto)]

#[cfg(test)]
mod tests;
