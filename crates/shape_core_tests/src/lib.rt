//! Tests of `shape_core`: what no clause says of the registry and of values, and that calls succeed.
#![tactic(auto)]

#[cfg(test)]
mod tests;
