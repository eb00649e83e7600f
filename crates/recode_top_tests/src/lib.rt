//! Tests of `recode_top` that aren't rows of text: sources and sinks, shapes made by the builder, the parts of errors.
//!
//! What can be told as a text in and a text out is a case of the crate `cases`.
#![tactic(auto)]

#[cfg(test)]
mod tests;
