//! Tests of the writing of values, over a serializer that keeps a word of each call.
#![tactic(auto)]

#[cfg(test)]
mod tests;
