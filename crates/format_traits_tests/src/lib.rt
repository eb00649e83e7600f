//! Tests of the settings of a format.
#![tactic(auto)]

#[cfg(test)]
mod tests;
