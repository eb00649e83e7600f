//! Tests of what each kind of event gives to each scalar type.
//!
//! Each answer dies in the function that prints it.
#![tactic(auto)]

#[cfg(test)]
mod tests;
