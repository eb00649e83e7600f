//! Tests of what events, keys, metadata and errors hold and print, and that each call succeeds where there is memory.
//!
//! A value that holds an event or an error is handed to a function that lets it go.
#![tactic(auto)]

#[cfg(test)]
mod tests;
