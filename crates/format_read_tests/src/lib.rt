//! Tests of `format_read`: how far events are read ahead, and what is answered where they stop.
#![tactic(auto)]

#[cfg(test)]
mod tests;
