//! Tests of tapes: the events of lines, the calls of a parser, and those of a writer.
#![tactic(auto)]

#[cfg(test)]
mod tests;
