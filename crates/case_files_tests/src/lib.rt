//! Tests of `case_files`: what a file of cases is read as, and which files are refused, at which line.
#![tactic(auto)]

#[cfg(test)]
mod tests;
