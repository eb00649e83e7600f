use std::process::Abort;

mod answers;
mod errors;
mod outside;
mod programs;

/// Ends the test where a row of its table doesn't hold.
pub fn assert_row(rt: &impl Abort, at: usize, holds: bool) {
    assert!(rt; holds, "row {at}");
}
