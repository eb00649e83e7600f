//! What of an answer isn't as wanted.
ghost use Rattle.std.specs.Prelude.{◌≡◌, ◌≢◌, ◌||◌, MatchBool};

use crate::outcome::Outcome;

/// Which parts of an answer aren't as wanted.
#[derive(Clone, Copy)]
pub struct Difference {
    /// The status is another.
    pub status: bool,
    /// The notes are others.
    pub notes: bool,
    /// The output is another.
    pub output: bool,
}

impl Difference {
    /// Whether some part isn't as wanted.
    pub fn is_some(self) -> bool
        ensures { result ≡ (self.status || self.notes || self.output) }
    {
        self.status || self.notes || self.output
    }
}

/// What of an answer isn't as wanted: exactly the parts that aren't equal.
pub fn compare(wanted: &Outcome, came: &Outcome) -> Difference
    ensures status { MatchBool result.status (wanted.now.status ≢ came.now.status) (wanted.now.status ≡ came.now.status) }
    ensures notes { MatchBool result.notes (wanted.now.notes ≢ came.now.notes) (wanted.now.notes ≡ came.now.notes) }
    ensures output { MatchBool result.output (wanted.now.output ≢ came.now.output) (wanted.now.output ≡ came.now.output) }
{
    Difference {
        status: wanted.status != came.status,
        notes: wanted.notes.as_slice() != came.notes.as_slice(),
        output: wanted.output.as_slice() != came.output.as_slice(),
    }
}
