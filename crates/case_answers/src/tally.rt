//! How many cases differ.
ghost use Rattle.std.specs.Prelude.{◌≡◌, ◌+◌, ◌-◌, ◌^◌, ◌||◌, cond, min, nat_eq};

use crate::difference::Difference;
use std::fmt;

/// How many cases were run, and how many of them differ.
#[derive(Clone, Copy)]
pub struct Tally {
    /// The cases that were run.
    pub cases: u64,
    /// Those that differ.
    pub differ: u64,
}

impl Tally {
    /// No cases.
    pub fn new() -> Tally
        ensures { result ≡ record { cases = 0; differ = 0 } }
    {
        Tally {
            cases: 0,
            differ: 0,
        }
    }

    /// Counts a case, and that it differs where it does.
    pub fn add(&mut self, difference: Difference)
        ensures cases { self.new.cases ≡ min (self.old.cases + 1) (2 ^ 64 - 1) }
        ensures differ { self.new.differ ≡ cond (difference.status || difference.notes || difference.output)
            (min (self.old.differ + 1) (2 ^ 64 - 1)) self.old.differ }
    {
        self.cases = self.cases.saturating_add(1);
        if difference.is_some() {
            self.differ = self.differ.saturating_add(1);
        }
    }

    /// The status that tells whether some differ: 1 where some do, and else 0.
    pub fn status(self) -> u8
        ensures { result ≡ cond (nat_eq self.differ 0) 0 1 }
    {
        if self.differ == 0 { 0 } else { 1 }
    }
}

impl fmt::Display for Tally {
    ghost use Rattle.std.specs.Prelude.{◌++◌, codes, Some};
    ghost use Rattle.std.specs.Fmt.{decimal};

    ghost output = { λ t. Some (decimal t.cases ++ (codes " cases, " ++ (decimal t.differ ++ codes " differ"))) };

    fn fmt<W: fmt::Write>(&self, f: &mut fmt::Formatter<W>) -> fmt::Result {
        let Tally { cases, differ } = *self;
        write!(f, "{cases} cases, {differ} differ")
    }
}
