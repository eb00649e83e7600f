ghost use Rattle.std.specs.Prelude.{◌≡◌, ◌≤◌, true, false, MatchResult};
ghost use Rattle.recode_top.specs.Outside.Counting.{IsCounted, Rose};
ghost use Rattle.recode_top.specs.Outside.InMemory.{begun, failed, is_due};

use super::failed::Failed;
use shape_core::Items;
use std::marker::Model;

/// The calls made so far, the numbers of those that fail, and how many faults there were.
#[derive(Debug, Drop)]
pub struct Calls {
    made: usize,
    fail: Items<usize>,
    faults: u64,
}

impl Model for Calls {
    ghost use Rattle.recode_top.specs.Outside.InMemory.{Counts};

    ghost Value = { Counts };

    ghost view = { λ c. record { made = c.made; failing = c.fail; faults = c.faults } };
}

impl Calls {
    /// No calls yet. Those whose numbers are in `fail` will fail.
    pub fn new(fail: Items<usize>) -> Calls
        ensures { result ≡ record { made = 0; failing = fail; faults = 0 } }
    {
        Calls {
            made: 0,
            fail,
            faults: 0,
        }
    }

    /// Counts a call, which fails where its number is listed.
    pub fn begin(&mut self) -> Result<(), Failed>
        ensures cause { IsCounted self.old.faults self.new.faults result }
        ensures after { MatchResult result (λ _. (is_due self.old ≡ false) × (self.new ≡ begun self.old))
            (λ _. (is_due self.old ≡ true) × (self.new ≡ failed (begun self.old))) }
    {
        let due = self.fail.as_slice().contains(&self.made);
        self.made = self.made.saturating_add(1);
        if due {
            self.fault();
            return Err(Failed);
        }
        Ok(())
    }

    /// Counts a fault.
    pub fn fault(&mut self)
        ensures rose { (self.old.faults ≤ self.new.faults) × Rose self.old.faults self.new.faults }
        ensures after { self.new ≡ failed self.old }
    {
        self.faults = self.faults.saturating_add(1);
    }
}
