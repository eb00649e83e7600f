ghost use Rattle.std.specs.Prelude.{◌≡◌, ◌-◌, ◌++◌, Some, true, false, length, take, min, MatchResult};
ghost use Rattle.std.specs.Io.{ReadsAtMost};
ghost use Rattle.std.specs.Io.KnownBytes.{ReadConsumes};
ghost use Rattle.recode_top.specs.Outside.Counting.{IsCounted};
ghost use Rattle.recode_top.specs.Outside.InMemory.{after_read, is_due};

use super::calls::Calls;
use super::copying::copy_front;
use super::failed::Failed;
use super::source::Source;
use shape_core::Items;
use std::marker::Model;

/// A source over bytes in memory. Chosen calls of it fail, for tests.
#[derive(Debug, Drop)]
pub struct MemorySource {
    bytes: Items<u8>,
    at: usize,
    calls: Calls,
}

impl Model for MemorySource {
    ghost use Rattle.std.specs.Prelude.{◌≤◌, length, drop};
    ghost use Rattle.recode_top.specs.Outside.InMemory.{Input};

    ghost Value = { Input };

    ghost view = { λ s. record { left = drop s.at s.bytes; calls = s.calls } };

    ghost invariant = { λ s. s.at ≤ length s.bytes };
}

impl MemorySource {
    /// A source that gives these bytes. `fail` lists the numbers, from 0, of the calls that fail.
    pub fn new(bytes: Items<u8>, fail: Items<usize>) -> MemorySource
        ensures { result ≡ record { left = bytes; calls = record { made = 0; failing = fail; faults = 0 } } }
    {
        MemorySource {
            bytes,
            at: 0,
            calls: Calls::new(fail),
        }
    }

    /// Moves as many bytes as there are and `into` holds.
    fn give(&mut self, into: &mut [u8]) -> usize
        ensures count { result ≡ min (length into.new) (length self.old.left) }
        ensures len { length into.new ≡ length into.old }
        ensures bytes { self.old.left ≡ take result into.new ++ self.new.left }
        ensures calls { self.new.calls ≡ self.old.calls }
    {
        let count = copy_front(into, &self.bytes.as_slice()[self.at..]);
        self.at += count;
        count
    }
}

impl Source for MemorySource {
    ghost left = { λ s. Some s.left };

    ghost faults = { λ s. s.calls.faults };

    fn read(&mut self, into: &mut [u8]) -> Result<usize, Failed>
        ensures bound { ReadsAtMost result into.new }
        ensures bytes { ReadConsumes (Some self.old.left) (Some self.new.left) result into.new }
        ensures cause { IsCounted self.old.calls.faults self.new.calls.faults result }
        ensures after { self.new ≡ after_read self.old (length into.new) }
        ensures count { MatchResult result
            (λ count. (is_due self.old.calls ≡ false) × (count ≡ min (length into.new) (length self.old.left)))
            (λ _. is_due self.old.calls ≡ true) }
    {
        match self.calls.begin() {
            Ok(()) => Ok(self.give(into)),
            Err(Failed) => Err(Failed),
        }
    }
}
