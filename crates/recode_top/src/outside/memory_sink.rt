ghost use Rattle.std.specs.Prelude.{◌≡◌, ◌-◌, ◌<◌, Some, true, false, [], length, min, IfOk, MatchResult};
ghost use Rattle.std.specs.Io.{WritesAtMost};
ghost use Rattle.std.specs.Io.KnownBytes.{WriteAppends};
ghost use Rattle.recode_top.specs.Outside.Counting.{IsCounted, Rose};
ghost use Rattle.recode_top.specs.Outside.InMemory.{after_write, is_due, kept, taken};

use super::calls::Calls;
use super::copying::copy_front;
use super::failed::Failed;
use super::sink::Sink;
use shape_core::{Items, OutOfMemory};
use std::alloc::Global;
use std::marker::Model;

/// A sink that keeps what is written, up to its room. Chosen calls of it fail, for tests.
#[derive(Debug, Drop)]
pub struct MemorySink {
    buffer: Vec<u8>,
    held: usize,
    calls: Calls,
}

impl Model for MemorySink {
    ghost use Rattle.std.specs.Prelude.{◌≤◌, length, take, vec_len};
    ghost use Rattle.recode_top.specs.Outside.InMemory.{Output};

    ghost Value = { Output };

    ghost view = { λ s. record { written = take s.held s.buffer.items; room = vec_len s.buffer; calls = s.calls } };

    ghost invariant = { λ s. s.held ≤ vec_len s.buffer };
}

impl MemorySink {
    /// A sink with room for so many bytes, which are taken at once. `fail` lists the numbers, from 0, of the calls
    /// that fail.
    pub fn new(alloc: Global, room: usize, fail: Items<usize>) -> Result<MemorySink, OutOfMemory>
        ensures { IfOk result (λ sink. sink ≡ record {
          written = [];
          room = room;
          calls = record { made = 0; failing = fail; faults = 0 };
        }) }
    {
        let buffer = Vec::from_elem(alloc, 0, room)?;
        Ok(MemorySink {
            buffer,
            held: 0,
            calls: Calls::new(fail),
        })
    }

    /// The bytes written.
    pub fn as_slice(&self) -> &[u8]
        ensures { result.now ≡ self.now.written }
    {
        &self.buffer[..self.held]
    }

    /// Keeps as many bytes as the room left holds.
    fn keep(&mut self, bytes: &[u8]) -> usize
        ensures count { result ≡ taken self.old (length bytes.now) }
        ensures after { self.new ≡ kept self.old bytes.now }
    {
        let count = copy_front(&mut self.buffer[self.held..], bytes);
        self.held += count;
        count
    }
}

impl Sink for MemorySink {
    ghost written = { λ s. Some s.written };

    ghost faults = { λ s. s.calls.faults };

    fn write(&mut self, bytes: &[u8]) -> Result<usize, Failed>
        ensures bound { WritesAtMost result bytes.now }
        ensures bytes { WriteAppends (Some self.old.written) (Some self.new.written) result bytes.now }
        ensures cause { IsCounted self.old.calls.faults self.new.calls.faults result }
        ensures stuck { IfOk result (λ count. count ≡ 0 → 0 < length bytes.now
            → Rose self.old.calls.faults self.new.calls.faults) }
        ensures after { self.new ≡ after_write self.old bytes.now }
        ensures count { MatchResult result
            (λ count. (is_due self.old.calls ≡ false) × (count ≡ taken self.old (length bytes.now)))
            (λ _. is_due self.old.calls ≡ true) }
    {
        if let Err(Failed) = self.calls.begin() {
            return Err(Failed);
        }
        let count = self.keep(bytes);
        if count == 0 && !bytes.is_empty() {
            self.calls.fault();
        }
        Ok(count)
    }
}
