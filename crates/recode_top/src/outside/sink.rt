ghost use Rattle.std.specs.Prelude.{◌≡◌, ◌≤◌, ◌<◌, List, ℕ, Option, length, take, IfOk, OnOk, OnErr};
ghost use Rattle.std.specs.Io.{WritesAtMost};
ghost use Rattle.std.specs.Io.KnownBytes.{WriteAppends, Appends};
ghost use Rattle.recode_top.specs.Outside.Counting.{IsCounted, Rose};

use super::failed::Failed;

/// Where bytes go to.
pub trait Sink {
    // the bytes written, where the sink tells them
    ghost written: { Self → Option (List ℕ) };

    // how many faults there were, as far as the count goes
    ghost faults: { Self → ℕ };

    /// Writes bytes from the front of `bytes`, and gives their number.
    /// 0 for bytes that aren't empty counts as a fault.
    fn write(&mut self, bytes: &[u8]) -> Result<usize, Failed>
        ensures bound { WritesAtMost result bytes.now }
        ensures bytes { WriteAppends (written self.old) (written self.new) result bytes.now }
        ensures cause { IsCounted (faults self.old) (faults self.new) result }
        ensures stuck { IfOk result (λ count. count ≡ 0 → 0 < length bytes.now
            → Rose (faults self.old) (faults self.new)) };
}

/// Writes all bytes. Where a write fails or takes none, those before it are written.
pub fn write_all<K: Sink>(sink: &mut K, bytes: &[u8]) -> Result<(), Failed>
    ensures later { K.faults sink.old ≤ K.faults sink.new }
    ensures all { OnOk result (Appends (K.written sink.old) (K.written sink.new) bytes.now) }
    ensures part { (n : ℕ) × (n ≤ length bytes.now)
        × Appends (K.written sink.old) (K.written sink.new) (take n bytes.now) }
    ensures fault { OnErr result (Rose (K.faults sink.old) (K.faults sink.new)) }
{
    let mut done = 0;
    while done < bytes.len() {
        match sink.write(&bytes[done..]) {
            Ok(0) => return Err(Failed),
            Ok(count) => done += count,
            Err(Failed) => return Err(Failed),
        }
    }
    Ok(())
}
