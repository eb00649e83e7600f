ghost use Rattle.std.specs.Prelude.{◌≡◌, ◌≤◌, ◌<◌, List, ℕ, Option, length, IfOk, vec_len, Err};
ghost use Rattle.std.specs.Io.{ReadsAtMost};
ghost use Rattle.std.specs.Io.KnownBytes.{ReadConsumes, Consumes, IsAtEnd};
ghost use Rattle.recode_top.specs.Outside.Counting.{IsCounted, Rose};

use super::failed::Failed;
use std::alloc::Global;

/// Where bytes come from.
pub trait Source {
    // the bytes left, where the source tells them
    ghost left: { Self → Option (List ℕ) };

    // how many faults there were, as far as the count goes
    ghost faults: { Self → ℕ };

    /// Moves bytes from the front of those left into `into`, and gives their number.
    /// 0 for a slice that isn't empty is the end.
    fn read(&mut self, into: &mut [u8]) -> Result<usize, Failed>
        ensures bound { ReadsAtMost result into.new }
        ensures bytes { ReadConsumes (left self.old) (left self.new) result into.new }
        ensures cause { IsCounted (faults self.old) (faults self.new) result };
}

/// Why reading stopped before the end.
#[derive(Debug, Drop)]
pub enum ReadStop {
    /// A read failed.
    Fault,
    /// There are more bytes than were asked for.
    TooLong,
    /// Memory ran out.
    Memory,
}

/// All bytes that are left, where there are at most `limit`.
pub fn read_all<S: Source>(alloc: Global, source: &mut S, limit: usize) -> Result<Vec<u8>, ReadStop>
    ensures later { S.faults source.old ≤ S.faults source.new }
    ensures all { IfOk result (λ bytes. Consumes (S.left source.old) (S.left source.new) bytes.items
        × IsAtEnd (S.left source.new) × (vec_len bytes ≤ limit)) }
    ensures fault { result ≡ Err ReadStop.Fault → Rose (S.faults source.old) (S.faults source.new) }
    ensures long { result ≡ Err ReadStop.TooLong → (bytes : List ℕ)
        × Consumes (S.left source.old) (S.left source.new) bytes × (limit < length bytes) }
{
    let mut bytes = Vec::new(alloc);
    let mut chunk = [0; 4096];
    while bytes.len() <= limit {
        let count = match source.read(&mut chunk) {
            Ok(count) => count,
            Err(Failed) => return Err(ReadStop::Fault),
        };
        if count == 0 {
            return Ok(bytes);
        }
        if bytes.extend_from_slice(&chunk[..count]).is_err() {
            return Err(ReadStop::Memory);
        }
    }
    Err(ReadStop::TooLong)
}
