ghost use Rattle.std.specs.Prelude.{◌≡◌, ◌≤◌, ◌<◌, List, ℕ, Err, length, vec_len, IfOk, IfErr};
ghost use Rattle.std.specs.Io.KnownBytes.{Consumes, IsAtEnd};
ghost use Rattle.recode_top.specs.Outside.Counting.{Rose};
ghost use Rattle.recode_top.specs.Stopping.{IsReadStop};

use crate::outside::{ReadStop, Source, read_all};
use crate::stop::Stop;
use std::alloc::Global;

/// How many bytes the program reads at most.
const LIMIT: usize = 67_108_864;

/// The input of the program: all bytes of the source.
pub fn read_input<S: Source>(alloc: Global, source: &mut S) -> Result<Vec<u8>, Stop<'static>>
    ensures later { S.faults source.old ≤ S.faults source.new }
    ensures all { IfOk result (λ bytes. Consumes (S.left source.old) (S.left source.new) bytes.items
        × IsAtEnd (S.left source.new) × (vec_len bytes ≤ 67108864)) }
    ensures fault { result ≡ Err Stop.ReadFault → Rose (S.faults source.old) (S.faults source.new) }
    ensures long { result ≡ Err Stop.TooLong → (bytes : List ℕ)
        × Consumes (S.left source.old) (S.left source.new) bytes × (67108864 < length bytes) }
    ensures stops { IfErr result IsReadStop }
{
    match read_all(alloc, source, LIMIT) {
        Ok(bytes) => Ok(bytes),
        Err(ReadStop::Fault) => Err(Stop::ReadFault),
        Err(ReadStop::TooLong) => Err(Stop::TooLong),
        Err(ReadStop::Memory) => Err(Stop::Memory),
    }
}
