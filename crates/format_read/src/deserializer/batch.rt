//! Reads events ahead from a parser.
ghost use Rattle.std.specs.Prelude.{◌≡◌, ◌⊎◌, ◌≤◌, ◌<◌, [], length, map, IfOk, IfErr, OnErr};
ghost use Rattle.event_core.specs.Events.{event_of};
ghost use Rattle.format_traits.specs.Parsing.{Gave, Failed, EndAfter, Met, IsMemory, HasCause};

use crate::deserializer::DEFAULT_EVENT_BUFFER_SIZE;
use event_core::{ParseError, ParseEvent};
use format_traits::FormatParser;
use read_steps::is_memory;
use std::alloc::Global;
use std::collections::VecDeque;

/// The next events, at most `room`. There is none only where no event is left.
///
/// A fault that comes behind events isn't answered: the parser answers it again at the next call.
#[tactic(auto, using(crate::proofs::Batches::batch_gave, crate::proofs::Batches::batch_met, crate::proofs::Batches::batch_failed, crate::proofs::Batches::batch_met_none, crate::proofs::Batches::batch_end))]
pub fn read_batch<'de, P: FormatParser<'de>>(
    alloc: Global,
    parser: &mut P,
    room: usize,
) -> Result<VecDeque<ParseEvent<'de>>, ParseError<'de>>
    ensures gave { IfOk result (λ batch. Gave (map event_of batch.items) (P.parsing parser.old) (P.parsing parser.new)) }
    ensures within { IfOk result (λ batch. length batch.items ≤ room) }
    ensures end { IfOk result (λ batch. 0 < room → batch.items ≡ [] → EndAfter [] (P.parsing parser.new)) }
    ensures failed { OnErr result (Failed (P.parsing parser.old) (P.parsing parser.new)) }
    ensures fault { IfErr result (λ e. IsMemory e ⊎ Met [] e (P.parsing parser.old) (P.parsing parser.new)) }
    ensures cause { HasCause (P.parsing parser.old).faults (P.parsing parser.new).faults result }
{
    let mut batch: VecDeque<ParseEvent<'de>> = batch_of(alloc, room.min(DEFAULT_EVENT_BUFFER_SIZE));
    match parser.next_events(&mut batch, room) {
        Ok(_) => Ok(batch),
        Err(error) => {
            if batch.is_empty() || is_memory(&error.kind) {
                return Err(error);
            }
            Ok(batch)
        }
    }
}

/// An empty batch, with room for so many events where memory has it.
fn batch_of<'de>(alloc: Global, room: usize) -> VecDeque<ParseEvent<'de>>
    ensures { result.items ≡ [] }
{
    match VecDeque::with_capacity(alloc, room) {
        Ok(batch) => batch,
        Err(_) => VecDeque::new(alloc),
    }
}
