//! Reads events ahead where none is ahead.
ghost use Rattle.std.specs.Prelude.{◌≡◌, ◌<◌, [], false, IfOk, IfErr, OnOk, IsTrue};
ghost use Rattle.format_traits.specs.Parsing.{IsMemory};
ghost use Rattle.format_read.specs.Deserializers.{seat_in};
ghost use Rattle.format_read.specs.Seats.{IsLeft, HasSource};
ghost use Rattle.format_read.specs.Taking.{told_parse, Faulted, HasNext, NothingComes};

use crate::deserializer::FormatDeserializer;
use crate::deserializer::batch::read_batch;
use event_core::{DeserializeErrorKind, ParseError, Span};
use format_traits::FormatParser;

impl<'parser, 'input, 's, 'v, P: FormatParser<'input>, const BORROW: u8> FormatDeserializer<
    'parser,
    'input,
    's,
    'v,
    P,
    BORROW,
> {
    /// Whether an event comes, which is read ahead then. At capacity 0 none comes.
    #[tactic(auto, using(crate::proofs::Ahead::nothing_at_zero, crate::proofs::Lefts::left_same))]
    pub(crate) fn ready(&mut self) -> Result<bool, ParseError<'input>>
        ensures same { OnOk result ((seat_in P.parsing self.new).input ≡ (seat_in P.parsing self.old).input) }
        ensures comes { IfOk result (λ comes. IsTrue comes → HasNext self.new.queue) }
        ensures ended { IfOk result (λ comes. comes ≡ false → NothingComes (seat_in P.parsing self.old).input) }
        ensures fault { IsTrue P.tells → IfErr result (λ e. Faulted (told_parse e) (seat_in P.parsing self.old).input (seat_in P.parsing self.new).input) }
        ensures left { IsLeft (seat_in P.parsing self.old) (seat_in P.parsing self.new) }
        ensures cause { IfErr result (λ e. HasSource (told_parse e) (seat_in P.parsing self.old) (seat_in P.parsing self.new)) }
    {
        if self.queue.capacity() == 0 {
            return Ok(false);
        }
        if self.queue.ahead() > 0 {
            return Ok(true);
        }
        self.refill()
    }

    /// Reads as many events as there is room for.
    #[tactic(auto, using(crate::proofs::Ahead::refilled_same, crate::proofs::Ahead::refilled_next, crate::proofs::Ahead::refilled_left, crate::proofs::Ahead::refilled_ended, crate::proofs::Ahead::refused_left, crate::proofs::Ahead::refused_fault, crate::proofs::Ahead::refused_source, crate::proofs::Ahead::lost_left, crate::proofs::Ahead::lost_fault, crate::proofs::Ahead::lost_source))]
    fn refill(&mut self) -> Result<bool, ParseError<'input>>
        requires capacity { 0 < self.old.queue.capacity }
        requires empty { self.old.queue.ahead ≡ [] }
        ensures same { OnOk result ((seat_in P.parsing self.new).input ≡ (seat_in P.parsing self.old).input) }
        ensures comes { IfOk result (λ comes. IsTrue comes → HasNext self.new.queue) }
        ensures ended { IfOk result (λ comes. comes ≡ false → NothingComes (seat_in P.parsing self.old).input) }
        ensures fault { IsTrue P.tells → IfErr result (λ e. Faulted (told_parse e) (seat_in P.parsing self.old).input (seat_in P.parsing self.new).input) }
        ensures left { IsLeft (seat_in P.parsing self.old) (seat_in P.parsing self.new) }
        ensures cause { IfErr result (λ e. HasSource (told_parse e) (seat_in P.parsing self.old) (seat_in P.parsing self.new)) }
    {
        let room = self.queue.capacity();
        let mut batch = match read_batch(self.alloc, &mut *self.parser, room) {
            Ok(batch) => batch,
            Err(error) => return Err(error),
        };
        let comes = batch.len() > 0;
        match self.queue.fill(&mut batch) {
            Ok(()) => Ok(comes),
            Err(_) => Err(no_memory(self.last)),
        }
    }
}

/// No memory was there for an event.
pub fn no_memory<'e>(span: Span) -> ParseError<'e>
    ensures { IsMemory result }
{
    let kind = DeserializeErrorKind::Alloc { operation: "event" };
    ParseError::new(span, kind)
}
