//! Takes events one by one.
ghost use Rattle.std.specs.Prelude.{◌≡◌, ◌<◌, [], ◌∷◌, Ok, IfOk, IfErr, OnOk, IsNone, IsSome, IsTrue};
ghost use Rattle.event_core.specs.Events.{event_of};
ghost use Rattle.format_read.specs.Deserializers.{seat_in};
ghost use Rattle.format_read.specs.Deserializing.{Finishes, IsBare, IsMemory, Keeps};
ghost use Rattle.format_read.specs.Seats.{IsLeft, IsWithin, HasSource};
ghost use Rattle.read_steps.specs.Stops.{told_stop};
ghost use Rattle.format_read.specs.Taking.{told_error, told_parse, IsToldAs, HasNext, NothingComes, Takes};
ghost use Rattle.laws_reading.specs.Input.{taken_at};

use crate::deserializer::FormatDeserializer;
use crate::deserializer::ahead::no_memory;
use crate::deserializer::errors::finish_error;
use crate::uncounted::take_ahead;
use event_core::{DeserializeError, ParseError, ParseEvent};
use format_traits::FormatParser;
use read_steps::{ReadStop, is_memory};
use shape_core::OutOfMemory;
use std::alloc::Global;

impl<'parser, 'input, 's, 'v, P: FormatParser<'input>, const BORROW: u8> FormatDeserializer<
    'parser,
    'input,
    's,
    'v,
    P,
    BORROW,
> {
    /// Takes the next event. None at the end of the events, and at capacity 0.
    pub fn finish_input(&mut self) -> Result<Option<ParseEvent<'input>>, DeserializeError<'input>>
        ensures exact { IsTrue P.tells → Finishes (seat_in P.parsing self.old).input (seat_in P.parsing self.new).input result }
        ensures kept { IsTrue P.tells → Keeps (seat_in P.parsing self.old).input (seat_in P.parsing self.new).input result }
        ensures ahead { IsWithin (seat_in P.parsing self.old) → IsWithin (seat_in P.parsing self.new) }
        ensures bare { IfErr result (λ e. IsMemory e → IsBare e) }
        ensures left { IsLeft (seat_in P.parsing self.old) (seat_in P.parsing self.new) }
        ensures fewer { IfOk result (λ event. IsSome event → (seat_in P.parsing self.new).left < (seat_in P.parsing self.old).left) }
        ensures cause { IfErr result (λ e. HasSource (told_error e) (seat_in P.parsing self.old) (seat_in P.parsing self.new)) }
    {
        match self.next_event() {
            Ok(event) => Ok(event),
            Err(error) => Err(finish_error(error)),
        }
    }

    /// Takes the next event, if one comes.
    fn next_event(&mut self) -> Result<Option<ParseEvent<'input>>, ParseError<'input>>
        ensures exact { IsTrue P.tells → Takes (seat_in P.parsing self.old).input (seat_in P.parsing self.new).input result }
        ensures ended { IfOk result (λ event. IsNone event → NothingComes (seat_in P.parsing self.old).input) }
        ensures left { IsLeft (seat_in P.parsing self.old) (seat_in P.parsing self.new) }
        ensures fewer { IfOk result (λ event. IsSome event → (seat_in P.parsing self.new).left < (seat_in P.parsing self.old).left) }
        ensures cause { IfErr result (λ e. HasSource (told_parse e) (seat_in P.parsing self.old) (seat_in P.parsing self.new)) }
    {
        match self.ready() {
            Ok(true) => match self.pull() {
                Ok(event) => Ok(Some(event)),
                Err(_) => Err(no_memory(self.last)),
            },
            Ok(false) => Ok(None),
            Err(error) => Err(error),
        }
    }

    /// Takes the first event that was read ahead.
    pub(crate) fn pull(&mut self) -> Result<ParseEvent<'input>, OutOfMemory>
        requires { HasNext self.old.queue }
        ensures exact { IsTrue P.tells → IfOk result (λ e. taken_at [] (seat_in P.parsing self.old).input ≡ Ok (event_of e, (seat_in P.parsing self.new).input)) }
        ensures first { IfOk result (λ e. self.old.queue.ahead ≡ e ∷ self.new.queue.ahead) }
        ensures last { IfOk result (λ e. self.new.last ≡ e.span) }
        ensures left { IsLeft (seat_in P.parsing self.old) (seat_in P.parsing self.new) }
        ensures fewer { OnOk result ((seat_in P.parsing self.new).left < (seat_in P.parsing self.old).left) }
    {
        match take_ahead(&mut self.queue) {
            Ok(Some(event)) => {
                self.last = event.span;
                Ok(event)
            }
            Ok(None) => unreachable!(),
            Err(refused) => Err(refused),
        }
    }
}

/// A parser's fault, or want of memory.
pub(crate) fn stop_of<'e>(alloc: Global, error: ParseError<'e>) -> ReadStop<'e>
    ensures { IsToldAs (told_stop result) (told_parse error.entry) }
{
    if is_memory(&error.kind) {
        return ReadStop::Alloc;
    }
    ReadStop::fault(alloc, error.kind.with_span(error.span))
}
