//! The parser of a tape.
ghost use Rattle.std.specs.Prelude.{◌≡◌, ◌⊎◌, ◌++◌, ◌∷◌, [], None, IfOk, IfErr, OnErr, MatchResult};
ghost use Rattle.format_traits.specs.Parsing.{Failed, Met, IsMemory, HasCause};
ghost use Rattle.tape_text.specs.Parser.{parsing_of, LooksAt, PutNext};

use crate::line::{Stop, event_at};
use event_core::{DeserializeErrorKind, ParseError, ParseEvent, Span};
use format_traits::FormatParser;
use shape_types::OutOfMemory;
use std::alloc::Global;
use std::collections::VecDeque;
use std::marker::Model;

/// A parser of a tape. It takes a line for each event, and stays at a line that is no event's.
#[derive(Drop)]
pub struct TapeParser<'de> {
    alloc: Global,
    input: &'de [u8],
    at: usize,
    faults: u64,
}

impl<'de> Model for TapeParser<'de> {
    ghost use Rattle.std.specs.Prelude.{◌≤◌, length};
    ghost use Rattle.tape_text.specs.Parser.{Tape};

    ghost Value = { Tape };

    ghost view = { λ p. record { input = p.input.now; at = p.at; faults = p.faults } };

    ghost invariant = { λ p. p.at ≤ length p.input.now };
}

impl<'de> TapeParser<'de> {
    /// A parser at the beginning of a tape. This takes no memory.
    pub fn new(alloc: Global, input: &'de [u8]) -> TapeParser<'de>
        ensures { result ≡ record { input = input.now; at = 0; faults = 0 } }
    {
        TapeParser {
            alloc,
            input,
            at: 0,
            faults: 0,
        }
    }

    /// What stands at its place. A fault is counted.
    fn look(&mut self) -> Result<Option<(ParseEvent<'de>, usize)>, ParseError<'de>>
        ensures stands { LooksAt self.old.input self.old.at result }
        ensures kept { self.new ≡ record self.old { faults = self.new.faults } }
        ensures cause { HasCause self.old.faults self.new.faults result }
    {
        match event_at(self.alloc, self.input, self.at) {
            Ok(found) => Ok(found),
            Err(Stop::NoMemory) => Err(no_memory(self.at, "text of a line")),
            Err(Stop::Bad(error)) => {
                self.faults = self.faults.saturating_add(1);
                Err(error)
            }
        }
    }

    /// Puts the next event behind those of the buffer, and answers whether there was one.
    #[tactic(auto, using(crate::proofs::Taking::puts, crate::proofs::Taking::puts_none, crate::proofs::Taking::fails, crate::proofs::Taking::meets))]
    fn put_next(&mut self, buf: &mut VecDeque<ParseEvent<'de>>) -> Result<bool, ParseError<'de>>
        ensures put { IfOk result (λ put. PutNext put (parsing_of self.old) (parsing_of self.new) buf.old.items buf.new.items) }
        ensures stays { OnErr result (buf.new.items ≡ buf.old.items) }
        ensures failed { OnErr result (Failed (parsing_of self.old) (parsing_of self.new)) }
        ensures fault { IfErr result (λ e. IsMemory e ⊎ Met [] e (parsing_of self.old) (parsing_of self.new)) }
        ensures cause { HasCause self.old.faults self.new.faults result }
    {
        match self.look() {
            Ok(Some((event, next))) => {
                if put(buf, event).is_err() {
                    return Err(no_memory(self.at, "buffer of events"));
                }
                self.at = next;
                Ok(true)
            }
            Ok(None) => Ok(false),
            Err(error) => Err(error),
        }
    }
}

/// Puts an event behind those of the buffer. It is let go where no memory is there for it.
fn put<'de>(buf: &mut VecDeque<ParseEvent<'de>>, event: ParseEvent<'de>) -> Result<(), OutOfMemory>
    ensures { MatchResult result (λ _. buf.new.items ≡ buf.old.items ++ (event.entry ∷ [])) (λ _. buf.new.items ≡ buf.old.items) }
{
    match buf.push_back(event) {
        Ok(()) => Ok(()),
        Err(back) => {
            drop(back);
            Err(OutOfMemory)
        }
    }
}

/// No memory was there for the event of a line.
fn no_memory(at: usize, operation: &str) -> ParseError<'_>
    ensures { IsMemory result }
{
    let kind = DeserializeErrorKind::Alloc { operation };
    ParseError::new(Span { offset: at, len: 0 }, kind)
}

impl<'de> FormatParser<'de> for TapeParser<'de> {
    ghost use Rattle.std.specs.Prelude.{true};
    ghost use Rattle.std.proofs.Common.{refl};

    ghost parsing = { λ p. parsing_of p };

    ghost tells = { true };

    ghost told = { λ p _. refl };

    #[tactic(auto, using(crate::proofs::Taking::takes, crate::proofs::Taking::keeps, crate::proofs::Taking::fails, crate::proofs::Taking::ended, crate::proofs::Taking::meets))]
    fn next_event(&mut self) -> Result<Option<ParseEvent<'de>>, ParseError<'de>> {
        match self.look() {
            Ok(Some((event, next))) => {
                self.at = next;
                Ok(Some(event))
            }
            Ok(None) => Ok(None),
            Err(error) => Err(error),
        }
    }

    #[tactic(auto, using(crate::proofs::Taking::put_first, crate::proofs::Taking::put_another, crate::proofs::Taking::put_last, crate::proofs::Taking::put_end))]
    fn next_events(
        &mut self,
        buf: &mut VecDeque<ParseEvent<'de>>,
        limit: usize,
    ) -> Result<usize, ParseError<'de>> {
        let mut count = 0;
        'events: while count < limit {
            match self.put_next(buf) {
                Ok(true) => count += 1,
                Ok(false) => return Ok(count),
                Err(error) => return Err(error),
            }
        }
        Ok(count)
    }

    #[tactic(auto, using(crate::proofs::Taking::keeps, crate::proofs::Taking::fails, crate::proofs::Taking::ended, crate::proofs::Taking::meets, crate::proofs::Taking::sees, crate::proofs::Taking::sees_none))]
    fn peek_event(&mut self) -> Result<Option<ParseEvent<'de>>, ParseError<'de>> {
        match self.look() {
            Ok(Some((event, _))) => Ok(Some(event)),
            Ok(None) => Ok(None),
            Err(error) => Err(error),
        }
    }

    fn is_self_describing(&self) -> bool {
        true
    }

    /// It doesn't tell: each event has its span.
    fn current_span(&self) -> Option<Span>
        ensures { result ≡ None }
    {
        None
    }
}
