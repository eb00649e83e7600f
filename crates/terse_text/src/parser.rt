//! The parser.
ghost use Rattle.std.specs.Prelude.{◌≡◌, ◌⊎◌, [], None, Some, IfOk, IfErr, OnErr};
ghost use Rattle.semantics_lines.specs.Faults.{unexpected_char};
ghost use Rattle.event_core.specs.Faults.{parse_fault};
ghost use Rattle.event_core.specs.Metadata.{span_view};
ghost use Rattle.format_traits.specs.Parsing.{Failed, Met, IsMemory, HasCause};
ghost use Rattle.terse_text.specs.Terse.{Stands};
ghost use Rattle.terse_text.specs.Parser.{parsing_of, PutNext};

use crate::event::first_kind;
use event_core::{DeserializeErrorKind, ParseError, ParseEvent, Span};
use format_traits::FormatParser;
use std::collections::VecDeque;
use std::marker::Model;

/// A parser of a terse text. It takes a byte for each event, and stays at a byte that no event has.
#[derive(Drop)]
pub struct TerseParser<'de> {
    len: usize,
    rest: &'de [u8],
    faults: u64,
}

impl<'de> Model for TerseParser<'de> {
    ghost use Rattle.std.specs.Prelude.{◌≤◌, length};
    ghost use Rattle.terse_text.specs.Parser.{Terse};

    ghost Value = { Terse };

    ghost view = { λ p. record { len = p.len; rest = p.rest.now; faults = p.faults } };

    ghost invariant = { λ p. length p.rest.now ≤ p.len };
}

impl<'de> TerseParser<'de> {
    ghost use Rattle.std.specs.Prelude.{length};

    /// A parser of this text.
    pub fn new(text: &'de [u8]) -> TerseParser<'de>
        ensures { result ≡ record { len = length text.now; rest = text.now; faults = 0 } }
    {
        TerseParser {
            len: text.len(),
            rest: text,
            faults: 0,
        }
    }

    /// What stands at its place. A fault is counted.
    #[tactic(auto, using(crate::proofs::Stands::stands_end, crate::proofs::Stands::stands_event, crate::proofs::Stands::stands_fault))]
    fn look(&mut self) -> Result<Option<ParseEvent<'de>>, ParseError<'de>>
        ensures stands { Stands self.old.len self.old.rest result }
        ensures kept { self.new ≡ record self.old { faults = self.new.faults } }
        ensures cause { HasCause self.old.faults self.new.faults result }
    {
        if self.rest.is_empty() {
            return Ok(None);
        }
        let offset = self.len - self.rest.len();
        let span = Span { offset, len: 1 };
        match first_kind(self.rest) {
            Some(kind) => Ok(Some(ParseEvent::new(kind, span))),
            None => {
                self.faults = self.faults.saturating_add(1);
                // A byte past ASCII is shown as the character of its number.
                let ch = char::from(self.rest[0]);
                let expected = "a bracket, a letter, a digit or a minus";
                let kind = DeserializeErrorKind::UnexpectedChar { ch, expected };
                Err(ParseError::new(span, kind))
            }
        }
    }

    /// Puts the next event after those of the buffer, and answers whether there was one.
    #[tactic(auto, using(crate::proofs::Taking::puts, crate::proofs::Taking::puts_none, crate::proofs::Taking::fails, crate::proofs::Taking::meets))]
    fn put_next(&mut self, buf: &mut VecDeque<ParseEvent<'de>>) -> Result<bool, ParseError<'de>>
        ensures put { IfOk result (λ put. PutNext put (parsing_of self.old) (parsing_of self.new) buf.old.items buf.new.items) }
        ensures stays { OnErr result (buf.new.items ≡ buf.old.items) }
        ensures failed { OnErr result (Failed (parsing_of self.old) (parsing_of self.new)) }
        ensures fault { IfErr result (λ e. IsMemory e ⊎ Met [] e (parsing_of self.old) (parsing_of self.new)) }
        ensures cause { HasCause self.old.faults self.new.faults result }
    {
        let Some(event) = self.look()? else {
            return Ok(false);
        };
        if buf.push_back(event).is_err() {
            let operation = "buffer of events";
            let kind = DeserializeErrorKind::Alloc { operation };
            return Err(ParseError::new(Span::default(), kind));
        }
        self.rest = self.rest.split_at(1).1;
        Ok(true)
    }
}

impl<'de> FormatParser<'de> for TerseParser<'de> {
    ghost use Rattle.std.specs.Prelude.{true};
    ghost use Rattle.std.proofs.Common.{refl};

    ghost parsing = { λ p. parsing_of p };

    ghost tells = { true };

    ghost told = { λ p _. refl };

    #[tactic(auto, using(crate::proofs::Taking::takes, crate::proofs::Taking::keeps, crate::proofs::Taking::fails, crate::proofs::Taking::ended, crate::proofs::Taking::meets))]
    fn next_event(&mut self) -> Result<Option<ParseEvent<'de>>, ParseError<'de>> {
        let Some(event) = self.look()? else {
            return Ok(None);
        };
        self.rest = self.rest.split_at(1).1;
        Ok(Some(event))
    }

    #[tactic(auto, using(crate::proofs::Taking::put_first, crate::proofs::Taking::put_another, crate::proofs::Taking::put_last, crate::proofs::Taking::put_end))]
    fn next_events(
        &mut self,
        buf: &mut VecDeque<ParseEvent<'de>>,
        limit: usize,
    ) -> Result<usize, ParseError<'de>> {
        let mut count = 0;
        'events: while count < limit && self.put_next(buf)? {
            count += 1;
        }
        Ok(count)
    }

    #[tactic(auto, using(crate::proofs::Taking::keeps, crate::proofs::Taking::fails, crate::proofs::Taking::ended, crate::proofs::Taking::meets, crate::proofs::Taking::sees, crate::proofs::Taking::sees_none))]
    fn peek_event(&mut self) -> Result<Option<ParseEvent<'de>>, ParseError<'de>> {
        self.look()
    }

    fn is_self_describing(&self) -> bool {
        true
    }

    /// It doesn't tell: each event has its span.
    fn current_span(&self) -> Option<Span> {
        None
    }
}
