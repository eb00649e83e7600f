//! A parser of events that are told, and of what stands behind them.
ghost use Rattle.std.specs.Prelude.{◌≡◌, ◌++◌, ◌≤◌, ◌⊎◌, None, Some, length, take, drop, option_map, IfErr, OnOk, OnErr};
ghost use Rattle.event_core.specs.Faults.{parse_fault};
ghost use Rattle.format_read_tests.specs.Untold.{io_at};
ghost use Rattle.format_traits.specs.Parsing.{IsMemory, HasCause};

use event_core::{DeserializeErrorKind, ParseError, ParseEvent, Span};
use format_traits::FormatParser;
use shape_core::Text;
use std::alloc::Global;
use std::collections::VecDeque;

/// What stands behind the last event.
#[derive(Clone, Copy)]
pub enum Behind {
    /// Nothing.
    End,
    /// A fault of the input, at this place.
    Fault(Span),
    /// Want of memory.
    NoMemory,
}

/// Gives events from a list, and counts those that it gave.
#[derive(Drop)]
pub struct Listed<'de> {
    alloc: Global,
    events: VecDeque<ParseEvent<'de>>,
    fault: Option<Span>,
    no_memory: bool,
    given: usize,
    faults: u64,
}

impl<'de> Listed<'de> {
    /// A parser of these events. This takes no memory.
    pub fn new(alloc: Global, events: VecDeque<ParseEvent<'de>>, behind: Behind) -> Listed<'de> {
        let (fault, no_memory) = match behind {
            Behind::End => (None, false),
            Behind::Fault(span) => (Some(span), false),
            Behind::NoMemory => (None, true),
        };
        Listed {
            alloc,
            events,
            fault,
            no_memory,
            given: 0,
            faults: 0,
        }
    }

    /// How many events it gave.
    pub fn given(&self) -> usize {
        self.given
    }

    /// Passes over the first event.
    pub fn pass_one(&mut self) {
        drop(self.events.pop_front());
        self.given = self.given.saturating_add(1);
    }

    /// Answers what stands behind the events. A fault is counted.
    fn end(&mut self) -> Result<(), ParseError<'de>>
        ensures kept { self.new ≡ record self.old { faults = self.new.faults } }
        ensures none { OnOk result (self.old.fault ≡ None) }
        ensures met { IfErr result (λ e. IsMemory e ⊎ (option_map io_at self.old.fault ≡ Some (parse_fault e))) }
        ensures cause { HasCause self.old.faults self.new.faults result }
    {
        if let Some(span) = self.fault {
            self.faults = self.faults.saturating_add(1);
            let message = Text::Borrowed("broken");
            return Err(ParseError::new(span, DeserializeErrorKind::Io { message }));
        }
        if self.no_memory {
            return Err(no_memory());
        }
        Ok(())
    }

    /// Moves the first events behind those of the buffer. Where memory runs out, events are lost.
    fn give(
        &mut self,
        buf: &mut VecDeque<ParseEvent<'de>>,
        count: usize,
    ) -> Result<(), ParseError<'de>>
        requires { count ≤ length self.old.events.items }
        ensures given { OnOk result (buf.new.items ≡ buf.old.items ++ take count self.old.events.items) }
        ensures rest { OnOk result (self.new.events.items ≡ drop count self.old.events.items) }
        ensures unchanged { OnErr result (buf.new.items ≡ buf.old.items) }
        ensures fewer { OnErr result (length self.new.events.items ≤ length self.old.events.items) }
        ensures memory { IfErr result (λ e. IsMemory e) }
        ensures fault { self.new.fault ≡ self.old.fault }
        ensures faults { self.new.faults ≡ self.old.faults }
    {
        let Ok(rest) = self.events.split_off(count) else {
            return Err(no_memory());
        };
        if buf.append(&mut self.events).is_err() {
            return Err(no_memory());
        }
        self.events = rest;
        self.given = self.given.saturating_add(count);
        Ok(())
    }
}

/// No memory was there.
fn no_memory<'e>() -> ParseError<'e>
    ensures { IsMemory result }
{
    let kind = DeserializeErrorKind::Alloc { operation: "event" };
    ParseError::new(Span { offset: 0, len: 0 }, kind)
}

impl<'de> FormatParser<'de> for Listed<'de> {
    ghost use Rattle.std.specs.Prelude.{false, option_map};
    ghost use Rattle.format_read_tests.specs.Untold.{io_at, untold};

    ghost parsing = { λ p. untold p.events.items (option_map io_at p.fault) p.faults };

    ghost tells = { false };

    ghost told = { λ p h. h };

    #[tactic(auto, using(crate::proofs::UntoldCalls::gives, crate::proofs::UntoldCalls::stays, crate::proofs::UntoldCalls::fails, crate::proofs::UntoldCalls::ended, crate::proofs::UntoldCalls::meets))]
    fn next_event(&mut self) -> Result<Option<ParseEvent<'de>>, ParseError<'de>> {
        match self.events.pop_front() {
            Some(event) => {
                self.given = self.given.saturating_add(1);
                Ok(Some(event))
            }
            None => match self.end() {
                Ok(()) => Ok(None),
                Err(error) => Err(error),
            },
        }
    }

    #[tactic(auto, using(crate::proofs::UntoldCalls::puts, crate::proofs::UntoldCalls::put_ended, crate::proofs::UntoldCalls::put_lost, crate::proofs::UntoldCalls::put_met))]
    fn next_events(
        &mut self,
        buf: &mut VecDeque<ParseEvent<'de>>,
        limit: usize,
    ) -> Result<usize, ParseError<'de>> {
        let count = limit.min(self.events.len());
        match self.give(buf, count) {
            Ok(()) => {}
            Err(error) => return Err(error),
        }
        if count == limit {
            return Ok(count);
        }
        match self.end() {
            Ok(()) => Ok(count),
            Err(error) => Err(error),
        }
    }

    #[tactic(auto, using(crate::proofs::UntoldCalls::stays, crate::proofs::UntoldCalls::fails, crate::proofs::UntoldCalls::ended, crate::proofs::UntoldCalls::meets))]
    fn peek_event(&mut self) -> Result<Option<ParseEvent<'de>>, ParseError<'de>> {
        match self.events.front() {
            Some(event) => match event.try_clone(self.alloc) {
                Ok(event) => Ok(Some(event)),
                Err(_) => Err(no_memory()),
            },
            None => match self.end() {
                Ok(()) => Ok(None),
                Err(error) => Err(error),
            },
        }
    }

    fn is_self_describing(&self) -> bool {
        true
    }

    fn current_span(&self) -> Option<Span> {
        None
    }
}
