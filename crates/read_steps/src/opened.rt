//! The containers that are open while a value is passed over.
ghost use Rattle.std.specs.Prelude.{◌≡◌, ◌∷◌, [], MatchOption, OnOk};
ghost use Rattle.event_core.specs.Events.{event_of};
ghost use Rattle.read_steps.specs.Passing.{IsPassed, bracket_of, key_passed, opened_of, pass_of, start_passed, stop_passed};
ghost use Rattle.laws_reading.specs.Skips.{goes_on};

use crate::expected::{Expected, Unfit};
use event_core::{ParseEvent, ParseEventKind};
use shape_core::OutOfMemory;
use std::alloc::Global;
use std::marker::Model;

/// The containers that are open, true for a struct. Clauses see the innermost first.
#[derive(Drop)]
pub struct Opened {
    kinds: Vec<bool>,
}

impl Model for Opened {
    ghost use Rattle.std.specs.Prelude.{Bool, List, reverse};

    ghost Value = { List Bool };

    ghost view = { λ o. reverse o.kinds.items };
}

/// Why an event isn't passed over.
#[derive(Drop)]
pub enum NotPassed {
    /// Memory ran out.
    Alloc,
    /// It can't stand there.
    Unfit(Unfit),
}

impl Opened {
    /// None is open. This takes no memory.
    pub fn new(alloc: Global) -> Opened
        ensures { result ≡ [] }
    {
        Opened {
            kinds: Vec::new(alloc),
        }
    }

    /// Whether one is open.
    fn goes_on(&self) -> bool
        ensures { result ≡ goes_on (opened_of self.now) }
    {
        !self.kinds.is_empty()
    }

    /// One more is open.
    fn push(&mut self, is_struct: bool) -> Result<(), OutOfMemory>
        ensures pushed { OnOk result (self.new ≡ is_struct ∷ self.old) }
    {
        self.kinds.push(is_struct)?;
        Ok(())
    }

    /// The innermost is closed.
    fn pop(&mut self) -> Option<bool>
        ensures { MatchOption result ((self.old ≡ []) × (self.new ≡ [])) (λ b. self.old ≡ b ∷ self.new) }
    {
        self.kinds.pop()
    }

    /// Passes over an event of the value, and answers whether the value goes on.
    pub fn pass(&mut self, event: &ParseEvent<'_>) -> Result<bool, NotPassed>
        ensures { IsPassed result self.new (pass_of (event_of event.now) (opened_of self.old)) }
    {
        let unfit = Unfit {
            got: event.kind_name(),
            expected: Expected::SkippedValue,
        };
        match &event.kind {
            ParseEventKind::Scalar(_) => Ok(self.goes_on()),
            ParseEventKind::VariantTag(_) => Ok(true),
            ParseEventKind::FieldKey(_) | ParseEventKind::OrderedField => self.pass_key(unfit),
            ParseEventKind::StructStart(_) => self.start(true),
            ParseEventKind::SequenceStart(_) => self.start(false),
            ParseEventKind::StructEnd => self.stop(true, unfit),
            ParseEventKind::SequenceEnd => self.stop(false, unfit),
        }
    }

    fn pass_key(&mut self, unfit: Unfit) -> Result<bool, NotPassed>
        ensures { IsPassed result self.new (key_passed (opened_of self.old)) }
    {
        if self.goes_on() {
            return Ok(true);
        }
        Err(NotPassed::Unfit(unfit))
    }

    fn start(&mut self, is_struct: bool) -> Result<bool, NotPassed>
        ensures { IsPassed result self.new (start_passed (bracket_of is_struct) (opened_of self.old)) }
    {
        match self.push(is_struct) {
            Ok(()) => Ok(true),
            Err(_) => Err(NotPassed::Alloc),
        }
    }

    fn stop(&mut self, is_struct: bool, unfit: Unfit) -> Result<bool, NotPassed>
        ensures { IsPassed result self.new (stop_passed (bracket_of is_struct) (opened_of self.old)) }
    {
        match self.pop() {
            Some(innermost) => {
                if innermost == is_struct {
                    Ok(self.goes_on())
                } else {
                    Err(NotPassed::Unfit(unfit))
                }
            }
            None => Err(NotPassed::Unfit(unfit)),
        }
    }
}
