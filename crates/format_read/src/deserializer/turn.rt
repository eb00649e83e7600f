//! Takes an event, and steps.
ghost use Rattle.std.specs.Prelude.{◌≡◌, ◌<◌, [], None, Some, false, is_none, IfErr, IfOk, IsTrue, OnOk};
ghost use Rattle.semantics_lines.specs.Faults.{ends};
ghost use Rattle.semantics_lines.specs.Faults.{ended_at};
ghost use Rattle.event_core.specs.Events.{event_of};
ghost use Rattle.event_core.specs.Metadata.{span_view};
ghost use Rattle.laws_machine.specs.Steps.{step_at};
ghost use Rattle.laws_reading.specs.Values.{Terms};
ghost use Rattle.read_steps.specs.Stops.{told_stop, IsFault, Gives, IsOwn};
ghost use Rattle.read_steps.specs.Tasks.{terms_of};
ghost use Rattle.read_steps.specs.Views.{frames_of};
ghost use Rattle.format_read.specs.Deserializers.{seat_in};
ghost use Rattle.format_read.specs.Seats.{IsLeft, HasSource};
ghost use Rattle.format_read.specs.Stopping.{GivesAt, StopsAt};
ghost use Rattle.format_read.specs.Taking.{HasNext};
ghost use Rattle.format_read.specs.Turning.{status_in, turn_at, IsAdmitted, StandsAt};

use crate::deserializer::FormatDeserializer;
use crate::deserializer::next::stop_of;
use event_core::{DeserializeErrorKind, ParseEvent, Span};
use format_traits::FormatParser;
use laws_machine::faults_of_steps;
use read_steps::{Frames, ReadStop, Status, Task, expected_at_end, leaves, refuse_left, step};
use shape_core::Value;
use std::alloc::Global;

/// What is open, and then the whole value.
#[derive(Drop)]
pub(crate) struct Reading<'de> {
    pub(crate) frames: Frames<'de>,
    pub(crate) value: Option<Value<'de>>,
}

impl<'de> Reading<'de> {
    /// Nothing was read yet.
    pub(crate) fn new(alloc: Global) -> Reading<'de>
        ensures frames { (t : Terms) → frames_of t result.frames ≡ [] }
        ensures value { result.value ≡ None }
    {
        Reading {
            frames: Frames::new(alloc),
            value: None,
        }
    }

    /// The value that was read.
    pub(crate) fn finish(self) -> Value<'de>
        requires { is_none self.value ≡ false }
        ensures { self.entry.value ≡ Some result }
    {
        let Reading { frames, value } = self;
        drop(frames);
        match value {
            Some(value) => value,
            None => unreachable!(),
        }
    }

    /// Steps, and answers whether more events have to come.
    fn step(
        &mut self,
        task: &Task<'_, '_>,
        before: Span,
        event: ParseEvent<'de>,
    ) -> Result<bool, ReadStop<'de>>
        requires { self.old.value ≡ None }
        ensures exact { Gives told_stop (λ more. status_in (terms_of task.now) self.new) result (step_at (terms_of task.now) (frames_of (terms_of task.now) self.old.frames) (span_view before) (event_of event.entry)) }
        ensures more { IfOk result (λ more. more ≡ is_none self.new.value) }
        ensures own { IfErr result (λ e. IsOwn (told_stop e)) }
    {
        let mut event = event;
        match step(task, &mut self.frames, before, &mut event) {
            Ok(Status::Going) => Ok(true),
            Ok(Status::Complete(value)) => {
                self.value = Some(value);
                Ok(false)
            }
            Err(stop) => Err(stop),
        }
    }
}

impl<'parser, 'input, 's, 'v, P: FormatParser<'input>, const BORROW: u8> FormatDeserializer<
    'parser,
    'input,
    's,
    'v,
    P,
    BORROW,
> {
    /// Takes an event and steps, and answers whether more events have to come.
    #[tactic(auto, using(crate::proofs::Turns::gives_alike, crate::proofs::Turns::fails_alike, crate::proofs::Lefts::left_later, crate::proofs::Lefts::source_later))]
    pub(crate) fn turn(
        &mut self,
        task: &Task<'_, '_>,
        reading: &mut Reading<'input>,
    ) -> Result<bool, ReadStop<'input>>
        requires { reading.old.value ≡ None }
        ensures exact { IsTrue P.tells → GivesAt told_stop (λ more. status_in (terms_of task.now) reading.new) (seat_in P.parsing self.new).input result (turn_at (terms_of task.now) (frames_of (terms_of task.now) reading.old.frames) (seat_in P.parsing self.old).input) }
        ensures more { IfOk result (λ more. more ≡ is_none reading.new.value) }
        ensures stands { IfErr result (λ e. StandsAt (told_stop e) (seat_in P.parsing self.new).input.last) }
        ensures left { IsLeft (seat_in P.parsing self.old) (seat_in P.parsing self.new) }
        ensures fewer { OnOk result ((seat_in P.parsing self.new).left < (seat_in P.parsing self.old).left) }
        ensures cause { IfErr result (λ e. HasSource (told_stop e) (seat_in P.parsing self.old) (seat_in P.parsing self.new)) }
    {
        match self.admit(task, &reading.frames) {
            Ok(()) => self.take_step(task, reading),
            Err(stop) => Err(stop),
        }
    }

    /// Sees to it that an event comes, which may be taken.
    #[tactic(auto, using(crate::proofs::Turns::ended_fails, crate::proofs::Turns::fault_fails, crate::proofs::Turns::fails_alike, crate::proofs::Turns::ended_stands, crate::proofs::Turns::parse_stands, crate::proofs::Lefts::source_own, crate::proofs::Lefts::source_later))]
    fn admit(
        &mut self,
        task: &Task<'_, '_>,
        frames: &Frames<'input>,
    ) -> Result<(), ReadStop<'input>>
        ensures next { OnOk result (HasNext self.new.queue) }
        ensures admitted { OnOk result (IsAdmitted (terms_of task.now) (frames_of (terms_of task.now) frames.now) self.new.queue.ahead) }
        ensures same { OnOk result ((seat_in P.parsing self.new).input ≡ (seat_in P.parsing self.old).input) }
        ensures fault { IsTrue P.tells → IfErr result (λ e. StopsAt (told_stop e) (seat_in P.parsing self.new).input (turn_at (terms_of task.now) (frames_of (terms_of task.now) frames.now) (seat_in P.parsing self.old).input)) }
        ensures stands { IfErr result (λ e. StandsAt (told_stop e) (seat_in P.parsing self.new).input.last) }
        ensures left { IsLeft (seat_in P.parsing self.old) (seat_in P.parsing self.new) }
        ensures cause { IfErr result (λ e. HasSource (told_stop e) (seat_in P.parsing self.old) (seat_in P.parsing self.new)) }
    {
        match self.ready() {
            Ok(true) => self.look(task, frames),
            Ok(false) => Err(self.ended(task, frames)),
            Err(error) => Err(stop_of(self.alloc, error)),
        }
    }

    /// The end of the events, where one has to come.
    fn ended(&self, task: &Task<'_, '_>, frames: &Frames<'input>) -> ReadStop<'input>
        ensures { IsFault (told_stop result) (ended_at ends (seat_in P.parsing self.now).input.last) }
    {
        let kind = DeserializeErrorKind::UnexpectedEof {
            expected: expected_at_end(task, frames),
        };
        ReadStop::fault(self.alloc, kind.with_span(self.last))
    }

    /// Looks at the event that comes, and refuses it where it is left.
    #[tactic(auto, using(crate::proofs::Turns::has_first, crate::proofs::Turns::admitted_at, crate::proofs::Turns::left_stands))]
    fn look(&self, task: &Task<'_, '_>, frames: &Frames<'input>) -> Result<(), ReadStop<'input>>
        requires { HasNext self.now.queue }
        ensures admitted { OnOk result (IsAdmitted (terms_of task.now) (frames_of (terms_of task.now) frames.now) self.now.queue.ahead) }
        ensures fault { IsTrue P.tells → IfErr result (λ e. StopsAt (told_stop e) (seat_in P.parsing self.now).input (turn_at (terms_of task.now) (frames_of (terms_of task.now) frames.now) (seat_in P.parsing self.now).input)) }
        ensures stands { IfErr result (λ e. StandsAt (told_stop e) (seat_in P.parsing self.now).input.last) }
        ensures own { IfErr result (λ e. IsOwn (told_stop e)) }
    {
        faults_of_steps();
        match self.queue.peek() {
            Some(event) => {
                if leaves(task, frames, event) {
                    Err(refuse_left(task, frames, self.last, event))
                } else {
                    Ok(())
                }
            }
            None => unreachable!(),
        }
    }

    /// Takes the event that comes, and steps.
    #[tactic(auto, using(crate::proofs::Turns::turn_goes, crate::proofs::Turns::turn_fails, crate::proofs::Turns::taken_stands, crate::proofs::Lefts::source_own))]
    fn take_step(
        &mut self,
        task: &Task<'_, '_>,
        reading: &mut Reading<'input>,
    ) -> Result<bool, ReadStop<'input>>
        requires next { HasNext self.old.queue }
        requires admitted { IsAdmitted (terms_of task.now) (frames_of (terms_of task.now) reading.old.frames) self.old.queue.ahead }
        requires going { reading.old.value ≡ None }
        ensures exact { IsTrue P.tells → GivesAt told_stop (λ more. status_in (terms_of task.now) reading.new) (seat_in P.parsing self.new).input result (turn_at (terms_of task.now) (frames_of (terms_of task.now) reading.old.frames) (seat_in P.parsing self.old).input) }
        ensures more { IfOk result (λ more. more ≡ is_none reading.new.value) }
        ensures stands { IfErr result (λ e. StandsAt (told_stop e) (seat_in P.parsing self.new).input.last) }
        ensures left { IsLeft (seat_in P.parsing self.old) (seat_in P.parsing self.new) }
        ensures fewer { OnOk result ((seat_in P.parsing self.new).left < (seat_in P.parsing self.old).left) }
        ensures cause { IfErr result (λ e. HasSource (told_stop e) (seat_in P.parsing self.old) (seat_in P.parsing self.new)) }
    {
        faults_of_steps();
        let before = self.last;
        match self.pull() {
            Ok(event) => match reading.step(task, before, event) {
                Ok(more) => Ok(more),
                Err(stop) => Err(stop),
            },
            Err(_) => Err(ReadStop::Alloc),
        }
    }
}
