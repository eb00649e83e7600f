//! A queue of events that were read ahead.
ghost use Rattle.std.specs.Prelude.{◌≡◌, ◌+◌, ◌≤◌, [], None, Some, length, slice_get, IfOk, IfSome, IsNone, IsSome, MatchOption, OnErr, OnOk};
ghost use Rattle.std.specs.Option.{option_copied};
ghost use Rattle.event_core.specs.Queued.{IsBounded, Took, came_back, empty_queue, filled_by};

use crate::event::ParseEvent;
use crate::steps::Steps;
use shape_types::OutOfMemory;
use std::alloc::Global;
use std::collections::VecDeque;
use std::marker::Model;
use std::sync::ledger::Ledger;

/// Events that were read ahead of those taken.
///
/// It holds at most `capacity` events beyond the furthest one that was taken. Those taken while a save is open stay
/// before the cursor, so that they can come again.
#[derive(Drop)]
pub struct EventQueue<'de> {
    alloc: Global,
    events: VecDeque<ParseEvent<'de>>,
    capacity: usize,
    at: usize,
    saving: bool,
    again: usize,
}

impl<'de> Model for EventQueue<'de> {
    ghost use Rattle.std.specs.Prelude.{None, Some, drop, take, if◌then◌else◌};
    ghost use Rattle.event_core.specs.Queued.{IsHeld, Queued};

    ghost Value = { Queued };

    ghost view = { λ q. record {
      capacity = q.capacity;
      ahead = drop q.at q.events.items;
      again = q.again;
      saved = if q.saving then Some (take q.at q.events.items) else None;
    } };

    ghost invariant = { λ q. IsHeld q.at q.again q.capacity q.saving q.events.items };
}

impl<'de> EventQueue<'de> {
    /// An empty queue. It takes no memory yet.
    pub fn new(alloc: Global, capacity: usize) -> EventQueue<'de>
        ensures { result ≡ empty_queue capacity }
    {
        EventQueue {
            alloc,
            events: VecDeque::new(alloc),
            capacity,
            at: 0,
            saving: false,
            again: 0,
        }
    }

    /// How many events it may hold beyond the furthest one taken.
    pub fn capacity(&self) -> usize
        ensures { result ≡ self.now.capacity }
    {
        self.capacity
    }

    /// How many events are held and not yet taken.
    pub fn ahead(&self) -> usize
        ensures count { result ≡ length self.now.ahead }
        ensures bounded { IsBounded self.now }
    {
        self.events.len() - self.at
    }

    /// Moves the batch to the end. A refusal, for want of memory alone, changes neither.
    pub fn fill(&mut self, batch: &mut VecDeque<ParseEvent<'de>>) -> Result<(), OutOfMemory>
        requires { length self.old.ahead + length batch.old.items ≤ self.old.capacity }
        ensures filled { OnOk result (self.new ≡ filled_by batch.old.items self.old) }
        ensures emptied { OnOk result (batch.new.items ≡ []) }
        ensures unchanged { OnErr result (self.new ≡ self.old) }
        ensures kept { OnErr result (batch.new.items ≡ batch.old.items) }
    {
        if self.events.is_empty() {
            std::mem::swap(&mut self.events, batch);
            return Ok(());
        }
        match self.events.append(batch) {
            Ok(()) => Ok(()),
            Err(_) => Err(OutOfMemory),
        }
    }

    /// The next event. None exactly where nothing is ahead.
    pub fn peek(&self) -> Option<&ParseEvent<'de>>
        ensures { option_copied result ≡ slice_get self.now.ahead 0 }
    {
        self.events.get(self.at)
    }

    /// Takes the next event, which is one step. None exactly where nothing is ahead. A refusal, for want of memory
    /// alone, changes nothing.
    pub fn take<L: Ledger>(
        &mut self,
        steps: &mut Steps<L>,
    ) -> Result<Option<ParseEvent<'de>>, OutOfMemory>
        ensures took { IfOk result (λ event. MatchOption event (self.old.ahead ≡ []) (λ e. Took e self.old self.new)) }
        ensures none { IfOk result (λ event. IsNone event → self.new ≡ self.old) }
        ensures waits { IfOk result (λ event. IsNone event → steps.new ≡ steps.old) }
        ensures ticks { IfOk result (λ event. IsSome event → steps.new ≡ steps.old + 1) }
        ensures unchanged { OnErr result (self.new ≡ self.old) }
        ensures uncounted { OnErr result (steps.new ≡ steps.old) }
    {
        let event = if self.saving {
            match self.take_copy() {
                Ok(event) => event,
                Err(refused) => return Err(refused),
            }
        } else {
            self.take_out()
        };
        if event.is_some() {
            steps.tick();
        }
        Ok(event)
    }

    /// A copy of the next event, which stays before the cursor.
    fn take_copy(&mut self) -> Result<Option<ParseEvent<'de>>, OutOfMemory>
        requires { IsSome self.old.saved }
        ensures took { IfOk result (λ event. MatchOption event (self.old.ahead ≡ []) (λ e. Took e self.old self.new)) }
        ensures none { IfOk result (λ event. IsNone event → self.new ≡ self.old) }
        ensures unchanged { OnErr result (self.new ≡ self.old) }
    {
        let Some(event) = self.events.get(self.at) else {
            return Ok(None);
        };
        match event.try_clone(self.alloc) {
            Ok(event) => {
                self.at += 1;
                self.again = self.again.saturating_sub(1);
                Ok(Some(event))
            }
            Err(refused) => Err(refused),
        }
    }

    /// The next event, which leaves the queue.
    fn take_out(&mut self) -> Option<ParseEvent<'de>>
        requires { self.old.saved ≡ None }
        ensures took { MatchOption result (self.old.ahead ≡ []) (λ e. Took e self.old self.new) }
        ensures none { IsNone result → self.new ≡ self.old }
    {
        let event = self.events.pop_front();
        if event.is_some() {
            self.again = self.again.saturating_sub(1);
        }
        event
    }

    /// Opens a save, of which there is none yet. It takes no memory.
    pub fn save(&mut self)
        requires { self.old.saved ≡ None }
        ensures { self.new ≡ record self.old { saved = Some [] } }
    {
        self.saving = true;
    }

    /// Lets the events come again that were taken since the open save, and closes it. It takes no memory.
    pub fn restore(&mut self)
        requires { IsSome self.old.saved }
        ensures { IfSome self.old.saved (λ taken. self.new ≡ came_back taken self.old) }
    {
        self.again += self.at;
        self.at = 0;
        self.saving = false;
    }
}
