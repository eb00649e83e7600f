//! A stack machine that reads values, one event at a time, and its law: it reads what `reading` of `laws_reading` reads.
//!
//! `specs/` has the frames that are open, what an event does to them and which events a step only looks at. Each law
//! is the contract of a function that does nothing.
#![tactic(auto)]

ghost use Rattle.laws_machine.specs.Laws.{LoopsKeep, MachineReads};
ghost use Rattle.laws_machine.specs.Leaves.{FaultsStand};

/// What the machine reads is what `reading` reads, and it stops at the same fault.
pub fn machine_reads_values()
    ensures { MachineReads }
{}

/// Each fault of a step stands at the event, or at the one before where the event is left.
pub fn faults_of_steps()
    ensures { FaultsStand }
{}

/// A loop over the events comes to what the machine promised for all of them.
pub fn loops_keep()
    ensures { LoopsKeep }
{}
