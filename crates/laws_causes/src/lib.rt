//! Each fault of the reader has its cause in the events that were taken.
//!
//! The laws stand over the machine of `laws_machine`: its frames are the parts of the value that are open, the innermost
//! of which is due. Each law is the contract of a function that does nothing.
#![tactic(auto)]

ghost use Rattle.laws_causes.specs.Laws.{StoppingReads, StepsKeep, StoppingFails};

/// The machine that tells where it stops is the machine.
pub fn stopping_reads()
    ensures { StoppingReads }
{}

/// A loop over the events comes to what the machine promised for all of them.
pub fn steps_keep()
    ensures { StepsKeep }
{}

/// Each fault of the machine has its cause in the events.
pub fn stopping_fails()
    ensures { StoppingFails }
{}
