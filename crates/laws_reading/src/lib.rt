//! How events are read, step by step, and what that has to do with the meaning of runs.
//!
//! `specs/` reads values from lists of events, or tells the first fault that is met. The laws tie that to the
//! definitions of `semantics`, each as the contract of a function that does nothing.
#![tactic(auto)]

ghost use Rattle.laws_reading.specs.Laws.{ReadingMeans};
ghost use Rattle.laws_reading.specs.LostOption.{LosesOption};

/// What is read of events is what their runs mean, and nothing else.
pub fn reading_means()
    ensures { ReadingMeans }
{}

/// An example: an option of an option isn't separable, since one of its values is read back as another.
pub fn option_of_option_loses()
    ensures { LosesOption }
{}
