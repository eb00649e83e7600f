//! Why an input is refused: which part of the value was due, and what the events that came say of it.
//!
//! Definitions alone, in `specs/`, over those of `semantics`. The reader is proved to answer a fault for such a cause
//! only.
#![tactic(auto)]
