//! What texts, values, shapes, events, documents and faults are, and the lines that spell them: tapes and shape texts.
//!
//! Definitions alone, in `specs/`, one file a notion. What it means to write and to read is said in `semantics`.
#![tactic(auto)]
