//! What holds of lines and of the texts that they make: each law is the contract of a function that does nothing.
//!
//! The statements stand in `specs/Laws.antt`, over the definitions of `semantics_lines` alone.
#![tactic(auto)]

ghost use Rattle.laws_lines.specs.Laws.{OneDivision, OneEvent, OneShapeLine, OneTape};

/// A line is the line of one event, over the whole grammar.
pub fn one_event()
    ensures { OneEvent }
{}

/// Bytes are the tape of at most one list of events.
pub fn one_tape()
    ensures { OneTape }
{}

/// A line of a shape text is spelled in one way, and read as what it says.
pub fn one_shape_line()
    ensures { OneShapeLine }
{}

/// An input is divided in one way.
pub fn one_division()
    ensures { OneDivision }
{}
