//! What holds of the reading of a tape.
ghost use Rattle.std.specs.Prelude.{ℕ, List, IsTrue};
ghost use Rattle.std.specs.Str.{is_utf8};
ghost use Rattle.semantics_lines.specs.Events.{Span};
ghost use Rattle.tape_text.specs.Laws.{LineIsRead, TapeIsRead, OneLineOneEvent};

/// A line is read as the event whose line it is, and as none where no event has it.
pub fn line_is_read()
    ensures { (span : Span) (line : List ℕ) → IsTrue (is_utf8 line) → LineIsRead span line }
{}

/// What comes of an input are the events that it is the tape of, up to its end or its first bad line.
pub fn tape_is_read()
    ensures { (input : List ℕ) → TapeIsRead input }
{}

/// Two events share no line, wherever they stand.
pub fn one_line_one_event()
    ensures { OneLineOneEvent }
{}
