ghost use Rattle.std.specs.Prelude.{◌≡◌, ◌≤◌, ◌⊎◌, ◌++◌, ◌∷◌, [], OnOk, OnErr};
ghost use Rattle.std.specs.Io.KnownBytes.{Appends};
ghost use Rattle.recode_top.specs.Outside.Counting.{Rose};
ghost use Rattle.recode_top.specs.Stopping.{note_of, status_of};

use crate::outside::{Failed, Sink, write_all};
use shape_core::Name;

/// Why the program stops before it is done.
#[derive(Drop)]
pub enum Stop<'a> {
    /// The words of the command line have no known form.
    Usage,
    /// A read failed.
    ReadFault,
    /// The input is longer than the program reads.
    TooLong,
    /// The input has no line that divides it.
    NoDivider,
    /// The shape text was refused: the line, a colon, a space and the kind of the fault.
    Shapes(Name),
    /// The shape text has no shape of this name.
    UnknownRoot(&'a str),
    /// The tape was refused: the text of the fault and its span.
    Refused(Name),
    /// A write failed.
    WriteFault,
    /// Memory ran out.
    Memory,
}

impl<'a> Stop<'a> {
    /// The status that the program ends with.
    pub fn status(&self) -> u8
        ensures { result ≡ status_of self.now }
    {
        match self {
            Stop::Refused(_) => 1,
            Stop::Usage => 2,
            Stop::NoDivider | Stop::Shapes(_) | Stop::UnknownRoot(_) => 3,
            Stop::ReadFault => 4,
            Stop::WriteFault => 5,
            Stop::Memory => 6,
            Stop::TooLong => 7,
        }
    }

    /// Says why on `notes`, in a line. A fault of `notes` is passed over.
    pub fn note<N: Sink>(&self, notes: &mut N)
        ensures later { N.faults notes.old ≤ N.faults notes.new }
        ensures said { Rose (N.faults notes.old) (N.faults notes.new)
            ⊎ Appends (N.written notes.old) (N.written notes.new) (note_of self.now) }
    {
        let (front, text) = self.parts();
        match write_line(notes, front, text) {
            Ok(()) => {}
            Err(Failed) => {}
        }
    }

    /// The line in two parts, without its line feed.
    fn parts(&self) -> (&str, &str)
        ensures { note_of self.now ≡ result.0.now ++ (result.1.now ++ 10 ∷ []) }
    {
        match self {
            Stop::Usage => ("usage: recode ROOT [CAPACITY DEPTH]", ""),
            Stop::ReadFault => ("error: read fault", ""),
            Stop::TooLong => ("error: input too long", ""),
            Stop::NoDivider => ("error: no --- line", ""),
            Stop::Shapes(text) => ("error: shapes line ", text.as_str()),
            Stop::UnknownRoot(root) => ("error: unknown root ", root),
            Stop::Refused(text) => ("error: ", text.as_str()),
            Stop::WriteFault => ("error: write fault", ""),
            Stop::Memory => ("error: out of memory", ""),
        }
    }
}

/// Writes both parts and a line feed.
fn write_line<N: Sink>(notes: &mut N, front: &str, text: &str) -> Result<(), Failed>
    ensures later { N.faults notes.old ≤ N.faults notes.new }
    ensures all { OnOk result (Appends (N.written notes.old) (N.written notes.new)
        (front.now ++ (text.now ++ 10 ∷ []))) }
    ensures fault { OnErr result (Rose (N.faults notes.old) (N.faults notes.new)) }
{
    write_all(notes, front.as_bytes())?;
    write_all(notes, text.as_bytes())?;
    write_all(notes, b"\n")
}
