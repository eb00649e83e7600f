//! The program: words, an input, and an output.
ghost use Rattle.std.specs.Prelude.{◌≡◌, ◌⊎◌, ◌↔◌, codes, OnOk, IfErr};
ghost use Rattle.std.specs.Io.KnownBytes.{Appends};
ghost use Rattle.semantics_lines.specs.Documents.{Document};
ghost use Rattle.semantics_lines.specs.Tapes.{document_tape};
ghost use Rattle.recode_top.specs.Outside.Counting.{Rose};
ghost use Rattle.recode_top.specs.Requests.{AsksNothing};
ghost use Rattle.recode_top.specs.Running.{world, IsDone, IsRunStop, Ends, IsAsked, CompletesAs, CompletesWith};

use crate::answer::answer;
use crate::command::asked;
use crate::input::read_input;
use crate::outside::{Failed, Sink, Source, Words, write_all};
use crate::stop::Stop;
use std::alloc::Global;

/// Runs the program with these words: `recode ROOT`, or `recode ROOT CAPACITY DEPTH`.
///
/// At most CAPACITY events are read ahead, which is 512 where the words don't say, and values nest at most DEPTH deep,
/// which is 128 then. CAPACITY fits 64 bits and DEPTH is at most 4,096, both decimals without leading zeros.
///
/// It reads the source to its end, writes the canonical tape to the sink, and says on `notes` why it stops, if it
/// does. The answer is the status:
///
/// | Status | Cause |
/// |---|---|
/// | 0 | all is done |
/// | 1 | the tape is refused |
/// | 2 | the words have none of the forms |
/// | 3 | there is no line `---`, the shape text is refused, or no shape has the root's name |
/// | 4 | a read failed |
/// | 5 | a write failed |
/// | 6 | memory ran out |
/// | 7 | the source gave more than 67,108,864 bytes |
///
/// Nothing is written to the sink before a status other than 0, 5 and 6. A failing `notes` changes no status.
pub fn run<S: Source, K: Sink, N: Sink>(
    alloc: Global,
    words: &Words,
    source: &mut S,
    sink: &mut K,
    notes: &mut N,
) -> u8
    // Each status has its cause, and the notes tell it.
    ensures ends { Ends words.now
        (world (S.left source.old) (S.faults source.old) (K.written sink.old) (K.faults sink.old))
        (world (S.left source.new) (S.faults source.new) (K.written sink.new) (K.faults sink.new))
        (λ line. Rose (N.faults notes.old) (N.faults notes.new) ⊎ Appends (N.written notes.old) (N.written notes.new) line)
        result }

    // Words of other forms, and no others, are answered by the usage.
    ensures usage { (result ≡ 2) ↔ AsksNothing words.now }

    // What can be recoded is, where events may be read ahead, unless a read or a write failed or memory ran out.
    ensures complete { (document : Document)
        → IsAsked words.now (world (S.left source.old) (S.faults source.old) (K.written sink.old) (K.faults sink.old)) document
        → CompletesWith (document_tape document)
        (world (S.left source.old) (S.faults source.old) (K.written sink.old) (K.faults sink.old))
        (world (S.left source.new) (S.faults source.new) (K.written sink.new) (K.faults sink.new))
        result }
{
    match recode_input(alloc, words, source, sink) {
        Ok(()) => 0,
        Err(stop) => {
            stop.note(notes);
            stop.status()
        }
    }
}

/// Recodes the source's input to the sink.
fn recode_input<'w, S: Source, K: Sink>(
    alloc: Global,
    words: &'w Words,
    source: &mut S,
    sink: &mut K,
) -> Result<(), Stop<'w>>
    ensures done { OnOk result (IsDone words.now
        (world (S.left source.old) (S.faults source.old) (K.written sink.old) (K.faults sink.old))
        (world (S.left source.new) (S.faults source.new) (K.written sink.new) (K.faults sink.new))) }
    ensures stop { IfErr result (IsRunStop words.now
        (world (S.left source.old) (S.faults source.old) (K.written sink.old) (K.faults sink.old))
        (world (S.left source.new) (S.faults source.new) (K.written sink.new) (K.faults sink.new))) }
    ensures complete { (document : Document)
        → IsAsked words.now (world (S.left source.old) (S.faults source.old) (K.written sink.old) (K.faults sink.old)) document
        → CompletesAs (document_tape document)
        (world (S.left source.old) (S.faults source.old) (K.written sink.old) (K.faults sink.old))
        (world (S.left source.new) (S.faults source.new) (K.written sink.new) (K.faults sink.new))
        result }
{
    let Some(request) = asked(words) else {
        return Err(Stop::Usage);
    };
    let input = match read_input(alloc, source) {
        Ok(input) => input,
        Err(stop) => return Err(stop),
    };
    let output = match answer(alloc, request, input.as_slice()) {
        Ok(output) => output,
        Err(stop) => return Err(stop),
    };
    match write_all(sink, output.as_slice()) {
        Ok(()) => Ok(()),
        Err(Failed) => Err(Stop::WriteFault),
    }
}

/// Says that memory ran out before the words were there, and answers the status of that.
pub fn out_of_memory<N: Sink>(notes: &mut N) -> u8
    ensures status { result ≡ 6 }
    ensures said { Rose (N.faults notes.old) (N.faults notes.new)
        ⊎ Appends (N.written notes.old) (N.written notes.new) (codes "error: out of memory\n") }
{
    let stop = Stop::Memory;
    stop.note(notes);
    stop.status()
}
