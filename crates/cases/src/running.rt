//! Runs one case in memory.

use case_answers::{Difference, Outcome, compare};
use case_files::{Case, Given, report};
use recode_top::{MemorySink, MemorySource, Words, run};
use shape_core::{Items, OutOfMemory};
use std::alloc::Global;

/// How many bytes more than those that are wanted are kept.
const MORE: usize = 256;

/// Runs a case. It answers which parts of the answer differ, and what is said of them.
pub fn checked(alloc: Global, case: &Case<'_>) -> Result<(Difference, String), OutOfMemory> {
    let came = outcome(alloc, case)?;
    told(alloc, case, &came)
}

/// Which parts of an answer differ from what the case wants, and what is said of them.
fn told(
    alloc: Global,
    case: &Case<'_>,
    came: &Outcome,
) -> Result<(Difference, String), OutOfMemory> {
    let difference = compare(&case.wanted, came);
    if !difference.is_some() {
        return Ok((difference, String::new(alloc)));
    }
    let text = report(alloc, &case.title, difference, &case.wanted, came)?;
    Ok((difference, text))
}

/// What a run of a case answers.
fn outcome(alloc: Global, case: &Case<'_>) -> Result<Outcome, OutOfMemory> {
    let mut sink = sink_of(alloc, case)?;
    let mut notes = notes_of(alloc, case)?;
    let status = status_of(alloc, case, &mut sink, &mut notes)?;
    answer(alloc, status, &sink, &notes)
}

/// The sink of a case. It takes somewhat more than is wanted, where the case doesn't say.
fn sink_of(alloc: Global, case: &Case<'_>) -> Result<MemorySink, OutOfMemory> {
    let room = match case.given.room {
        Some(room) => room,
        None => somewhat_more(case.wanted.output.as_slice()),
    };
    let failing = Items::from_slice(alloc, case.given.failing_writes.as_slice())?;
    MemorySink::new(alloc, room, failing)
}

/// The notes of a case, which never fail.
fn notes_of(alloc: Global, case: &Case<'_>) -> Result<MemorySink, OutOfMemory> {
    let room = somewhat_more(case.wanted.notes.as_slice());
    MemorySink::new(alloc, room, Items::new(alloc))
}

/// Room for these bytes and some more.
fn somewhat_more(wanted: &[u8]) -> usize {
    wanted.len().saturating_add(MORE)
}

/// The status of a run of a case, which writes to its sink and its notes.
fn status_of(
    alloc: Global,
    case: &Case<'_>,
    sink: &mut MemorySink,
    notes: &mut MemorySink,
) -> Result<u8, OutOfMemory> {
    let words = words_of(alloc, case.words.as_slice())?;
    let mut source = source_of(alloc, &case.given)?;
    Ok(run(alloc, &words, &mut source, sink, notes))
}

/// The words of a list.
fn words_of(alloc: Global, list: &[&str]) -> Result<Words, OutOfMemory> {
    let mut words = Words::new(alloc);
    for word in list {
        words.push(word)?;
    }
    Ok(words)
}

/// A source of what is given.
fn source_of(alloc: Global, given: &Given) -> Result<MemorySource, OutOfMemory> {
    let failing = Items::from_slice(alloc, given.failing_reads.as_slice())?;
    let input = Items::from_slice(alloc, given.input.as_slice())?;
    Ok(MemorySource::new(input, failing))
}

/// What a run answers by its status and what it wrote.
fn answer(
    alloc: Global,
    status: u8,
    sink: &MemorySink,
    notes: &MemorySink,
) -> Result<Outcome, OutOfMemory> {
    let output = Items::from_slice(alloc, sink.as_slice())?;
    let notes = Items::from_slice(alloc, notes.as_slice())?;
    Ok(Outcome {
        status,
        notes,
        output,
    })
}
