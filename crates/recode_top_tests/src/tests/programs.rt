//! Statuses that no case of a file can ask for.
use crate::tests::assert_row;
use recode_top::{MemorySink, MemorySource, Words, out_of_memory, run};
use shape_core::{Items, OutOfMemory};
use std::alloc::Global;
use std::test::*;

fn notes(alloc: Global) -> Result<MemorySink, OutOfMemory> {
    MemorySink::new(alloc, 64, Items::new(alloc))
}

/// The status of a run over so many line feeds.
fn status_of(alloc: Global, count: usize, notes: &mut MemorySink) -> Result<u8, OutOfMemory> {
    let mut words = Words::new(alloc);
    for word in ["recode", "u8"] {
        words.push(word)?;
    }
    let bytes = Items::from_vec(Vec::from_elem(alloc, b'\n', count)?);
    let mut source = MemorySource::new(bytes, Items::new(alloc));
    let mut sink = MemorySink::new(alloc, 0, Items::new(alloc))?;
    Ok(run(alloc, &words, &mut source, &mut sink, notes))
}

#[test]
fn an_input_is_read_up_to_the_limit(rt: HostRuntime) -> Result<(), Fail> {
    for (count, status, note) in [
        (67_108_864, 3, "error: no --- line\n"),
        (67_108_865, 7, "error: input too long\n"),
    ] {
        let mut notes = notes(rt.alloc())?;
        assert_eq!(rt; status_of(rt.alloc(), count, &mut notes)?, status);
        assert_eq!(rt; notes.as_slice(), note.as_bytes());
    }
    Ok(())
}

#[test]
fn want_of_memory_has_a_status(rt: HostRuntime) -> Result<(), OutOfMemory> {
    let mut notes = notes(rt.alloc())?;
    let status = out_of_memory(&mut notes);
    let is_said = notes.as_slice() == b"error: out of memory\n".as_slice();
    drop(notes);
    assert_row(&rt, 0, status == 6 && is_said);
    Ok(())
}
