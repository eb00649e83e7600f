//! Sources, sinks and words.
use crate::tests::assert_row;
use recode_top::{
    MemorySink, MemorySource, ReadStop, Sink, Source, StreamSink, StreamSource, Words, read_all,
    write_all,
};
use shape_core::{Items, OutOfMemory};
use std::alloc::Global;
use std::process::Abort;

fn source(alloc: Global, fail: &[usize]) -> Result<MemorySource, OutOfMemory> {
    let fail = Items::from_slice(alloc, fail)?;
    match Items::from_slice(alloc, b"abc") {
        Ok(bytes) => Ok(MemorySource::new(bytes, fail)),
        Err(refused) => {
            drop(fail);
            Err(refused)
        }
    }
}

fn sink(alloc: Global, room: usize, fail: &[usize]) -> Result<MemorySink, OutOfMemory> {
    MemorySink::new(alloc, room, Items::from_slice(alloc, fail)?)
}

/// What reads of two bytes answer, each with what the buffer then holds.
static READS: [(Option<usize>, [u8; 2]); 5] = [
    (None, [0, 0]),
    (Some(2), [b'a', b'b']),
    (None, [b'a', b'b']),
    (Some(1), [b'c', b'b']),
    (Some(0), [b'c', b'b']),
];

fn check_reads(rt: &impl Abort, source: &mut MemorySource) {
    let mut into = [0; 2];
    for (at, (count, held)) in READS.iter().enumerate() {
        let found = source.read(&mut into).ok();
        assert_row(rt, at, found == *count && into == *held);
    }
}

#[test]
fn a_source_gives_each_byte_once_and_fails_where_told(rt: HostRuntime) -> Result<(), OutOfMemory> {
    let mut source = source(rt.alloc(), &[0, 2])?;
    check_reads(&rt, &mut source);
    drop(source);
    Ok(())
}

/// What is written, and what that answers.
static WRITES: [(&str, Option<usize>); 4] = [
    ("ab", None),
    ("ab", Some(2)),
    ("cd", Some(1)),
    ("d", Some(0)),
];

fn check_writes(rt: &impl Abort, sink: &mut MemorySink) {
    for (at, (bytes, count)) in WRITES.iter().enumerate() {
        let found = sink.write(bytes.as_bytes()).ok();
        assert_row(rt, at, found == *count);
    }
    assert_row(rt, 4, sink.as_slice() == b"abc".as_slice());
}

#[test]
fn a_sink_takes_what_it_has_room_for(rt: HostRuntime) -> Result<(), OutOfMemory> {
    let mut sink = sink(rt.alloc(), 3, &[0])?;
    check_writes(&rt, &mut sink);
    drop(sink);
    Ok(())
}

/// How reading all bytes ended, in a word.
fn ended(read: &Result<Vec<u8>, ReadStop>) -> &'static str {
    match read {
        Ok(bytes) if bytes.as_slice() == b"abc".as_slice() => "all",
        Ok(_) => "others",
        Err(ReadStop::Fault) => "fault",
        Err(ReadStop::TooLong) => "too long",
        Err(ReadStop::Memory) => "memory",
    }
}

fn end_of<S: Source>(alloc: Global, source: &mut S, limit: usize) -> &'static str {
    let read = read_all(alloc, source, limit);
    let end = ended(&read);
    drop(read);
    end
}

fn ends_so(alloc: Global, limit: usize, fail: usize, end: &str) -> Result<bool, OutOfMemory> {
    let mut source = source(alloc, &[fail])?;
    let is_end = end_of(alloc, &mut source, limit) == end;
    drop(source);
    Ok(is_end)
}

/// A limit, which read fails, and how reading all bytes ends.
static ENDS: [(usize, usize, &str); 3] = [(3, 7, "all"), (2, 7, "too long"), (3, 1, "fault")];

#[test]
fn all_bytes_are_read_up_to_the_limit(rt: HostRuntime) -> Result<(), OutOfMemory> {
    for (at, (limit, fail, end)) in ENDS.iter().enumerate() {
        let is_end = ends_so(rt.alloc(), *limit, *fail, end)?;
        assert_row(&rt, at, is_end);
    }
    Ok(())
}

/// The room of a sink, which write fails, and whether all bytes are written, of which the sink then has these.
type Written = (usize, usize, bool, &'static str);

static WRITTEN: [Written; 3] = [(4, 7, true, "abc"), (2, 7, false, "ab"), (4, 0, false, "")];

fn is_written(alloc: Global, row: &Written) -> Result<bool, OutOfMemory> {
    let (room, fail, ok, written) = *row;
    let mut sink = sink(alloc, room, &[fail])?;
    let is_ok = write_all(&mut sink, b"abc").is_ok() == ok;
    let has_it = sink.as_slice() == written.as_bytes();
    drop(sink);
    Ok(is_ok && has_it)
}

#[test]
fn all_bytes_are_written(rt: HostRuntime) -> Result<(), OutOfMemory> {
    for (at, row) in WRITTEN.iter().enumerate() {
        let is_written = is_written(rt.alloc(), row)?;
        assert_row(&rt, at, is_written);
    }
    Ok(())
}

fn push_two(words: &mut Words) -> Result<(), OutOfMemory> {
    words.push("recode")?;
    words.push("Point")
}

fn are_in_order(words: &Words) -> bool {
    words.len() == 2 && words.get(1) == Some("Point") && words.get(2).is_none()
}

#[test]
fn words_stand_in_their_order(rt: HostRuntime) -> Result<(), OutOfMemory> {
    let mut words = Words::new(rt.alloc());
    let pushed = push_two(&mut words);
    let are_in_order = are_in_order(&words);
    drop(words);
    assert_row(&rt, 0, pushed.is_ok() && are_in_order);
    Ok(())
}

fn is_written_to_a_stream(alloc: Global, text: &[u8]) -> bool {
    let mut sink = StreamSink::new(Vec::new(alloc));
    let is_written = write_all(&mut sink, text).is_ok();
    drop(sink);
    is_written
}

#[test]
fn streams_are_read_and_written(rt: HostRuntime) {
    let text = b"abc".as_slice();
    let end = end_of(rt.alloc(), &mut StreamSource::new(text), 3);
    assert_row(&rt, 0, end == "all");
    let is_written = is_written_to_a_stream(rt.alloc(), text);
    assert_row(&rt, 1, is_written);
}
