ghost use Rattle.std.specs.Prelude.{◌≡◌, ◌<◌, length, IfOk, MatchResult};
ghost use Rattle.std.specs.Io.{ReadsAtMost, WritesAtMost};
ghost use Rattle.std.specs.Io.KnownBytes.{ReadConsumes, WriteAppends};
ghost use Rattle.recode_top.specs.Outside.Counting.{IsCounted, Rose, one_more, unless_stuck};

use super::failed::Failed;
use super::sink::Sink;
use super::source::Source;
use std::io::{Read, Write};

/// A reader as a source. It tells the bytes left as far as the reader does; standard input tells nothing of them.
#[derive(Drop)]
pub struct StreamSource<R> {
    reader: R,
    faults: u64,
}

impl<R: Read> StreamSource<R> {
    /// The reader, with no faults so far.
    pub fn new(reader: R) -> StreamSource<R>
        ensures { (result.reader ≡ reader) × (result.faults ≡ 0) }
    {
        StreamSource { reader, faults: 0 }
    }
}

impl<R: Read> Source for StreamSource<R> {
    ghost left = { λ s. R.remaining s.reader };

    ghost faults = { λ s. s.faults };

    fn read(&mut self, into: &mut [u8]) -> Result<usize, Failed>
        ensures bound { ReadsAtMost result into.new }
        ensures bytes { ReadConsumes (R.remaining self.old.reader) (R.remaining self.new.reader) result into.new }
        ensures cause { IsCounted self.old.faults self.new.faults result }
        ensures count { MatchResult result
            (λ _. self.new.faults ≡ self.old.faults)
            (λ _. self.new.faults ≡ one_more self.old.faults) }
    {
        match self.reader.read(into) {
            Ok(count) => Ok(count),
            Err(_) => {
                self.faults = self.faults.saturating_add(1);
                Err(Failed)
            }
        }
    }
}

/// A writer as a sink. It tells the bytes written as far as the writer does; standard output tells nothing of them.
#[derive(Drop)]
pub struct StreamSink<W> {
    writer: W,
    faults: u64,
}

impl<W: Write> StreamSink<W> {
    /// The writer, with no faults so far.
    pub fn new(writer: W) -> StreamSink<W>
        ensures { (result.writer ≡ writer) × (result.faults ≡ 0) }
    {
        StreamSink { writer, faults: 0 }
    }
}

impl<W: Write> Sink for StreamSink<W> {
    ghost written = { λ s. W.contents s.writer };

    ghost faults = { λ s. s.faults };

    fn write(&mut self, bytes: &[u8]) -> Result<usize, Failed>
        ensures bound { WritesAtMost result bytes.now }
        ensures bytes { WriteAppends (W.contents self.old.writer) (W.contents self.new.writer) result bytes.now }
        ensures cause { IsCounted self.old.faults self.new.faults result }
        ensures stuck { IfOk result (λ count. count ≡ 0 → 0 < length bytes.now
            → Rose self.old.faults self.new.faults) }
        ensures count { MatchResult result
            (λ count. self.new.faults ≡ unless_stuck count (length bytes.now) self.old.faults)
            (λ _. self.new.faults ≡ one_more self.old.faults) }
    {
        let result = self.writer.write(bytes);
        if matches!(result, Err(_)) || (matches!(result, Ok(0)) && !bytes.is_empty()) {
            self.faults = self.faults.saturating_add(1);
        }
        match result {
            Ok(count) => Ok(count),
            Err(_) => Err(Failed),
        }
    }
}
