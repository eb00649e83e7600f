//! Recodes a tape by the shape of its value: `recode ROOT [CAPACITY DEPTH]`, from standard input to standard output.
#![tactic(auto)]

use recode_top::{StreamSink, StreamSource, Words, out_of_memory, run};
use shape_core::OutOfMemory;
use std::env::{self, Args};
use std::io::ErrorKind;
use std::process::ExitCode;

fn main(rt: HostRuntime) -> ExitCode {
    let mut source = StreamSource::new(rt.stdin());
    let mut sink = StreamSink::new(rt.stdout());
    let mut notes = StreamSink::new(rt.stderr());
    let status = match words(&rt) {
        Ok(words) => run(rt.alloc(), &words, &mut source, &mut sink, &mut notes),
        Err(_) => out_of_memory(&mut notes),
    };
    ExitCode::from(status)
}

/// The words behind the program's name. Where one of them isn't text there are none, which no command is made of.
fn words(rt: &HostRuntime) -> Result<Words, OutOfMemory> {
    let mut words = Words::new(rt.alloc());
    add_words(rt, &mut words)?;
    Ok(words)
}

/// Adds the words behind the program's name, where all are text.
fn add_words(rt: &HostRuntime, words: &mut Words) -> Result<(), OutOfMemory> {
    match env::args(rt) {
        Ok(args) => add_args(args, words),
        Err(error) if error.kind() == ErrorKind::OutOfMemory => Err(OutOfMemory),
        Err(_) => Ok(()),
    }
}

/// Adds all arguments but the first.
fn add_args(args: Args, words: &mut Words) -> Result<(), OutOfMemory> {
    for word in args.skip(1) {
        words.push(word.as_str())?;
    }
    Ok(())
}
