//! Runs the cases of a file: `cases < FILE`.
//!
//! Each case that differs is printed, with what was wanted and what came, and at the end how many do. The status is 0
//! where none differs, 1 where some do, 2 where the file is refused, 4 where it can't be read, and 6 where memory ran
//! out.
#![tactic(auto)]

mod running;

use case_answers::{Difference, Tally};
use case_files::{Case, CaseFault, ReadCasesError, read_cases};
use recode_top::{ReadStop, StreamSource, read_all};
use running::checked;
use std::io;
use std::process::ExitCode;

/// How many bytes of a file are read at most.
const LIMIT: usize = 67_108_864;

fn main(rt: HostRuntime) -> io::Result<ExitCode> {
    let status = run_input(&rt)?;
    Ok(ExitCode::from(status))
}

/// Runs the cases of standard input, and answers the status.
fn run_input(rt: &HostRuntime) -> io::Result<u8> {
    let mut source = StreamSource::new(rt.stdin());
    match read_all(rt.alloc(), &mut source, LIMIT) {
        Ok(file) => run_file(rt, file.as_slice()),
        Err(stop) => unread(rt, stop),
    }
}

/// Says why the file isn't read to its end.
fn unread(rt: &HostRuntime, stop: ReadStop) -> io::Result<u8> {
    match stop {
        ReadStop::Fault => stopped(rt, "the file can't be read", 4),
        ReadStop::TooLong => stopped(rt, "the file is longer than 67,108,864 bytes", 2),
        ReadStop::Memory => stopped(rt, "out of memory", 6),
    }
}

/// Runs the cases of a file, or says why it is refused.
fn run_file(rt: &HostRuntime, file: &[u8]) -> io::Result<u8> {
    match read_cases(rt.alloc(), file) {
        Ok(cases) => run_cases(rt, cases.as_slice()),
        Err(ReadCasesError::Fault(fault)) => refused(rt, fault),
        Err(ReadCasesError::Alloc) => stopped(rt, "out of memory", 6),
    }
}

/// Runs cases, prints those that differ, and then how many do.
fn run_cases(rt: &HostRuntime, cases: &[Case<'_>]) -> io::Result<u8> {
    let mut tally = Tally::new();
    for case in cases {
        let Some(difference) = run_case(rt, case)? else {
            return stopped(rt, "out of memory", 6);
        };
        tally.add(difference);
    }
    println!(rt; "{tally}")?;
    Ok(tally.status())
}

/// Runs a case, and prints it if it differs. None where memory ran out.
fn run_case(rt: &HostRuntime, case: &Case<'_>) -> io::Result<Option<Difference>> {
    match checked(rt.alloc(), case) {
        Ok((difference, report)) => {
            print!(rt; "{report}")?;
            Ok(Some(difference))
        }
        Err(_) => Ok(None),
    }
}

/// Says what is wrong with the file.
fn refused(rt: &HostRuntime, fault: CaseFault) -> io::Result<u8> {
    eprintln!(rt; "error: {fault}")?;
    Ok(2)
}

/// Says why no cases are run, and answers the status.
fn stopped(rt: &HostRuntime, why: &str, status: u8) -> io::Result<u8> {
    eprintln!(rt; "error: {why}")?;
    Ok(status)
}
