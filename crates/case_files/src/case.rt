//! A case of a file.

use case_answers::Outcome;
use shape_types::Items;

/// What a run is given beside its words.
#[derive(Drop)]
pub struct Given {
    /// The bytes of the source.
    pub input: Items<u8>,
    /// The numbers, from 0, of the source's calls that fail.
    pub failing_reads: Items<usize>,
    /// The numbers, from 0, of the sink's calls that fail.
    pub failing_writes: Items<usize>,
    /// How many bytes the sink takes, where the file says so.
    pub room: Option<usize>,
}

/// What a case is called.
#[derive(Clone, Copy)]
pub struct Title<'a> {
    /// The line, from 1, on which the case begins.
    pub line: usize,
    /// Its name.
    pub name: &'a str,
    /// What it shows; empty where the file doesn't say.
    pub shows: &'a str,
}

/// A case: what a run is given, and what it has to answer. Its texts are borrowed from the file.
#[derive(Drop)]
pub struct Case<'a> {
    /// What it is called.
    pub title: Title<'a>,
    /// The words of the command line.
    pub words: Items<&'a str>,
    /// What else the run is given.
    pub given: Given,
    /// What it has to answer.
    pub wanted: Outcome,
}
