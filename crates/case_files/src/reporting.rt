//! What is said of a case that differs.

use crate::case::Title;
use case_answers::{Difference, Outcome};
use shape_types::OutOfMemory;
use std::alloc::Global;
use std::str;

/// Where a case stands, what it is called, and each part of the answer that differs: what was wanted, and what came.
pub fn report(
    alloc: Global,
    title: &Title<'_>,
    difference: Difference,
    wanted: &Outcome,
    came: &Outcome,
) -> Result<String, OutOfMemory> {
    let mut text = String::new(alloc);
    add_title(&mut text, title)?;
    add_outcomes(&mut text, difference, wanted, came)?;
    Ok(text)
}

/// Adds each part that differs.
fn add_outcomes(
    text: &mut String,
    difference: Difference,
    wanted: &Outcome,
    came: &Outcome,
) -> Result<(), OutOfMemory> {
    if difference.status {
        add_status(text, wanted.status, came.status)?;
    }
    if difference.notes {
        add_both(
            text,
            "notes",
            wanted.notes.as_slice(),
            came.notes.as_slice(),
        )?;
    }
    if difference.output {
        add_both(
            text,
            "output",
            wanted.output.as_slice(),
            came.output.as_slice(),
        )?;
    }
    Ok(())
}

/// Adds what was wanted of a part, and what came.
fn add_both(text: &mut String, part: &str, wanted: &[u8], came: &[u8]) -> Result<(), OutOfMemory> {
    add_bytes(text, part, "wanted", wanted)?;
    add_bytes(text, part, "came", came)
}

/// Adds where the case stands, and what it is called.
fn add_title(text: &mut String, title: &Title<'_>) -> Result<(), OutOfMemory> {
    let Title { line, name, shows } = *title;
    writeln!(text, "line {line}: case {name}")?;
    if !shows.is_empty() {
        writeln!(text, "  shows {shows}")?;
    }
    Ok(())
}

/// Adds both statuses.
fn add_status(text: &mut String, wanted: u8, came: u8) -> Result<(), OutOfMemory> {
    writeln!(text, "  status wanted: {wanted}")?;
    writeln!(text, "  status came: {came}")?;
    Ok(())
}

/// Adds bytes, line by line.
fn add_bytes(text: &mut String, part: &str, which: &str, bytes: &[u8]) -> Result<(), OutOfMemory> {
    if bytes.is_empty() {
        writeln!(text, "  {part} {which}: nothing")?;
        return Ok(());
    }
    writeln!(text, "  {part} {which}:")?;
    add_shown(text, bytes)
}

/// Adds the lines of bytes, or their numbers where they aren't UTF-8.
fn add_shown(text: &mut String, bytes: &[u8]) -> Result<(), OutOfMemory> {
    match str::from_utf8(bytes) {
        Ok(lines) => add_lines(text, lines),
        Err(_) => {
            writeln!(text, "    bytes that aren't UTF-8: {bytes:?}")?;
            Ok(())
        }
    }
}

/// Adds lines, and says so where the last one has no line feed.
fn add_lines(text: &mut String, lines: &str) -> Result<(), OutOfMemory> {
    match lines.strip_suffix('\n') {
        Some(ended) => add_each(text, ended),
        None => {
            add_each(text, lines)?;
            writeln!(text, "    (the last line has no line feed)")?;
            Ok(())
        }
    }
}

/// Adds each line, indented.
fn add_each(text: &mut String, lines: &str) -> Result<(), OutOfMemory> {
    for line in lines.split('\n') {
        writeln!(text, "    {line}")?;
    }
    Ok(())
}
