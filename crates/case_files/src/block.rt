//! The bytes of a block.

use crate::escape::add_raw;
use crate::fault::{CaseFaultKind, ReadCasesError, fault};
use crate::line::Line;
use crate::part::Part;
use shape_types::OutOfMemory;

/// Adds the bytes of a block: each line with its line feed, all but the last one's, or what raw lines stand for.
pub(crate) fn add_block(bytes: &mut Vec<u8>, part: &Part<'_, '_>) -> Result<(), ReadCasesError> {
    match part.text {
        "" => Ok(add_lines(bytes, part.block)?),
        "unended" => Ok(add_unended(bytes, part.block)?),
        "raw" => add_raw_lines(bytes, part.block),
        _ => Err(fault(part.line, CaseFaultKind::BadForm)),
    }
}

/// Adds lines, each with its line feed.
fn add_lines(bytes: &mut Vec<u8>, lines: &[Line<'_>]) -> Result<(), OutOfMemory> {
    for line in lines {
        add_line(bytes, line.text)?;
    }
    Ok(())
}

/// Adds a text and a line feed.
pub(crate) fn add_line(bytes: &mut Vec<u8>, text: &str) -> Result<(), OutOfMemory> {
    bytes.extend_from_slice(text.as_bytes())?;
    bytes.push(b'\n')?;
    Ok(())
}

/// Adds lines, the last of which has no line feed.
fn add_unended(bytes: &mut Vec<u8>, lines: &[Line<'_>]) -> Result<(), OutOfMemory> {
    if let Some((last, front)) = lines.split_last() {
        add_lines(bytes, front)?;
        bytes.extend_from_slice(last.text.as_bytes())?;
    }
    Ok(())
}

/// Adds what the lines of a raw block stand for.
fn add_raw_lines(bytes: &mut Vec<u8>, lines: &[Line<'_>]) -> Result<(), ReadCasesError> {
    for line in lines {
        if !add_raw(bytes, line.text)? {
            return Err(fault(line.number, CaseFaultKind::BadEscape));
        }
    }
    Ok(())
}
