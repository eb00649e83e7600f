//! The lines of a file.

use crate::fault::{CaseFaultKind, ReadCasesError, fault};
use shape_types::Items;
use std::alloc::Global;
use std::str;

/// A line that says something.
#[derive(Clone, Copy)]
pub(crate) struct Line<'a> {
    /// Its number, from 1.
    pub number: usize,
    /// Whether spaces stand before its text.
    pub indented: bool,
    /// The text without them.
    pub text: &'a str,
}

/// The lines of a file but for those that are empty and those that are comments.
pub(crate) fn lines_of<'a>(
    alloc: Global,
    file: &'a [u8],
) -> Result<Items<Line<'a>>, ReadCasesError> {
    let mut lines = Items::new(alloc);
    let mut number: usize = 0;
    for bytes in file.split(|b| *b == b'\n') {
        number = number.saturating_add(1);
        if let Some(line) = line_of(number, bytes)? {
            lines.push(line)?;
        }
    }
    Ok(lines)
}

/// What a line says. None where it is empty or a comment.
fn line_of(number: usize, bytes: &[u8]) -> Result<Option<Line<'_>>, ReadCasesError> {
    let Ok(whole) = str::from_utf8(bytes) else {
        return Err(fault(number, CaseFaultKind::NotUtf8));
    };
    if whole.starts_with('\t') {
        return Err(fault(number, CaseFaultKind::Tab));
    }
    let text = whole.trim_start_matches(' ');
    if text.is_empty() || whole.starts_with('#') {
        return Ok(None);
    }
    Ok(Some(Line {
        number,
        indented: whole.starts_with(' '),
        text,
    }))
}
