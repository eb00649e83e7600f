//! Head lines with their blocks.
ghost use Rattle.std.specs.Prelude.{◌≤◌, length};

use crate::fault::{CaseFaultKind, ReadCasesError, fault};
use crate::head::Head;
use crate::line::Line;
use shape_types::Items;
use std::alloc::Global;

/// A head line and the lines of its block.
#[derive(Clone, Copy)]
pub(crate) struct Part<'l, 'a> {
    /// The number of the head line.
    pub line: usize,
    /// What it tells.
    pub head: Head,
    /// What stands behind its word.
    pub text: &'a str,
    /// The lines of the block.
    pub block: &'l [Line<'a>],
}

/// The parts that these lines make.
pub(crate) fn parts_of<'l, 'a>(
    alloc: Global,
    lines: &'l [Line<'a>],
) -> Result<Items<Part<'l, 'a>>, ReadCasesError> {
    let mut parts = Items::new(alloc);
    let mut first = true;
    for (at, line) in lines.iter().enumerate() {
        if first || !line.indented {
            add_part(line, block_behind(lines, at), &mut parts)?;
        }
        first = false;
    }
    Ok(parts)
}

/// Adds a head line with its block.
fn add_part<'l, 'a>(
    first: &Line<'a>,
    block: &'l [Line<'a>],
    parts: &mut Items<Part<'l, 'a>>,
) -> Result<(), ReadCasesError> {
    let part = part_of(first, block)?;
    parts.push(part)?;
    Ok(())
}

/// The items behind this place.
pub(crate) fn behind<T>(items: &[T], at: usize) -> &[T] {
    match items.get(at.saturating_add(1)..) {
        Some(rest) => rest,
        None => &[],
    }
}

/// The indented lines that stand right behind this place.
fn block_behind<'l, 'a>(lines: &'l [Line<'a>], at: usize) -> &'l [Line<'a>] {
    let rest = behind(lines, at);
    rest.split_at(indented(rest)).0
}

/// How many lines at the front are indented.
fn indented(lines: &[Line<'_>]) -> usize
    ensures { result ≤ length lines.now }
{
    match lines.iter().position(|line| !line.indented) {
        Some(count) => count,
        None => lines.len(),
    }
}

/// A head line with its block.
fn part_of<'l, 'a>(
    first: &Line<'a>,
    block: &'l [Line<'a>],
) -> Result<Part<'l, 'a>, ReadCasesError> {
    if first.indented {
        return Err(fault(first.number, CaseFaultKind::Stray));
    }
    let (word, text) = match first.text.split_once(' ') {
        Some(found) => found,
        None => (first.text, ""),
    };
    let Some(head) = Head::of(word) else {
        return Err(fault(first.number, CaseFaultKind::UnknownWord));
    };
    if let Some(line) = block.first()
        && !head.has_block()
    {
        return Err(fault(line.number, CaseFaultKind::NoBlock));
    }
    Ok(Part {
        line: first.number,
        head,
        text,
        block,
    })
}
