//! Reads a file of cases.
ghost use Rattle.std.specs.Prelude.{◌≤◌, length};

use crate::case::Case;
use crate::fault::{CaseFaultKind, ReadCasesError, fault};
use crate::head::Head;
use crate::line::lines_of;
use crate::part::{Part, behind, parts_of};
use crate::section::Section;
use shape_types::Items;
use std::alloc::Global;

/// The cases of a file, in their order.
///
/// The document `docs/CASES.md` has each line of such a file. A file with a fault has no cases.
pub fn read_cases<'a>(alloc: Global, file: &'a [u8]) -> Result<Items<Case<'a>>, ReadCasesError> {
    let lines = lines_of(alloc, file)?;
    let parts = parts_of(alloc, lines.as_slice())?;
    cases_of(alloc, parts.as_slice())
}

/// The cases that these parts tell.
fn cases_of<'a>(alloc: Global, parts: &[Part<'_, 'a>]) -> Result<Items<Case<'a>>, ReadCasesError> {
    let mut cases = Items::new(alloc);
    let mut shapes = None;
    for (at, part) in parts.iter().enumerate() {
        match part.head {
            Head::Case => {
                let others = others_behind(parts, at);
                let section = Section {
                    first: part,
                    others,
                    shapes: shapes_of(shapes, others),
                };
                add_case(alloc, section, &mut cases)?;
            }
            Head::Shapes => shapes = Some(part),
            _ => belongs(part, cases.as_slice())?,
        }
    }
    Ok(cases)
}

/// The parts behind this place that stand before the next case.
fn others_behind<'p, 'l, 'a>(parts: &'p [Part<'l, 'a>], at: usize) -> &'p [Part<'l, 'a>] {
    let rest = behind(parts, at);
    rest.split_at(before_case(rest)).0
}

/// How many parts stand before the next case.
fn before_case(parts: &[Part<'_, '_>]) -> usize
    ensures { result ≤ length parts.now }
{
    match parts.iter().position(|part| part.head == Head::Case) {
        Some(count) => count,
        None => parts.len(),
    }
}

/// The shapes of a case: those that stand last before its tape.
fn shapes_of<'p, 'l, 'a>(
    before: Option<&'p Part<'l, 'a>>,
    others: &'p [Part<'l, 'a>],
) -> Option<&'p Part<'l, 'a>> {
    let mut shapes = before;
    for part in others {
        match part.head {
            Head::Shapes => shapes = Some(part),
            Head::Tape => return shapes,
            _ => {}
        }
    }
    shapes
}

/// Adds a case.
fn add_case<'a>(
    alloc: Global,
    section: Section<'_, '_, 'a>,
    cases: &mut Items<Case<'a>>,
) -> Result<(), ReadCasesError> {
    let case = section.case(alloc)?;
    cases.push(case)?;
    Ok(())
}

/// Sees that a case has begun before a part of one.
fn belongs(part: &Part<'_, '_>, cases: &[Case<'_>]) -> Result<(), ReadCasesError> {
    if cases.is_empty() {
        return Err(fault(part.line, CaseFaultKind::Outside));
    }
    Ok(())
}
