//! A line of a tape: its event, or its fault.
ghost use Rattle.std.specs.Prelude.{◌≡◌, ◌≤◌, length, take, Some, None};
ghost use Rattle.std.specs.Str.{chars};
ghost use Rattle.semantics_lines.specs.Faults.{invalid_utf8, unexpected_char, unexpected_eof};
ghost use Rattle.semantics_lines.specs.Tapes.{first_or_end};
ghost use Rattle.event_core.specs.Faults.{fault_kind_of, parse_fault};
ghost use Rattle.event_core.specs.Metadata.{span_view};
ghost use Rattle.tape_text.specs.Parser.{JudgesLine, StandsAt};

use crate::event::event_of;
use event_core::{DeserializeErrorKind, ParseError, ParseEvent, Span};
use line_text::line_end;
use std::alloc::Global;

/// Why no event was read. `'e` is how long the texts of the fault are borrowed.
#[derive(Drop)]
pub enum Stop<'e> {
    /// No memory was there for a text of the line.
    NoMemory,
    /// No event has this line.
    Bad(ParseError<'e>),
}

/// The first character of a line, a line feed where it is empty.
fn first_char(line: &str) -> char
    ensures { result ≡ first_or_end (chars line.now) }
{
    match line.chars().next() {
        Some(c) => c,
        None => '\n',
    }
}

/// The first bytes of a line that isn't UTF-8, up to 16.
fn not_utf8<'e>(line: &[u8]) -> DeserializeErrorKind<'e>
    ensures { fault_kind_of result ≡ invalid_utf8 (take 16 line.now) }
{
    let mut context = [0; 16];
    let len = line.len().min(16);
    context[..len].copy_from_slice(&line[..len]);
    DeserializeErrorKind::InvalidUtf8 {
        context,
        context_len: len as u8,
    }
}

/// The fault of a text that is no line.
fn no_line<'e>(line: &str, span: Span) -> ParseError<'e>
    ensures { parse_fault result ≡ record { kind = unexpected_char (first_or_end (chars line.now)); span = Some (span_view span); path = None } }
{
    let kind = DeserializeErrorKind::UnexpectedChar {
        ch: first_char(line),
        expected: "tape line",
    };
    ParseError::new(span, kind)
}

/// The event of a line that stands at a byte of the tape, or its fault.
fn judged<'de>(alloc: Global, line: &'de [u8], at: usize) -> Result<ParseEvent<'de>, Stop<'de>>
    ensures { JudgesLine at line.now result }
{
    let span = Span {
        offset: at,
        len: line.len(),
    };
    let Ok(text) = str::from_utf8(line) else {
        return Err(Stop::Bad(ParseError::new(span, not_utf8(line))));
    };
    match event_of(alloc, text, span) {
        Ok(Some(event)) => Ok(event),
        Ok(None) => Err(Stop::Bad(no_line(text, span))),
        Err(_) => Err(Stop::NoMemory),
    }
}

/// The fault of bytes that stand there with no line feed.
fn unfinished<'e>(at: usize, len: usize) -> ParseError<'e>
    ensures { parse_fault result ≡ record { kind = unexpected_eof; span = Some (record { offset = at; len = len }); path = None } }
{
    let kind = DeserializeErrorKind::UnexpectedEof {
        expected: "line end",
    };
    ParseError::new(Span { offset: at, len }, kind)
}

/// The event of the line at a place, with the place behind it, or the fault that stands there. None at the end.
pub fn event_at<'de>(
    alloc: Global,
    input: &'de [u8],
    at: usize,
) -> Result<Option<(ParseEvent<'de>, usize)>, Stop<'de>>
    requires { at ≤ length input.now }
    ensures { StandsAt input.now at result }
{
    let rest = &input[at..];
    if rest.is_empty() {
        return Ok(None);
    }
    let Some(len) = line_end(rest) else {
        return Err(Stop::Bad(unfinished(at, rest.len())));
    };
    match judged(alloc, &rest[..len], at) {
        Ok(event) => Ok(Some((event, at + len + 1))),
        Err(stop) => Err(stop),
    }
}
