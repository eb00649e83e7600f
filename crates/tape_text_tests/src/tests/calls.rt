//! The calls of a parser.
use super::shown::gives_all;
use event_core::{ParseError, ParseEvent};
use format_traits::FormatParser;
use std::alloc::{AllocError, Global};
use std::collections::VecDeque;
use std::process::Abort;
use tape_text::TapeParser;

static POINT: [&str; 8] = [
    "StructStart(Object)@[0..1)",
    "FieldKey(Name(Borrowed(\"x\")))@[2..7)",
    "Scalar(U64(1))@[8..11)",
    "FieldKey(Name(Borrowed(\"y\")))@[12..17)",
    "Scalar(U64(18446744073709551615))@[18..40)",
    "StructEnd@[41..42)",
    "end",
    "end",
];

fn is_bare(parser: &TapeParser<'_>) -> bool {
    parser.is_self_describing() && parser.current_span().is_none()
}

#[test]
fn reads_point(rt: HostRuntime) -> Result<(), AllocError> {
    let input = b"{\nk \"x\"\nu 1\nk \"y\"\nu 18446744073709551615\n}\n";
    let mut parser = TapeParser::new(rt.alloc(), input);
    let given = gives_all(&rt, rt.alloc(), &mut parser, &POINT);
    let is_bare = is_bare(&parser);
    drop(parser);
    assert!(rt; is_bare);
    given
}

/// How many events came, none where a fault did.
fn count_of(answer: &Result<usize, ParseError<'_>>) -> Option<usize> {
    match answer {
        Ok(count) => Some(*count),
        Err(_) => None,
    }
}

/// So many events come, which makes so many in the buffer.
fn fills<'de>(
    rt: &impl Abort,
    parser: &mut TapeParser<'de>,
    buf: &mut VecDeque<ParseEvent<'de>>,
    row: &(usize, Option<usize>, usize),
) {
    let (limit, want, held) = *row;
    let answer = parser.next_events(buf, limit);
    let count = count_of(&answer);
    drop(answer);
    assert!(rt; count == want);
    assert_eq!(rt; buf.len(), held);
}

/// Calls with a limit, what they answer, and how many events the buffer then has.
fn fill(rt: &impl Abort, alloc: Global, input: &[u8], rows: &[(usize, Option<usize>, usize)]) {
    let mut parser = TapeParser::new(alloc, input);
    let mut buf = VecDeque::new(alloc);
    'rows: for row in rows.iter() {
        fills(rt, &mut parser, &mut buf, row);
    }
    drop(buf);
    drop(parser);
}

#[test]
fn fills_a_buffer(rt: HostRuntime) {
    let alloc = rt.alloc();
    fill(
        &rt,
        alloc,
        b"{\ns \"a\\\\b\" doc \"d\"\n}\nnul\n]\n",
        &[(2, Some(2), 2), (9, None, 3), (9, None, 3)],
    );
    fill(
        &rt,
        alloc,
        b"[\nnull\n]\n",
        &[(9, Some(3), 3), (9, Some(0), 3)],
    );
}
