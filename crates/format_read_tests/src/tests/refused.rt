//! What is refused, and what is refused behind it.
use crate::tests::asking::{Answers, Calls, Input, Next, ask};
use crate::tests::listed::Behind;
use crate::tests::outcome::{Cause, Outcome, Part, Refusal};
use crate::tests::registry::{NUMBERS, POINT, POINTS, U64};
use crate::tests::row::{BROKEN, IO, Row, is_answered};
use crate::tests::told::{ARRAY_EVENTS, POINTS_EVENTS, SINGLE_EVENTS, TEXT_EVENTS, span_at};
use event_core::Span;
use shape_core::{OutOfMemory, ShapeId};
use std::alloc::Global;
use std::process::Abort;

/// The start of the input.
const START: Span = Span { offset: 0, len: 0 };

/// Nothing came at all.
const NOTHING: Outcome = Outcome::Refused(Refusal {
    cause: Cause::UnexpectedEof,
    span: Some(START),
    part: Part::None,
});

/// The start of an array in place of a sequence.
const ARRAY_START: Outcome = Outcome::Refused(Refusal {
    cause: Cause::ArrayStart,
    span: Some(Span { offset: 0, len: 1 }),
    part: Part::Other,
});

/// A text in place of the number of the field `x`.
const NO_NUMBER: Outcome = Outcome::Refused(Refusal {
    cause: Cause::ParseFailed,
    span: Some(Span { offset: 4, len: 1 }),
    part: Part::X,
});

/// An object that says it is an array.
static ARRAY: Row = (
    NUMBERS,
    Input {
        words: &ARRAY_EVENTS,
        count: 2,
        behind: Behind::End,
        capacity: Some(1),
    },
    Calls::Value,
    Answers {
        first: ARRAY_START,
        next: Next::Nothing,
        given: 1,
        finished: 1,
    },
);

#[test]
fn the_start_of_an_object_is_told_by_its_container(rt: HostRuntime) -> Result<(), OutOfMemory> {
    is_answered(&rt, rt.alloc(), 0, &ARRAY)
}

/// Five numbers, of which none may be read ahead.
fn without_capacity(root: ShapeId) -> Row {
    let input = Input {
        words: &SINGLE_EVENTS,
        count: 5,
        behind: Behind::End,
        capacity: Some(0),
    };
    let answers = Answers {
        first: NOTHING,
        next: Next::Value(NOTHING),
        given: 0,
        finished: 0,
    };
    (root, input, Calls::Values, answers)
}

#[test]
fn at_capacity_0_nothing_comes(rt: HostRuntime) -> Result<(), OutOfMemory> {
    for (at, root) in [U64, POINT, NUMBERS].iter().enumerate() {
        is_answered(&rt, rt.alloc(), at, &without_capacity(*root))?;
    }
    Ok(())
}

/// A text in place of a number, and then a fault.
fn text_and_fault(capacity: usize) -> Row {
    let input = Input {
        words: &TEXT_EVENTS,
        count: 3,
        behind: Behind::Fault(BROKEN),
        capacity: Some(capacity),
    };
    let answers = Answers {
        first: NO_NUMBER,
        next: Next::Value(IO),
        given: 3,
        finished: 3,
    };
    (POINT, input, Calls::Values, answers)
}

#[test]
fn a_text_is_refused_before_the_fault_behind_it(rt: HostRuntime) -> Result<(), OutOfMemory> {
    for capacity in [1, 512].iter() {
        is_answered(&rt, rt.alloc(), *capacity, &text_and_fault(*capacity))?;
    }
    Ok(())
}

/// The refusal of want of memory.
const NO_MEMORY: Outcome = Outcome::Refused(Refusal {
    cause: Cause::Memory,
    span: None,
    part: Part::None,
});

/// The place of the last of so many events.
fn last_of(count: usize) -> Span {
    match count.checked_sub(1) {
        Some(last) => span_at(last),
        None => START,
    }
}

/// What is answered where so many events have this behind them, which isn't a whole value.
fn refusal_behind(count: usize, behind: Behind) -> Outcome {
    match behind {
        Behind::Fault(_) => IO,
        Behind::NoMemory => NO_MEMORY,
        Behind::End => Outcome::Refused(Refusal {
            cause: Cause::UnexpectedEof,
            span: Some(last_of(count)),
            part: Part::None,
        }),
    }
}

/// Over the first events of two points, with this behind them, both calls are refused so.
fn is_refused(
    rt: &impl Abort,
    alloc: Global,
    count: usize,
    behind: Behind,
    capacity: usize,
) -> Result<(), OutOfMemory> {
    let input = Input {
        words: &POINTS_EVENTS,
        count,
        behind,
        capacity: Some(capacity),
    };
    let answers = ask(rt, alloc, POINTS, input, Calls::Values)?;
    let want = refusal_behind(count, behind);
    let is_refused = answers.first == want && answers.next == Next::Value(want);
    assert!(rt; is_refused, "after {count}, at {capacity}: {answers:?}");
    Ok(())
}

/// Both calls are refused so, whatever is read ahead and whatever stands behind the events.
fn are_refused(rt: &impl Abort, alloc: Global, count: usize) -> Result<(), OutOfMemory> {
    for behind in [Behind::Fault(BROKEN), Behind::NoMemory, Behind::End].iter() {
        for capacity in [1, 2, 3, 512].iter() {
            is_refused(rt, alloc, count, *behind, *capacity)?;
        }
    }
    Ok(())
}

#[test]
fn what_stands_behind_the_events_comes_behind_them(rt: HostRuntime) -> Result<(), OutOfMemory> {
    for count in 0..14 {
        are_refused(&rt, rt.alloc(), count)?;
    }
    Ok(())
}
