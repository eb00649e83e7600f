//! What comes behind a value, or behind a refused event.
use crate::tests::asking::{Answers, Calls, Input, Next};
use crate::tests::listed::Behind;
use crate::tests::outcome::{Cause, Outcome, Part, Refusal};
use crate::tests::registry::{POINT, POINTS, U64};
use crate::tests::row::{BROKEN, IO, Row, is_answered};
use crate::tests::told::{POINT_EVENTS, POINTS_EVENTS, SINGLE_EVENTS};
use event_core::Span;
use shape_core::OutOfMemory;

/// A number in place of a point.
const NO_POINT: Outcome = Outcome::Refused(Refusal {
    cause: Cause::Other,
    span: Some(Span { offset: 0, len: 1 }),
    part: Part::Other,
});

/// A point with a number behind it.
static BEHIND_A_POINT: Row = (
    POINT,
    Input {
        words: &POINT_EVENTS,
        count: 7,
        behind: Behind::End,
        capacity: None,
    },
    Calls::ValueAndEvents,
    Answers {
        first: Outcome::Read,
        next: Next::Events(
            Outcome::Number(9, Span { offset: 12, len: 1 }),
            Outcome::End,
            Outcome::End,
        ),
        given: 7,
        finished: 7,
    },
);

#[test]
fn a_value_is_read_and_no_more(rt: HostRuntime) -> Result<(), OutOfMemory> {
    is_answered(&rt, rt.alloc(), 0, &BEHIND_A_POINT)
}

/// Three numbers, the first of which is no point.
static BEHIND_A_NUMBER: Row = (
    POINT,
    Input {
        words: &SINGLE_EVENTS,
        count: 3,
        behind: Behind::End,
        capacity: None,
    },
    Calls::ValueAndEvents,
    Answers {
        first: NO_POINT,
        next: Next::Events(
            Outcome::Number(2, Span { offset: 2, len: 1 }),
            Outcome::Number(3, Span { offset: 4, len: 1 }),
            Outcome::End,
        ),
        given: 3,
        finished: 3,
    },
);

#[test]
fn what_stands_behind_a_refused_event_comes_next(rt: HostRuntime) -> Result<(), OutOfMemory> {
    is_answered(&rt, rt.alloc(), 0, &BEHIND_A_NUMBER)
}

/// Three numbers, the first of which is passed over.
static PASSED: Row = (
    U64,
    Input {
        words: &SINGLE_EVENTS,
        count: 3,
        behind: Behind::End,
        capacity: Some(1),
    },
    Calls::Passed,
    Answers {
        first: Outcome::Number(2, Span { offset: 2, len: 1 }),
        next: Next::Nothing,
        given: 2,
        finished: 2,
    },
);

#[test]
fn the_parser_is_lent_and_given_back(rt: HostRuntime) -> Result<(), OutOfMemory> {
    is_answered(&rt, rt.alloc(), 0, &PASSED)
}

/// Two points, and then a fault.
fn broken_behind(capacity: usize) -> Row {
    let input = Input {
        words: &POINTS_EVENTS,
        count: 14,
        behind: Behind::Fault(BROKEN),
        capacity: Some(capacity),
    };
    let answers = Answers {
        first: Outcome::Read,
        next: Next::Events(IO, IO, IO),
        given: 14,
        finished: 14,
    };
    (POINTS, input, Calls::ValueAndEvents, answers)
}

#[test]
fn a_fault_behind_a_value_comes_after_it(rt: HostRuntime) -> Result<(), OutOfMemory> {
    for capacity in [1, 2, 3, 512].iter() {
        is_answered(&rt, rt.alloc(), *capacity, &broken_behind(*capacity))?;
    }
    Ok(())
}
