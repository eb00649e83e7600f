//! How many events are read ahead.
use crate::tests::asking::{Calls, Input, ask};
use crate::tests::listed::Behind;
use crate::tests::outcome::Outcome;
use crate::tests::registry::{NUMBERS, U64};
use crate::tests::told::{NUMBERS_EVENTS, SINGLE_EVENTS, Word};
use shape_core::{OutOfMemory, ShapeId};
use std::alloc::Global;
use std::process::Abort;

/// A shape, the events, the capacity, what is answered, and how many events the parser gives for it at least and at most.
type Row = (ShapeId, &'static [Word], usize, Outcome, usize, usize);

fn asked(rt: &impl Abort, alloc: Global, row: &Row) -> Result<(Outcome, usize), OutOfMemory> {
    let (root, words, capacity, _, _, _) = *row;
    let input = Input {
        words,
        count: words.len(),
        behind: Behind::End,
        capacity: Some(capacity),
    };
    let answers = ask(rt, alloc, root, input, Calls::Value)?;
    Ok((answers.first, answers.given))
}

fn assert_given(rt: &impl Abort, at: usize, row: &Row, found: Outcome, given: usize) {
    let (_, _, _, outcome, least, most) = *row;
    assert_eq!(rt; found, outcome, "row {at}");
    assert!(rt; least <= given && given <= most, "row {at}: {given}");
}

fn are_given(rt: &impl Abort, alloc: Global, rows: &[Row]) -> Result<(), OutOfMemory> {
    for (at, row) in rows.iter().enumerate() {
        let (outcome, given) = asked(rt, alloc, row)?;
        assert_given(rt, at, row, outcome, given);
    }
    Ok(())
}

static WITHIN: [Row; 3] = [
    (NUMBERS, &NUMBERS_EVENTS, 1, Outcome::Read, 8, 9),
    (NUMBERS, &NUMBERS_EVENTS, 2, Outcome::Read, 8, 10),
    (NUMBERS, &NUMBERS_EVENTS, 3, Outcome::Read, 8, 11),
];

#[test]
fn no_more_than_the_capacity_is_read_ahead(rt: HostRuntime) -> Result<(), OutOfMemory> {
    are_given(&rt, rt.alloc(), &WITHIN)
}

static BATCHES: [Row; 3] = [
    (U64, &SINGLE_EVENTS, 1, Outcome::Read, 1, 1),
    (U64, &SINGLE_EVENTS, 2, Outcome::Read, 2, 2),
    (U64, &SINGLE_EVENTS, 3, Outcome::Read, 3, 3),
];

#[test]
fn a_batch_has_as_many_events_as_the_capacity(rt: HostRuntime) -> Result<(), OutOfMemory> {
    are_given(&rt, rt.alloc(), &BATCHES)
}
