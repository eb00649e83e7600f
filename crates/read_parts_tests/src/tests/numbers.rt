//! Events that are numbers.
use crate::tests::{Answers, Row, Scalar, Want, give};

/// What 300 gives to numbers.
const THREE_HUNDRED: [Answers; 4] = [
    (3, 3, Want::OutOfRange("300")),
    (4, 8, Want::Is("Unsigned(300)")),
    (9, 9, Want::OutOfRange("300")),
    (10, 14, Want::Is("Signed(300)")),
];

/// What 300 of 64 bits gives to numbers and to texts.
const THREE_HUNDRED_OR_TEXT: [Answers; 5] = [
    (3, 3, Want::OutOfRange("300")),
    (4, 8, Want::Is("Unsigned(300)")),
    (9, 9, Want::OutOfRange("300")),
    (10, 14, Want::Is("Signed(300)")),
    (15, 15, Want::Is("Text(Owned(Name { text: \"300\" }))")),
];

/// What -1 gives to numbers.
const MINUS_ONE: [Answers; 2] = [
    (3, 8, Want::OutOfRange("-1")),
    (9, 14, Want::Is("Signed(-1)")),
];

/// What -1 of 64 bits gives to numbers and to texts.
const MINUS_ONE_OR_TEXT: [Answers; 3] = [
    (3, 8, Want::OutOfRange("-1")),
    (9, 14, Want::Is("Signed(-1)")),
    (15, 15, Want::Is("Text(Owned(Name { text: \"-1\" }))")),
];

/// Numbers of a few bits.
static NUMBERS: [Row; 5] = [
    (Scalar::U64(300), true, &THREE_HUNDRED_OR_TEXT),
    (Scalar::I64(300), true, &THREE_HUNDRED_OR_TEXT),
    (Scalar::U128(300), true, &THREE_HUNDRED),
    (Scalar::I64(-1), true, &MINUS_ONE_OR_TEXT),
    (Scalar::I128(-1), true, &MINUS_ONE),
];

#[test]
fn numbers_are_set_in_range(rt: HostRuntime) {
    give(&rt, rt.alloc(), &NUMBERS);
}

/// What 2 to the power of 127 gives to numbers.
const WIDE: [Answers; 3] = [
    (
        3,
        6,
        Want::OutOfRange("170141183460469231731687303715884105728"),
    ),
    (
        7,
        7,
        Want::Is("Unsigned(170141183460469231731687303715884105728)"),
    ),
    (
        8,
        14,
        Want::OutOfRange("170141183460469231731687303715884105728"),
    ),
];

/// What its negative gives to numbers.
const WIDE_BELOW: [Answers; 3] = [
    (
        3,
        12,
        Want::OutOfRange("-170141183460469231731687303715884105728"),
    ),
    (
        13,
        13,
        Want::Is("Signed(-170141183460469231731687303715884105728)"),
    ),
    (
        14,
        14,
        Want::OutOfRange("-170141183460469231731687303715884105728"),
    ),
];

/// Numbers of all bits.
static WIDEST: [Row; 2] = [
    (Scalar::U128(1 << 127), true, &WIDE),
    (Scalar::I128(i128::MIN), true, &WIDE_BELOW),
];

#[test]
fn numbers_keep_all_bits(rt: HostRuntime) {
    give(&rt, rt.alloc(), &WIDEST);
}
