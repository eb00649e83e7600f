//! Events that are nothing, a truth value, a letter, bytes, or the text `7`.
use crate::tests::{Answers, Row, Scalar, Want, give};

const DEFAULTS: [Answers; 6] = [
    (0, 0, Want::Is("Unit")),
    (1, 1, Want::Is("Bool(false)")),
    (2, 2, Want::Is("Char('\\0')")),
    (3, 8, Want::Is("Unsigned(0)")),
    (9, 14, Want::Is("Signed(0)")),
    (15, 16, Want::Is("Text(Owned(Name { text: \"\" }))")),
];

/// Events that are nothing.
static NOTHING: [Row; 2] = [
    (Scalar::Null, true, &DEFAULTS),
    (Scalar::Unit, false, &DEFAULTS),
];

#[test]
fn nothing_gives_defaults(rt: HostRuntime) {
    give(&rt, rt.alloc(), &NOTHING);
}

const TOLD: [Answers; 1] = [(1, 1, Want::Is("Bool(true)"))];

const LETTER: [Answers; 1] = [(2, 2, Want::Is("Char('x')"))];

/// Events that only one type takes, or none.
static SIMPLE: [Row; 3] = [
    (Scalar::Bool(true), true, &TOLD),
    (Scalar::Char('x'), true, &LETTER),
    (Scalar::Bytes(&[1]), true, &[]),
];

#[test]
fn simple_events_are_set_into_their_own_types(rt: HostRuntime) {
    give(&rt, rt.alloc(), &SIMPLE);
}

/// What the borrowed text `7` gives where it may stay borrowed.
const LENT: [Answers; 5] = [
    (1, 1, Want::Unread("7")),
    (2, 2, Want::Is("Char('7')")),
    (3, 8, Want::Is("Unsigned(7)")),
    (9, 14, Want::Is("Signed(7)")),
    (15, 16, Want::Is("Text(Borrowed(\"7\"))")),
];

/// What the text `7` gives where it isn't borrowed or may not stay so.
const OWNED: [Answers; 6] = [
    (1, 1, Want::Unread("7")),
    (2, 2, Want::Is("Char('7')")),
    (3, 8, Want::Is("Unsigned(7)")),
    (9, 14, Want::Is("Signed(7)")),
    (15, 15, Want::Is("Text(Owned(Name { text: \"7\" }))")),
    (16, 16, Want::Unlent),
];

/// The text, borrowed or not, where it may stay so or not.
static TEXTS: [Row; 4] = [
    (Scalar::Lent("7"), true, &LENT),
    (Scalar::Lent("7"), false, &OWNED),
    (Scalar::Own("7"), true, &OWNED),
    (Scalar::Own("7"), false, &OWNED),
];

#[test]
fn texts_are_set_and_read(rt: HostRuntime) {
    give(&rt, rt.alloc(), &TEXTS);
}
