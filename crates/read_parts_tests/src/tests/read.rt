//! How texts are read as values of a type.
use crate::tests::{Scalar, Want, gives_type, registry};
use shape_core::{ScalarType, Shapes};
use std::alloc::Global;
use std::process::Abort;

/// A type's number, a text, and the value that it is read as, if any.
static READ: [(usize, &'static str, Option<&'static str>); 28] = [
    (1, "true", Some("Bool(true)")),
    (1, "false", Some("Bool(false)")),
    (1, "True", None),
    (1, "", None),
    (2, "é", Some("Char('é')")),
    (2, "ab", None),
    (2, "", None),
    (3, "255", Some("Unsigned(255)")),
    (3, "256", None),
    (3, "+005", Some("Unsigned(5)")),
    (3, "-5", None),
    (3, "-0", None),
    (3, "+", None),
    (3, "++1", None),
    (3, "", None),
    (3, "1 ", None),
    (3, "0x1", None),
    (
        7,
        "340282366920938463463374607431768211455",
        Some("Unsigned(340282366920938463463374607431768211455)"),
    ),
    (7, "340282366920938463463374607431768211456", None),
    (9, "-128", Some("Signed(-128)")),
    (9, "-129", None),
    (9, "128", None),
    (12, "+05", Some("Signed(5)")),
    (12, "-0", Some("Signed(0)")),
    (12, "-", None),
    (
        13,
        "-170141183460469231731687303715884105728",
        Some("Signed(-170141183460469231731687303715884105728)"),
    ),
    (13, "-170141183460469231731687303715884105729", None),
    (13, "170141183460469231731687303715884105728", None),
];

/// The text is read as this value at the type, or as none.
fn reads(
    rt: &impl Abort,
    alloc: Global,
    shapes: &Shapes<'static>,
    target: ScalarType,
    text: &'static str,
    value: Option<&'static str>,
) {
    let want = match value {
        Some(value) => Want::Is(value),
        None => Want::Unread(text),
    };
    gives_type(
        rt,
        alloc,
        shapes,
        target,
        &(Scalar::Lent(text), true, &[]),
        Some(want),
    );
}

fn read_all(rt: &impl Abort, alloc: Global, shapes: &Shapes<'static>) {
    for (at, text, value) in READ.iter() {
        let target = ScalarType::ALL.get(*at).expect(rt, "a type");
        reads(rt, alloc, shapes, *target, text, *value);
    }
}

#[test]
fn texts_are_read_by_their_rule(rt: HostRuntime) {
    let shapes = registry(&rt, rt.alloc());
    read_all(&rt, rt.alloc(), &shapes);
    drop(shapes);
}
