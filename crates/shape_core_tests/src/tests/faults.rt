use crate::tests::building::{FORMS, Form, Rows, assert_row, registry};
use shape_core::{
    CheckFault, NameFault, OutOfMemory, ShapeFault, ShapeFaultKind, ShapeId, Shapes, ShapesBuilder,
    StructKind,
};
use std::alloc::Global;

const X: Form<'static> = Form::Fields(StructKind::Struct, &[("x", 6)]);

const TWICE: Form<'static> = Form::Fields(StructKind::Struct, &[("x", 6), ("y", 6), ("x", 6)]);

/// Registries that keep every rule.
static GOOD: [Rows<'static>; 4] = [
    FORMS,
    // Fields of every kind of shape, among them one that leads back, and a bare tuple.
    &[
        (
            "Tree",
            Form::Fields(
                StructKind::Struct,
                &[("next", 18), ("items", 19), ("both", 20), ("text", 16)],
            ),
        ),
        ("Next", Form::Option(17)),
        ("Items", Form::List(17)),
        (
            "Both",
            Form::Fields(StructKind::Tuple, &[("0", 17), ("1", 18)]),
        ),
    ],
    // A struct that refuses unknown keys.
    &[("A", Form::Denying)],
    // A list leads back to itself by no step.
    &[("A", Form::Option(18)), ("B", Form::List(17))],
];

/// Registries with the shape and the kind of the first fault.
static FAULTY: [(Rows<'static>, u32, ShapeFaultKind); 23] = [
    (
        &[("A", X), ("B", Form::Missing)],
        18,
        ShapeFaultKind::Undefined,
    ),
    (
        &[
            ("A", X),
            (
                "B",
                Form::Fields(StructKind::Struct, &[("x", 6), ("y", 19)]),
            ),
        ],
        18,
        ShapeFaultKind::Undefined,
    ),
    (
        &[("A", X), ("B", Form::Option(99))],
        18,
        ShapeFaultKind::Undefined,
    ),
    (
        &[("A", X), ("B", Form::Result(17, 99))],
        18,
        ShapeFaultKind::Undefined,
    ),
    (&[("A", X), ("A", X)], 18, ShapeFaultKind::RepeatedShapeName),
    (
        &[("A", X), ("u64", X)],
        18,
        ShapeFaultKind::RepeatedShapeName,
    ),
    (&[("A", X), ("B", TWICE)], 18, ShapeFaultKind::RepeatedName),
    (
        &[
            ("A", X),
            (
                "B",
                Form::Fields(StructKind::TupleStruct, &[("0", 6), ("2", 6)]),
            ),
        ],
        18,
        ShapeFaultKind::BadFlatten,
    ),
    (
        &[
            ("A", X),
            ("B", Form::Fields(StructKind::Tuple, &[("00", 6)])),
        ],
        18,
        ShapeFaultKind::BadFlatten,
    ),
    (
        &[("A", X), ("B", Form::Transparent(18))],
        18,
        ShapeFaultKind::StepCycle,
    ),
    // A shape that only leads to a cycle doesn't lie on it.
    (
        &[("A", Form::Option(18)), ("B", Form::Option(18))],
        18,
        ShapeFaultKind::StepCycle,
    ),
    (
        &[("A", Form::Option(18)), ("B", Form::Transparent(17))],
        17,
        ShapeFaultKind::StepCycle,
    ),
    (
        &[("A", X), ("B", Form::Fields(StructKind::Unit, &[("x", 6)]))],
        18,
        ShapeFaultKind::BadEnum,
    ),
    // The least shape, and the least of its faults.
    (
        &[("A", TWICE), ("A", Form::Missing)],
        17,
        ShapeFaultKind::RepeatedName,
    ),
    (
        &[("A", X), ("A", TWICE)],
        18,
        ShapeFaultKind::RepeatedShapeName,
    ),
    (
        &[
            ("A", X),
            ("B", Form::Fields(StructKind::Tuple, &[("0", 6), ("0", 6)])),
        ],
        18,
        ShapeFaultKind::RepeatedName,
    ),
    (
        &[("A", X), ("A", Form::Transparent(18))],
        18,
        ShapeFaultKind::RepeatedShapeName,
    ),
    // An item of a tuple has no attribute.
    (
        &[("A", X), ("B", Form::RenamedItem)],
        18,
        ShapeFaultKind::BadFlatten,
    ),
    // Forms that aren't built, which comes before every other fault of the shape.
    (
        &[("A", X), ("A", Form::Set(6))],
        18,
        ShapeFaultKind::NotBuilt,
    ),
    (
        &[("A", X), ("B", Form::Map(99, 6))],
        18,
        ShapeFaultKind::NotBuilt,
    ),
    (&[("A", X), ("B", Form::Enum)], 18, ShapeFaultKind::NotBuilt),
    (
        &[("A", X), ("B", Form::Flattened)],
        18,
        ShapeFaultKind::NotBuilt,
    ),
    // A shape that refers to such a one is built.
    (
        &[("A", Form::Option(18)), ("B", Form::Set(17))],
        18,
        ShapeFaultKind::NotBuilt,
    ),
];

fn fault_of(
    checked: Result<Shapes<'static>, CheckFault>,
) -> Result<Option<ShapeFault>, OutOfMemory> {
    match checked {
        Ok(shapes) => {
            drop(shapes);
            Ok(None)
        }
        Err(CheckFault::Fault(fault)) => Ok(Some(fault)),
        Err(CheckFault::Alloc) => Err(OutOfMemory),
    }
}

/// The fault of a registry of these shapes.
fn fault(alloc: Global, rows: Rows<'_>) -> Result<Option<ShapeFault>, OutOfMemory> {
    fault_of(registry(alloc, rows))
}

#[test]
fn registries_without_a_fault(rt: HostRuntime) -> Result<(), OutOfMemory> {
    for (at, rows) in GOOD.iter().enumerate() {
        let found = fault(rt.alloc(), rows)?;
        assert_row(&rt, at, found.is_none());
    }
    Ok(())
}

#[test]
fn registries_have_their_first_fault(rt: HostRuntime) -> Result<(), OutOfMemory> {
    for (at, (rows, shape, kind)) in FAULTY.iter().enumerate() {
        let shape = ShapeId(*shape);
        let kind = *kind;
        let found = fault(rt.alloc(), rows)?;
        assert_row(&rt, at, found == Some(ShapeFault { shape, kind }));
    }
    Ok(())
}

/// The number of one more shape.
fn next_number(builder: &mut ShapesBuilder<'static>) -> Result<u32, NameFault> {
    match builder.name("A") {
        Ok(id) => Ok(id.0),
        Err(fault) => Err(fault),
    }
}

fn is_next(builder: &mut ShapesBuilder<'static>, at: u32) -> bool {
    match next_number(builder) {
        Ok(number) => number == at,
        Err(_) => false,
    }
}

fn is_full(builder: &mut ShapesBuilder<'static>) -> bool {
    matches!(next_number(builder), Err(NameFault::TooMany))
}

#[test]
fn as_many_shapes_as_there_may_be(rt: HostRuntime) -> Result<(), OutOfMemory> {
    let mut builder = ShapesBuilder::new(rt.alloc())?;
    for at in 17..65535 {
        let named = is_next(&mut builder, at);
        assert_row(&rt, at as usize, named);
    }
    let full = is_full(&mut builder);
    drop(builder);
    assert_row(&rt, 65535, full);
    Ok(())
}
