use crate::tests::assert_row;
use shape_core::{OutOfMemory, ShapeFault, ShapeFaultKind, ShapeId, Shapes};
use shape_text::{ReadShapesError, ShapeTextFault, ShapeTextKind, read_shapes};
use std::alloc::Global;

/// Texts with the line and the kind of their first fault.
static FAULTS: [(&[u8], usize, ShapeTextKind); 12] = [
    // Without the last line feed.
    (b"shape P struct", 1, ShapeTextKind::BadLine),
    (b"shape P struct\n\xff", 2, ShapeTextKind::NotUtf8),
    // Of a broken rule: which shape breaks it.
    (
        b"shape P struct\nfield x u64\nshape P struct\n",
        3,
        ShapeTextKind::Check(ShapeFault {
            shape: ShapeId(18),
            kind: ShapeFaultKind::RepeatedShapeName,
        }),
    ),
    (
        b"shape u8 struct\n",
        1,
        ShapeTextKind::Check(ShapeFault {
            shape: ShapeId(17),
            kind: ShapeFaultKind::RepeatedShapeName,
        }),
    ),
    (
        b"shape P struct\nfield x u64\nfield x u64\n",
        1,
        ShapeTextKind::Check(ShapeFault {
            shape: ShapeId(17),
            kind: ShapeFaultKind::RepeatedName,
        }),
    ),
    (
        b"shape P struct\nfield x u64\nshape E enum external\nvariant A unit\n",
        3,
        ShapeTextKind::Check(ShapeFault {
            shape: ShapeId(18),
            kind: ShapeFaultKind::NotBuilt,
        }),
    ),
    // Of each other kind.
    (b"shape P struct\nfield x Q\n", 2, ShapeTextKind::UnknownRef),
    (
        b"shape P struct\nfield x Q\nfield y\n",
        3,
        ShapeTextKind::BadLine,
    ),
    (
        b"shape O option Q\nshape P struct\nfield x u64\nitem u8\n",
        4,
        ShapeTextKind::OutOfPlace,
    ),
    (b"shape P struct\n\n", 2, ShapeTextKind::BadLine),
    (
        b"shape P struct\nfield \xff u64\n",
        2,
        ShapeTextKind::NotUtf8,
    ),
    (
        b"shape P struct\nfield x u64 rename \"\xff\"\n",
        2,
        ShapeTextKind::NotUtf8,
    ),
];

fn fault_of(
    read: Result<Shapes<'static>, ReadShapesError>,
) -> Result<Option<ShapeTextFault>, OutOfMemory> {
    match read {
        Ok(shapes) => {
            drop(shapes);
            Ok(None)
        }
        Err(ReadShapesError::Fault(fault)) => Ok(Some(fault)),
        Err(ReadShapesError::Alloc) => Err(OutOfMemory),
    }
}

fn fault(alloc: Global, text: &[u8]) -> Result<Option<ShapeTextFault>, OutOfMemory> {
    fault_of(read_shapes(alloc, text))
}

#[test]
fn a_fault_has_its_line_and_its_shape(rt: HostRuntime) -> Result<(), OutOfMemory> {
    for (at, (text, line, kind)) in FAULTS.iter().enumerate() {
        let line = *line;
        let kind = *kind;
        let found = fault(rt.alloc(), text)?;
        assert_row(&rt, at, found == Some(ShapeTextFault { line, kind }));
    }
    Ok(())
}
