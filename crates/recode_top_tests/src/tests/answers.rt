//! An answer at the least capacity and depth.
use crate::tests::assert_row;
use recode_top::{ReadShapesError, read_shapes, recode};
use shape_core::Shapes;
use std::alloc::Global;

/// Whether a tape without the field `x` is recoded to one with `null` there.
fn is_null(alloc: Global, shapes: &Shapes) -> bool {
    let Some(root) = shapes.find("Holder") else {
        return false;
    };
    let out = recode(alloc, shapes, root, 1, 2, b"{\n}\n");
    let is_null = match &out {
        Ok(out) => out.as_slice() == b"{\nk \"x\"\nnull\n}\n".as_slice(),
        Err(_) => false,
    };
    drop(out);
    is_null
}

#[test]
fn an_absent_option_is_no_missing_field(rt: HostRuntime) -> Result<(), ReadShapesError> {
    let text = b"shape Maybe option u64\nshape Holder struct\nfield x Maybe\n";
    let shapes = read_shapes(rt.alloc(), text)?;
    let is_null = is_null(rt.alloc(), &shapes);
    drop(shapes);
    assert_row(&rt, 0, is_null);
    Ok(())
}
