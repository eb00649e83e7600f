//! A few shapes, by their numbers.
use shape_core::{OutOfMemory, ShapeId, Shapes};
use shape_text::read_shapes;
use std::alloc::Global;

pub const U64: ShapeId = ShapeId(6);

/// A struct of two numbers, `x` and `y`.
pub const POINT: ShapeId = ShapeId(17);

/// A list of numbers.
pub const NUMBERS: ShapeId = ShapeId(18);

/// A list of points.
pub const POINTS: ShapeId = ShapeId(19);

const SHAPES: &[u8] = b"shape Point struct
field x u64
field y u64
shape Numbers list u64
shape Points list Point
";

/// The shapes of the numbers above.
pub fn shapes(alloc: Global) -> Result<Shapes<'static>, OutOfMemory> {
    match read_shapes(alloc, SHAPES) {
        Ok(shapes) => Ok(shapes),
        Err(_) => Err(OutOfMemory),
    }
}
