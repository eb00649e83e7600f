use crate::enums::EnumDef;
use crate::field::StructDef;
use crate::scalar::ScalarType;
use crate::shape::ShapeId;

/// What a shape is made of. `'v` is how long texts of declared defaults are borrowed.
#[derive(Debug, Drop)]
pub enum Def<'v> {
    /// A single thing.
    Scalar(ScalarType),
    /// A value of the shape, or nothing.
    Option(ShapeId),
    /// One of two values.
    Result {
        /// The shape of what went well.
        ok: ShapeId,
        /// The shape of the error.
        err: ShapeId,
    },
    /// Items of the shape, in order.
    List(ShapeId),
    /// So many items of the shape.
    Array {
        /// The shape of the items.
        item: ShapeId,
        /// How many there are.
        len: u32,
    },
    /// Distinct items of the shape.
    Set(ShapeId),
    /// Entries with distinct keys.
    Map {
        /// The shape of the keys.
        key: ShapeId,
        /// The shape of what stands under them.
        value: ShapeId,
    },
    /// Fields.
    Struct(StructDef<'v>),
    /// One of several variants.
    Enum(EnumDef<'v>),
    /// The values of another shape, under a name of its own.
    Transparent(ShapeId),
}
