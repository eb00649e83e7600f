//! Why a value can't be built.
use crate::path::Path;
use shape_types::{Name, ShapeName};

/// Why a call that builds a value refused. `'e` is how long its texts are borrowed.
#[derive(Drop)]
pub enum ReflectErrorKind<'e> {
    /// A field of the shape was not set.
    UninitializedField {
        /// The struct or the enum.
        shape: ShapeName,
        /// The field.
        field: Name,
    },
    /// A text is none of the type's values.
    ParseFailed {
        /// The type.
        shape: ShapeName,
        /// The text.
        text: Name,
    },
    /// The enum has no variant of this name.
    NoSuchVariant {
        /// The enum.
        shape: ShapeName,
        /// The name.
        name: Name,
    },
    /// The enum has no variant of this discriminant.
    NoSuchDiscriminant {
        /// The enum.
        shape: ShapeName,
        /// The discriminant.
        discriminant: i64,
    },
    /// The value or the call is of another kind than the shape.
    WrongKind {
        /// The shape that was expected.
        shape: ShapeName,
        /// What came.
        got: &'e str,
    },
    /// The shape has no default.
    NoDefault {
        /// The shape.
        shape: ShapeName,
    },
    /// An array has another length.
    ArrayLength {
        /// The array's shape.
        shape: ShapeName,
        /// Its length.
        expected: usize,
        /// The number of items that came.
        got: usize,
    },
    /// There are more items than the array or the tuple has.
    TooManyElements {
        /// The shape.
        shape: ShapeName,
        /// The number of items that it has.
        count: usize,
    },
    /// The shape can't be the key of a map.
    KeyForm {
        /// The shape.
        shape: ShapeName,
    },
    /// Memory ran out.
    Alloc,
}

/// A refusal, and the part of the value at which it came. `'e` is how long its texts are borrowed.
#[derive(Debug, Drop)]
pub struct ReflectError<'e> {
    /// The part.
    pub path: Path<'e>,
    /// Why it was refused.
    pub kind: ReflectErrorKind<'e>,
}
