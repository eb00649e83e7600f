ghost use Rattle.std.specs.Prelude.{◌≡◌};

use shape_types::{OutOfMemory, ShapeFault};

/// Why a text describes no shapes. Faults of lines come first, then `UnknownRef`, and then `Check`.
#[derive(Debug, Clone, Copy, PartialEq, Eq)]
pub enum ShapeTextKind {
    /// A line is no UTF-8.
    NotUtf8,
    /// A line has none of the known forms, or no line feed.
    BadLine,
    /// An item, a field or a variant stands where none may stand.
    OutOfPlace,
    /// A line refers to a shape that isn't there.
    UnknownRef,
    /// There are more than 65,535 shapes, with the scalars.
    TooMany,
    /// A shape breaks a rule of the registry.
    Check(ShapeFault),
}

/// What is wrong with a shape text, and where.
#[derive(Debug, Clone, Copy, PartialEq, Eq)]
pub struct ShapeTextFault {
    /// The line, from 1. Of a broken rule it is the one where the shape begins.
    pub line: usize,
    /// What is wrong with it.
    pub kind: ShapeTextKind,
}

/// Why shapes weren't read.
#[derive(Debug, Drop)]
pub enum ReadShapesError {
    /// The text describes none.
    Fault(ShapeTextFault),
    /// Memory ran out.
    Alloc,
}

impl From<OutOfMemory> for ReadShapesError {
    ghost use Rattle.std.specs.Prelude.{◌≡◌};
    ghost use Rattle.shape_lines.specs.declared.shape_fault.ReadShapesError.TheVariants.{Alloc};

    ghost from_gives = { λ e f. f ≡ Alloc };

    fn from(_error: OutOfMemory) -> Self {
        ReadShapesError::Alloc
    }
}

/// A fault at this line.
pub fn fault(line: usize, kind: ShapeTextKind) -> ReadShapesError
    ensures { result ≡ ReadShapesError.Fault (record { line = line; kind = kind }) }
{
    ReadShapesError::Fault(ShapeTextFault { line, kind })
}
