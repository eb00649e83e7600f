use crate::memory::OutOfMemory;
use crate::shape::ShapeId;

/// The rules that a registry keeps, each named by the fault where it is broken, in their order.
///
/// A shape that uses a form that isn't built has `NotBuilt` alone.
#[derive(Debug, Clone, Copy, PartialEq, Eq)]
pub enum ShapeFaultKind {
    /// A shape was named and not defined, or it refers to a number that isn't there.
    Undefined,
    /// An earlier shape has this name.
    RepeatedShapeName,
    /// Two fields of one struct or variant have one name, or two of their keys (effective names and aliases) have one
    /// text, or two variants of one enum have one name.
    RepeatedName,
    /// A declared default is no value of its shape.
    BadDefault,
    /// A skip rule stands on a field that it can't apply to.
    BadSkip,
    /// An item of a tuple isn't named by its place, or has an attribute, or a field is flattened that can't be.
    BadFlatten,
    /// A shape holds itself with nothing in between.
    StepCycle,
    /// A container isn't one value with metadata beside it.
    BadContainer,
    /// The variants of an enum don't fit its form.
    BadEnum,
    /// One object has too many choices of variants.
    TooManyChoices,
    /// There are more than 65,535 fields or variants.
    TooMany,
    /// The shape uses a form that isn't built.
    NotBuilt,
}

/// A shape that breaks a rule.
#[derive(Debug, Clone, Copy, PartialEq, Eq)]
pub struct ShapeFault {
    /// The shape.
    pub shape: ShapeId,
    /// The rule.
    pub kind: ShapeFaultKind,
}

/// Why a registry wasn't made.
#[derive(Debug, Drop)]
pub enum CheckFault {
    /// A shape breaks a rule: the least such shape, and the first of the rules that it breaks.
    Fault(ShapeFault),
    /// Memory ran out.
    Alloc,
}

/// Why a shape wasn't named.
#[derive(Debug, Drop)]
pub enum NameFault {
    /// There are 65,535 shapes already.
    TooMany,
    /// Memory ran out.
    Alloc,
}

/// Why a value wasn't taken.
#[derive(Debug, Drop)]
pub enum FacetFault {
    /// It is no value of the shape.
    NotTyped,
    /// Memory ran out.
    Alloc,
}

impl From<OutOfMemory> for CheckFault {
    ghost use Rattle.std.specs.Prelude.{◌≡◌};
    ghost use Rattle.shape_types.specs.declared.fault.CheckFault.TheVariants.{Alloc};

    ghost from_gives = { λ e f. f ≡ Alloc };

    fn from(_error: OutOfMemory) -> Self {
        CheckFault::Alloc
    }
}

impl From<OutOfMemory> for NameFault {
    ghost use Rattle.std.specs.Prelude.{◌≡◌};
    ghost use Rattle.shape_types.specs.declared.fault.NameFault.TheVariants.{Alloc};

    ghost from_gives = { λ e f. f ≡ Alloc };

    fn from(_error: OutOfMemory) -> Self {
        NameFault::Alloc
    }
}

impl From<OutOfMemory> for FacetFault {
    ghost use Rattle.std.specs.Prelude.{◌≡◌};
    ghost use Rattle.shape_types.specs.declared.fault.FacetFault.TheVariants.{Alloc};

    ghost from_gives = { λ e f. f ≡ Alloc };

    fn from(_error: OutOfMemory) -> Self {
        FacetFault::Alloc
    }
}
