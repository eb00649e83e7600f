ghost use Rattle.std.specs.Prelude.{◌≡◌, IfOk};
ghost use Rattle.shape_types.specs.Faults.{fault_kind_of};
ghost use Rattle.shape_lines.specs.ShapeErrors.{text_kind};
ghost use Rattle.recode_top.specs.ShapeNotes.{kind_name, rule_name, shapes_note};

use shape_core::{Name, OutOfMemory, ShapeFaultKind};
use shape_text::{ShapeTextFault, ShapeTextKind};
use std::alloc::Global;

/// What is said of a refused shape text: the line, a colon, a space and the kind of the fault.
pub fn shapes_note(alloc: Global, fault: ShapeTextFault) -> Result<Name, OutOfMemory>
    ensures { IfOk result (λ note. note ≡ shapes_note fault.line (text_kind fault.kind)) }
{
    let ShapeTextFault { line, kind } = fault;
    let kind = kind_name(kind);
    let text = format!(in alloc; "{line}: {kind}")?;
    Ok(Name::from_string(text))
}

/// The name of a fault of a shape text. Where a rule of the registry is broken, it is the rule's.
fn kind_name(kind: ShapeTextKind) -> &'static str
    ensures { result.now ≡ kind_name (text_kind kind) }
{
    match kind {
        ShapeTextKind::NotUtf8 => "NotUtf8",
        ShapeTextKind::BadLine => "BadLine",
        ShapeTextKind::OutOfPlace => "OutOfPlace",
        ShapeTextKind::UnknownRef => "UnknownRef",
        ShapeTextKind::TooMany => "TooMany",
        ShapeTextKind::Check(fault) => rule_name(fault.kind),
    }
}

/// The name of a rule of the registry.
fn rule_name(rule: ShapeFaultKind) -> &'static str
    ensures { result.now ≡ rule_name (fault_kind_of rule) }
{
    match rule {
        ShapeFaultKind::Undefined => "Undefined",
        ShapeFaultKind::RepeatedShapeName => "RepeatedShapeName",
        ShapeFaultKind::RepeatedName => "RepeatedName",
        ShapeFaultKind::BadDefault => "BadDefault",
        ShapeFaultKind::BadSkip => "BadSkip",
        ShapeFaultKind::BadFlatten => "BadFlatten",
        ShapeFaultKind::StepCycle => "StepCycle",
        ShapeFaultKind::BadContainer => "BadContainer",
        ShapeFaultKind::BadEnum => "BadEnum",
        ShapeFaultKind::TooManyChoices => "TooManyChoices",
        ShapeFaultKind::TooMany => "TooMany",
        ShapeFaultKind::NotBuilt => "NotBuilt",
    }
}
