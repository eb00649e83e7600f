//! The first rule that a registry breaks.
ghost use Rattle.std.specs.Prelude.{◌≡◌, ◌<◌, ◌≤◌, Some, length, option_map, slice_get, IfOk, MatchOption};
ghost use Rattle.semantics_lines.specs.ShapeFaults.{shape_limit};
ghost use Rattle.semantics.specs.Registry.{fault_of, fault_at, NoFault, NoFaultBelow, IsFirstFault};
ghost use Rattle.shape_core.specs.Names.{AreRepeats};
ghost use Rattle.shape_core.specs.Walks.{AreWalks};
ghost use Rattle.shape_types.specs.Faults.{fault_kind_of, shape_fault_of};
ghost use Rattle.shape_types.specs.Shapes.{draft_of, drafts_of};

use crate::built::is_not_built;
use crate::kinds::{has_bad_item, has_bad_unit};
use crate::names::repeated_shapes;
use crate::rules::{has_too_many, is_undefined, repeats_name, repeats_shape_name};
use crate::steps::{Walk, lies_on_cycle, long_walks};
use shape_types::{Draft, Items, OutOfMemory, ShapeFault, ShapeFaultKind, ShapeId};
use std::alloc::Global;

/// What is known of each shape by its number.
#[derive(Drop)]
struct Known {
    /// Whether an earlier shape has its name.
    repeats: Items<bool>,
    /// Where as many steps lead as there are shapes.
    walks: Items<Walk>,
}

/// The least fault of the shape of number `at`.
fn fault_of(
    alloc: Global,
    drafts: &[Draft],
    known: &Known,
    at: usize,
    draft: &Draft,
) -> Result<Option<ShapeFaultKind>, OutOfMemory>
    requires repeats { AreRepeats drafts.now known.now.repeats }
    requires walks { AreWalks (drafts_of drafts.now) (length drafts.now) known.now.walks }
    requires before { NoFaultBelow (drafts_of drafts.now) at }
    requires here { slice_get drafts.now at ≡ Some draft.now }
    ensures { IfOk result (λ fault. option_map fault_kind_of fault ≡ fault_of (drafts_of drafts.now) at (draft_of draft.now)) }
{
    if is_not_built(draft) {
        return Ok(Some(ShapeFaultKind::NotBuilt));
    }
    if is_undefined(drafts.len(), &draft.def) {
        return Ok(Some(ShapeFaultKind::Undefined));
    }
    if repeats_shape_name(drafts, &known.repeats, at, draft) {
        return Ok(Some(ShapeFaultKind::RepeatedShapeName));
    }
    if repeats_name(alloc, &draft.def)? {
        return Ok(Some(ShapeFaultKind::RepeatedName));
    }
    if has_bad_item(&draft.def) {
        return Ok(Some(ShapeFaultKind::BadFlatten));
    }
    if lies_on_cycle(drafts, &known.walks, at) {
        return Ok(Some(ShapeFaultKind::StepCycle));
    }
    if has_bad_unit(&draft.def) {
        return Ok(Some(ShapeFaultKind::BadEnum));
    }
    if has_too_many(&draft.def) {
        return Ok(Some(ShapeFaultKind::TooMany));
    }
    Ok(None)
}

/// The least fault of the shape of this number, where there is such a shape.
fn fault_at(
    alloc: Global,
    drafts: &[Draft],
    known: &Known,
    at: usize,
) -> Result<Option<ShapeFaultKind>, OutOfMemory>
    requires repeats { AreRepeats drafts.now known.now.repeats }
    requires walks { AreWalks (drafts_of drafts.now) (length drafts.now) known.now.walks }
    requires before { NoFaultBelow (drafts_of drafts.now) at }
    ensures { IfOk result (λ fault. option_map fault_kind_of fault ≡ fault_at (drafts_of drafts.now) at) }
{
    match drafts.get(at) {
        Some(draft) => fault_of(alloc, drafts, known, at, draft),
        None => Ok(None),
    }
}

/// The least shape with a fault, and the least of its faults, by what is known of all shapes.
fn first_known_fault(
    alloc: Global,
    drafts: &[Draft],
    known: &Known,
) -> Result<Option<ShapeFault>, OutOfMemory>
    requires few { length drafts.now ≤ shape_limit }
    requires repeats { AreRepeats drafts.now known.now.repeats }
    requires walks { AreWalks (drafts_of drafts.now) (length drafts.now) known.now.walks }
    ensures { IfOk result (λ fault. MatchOption fault (NoFault (drafts_of drafts.now)) (λ f. IsFirstFault (drafts_of drafts.now) (shape_fault_of f))) }
{
    'shapes: for at in 0..drafts.len() {
        if let Some(kind) = fault_at(alloc, drafts, known, at)? {
            let shape = ShapeId(at as u32);
            return Ok(Some(ShapeFault { shape, kind }));
        }
    }
    Ok(None)
}

/// The least shape with a fault, and the least of its faults.
pub fn first_fault(alloc: Global, drafts: &[Draft]) -> Result<Option<ShapeFault>, OutOfMemory>
    requires { length drafts.now ≤ shape_limit }
    ensures { IfOk result (λ fault. MatchOption fault (NoFault (drafts_of drafts.now)) (λ f. IsFirstFault (drafts_of drafts.now) (shape_fault_of f))) }
{
    let repeats = repeated_shapes(alloc, drafts)?;
    let walks = long_walks(alloc, drafts)?;
    let known = Known { repeats, walks };
    first_known_fault(alloc, drafts, &known)
}
