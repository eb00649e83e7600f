//! The way to what is read.
ghost use Rattle.std.specs.Prelude.{◌≡◌, ◌∷◌, [], ◌++◌, slice_get, IfOk, OnOk};
ghost use Rattle.semantics_lines.specs.Faults.{index_step, variant_step};
ghost use Rattle.event_core.specs.Faults.{path_of};
ghost use Rattle.laws_reading.specs.Values.{Terms};
ghost use Rattle.laws_machine.specs.Frames.{Frames, path};
ghost use Rattle.shape_types.specs.Shapes.{registry};
ghost use Rattle.read_steps.specs.Refusals.{with_field_step};
ghost use Rattle.read_steps.specs.Tasks.{terms_of, fields_at};
ghost use Rattle.read_steps.specs.Views.{keyed_frame, object_frame, place_of, struct_of, tuple_of, with_frame};

use crate::fields::field_at;
use crate::frames::{Frame, StructPart, TuplePart};
use crate::stack::Place;
use crate::task::Task;
use event_core::{Path, PathSegment};
use shape_core::{Name, OutOfMemory, ShapeId, Text};
use std::alloc::Global;

/// The way to what is read there. It is refused for want of memory alone.
pub fn path_to<'e>(task: &Task<'_, '_>, place: Place<'_, '_>) -> Result<Path<'e>, OutOfMemory>
    ensures { IfOk result (λ way. path_of way ≡ path (terms_of task.now) (place_of (terms_of task.now) place.entry)) }
{
    let mut way = Path::new(task.alloc);
    'frames: for frame in place.stack.below.iter() {
        push_step(task, frame, &mut way)?;
    }
    if place.inside {
        push_step(task, &place.stack.top, &mut way)?;
    }
    Ok(way)
}

#[tactic(auto, using(crate::proofs::Paths::field_step_seen))]
fn push_step<'e>(
    task: &Task<'_, '_>,
    frame: &Frame<'_>,
    way: &mut Path<'e>,
) -> Result<(), OutOfMemory>
    ensures { (fs : Frames) → path_of way.old ≡ path (terms_of task.now) fs → OnOk result (path_of way.new ≡ path (terms_of task.now) (with_frame (terms_of task.now) frame.now fs)) }
{
    match frame {
        Frame::Bottom => {
            restart(task.alloc, way);
            Ok(())
        }
        Frame::Items(part) => push_index(way, part.front.len()),
        Frame::Elements(part) => push_index(way, part.front.len()),
        Frame::Keyed(part) => push_item(part, way),
        Frame::Object(part) => push_key(task, part, way),
        Frame::ResultSide(part, ok) => push_side(task.alloc, part.sides.side(*ok).name, way),
        _ => Ok(()),
    }
}

/// Nothing is open there.
fn restart(alloc: Global, way: &mut Path<'_>)
    ensures { path_of way.new ≡ [] }
{
    drop(std::mem::replace(way, Path::new(alloc)));
}

fn push_index(way: &mut Path<'_>, at: usize) -> Result<(), OutOfMemory>
    ensures { OnOk result (path_of way.new ≡ path_of way.old ++ (index_step at ∷ [])) }
{
    way.push(PathSegment::Index(at))
}

/// The step to the item that comes after a key, if one does.
fn push_item(part: &TuplePart<'_>, way: &mut Path<'_>) -> Result<(), OutOfMemory>
    ensures { (t : Terms) (fs : Frames) → path_of way.old ≡ path t fs → OnOk result (path_of way.new ≡ path t (keyed_frame (tuple_of t part.now) part.now.after_key ∷ fs)) }
{
    if part.after_key {
        return push_index(way, part.front.len());
    }
    Ok(())
}

/// The step to the field whose value comes, if one does.
fn push_key(
    task: &Task<'_, '_>,
    part: &StructPart<'_>,
    way: &mut Path<'_>,
) -> Result<(), OutOfMemory>
    ensures { (fs : Frames) → path_of way.old ≡ path (terms_of task.now) fs → OnOk result (path_of way.new ≡ path (terms_of task.now) (object_frame (struct_of (terms_of task.now) part.now) part.now.key ∷ fs)) }
{
    match &part.key {
        Some(key) => push_field(task, part.shape, key.place, way),
        None => Ok(()),
    }
}

fn push_field(
    task: &Task<'_, '_>,
    shape: ShapeId,
    place: usize,
    way: &mut Path<'_>,
) -> Result<(), OutOfMemory>
    ensures { OnOk result (path_of way.new ≡ with_field_step (slice_get (fields_at (registry task.now.shapes.now) shape.0) place) (path_of way.old)) }
{
    match field_at(task.shapes, shape, place) {
        Some(field) => {
            let name = Name::copy(task.alloc, field.name.as_str())?;
            way.push(PathSegment::Field(Text::Owned(name)))
        }
        None => Ok(()),
    }
}

fn push_side(alloc: Global, name: &str, way: &mut Path<'_>) -> Result<(), OutOfMemory>
    ensures { OnOk result (path_of way.new ≡ path_of way.old ++ (variant_step name.now ∷ [])) }
{
    let name = Name::copy(alloc, name)?;
    way.push(PathSegment::Variant(Text::Owned(name)))
}
