//! The fields of a struct, by the number of its shape.
ghost use Rattle.std.specs.Prelude.{◌≡◌, [], length, map, slice_get, MatchOption};
ghost use Rattle.std.specs.Option.{option_map, option_copied};
ghost use Rattle.shape_types.specs.Shapes.{field_of, registry};
ghost use Rattle.read_steps.specs.Keys.{place_in};
ghost use Rattle.read_steps.specs.Tasks.{denies_at, fields_at};

use crate::key::find_field;
use shape_core::{Def, Field, ShapeId, Shapes};

/// The fields of the struct of this number, if it is one.
pub fn fields_of<'s, 'v>(shapes: &'s Shapes<'v>, shape: ShapeId) -> Option<&'s [Field<'v>]>
    ensures { MatchOption result (fields_at (registry shapes.now) shape.0 ≡ []) (λ fields. fields_at (registry shapes.now) shape.0 ≡ map field_of fields.now) }
{
    match shapes.definition_at(shape) {
        Some(Def::Struct(def)) => Some(def.fields.as_slice()),
        _ => None,
    }
}

/// The field at this place of the struct of this number.
#[tactic(auto, using(crate::proofs::FieldsSeen::field_seen))]
pub fn field_at<'s, 'v>(
    shapes: &'s Shapes<'v>,
    shape: ShapeId,
    place: usize,
) -> Option<&'s Field<'v>>
    ensures { slice_get (fields_at (registry shapes.now) shape.0) place ≡ option_map field_of (option_copied result) }
{
    match fields_of(shapes, shape) {
        Some(fields) => fields.get(place),
        None => None,
    }
}

/// Whether the struct of this number refuses unknown keys.
pub fn denies(shapes: &Shapes, shape: ShapeId) -> bool
    ensures { result ≡ denies_at (registry shapes.now) shape.0 }
{
    match shapes.definition_at(shape) {
        Some(Def::Struct(def)) => def.deny_unknown_fields,
        _ => false,
    }
}

/// How many fields the struct of this number has.
pub fn fields_count(shapes: &Shapes, shape: ShapeId) -> usize
    ensures { result ≡ length (fields_at (registry shapes.now) shape.0) }
{
    match fields_of(shapes, shape) {
        Some(fields) => fields.len(),
        None => 0,
    }
}

/// The place of the first field of the struct of this number that is read under this key.
#[tactic(auto, using(crate::proofs::Keys::position_seen))]
pub fn place_of(shapes: &Shapes, shape: ShapeId, name: &str) -> Option<usize>
    ensures { result ≡ place_in (fields_at (registry shapes.now) shape.0) name.now }
{
    match fields_of(shapes, shape) {
        Some(fields) => find_field(fields, name),
        None => None,
    }
}
