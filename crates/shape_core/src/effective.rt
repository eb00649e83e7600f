//! The names of fields.
ghost use Rattle.std.specs.Prelude.{◌≡◌};
ghost use Rattle.semantics_lines.specs.Shapes.{effective_name};
ghost use Rattle.shape_types.specs.Shapes.{field_of};

use shape_types::Field;

/// The name by which a field is written and read: its rename, or else its own.
pub fn effective_name<'f>(field: &'f Field<'_>) -> &'f str
    ensures { result.now ≡ effective_name (field_of field.now) }
{
    match &field.rename {
        Some(name) => name.as_str(),
        None => field.name.as_str(),
    }
}
