//! Keys of a struct.
ghost use Rattle.std.specs.Prelude.{◌≡◌};
ghost use Rattle.std.specs.List.{position_from};
ghost use Rattle.std.specs.Option.{option_map};
ghost use Rattle.event_core.specs.Keys.{key_name};
ghost use Rattle.shape_types.specs.Texts.{phrase_of};
ghost use Rattle.read_steps.specs.Keys.{calls, is_text};

use event_core::{FieldKey, Span};
use shape_core::{Field, Text, effective_name};

/// A key that leads to a field, by its name or by its order.
#[derive(Clone, Copy)]
pub struct KeyAt {
    /// The place of the field among those of its struct.
    pub place: usize,
    /// Where the key stands.
    pub span: Span,
}

/// Takes the name of a key, if it has one, out of its place.
pub fn take_name<'de>(key: &mut FieldKey<'de>) -> Option<Text<'de>>
    ensures { option_map phrase_of result ≡ key_name key.old }
{
    match std::mem::replace(key, FieldKey::Name(Text::Borrowed(""))) {
        FieldKey::Name(name) => Some(name),
        FieldKey::Full(full) => full.into_inner().name,
    }
}

/// The place of the first field that is read under this key.
pub fn find_field(fields: &[Field], name: &str) -> Option<usize>
    ensures { result ≡ position_from (calls name.now) 0 fields.now }
{
    fields.iter().position(|field| is_called(field, name))
}

/// Whether the field is read under this key: its effective name, or its alias.
fn is_called(field: &Field, name: &str) -> bool
    ensures { result ≡ calls name.now field.now }
{
    !field.flatten && (effective_name(field) == name || is_alias(field, name))
}

fn is_alias(field: &Field, name: &str) -> bool
    ensures { result ≡ is_text name.now field.now.alias }
{
    match &field.alias {
        Some(alias) => alias.as_str() == name,
        None => false,
    }
}
