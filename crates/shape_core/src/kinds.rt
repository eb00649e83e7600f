//! What the kind of a struct or a variant asks of its fields.
ghost use Rattle.std.specs.Prelude.{◌≡◌, ◌&&◌, map, option_map, bytes_eq};
ghost use Rattle.std.specs.Fmt.{decimal};
ghost use Rattle.std.specs.List.{list_any};
ghost use Rattle.semantics_lines.specs.Shapes.{is_tuple, is_unit};
ghost use Rattle.semantics.specs.Registry.{on_definition, on_fields_of, misplaces, has_bad_item, has_some, has_bad_unit};
ghost use Rattle.shape_types.specs.Shapes.{struct_kind_of, field_of, variant_of, definition_of};

use crate::built::has_attribute;
use itoa::Buffer;
use shape_types::{Def, Field, Name, StructKind, Variant};

fn is_tuple(kind: StructKind) -> bool
    ensures { result ≡ is_tuple (struct_kind_of kind) }
{
    matches!(kind, StructKind::Tuple | StructKind::TupleStruct)
}

fn is_unit(kind: StructKind) -> bool
    ensures { result ≡ is_unit (struct_kind_of kind) }
{
    matches!(kind, StructKind::Unit)
}

fn is_place(name: &Name, place: usize) -> bool
    ensures { result ≡ bytes_eq name.now (decimal place) }
{
    let mut digits = Buffer::new();
    name.as_str() == digits.format(place)
}

fn misplaces(fields: &[Field]) -> bool
    ensures { result ≡ misplaces 0 (map field_of fields.now) }
{
    for (place, field) in fields.iter().enumerate() {
        if !is_place(&field.name, place) || has_attribute(field) {
            return true;
        }
    }
    false
}

fn variant_misplaces(variant: &Variant) -> bool
    ensures { result ≡ (is_tuple (variant_of variant.now).kind && misplaces 0 (variant_of variant.now).fields) }
{
    is_tuple(variant.kind) && misplaces(variant.fields.as_slice())
}

fn variants_misplace(variants: &[Variant]) -> bool
    ensures { result ≡ list_any (λ v. is_tuple (variant_of v).kind && misplaces 0 (variant_of v).fields) variants.now }
{
    variants.iter().any(variant_misplaces)
}

#[tactic(auto, using(crate::proofs::Lists::list_any_map))]
fn definition_misplaces(def: &Def) -> bool
    ensures { result ≡ has_bad_item (definition_of def.now) }
{
    match def {
        Def::Struct(def) => is_tuple(def.kind) && misplaces(def.fields.as_slice()),
        Def::Enum(def) => variants_misplace(def.variants.as_slice()),
        _ => false,
    }
}

/// An item of a tuple has another name than its place, in decimal, or has an attribute.
pub fn has_bad_item(def: &Option<Def>) -> bool
    ensures { result ≡ on_definition (option_map definition_of def.now) has_bad_item }
{
    match def {
        None => false,
        Some(def) => definition_misplaces(def),
    }
}

fn has_some(fields: &[Field]) -> bool
    ensures { result ≡ has_some (map field_of fields.now) }
{
    !fields.is_empty()
}

fn variant_is_bad_unit(variant: &Variant) -> bool
    ensures { result ≡ (is_unit (variant_of variant.now).kind && has_some (variant_of variant.now).fields) }
{
    is_unit(variant.kind) && has_some(variant.fields.as_slice())
}

fn variants_are_bad_units(variants: &[Variant]) -> bool
    ensures { result ≡ list_any (λ v. is_unit (variant_of v).kind && has_some (variant_of v).fields) variants.now }
{
    variants.iter().any(variant_is_bad_unit)
}

#[tactic(auto, using(crate::proofs::Lists::list_any_map))]
fn is_bad_unit(def: &Def) -> bool
    ensures { result ≡ has_bad_unit (definition_of def.now) }
{
    match def {
        Def::Struct(def) => is_unit(def.kind) && has_some(def.fields.as_slice()),
        Def::Enum(def) => variants_are_bad_units(def.variants.as_slice()),
        _ => false,
    }
}

/// What is of a unit kind has fields.
pub fn has_bad_unit(def: &Option<Def>) -> bool
    ensures { result ≡ on_definition (option_map definition_of def.now) has_bad_unit }
{
    match def {
        None => false,
        Some(def) => is_bad_unit(def),
    }
}
