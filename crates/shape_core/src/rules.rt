//! The rules that a registry keeps, one function a rule.
ghost use Rattle.std.specs.Prelude.{◌≡◌, Some, map, option_map, slice_get, IfOk};
ghost use Rattle.std.specs.List.{list_any};
ghost use Rattle.semantics.specs.Registry.{on_definition, on_fields, is_missing, dangles, is_undefined, repeats_shape_name, repeats_field, repeats_variant, repeats_name, is_long, has_many_variants, has_too_many};
ghost use Rattle.shape_core.specs.Names.{AreRepeats};
ghost use Rattle.shape_types.specs.Shapes.{field_of, variant_of, definition_of, draft_of, drafts_of};

use crate::keys::keys_repeat;
use crate::names::{fields_repeat, variants_repeat};
use shape_types::{Def, Draft, Field, Items, OutOfMemory, ShapeId, Variant};
use std::alloc::Global;

/// The most shapes of a registry, fields of a struct or variant, and variants of an enum.
pub const LIMIT: usize = 65535;

fn is_missing(count: usize, id: ShapeId) -> bool
    ensures { result ≡ is_missing count id.0 }
{
    id.0 as usize >= count
}

fn fields_dangle(count: usize, fields: &[Field]) -> bool
    ensures { result ≡ list_any (λ f. is_missing count (field_of f).shape) fields.now }
{
    for field in fields {
        if is_missing(count, field.shape) {
            return true;
        }
    }
    false
}

#[tactic(auto, using(crate::proofs::Lists::list_any_map))]
fn variant_dangles(count: usize, variant: &Variant) -> bool
    ensures { result ≡ list_any (λ f. is_missing count f.shape) (variant_of variant.now).fields }
{
    fields_dangle(count, variant.fields.as_slice())
}

fn variants_dangle(count: usize, variants: &[Variant]) -> bool
    ensures { result ≡ list_any (λ v. list_any (λ f. is_missing count f.shape) (variant_of v).fields) variants.now }
{
    for variant in variants {
        if variant_dangles(count, variant) {
            return true;
        }
    }
    false
}

#[tactic(auto, using(crate::proofs::Lists::list_any_map))]
fn dangles(count: usize, def: &Def) -> bool
    ensures { result ≡ dangles count (definition_of def.now) }
{
    match def {
        Def::Scalar(_) => false,
        Def::Option(id) => is_missing(count, *id),
        Def::Result { ok, err } => is_missing(count, *ok) || is_missing(count, *err),
        Def::List(id) => is_missing(count, *id),
        Def::Array { item, .. } => is_missing(count, *item),
        Def::Set(id) => is_missing(count, *id),
        Def::Map { key, value } => is_missing(count, *key) || is_missing(count, *value),
        Def::Struct(def) => fields_dangle(count, def.fields.as_slice()),
        Def::Enum(def) => variants_dangle(count, def.variants.as_slice()),
        Def::Transparent(id) => is_missing(count, *id),
    }
}

/// There is no definition, or it refers to a number that isn't there.
pub fn is_undefined(count: usize, def: &Option<Def>) -> bool
    ensures { result ≡ is_undefined count (option_map definition_of def.now) }
{
    match def {
        None => true,
        Some(def) => dangles(count, def),
    }
}

/// One of the first `at` shapes has the name of this one.
pub fn repeats_shape_name(
    _drafts: &[Draft],
    repeats: &Items<bool>,
    at: usize,
    _draft: &Draft,
) -> bool
    requires repeats { AreRepeats _drafts.now repeats.now }
    requires here { slice_get _drafts.now at ≡ Some _draft.now }
    ensures { result ≡ repeats_shape_name (drafts_of _drafts.now) at (draft_of _draft.now) }
{
    match repeats.get(at) {
        Some(is_repeated) => *is_repeated,
        None => false,
    }
}

#[tactic(auto, using(crate::proofs::KeyTexts::repeats_name, crate::proofs::KeyTexts::repeats_key))]
fn repeats_field(alloc: Global, fields: &[Field]) -> Result<bool, OutOfMemory>
    ensures { IfOk result (λ found. found ≡ repeats_field (map field_of fields.now)) }
{
    Ok(fields_repeat(alloc, fields)? || keys_repeat(alloc, fields)?)
}

fn variants_repeat_field(alloc: Global, variants: &[Variant]) -> Result<bool, OutOfMemory>
    ensures { IfOk result (λ found. found ≡ list_any (λ v. repeats_field (variant_of v).fields) variants.now) }
{
    'variants: for variant in variants {
        if repeats_field(alloc, variant.fields.as_slice())? {
            return Ok(true);
        }
    }
    Ok(false)
}

#[tactic(auto, using(crate::proofs::Lists::list_any_map))]
fn some_repeat_field(alloc: Global, def: &Def) -> Result<bool, OutOfMemory>
    ensures { IfOk result (λ found. found ≡ on_fields repeats_field (definition_of def.now)) }
{
    match def {
        Def::Struct(def) => repeats_field(alloc, def.fields.as_slice()),
        Def::Enum(def) => variants_repeat_field(alloc, def.variants.as_slice()),
        _ => Ok(false),
    }
}

fn repeats_variant(alloc: Global, def: &Def) -> Result<bool, OutOfMemory>
    ensures { IfOk result (λ found. found ≡ repeats_variant (definition_of def.now)) }
{
    match def {
        Def::Enum(def) => variants_repeat(alloc, def.variants.as_slice()),
        _ => Ok(false),
    }
}

/// Two fields of one struct or variant have one name, or two of their keys, or two variants of one enum.
pub fn repeats_name(alloc: Global, def: &Option<Def>) -> Result<bool, OutOfMemory>
    ensures { IfOk result (λ found. found ≡ on_definition (option_map definition_of def.now) repeats_name) }
{
    match def {
        None => Ok(false),
        Some(def) => Ok(some_repeat_field(alloc, def)? || repeats_variant(alloc, def)?),
    }
}

fn is_long(fields: &[Field]) -> bool
    ensures { result ≡ is_long (map field_of fields.now) }
{
    fields.len() > LIMIT
}

fn variant_is_long(variant: &Variant) -> bool
    ensures { result ≡ is_long (variant_of variant.now).fields }
{
    is_long(variant.fields.as_slice())
}

fn variants_are_long(variants: &[Variant]) -> bool
    ensures { result ≡ list_any (λ v. is_long (variant_of v).fields) variants.now }
{
    variants.iter().any(variant_is_long)
}

#[tactic(auto, using(crate::proofs::Lists::list_any_map))]
fn has_many_fields(def: &Def) -> bool
    ensures { result ≡ on_fields is_long (definition_of def.now) }
{
    match def {
        Def::Struct(def) => is_long(def.fields.as_slice()),
        Def::Enum(def) => variants_are_long(def.variants.as_slice()),
        _ => false,
    }
}

fn has_many_variants(def: &Def) -> bool
    ensures { result ≡ has_many_variants (definition_of def.now) }
{
    match def {
        Def::Enum(def) => def.variants.len() > LIMIT,
        _ => false,
    }
}

/// There are more fields of one struct or variant, or variants of one enum, than there may be.
pub fn has_too_many(def: &Option<Def>) -> bool
    ensures { result ≡ on_definition (option_map definition_of def.now) has_too_many }
{
    match def {
        None => false,
        Some(def) => has_many_fields(def) || has_many_variants(def),
    }
}
