//! Which forms aren't built yet: sets, maps and enums, and each attribute of a field, a struct or a shape but renames,
//! aliases and the refusal of unknown keys.
ghost use Rattle.std.specs.Prelude.{◌≡◌, map, option_map};
ghost use Rattle.std.specs.List.{list_any};
ghost use Rattle.semantics.specs.Registry.{never_skips, on_definition, has_unbuilt_attribute, has_attribute, is_unbuilt_struct, is_unbuilt, is_not_built};
ghost use Rattle.shape_types.specs.Shapes.{skip_rule_of, field_of, struct_shape_of, definition_of, draft_of};

use shape_types::{Def, Draft, Field, SkipRule, StructDef};

fn never_skips(rule: SkipRule) -> bool
    ensures { result ≡ never_skips (skip_rule_of rule) }
{
    matches!(rule, SkipRule::Never)
}

/// The field has an attribute beside its name and its shape.
pub fn has_attribute(field: &Field) -> bool
    ensures { result ≡ has_attribute (field_of field.now) }
{
    field.rename.is_some() || field.alias.is_some() || has_unbuilt_attribute(field)
}

fn has_unbuilt_attribute(field: &Field) -> bool
    ensures { result ≡ has_unbuilt_attribute (field_of field.now) }
{
    field.default.is_some()
        || !never_skips(field.skip)
        || field.flatten
        || field.metadata.is_some()
        || field.proxy.is_some()
}

fn some_have_unbuilt_attributes(fields: &[Field]) -> bool
    ensures { result ≡ list_any (λ f. has_unbuilt_attribute (field_of f)) fields.now }
{
    fields.iter().any(has_unbuilt_attribute)
}

#[tactic(auto, using(crate::proofs::Lists::list_any_map))]
fn is_unbuilt_struct(def: &StructDef) -> bool
    ensures { result ≡ is_unbuilt_struct (struct_shape_of def.now) }
{
    def.default.is_some() || def.container || some_have_unbuilt_attributes(def.fields.as_slice())
}

fn is_unbuilt(def: &Def) -> bool
    ensures { result ≡ is_unbuilt (definition_of def.now) }
{
    match def {
        Def::Struct(def) => is_unbuilt_struct(def),
        Def::Set(_) | Def::Map { .. } | Def::Enum(_) => true,
        _ => false,
    }
}

fn definition_is_unbuilt(def: &Option<Def>) -> bool
    ensures { result ≡ on_definition (option_map definition_of def.now) is_unbuilt }
{
    match def {
        None => false,
        Some(def) => is_unbuilt(def),
    }
}

/// The shape uses a form that isn't built.
pub fn is_not_built(draft: &Draft) -> bool
    ensures { result ≡ is_not_built (draft_of draft.now) }
{
    draft.proxy.is_some() || definition_is_unbuilt(&draft.def)
}
