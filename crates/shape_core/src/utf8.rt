//! That names are texts, and so UTF-8: walks that a registry learns it by, with nothing to do when they run.
ghost use Rattle.std.specs.Prelude.{◌≡◌, map, option_map, IsTrue};
ghost use Rattle.std.specs.List.{list_all};
ghost use Rattle.semantics.specs.Registry.{name_is_utf8, field_is_utf8, variant_is_utf8, form_is_utf8, definition_is_utf8};
ghost use Rattle.shape_core.specs.Builder.{defined_is_utf8, draft_is_utf8};
ghost use Rattle.shape_types.specs.Shapes.{field_of, variant_of, enum_form_of, definition_of, draft_of};

use shape_types::{Def, Draft, EnumForm, Field, Name, Variant};

fn name_utf8(name: &Option<Name>)
    ensures { IsTrue (name_is_utf8 name.now) }
{
    if let Some(name) = name {
        name.utf8();
    }
}

fn field_utf8(field: &Field)
    ensures { IsTrue (field_is_utf8 (field_of field.now)) }
{
    field.name.utf8();
    name_utf8(&field.rename);
    name_utf8(&field.alias);
}

fn fields_utf8(fields: &[Field])
    ensures { IsTrue (list_all field_is_utf8 (map field_of fields.now)) }
{
    for field in fields {
        field_utf8(field);
    }
}

fn variant_utf8(variant: &Variant)
    ensures { IsTrue (variant_is_utf8 (variant_of variant.now)) }
{
    variant.name.utf8();
    name_utf8(&variant.rename);
    fields_utf8(variant.fields.as_slice());
}

fn variants_utf8(variants: &[Variant])
    ensures { IsTrue (list_all variant_is_utf8 (map variant_of variants.now)) }
{
    for variant in variants {
        variant_utf8(variant);
    }
}

fn form_utf8(form: &EnumForm)
    ensures { IsTrue (form_is_utf8 (enum_form_of form.now)) }
{
    match form {
        EnumForm::Internal { tag, .. } => tag.utf8(),
        EnumForm::Adjacent { tag, content, .. } => {
            tag.utf8();
            content.utf8();
        }
        _ => {}
    }
}

fn definition_utf8(def: &Def)
    ensures { IsTrue (definition_is_utf8 (definition_of def.now)) }
{
    match def {
        Def::Struct(def) => fields_utf8(def.fields.as_slice()),
        Def::Enum(def) => {
            form_utf8(&def.form);
            variants_utf8(def.variants.as_slice());
        }
        _ => {}
    }
}

fn defined_utf8(def: &Option<Def>)
    ensures { IsTrue (defined_is_utf8 (option_map definition_of def.now)) }
{
    if let Some(def) = def {
        definition_utf8(def);
    }
}

fn draft_utf8(draft: &Draft)
    ensures { IsTrue (draft_is_utf8 (draft_of draft.now)) }
{
    draft.name.utf8();
    defined_utf8(&draft.def);
}

/// The names of shapes that are being built, and of their fields and variants, are texts.
pub fn drafts_utf8(drafts: &[Draft])
    ensures { IsTrue (list_all draft_is_utf8 (map draft_of drafts.now)) }
{
    for draft in drafts {
        draft_utf8(draft);
    }
}
