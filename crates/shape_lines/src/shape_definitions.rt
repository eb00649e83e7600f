//! The shapes that lines describe.
ghost use Rattle.std.specs.Prelude.{◌≡◌, ◌<◌, ◌≤◌, map, length, false, IfOk, OnOk};
ghost use Rattle.semantics_lines.specs.Shapes.{named_kind};
ghost use Rattle.semantics_lines.specs.ShapeLines.{tuple_head, struct_head, enum_head};
ghost use Rattle.semantics_lines.specs.ShapeText.{AreLines, definition_said, scope_of, shape_count, shapes_of};
ghost use Rattle.shape_types.specs.Shapes.{definition_of, struct_kind_of, field_of, enum_form_of, drafts_of};
ghost use Rattle.shape_lines.specs.ShapeLines.{head_view, form_view, shape_line};
ghost use Rattle.shape_lines.specs.ShapeReading.{named_drafts, IsHeadAt};
ghost use Rattle.shape_lines.specs.ShapeScopes.{scope_view, struct_said};

use crate::shape_line::{FormLine, Head, ShapeLine};
use crate::shape_members::{members, variants};
use crate::shape_names::{Scope, number_in};
use crate::shape_quoted::text_of;
use shape_types::{
    Def, DraftsBuilder, EnumDef, EnumForm, Field, Items, OutOfMemory, ScalarType, ShapeId,
    StructDef, StructKind, Value,
};
use std::alloc::Global;

/// A struct without names, of these items.
fn bare_struct(kind: StructKind, fields: Items<Field<'_>>) -> Def<'_>
    ensures { definition_of result ≡ struct_said (struct_kind_of kind) (map field_of fields.entry) false false false }
{
    Def::Struct(StructDef {
        kind,
        fields,
        deny_unknown_fields: false,
        default: None,
        container: false,
    })
}

/// A struct of these fields. Its declared default isn't built yet: the unit value stands for it.
fn named_struct(deny: bool, default: bool, container: bool, fields: Items<Field<'_>>) -> Def<'_>
    ensures { definition_of result ≡ struct_said named_kind (map field_of fields.entry) deny default container }
{
    let default = if default { Some(Value::Unit) } else { None };
    Def::Struct(StructDef {
        kind: StructKind::Struct,
        fields,
        deny_unknown_fields: deny,
        default,
        container,
    })
}

/// How the variants of an enum are told apart.
fn form(alloc: Global, line: FormLine<'_>) -> Result<EnumForm, OutOfMemory>
    ensures { IfOk result (λ form. enum_form_of form ≡ form_view line.entry) }
{
    match line {
        FormLine::External => Ok(EnumForm::External),
        FormLine::Internal(tag, by) => {
            let tag = text_of(alloc, tag)?;
            Ok(EnumForm::Internal { tag, by })
        }
        FormLine::Adjacent(tag, content, by) => {
            let tag = text_of(alloc, tag)?;
            let content = text_of(alloc, content)?;
            Ok(EnumForm::Adjacent { tag, content, by })
        }
        FormLine::Numeric => Ok(EnumForm::Numeric),
        FormLine::Untagged => Ok(EnumForm::Untagged),
        FormLine::Cow => Ok(EnumForm::Cow),
    }
}

/// A struct of the items at the front of the lines.
fn tuple_definition<'v>(
    alloc: Global,
    scope: Scope<'_, '_>,
    lines: &[ShapeLine<'_>],
) -> Result<Def<'v>, OutOfMemory>
    requires { length scope.names.now ≤ 65535 }
    ensures { IfOk result (λ def. definition_of def ≡ definition_said (scope_view scope.entry) tuple_head (map shape_line lines.now)) }
{
    let fields = members(alloc, scope, lines)?;
    Ok(bare_struct(StructKind::TupleStruct, fields))
}

/// A struct of the fields at the front of the lines.
fn struct_definition<'v>(
    alloc: Global,
    scope: Scope<'_, '_>,
    deny: bool,
    default: bool,
    container: bool,
    lines: &[ShapeLine<'_>],
) -> Result<Def<'v>, OutOfMemory>
    requires { length scope.names.now ≤ 65535 }
    ensures { IfOk result (λ def. definition_of def ≡ definition_said (scope_view scope.entry) (struct_head deny default container) (map shape_line lines.now)) }
{
    let fields = members(alloc, scope, lines)?;
    Ok(named_struct(deny, default, container, fields))
}

/// An enum of the variants up to the next shape.
fn enum_definition<'v>(
    alloc: Global,
    scope: Scope<'_, '_>,
    line: FormLine<'_>,
    lines: &[ShapeLine<'_>],
) -> Result<Def<'v>, OutOfMemory>
    requires { length scope.names.now ≤ 65535 }
    ensures { IfOk result (λ def. definition_of def ≡ definition_said (scope_view scope.entry) (enum_head (form_view line.entry)) (map shape_line lines.now)) }
{
    let variants = variants(alloc, scope, lines)?;
    let form = form(alloc, line)?;
    Ok(Def::Enum(EnumDef { form, variants }))
}

/// The shape of a line, with the lines behind it.
fn definition<'v>(
    alloc: Global,
    scope: Scope<'_, '_>,
    head: &Head<'_>,
    lines: &[ShapeLine<'_>],
) -> Result<Def<'v>, OutOfMemory>
    requires { length scope.names.now ≤ 65535 }
    ensures { IfOk result (λ def. definition_of def ≡ definition_said (scope_view scope.entry) (head_view head.now) (map shape_line lines.now)) }
{
    match head {
        Head::Option(shape) => Ok(Def::Option(number_in(scope, shape))),
        Head::List(shape) => Ok(Def::List(number_in(scope, shape))),
        Head::Set(shape) => Ok(Def::Set(number_in(scope, shape))),
        Head::Transparent(shape) => Ok(Def::Transparent(number_in(scope, shape))),
        Head::Result(shape, other) => Ok(Def::Result {
            ok: number_in(scope, shape),
            err: number_in(scope, other),
        }),
        Head::Map(key, value) => Ok(Def::Map {
            key: number_in(scope, key),
            value: number_in(scope, value),
        }),
        Head::Array(len, shape) => Ok(Def::Array {
            item: number_in(scope, shape),
            len: *len,
        }),
        Head::Unit => Ok(bare_struct(StructKind::Unit, Items::new(alloc))),
        Head::Tuple => tuple_definition(alloc, scope, lines),
        Head::Struct {
            deny,
            default,
            container,
        } => struct_definition(alloc, scope, *deny, *default, *container, lines),
        Head::Enum(line) => enum_definition(alloc, scope, *line, lines),
    }
}

/// Defines each shape by its line and those behind it. The builder holds the scalars, and the names of the shapes.
pub(crate) fn define_shapes(
    alloc: Global,
    scope: Scope<'_, '_>,
    lines: &[ShapeLine<'_>],
    builder: &mut DraftsBuilder,
) -> Result<(), OutOfMemory>
    requires good { AreLines (map shape_line lines.now) }
    requires scope { scope_view scope ≡ scope_of (map shape_line lines.now) }
    requires named { drafts_of builder.old ≡ named_drafts (map shape_line lines.now) }
    ensures { OnOk result (drafts_of builder.new ≡ shapes_of (map shape_line lines.now)) }
{
    let mut number = ScalarType::ALL.len();
    'lines: for (at, line) in lines.iter().enumerate() {
        let ShapeLine::Head { head, .. } = line else {
            continue;
        };
        let def = definition(alloc, scope, head, &lines[at + 1..])?;
        builder.define(ShapeId(number as u32), def);
        number += 1;
    }
    Ok(())
}

/// The line where the shape of this number begins.
pub fn line_of_shape(lines: &[ShapeLine<'_>], shape: ShapeId) -> usize
    requires after_scalars { 17 ≤ shape.0 }
    requires there { shape.0 < shape_count (map shape_line lines.now) }
    ensures { IsHeadAt (map shape_line lines.now) shape.0 result }
{
    let mut number = ScalarType::ALL.len();
    'lines: for (at, line) in lines.iter().enumerate() {
        let ShapeLine::Head { .. } = line else {
            continue;
        };
        if number == shape.0 as usize {
            return at + 1;
        }
        number += 1;
    }
    unreachable!()
}
