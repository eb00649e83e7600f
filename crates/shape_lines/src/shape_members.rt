//! The fields and variants that lines describe.
ghost use Rattle.std.specs.Prelude.{◌≡◌, ◌≤◌, map, length, option_map, IfOk};
ghost use Rattle.std.specs.Fmt.{decimal};
ghost use Rattle.semantics_lines.specs.ShapeText.{literal_tree, field_said, item_said, members, kind_of, variant_said, variants};
ghost use Rattle.shape_types.specs.Shapes.{field_of, struct_kind_of, variant_of};
ghost use Rattle.shape_types.specs.Trees.{tree_of};
ghost use Rattle.shape_lines.specs.ShapeLines.{told, literal_view, field_view, body_view, variant_view, shape_line};
ghost use Rattle.shape_lines.specs.ShapeScopes.{scope_view, member_said};

use crate::shape_line::{Body, FieldLine, Literal, ShapeLine, VariantLine};
use crate::shape_names::{Scope, is_map_at, number_in};
use crate::shape_quoted::{Quoted, text_of};
use shape_types::{
    Field, Items, Name, OutOfMemory, SkipRule, StructKind, Text, Value, Variant, VariantMode,
};
use std::alloc::Global;

/// A text, where there is one.
fn some_text(alloc: Global, quoted: Option<Quoted<'_>>) -> Result<Option<Name>, OutOfMemory>
    ensures { IfOk result (λ name. name ≡ option_map told quoted.entry) }
{
    match quoted {
        Some(quoted) => Ok(Some(text_of(alloc, quoted)?)),
        None => Ok(None),
    }
}

/// The value of a default. The default of a shape isn't built yet: the unit value stands for it.
fn literal_value<'v>(
    alloc: Global,
    over_map: bool,
    literal: Literal<'_>,
) -> Result<Value<'v>, OutOfMemory>
    ensures { IfOk result (λ value. tree_of value ≡ literal_tree over_map (literal_view literal.entry)) }
{
    match literal {
        Literal::Unit => Ok(Value::Unit),
        Literal::Bool(b) => Ok(Value::Bool(b)),
        Literal::Char(c) => Ok(Value::Char(c)),
        Literal::Unsigned(n) => Ok(Value::Unsigned(n)),
        Literal::Signed(z) => Ok(Value::Signed(z)),
        Literal::Text(quoted) => Ok(Value::Text(Text::Owned(text_of(alloc, quoted)?))),
        Literal::None => Ok(Value::None),
        Literal::Empty => {
            if over_map {
                Ok(Value::Map(Items::new(alloc)))
            } else {
                Ok(Value::List(Items::new(alloc)))
            }
        }
        Literal::Own => Ok(Value::Unit),
    }
}

/// The value of a default, where there is one.
fn some_value<'v>(
    alloc: Global,
    over_map: bool,
    literal: Option<Literal<'_>>,
) -> Result<Option<Value<'v>>, OutOfMemory>
    ensures { IfOk result (λ value. option_map tree_of value ≡ option_map (literal_tree over_map) (option_map literal_view literal.entry)) }
{
    match literal {
        Some(literal) => Ok(Some(literal_value(alloc, over_map, literal)?)),
        None => Ok(None),
    }
}

/// The field of a line.
fn field<'v>(
    alloc: Global,
    scope: Scope<'_, '_>,
    line: &FieldLine<'_>,
) -> Result<Field<'v>, OutOfMemory>
    requires { length scope.names.now ≤ 65535 }
    ensures { IfOk result (λ field. field_of field ≡ field_said (scope_view scope.entry) (field_view line.now)) }
{
    let shape = number_in(scope, line.shape);
    let name = Name::copy(alloc, line.name)?;
    let rename = some_text(alloc, line.rename)?;
    let alias = some_text(alloc, line.alias)?;
    let default = some_value(alloc, is_map_at(scope, shape), line.default)?;
    Ok(Field {
        name,
        rename,
        alias,
        shape,
        default,
        skip: line.skip,
        flatten: line.flatten,
        metadata: line.metadata,
        proxy: None,
    })
}

/// The decimal of a place.
fn place_name(alloc: Global, at: usize) -> Result<Name, OutOfMemory>
    ensures { IfOk result (λ name. name ≡ decimal at) }
{
    let text = format!(in alloc; "{at}")?;
    Ok(Name::from_string(text))
}

/// An item, whose name is its place.
fn item<'v>(
    alloc: Global,
    scope: Scope<'_, '_>,
    at: usize,
    shape: &str,
) -> Result<Field<'v>, OutOfMemory>
    requires { length scope.names.now ≤ 65535 }
    ensures { IfOk result (λ field. field_of field ≡ item_said (scope_view scope.entry) at shape.now) }
{
    let name = place_name(alloc, at)?;
    Ok(Field {
        name,
        rename: None,
        alias: None,
        shape: number_in(scope, shape),
        default: None,
        skip: SkipRule::Never,
        flatten: false,
        metadata: None,
        proxy: None,
    })
}

/// The item or the field that a line describes, where it describes one.
fn member<'v>(
    alloc: Global,
    scope: Scope<'_, '_>,
    at: usize,
    line: &ShapeLine<'_>,
) -> Result<Option<Field<'v>>, OutOfMemory>
    requires { length scope.names.now ≤ 65535 }
    ensures { IfOk result (λ found. option_map field_of found ≡ member_said (scope_view scope.entry) at (shape_line line.now)) }
{
    match line {
        ShapeLine::Item { shape } => Ok(Some(item(alloc, scope, at, shape)?)),
        ShapeLine::Field(line) => Ok(Some(field(alloc, scope, line)?)),
        _ => Ok(None),
    }
}

/// The items and fields at the front of the lines.
pub(crate) fn members<'v>(
    alloc: Global,
    scope: Scope<'_, '_>,
    lines: &[ShapeLine<'_>],
) -> Result<Items<Field<'v>>, OutOfMemory>
    requires { length scope.names.now ≤ 65535 }
    ensures { IfOk result (λ fields. map field_of fields ≡ members (scope_view scope.entry) 0 (map shape_line lines.now)) }
{
    let mut fields = Items::new(alloc);
    'lines: for (at, line) in lines.iter().enumerate() {
        match member(alloc, scope, at, line)? {
            Some(field) => fields.push(field)?,
            None => return Ok(fields),
        }
    }
    Ok(fields)
}

/// The form of a variant's fields.
fn kind_of(body: Body) -> StructKind
    ensures { struct_kind_of result ≡ kind_of (body_view body) }
{
    match body {
        Body::Nothing => StructKind::Unit,
        Body::Items => StructKind::TupleStruct,
        Body::Fields => StructKind::Struct,
    }
}

/// The variant of a line, with the fields behind it.
fn variant<'v>(
    alloc: Global,
    scope: Scope<'_, '_>,
    line: &VariantLine<'_>,
    lines: &[ShapeLine<'_>],
) -> Result<Variant<'v>, OutOfMemory>
    requires { length scope.names.now ≤ 65535 }
    ensures { IfOk result (λ variant. variant_of variant ≡ variant_said (variant_view line.now) (members (scope_view scope.entry) 0 (map shape_line lines.now))) }
{
    let name = Name::copy(alloc, line.name)?;
    let rename = some_text(alloc, line.rename)?;
    let fields = members(alloc, scope, lines)?;
    Ok(Variant {
        name,
        rename,
        kind: kind_of(line.body),
        fields,
        discriminant: line.discriminant,
        mode: VariantMode::Tagged,
    })
}

/// The variants up to the next shape, each with the fields behind it.
pub(crate) fn variants<'v>(
    alloc: Global,
    scope: Scope<'_, '_>,
    lines: &[ShapeLine<'_>],
) -> Result<Items<Variant<'v>>, OutOfMemory>
    requires { length scope.names.now ≤ 65535 }
    ensures { IfOk result (λ found. map variant_of found ≡ variants (scope_view scope.entry) (map shape_line lines.now)) }
{
    let mut found = Items::new(alloc);
    'lines: for (at, line) in lines.iter().enumerate() {
        match line {
            ShapeLine::Head { .. } => return Ok(found),
            ShapeLine::Variant(line) => {
                found.push(variant(alloc, scope, line, &lines[at + 1..])?)?;
            }
            _ => {}
        }
    }
    Ok(found)
}
