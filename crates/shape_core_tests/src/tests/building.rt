//! Registries by rows, a shape a row.
use shape_core::{
    CheckFault, Def, EnumDef, EnumForm, Field, Items, Name, NameFault, OutOfMemory, ShapeId,
    Shapes, ShapesBuilder, SkipRule, StructDef, StructKind,
};
use std::alloc::Global;
use std::process::Abort;

/// Ends the test where a row of its table doesn't hold.
pub fn assert_row(rt: &impl Abort, at: usize, holds: bool) {
    assert!(rt; holds, "row {at}");
}

/// What a row says of a shape: what it is made of, its parts by their numbers.
#[derive(Clone, Copy)]
pub enum Form<'a> {
    /// It has no definition.
    Missing,
    /// A struct of fields of these names and shapes.
    Fields(StructKind, &'a [(&'a str, u32)]),
    /// A struct whose one field is flattened.
    Flattened,
    /// A struct that refuses unknown keys.
    Denying,
    /// A tuple struct whose one item has a rename.
    RenamedItem,
    Option(u32),
    Result(u32, u32),
    List(u32),
    Array(u32, u32),
    Set(u32),
    Map(u32, u32),
    /// An enum of no variants.
    Enum,
    Transparent(u32),
}

/// Shapes with their names, the first of which has number 17.
pub type Rows<'a> = &'a [(&'a str, Form<'a>)];

/// A shape of each form that is built.
pub const FORMS: Rows<'static> = &[
    (
        "Point",
        Form::Fields(StructKind::Struct, &[("x", 6), ("y", 6)]),
    ),
    ("Nothing", Form::Fields(StructKind::Unit, &[])),
    (
        "Pair",
        Form::Fields(StructKind::TupleStruct, &[("0", 6), ("1", 1)]),
    ),
    ("Maybe", Form::Option(6)),
    ("Answer", Form::Result(6, 15)),
    ("Many", Form::List(6)),
    ("Two", Form::Array(6, 2)),
    ("Alias", Form::Transparent(23)),
    ("Perhaps", Form::Transparent(20)),
    ("Empty", Form::Array(6, 0)),
    (
        "Spelled",
        Form::Fields(StructKind::Struct, &[("a\\b", 6), ("\"", 6), ("\n", 6)]),
    ),
];

fn field(name: Name, shape: u32, flatten: bool) -> Field<'static> {
    Field {
        name,
        rename: None,
        alias: None,
        shape: ShapeId(shape),
        default: None,
        skip: SkipRule::Never,
        flatten,
        metadata: None,
        proxy: None,
    }
}

fn push_field(
    alloc: Global,
    fields: &mut Items<Field<'static>>,
    name: &str,
    shape: u32,
    flatten: bool,
) -> Result<(), OutOfMemory> {
    let name = Name::copy(alloc, name)?;
    fields.push(field(name, shape, flatten))
}

fn fields(alloc: Global, rows: &[(&str, u32)]) -> Result<Items<Field<'static>>, OutOfMemory> {
    let mut fields = Items::new(alloc);
    for (name, shape) in rows {
        push_field(alloc, &mut fields, name, *shape, false)?;
    }
    Ok(fields)
}

fn flattened(alloc: Global) -> Result<Items<Field<'static>>, OutOfMemory> {
    let mut fields = Items::new(alloc);
    push_field(alloc, &mut fields, "x", 6, true)?;
    Ok(fields)
}

fn renamed(alloc: Global) -> Result<Items<Field<'static>>, OutOfMemory> {
    let rename = Name::copy(alloc, "a")?;
    let mut item = field(Name::copy(alloc, "0")?, 6, false);
    item.rename = Some(rename);
    let mut fields = Items::new(alloc);
    fields.push(item)?;
    Ok(fields)
}

fn structure(kind: StructKind, fields: Items<Field<'static>>, deny: bool) -> Def<'static> {
    Def::Struct(StructDef {
        kind,
        fields,
        deny_unknown_fields: deny,
        default: None,
        container: false,
    })
}

/// A shape that needs no memory, where the form is of one.
fn plain(alloc: Global, form: Form<'_>) -> Option<Def<'static>> {
    match form {
        Form::Missing | Form::Fields(_, _) | Form::Flattened | Form::RenamedItem => None,
        Form::Denying => Some(structure(StructKind::Struct, Items::new(alloc), true)),
        Form::Option(inner) => Some(Def::Option(ShapeId(inner))),
        Form::Result(ok, err) => Some(Def::Result {
            ok: ShapeId(ok),
            err: ShapeId(err),
        }),
        Form::List(item) => Some(Def::List(ShapeId(item))),
        Form::Array(item, len) => Some(Def::Array {
            item: ShapeId(item),
            len,
        }),
        Form::Set(item) => Some(Def::Set(ShapeId(item))),
        Form::Map(key, value) => Some(Def::Map {
            key: ShapeId(key),
            value: ShapeId(value),
        }),
        Form::Enum => Some(Def::Enum(EnumDef {
            form: EnumForm::External,
            variants: Items::new(alloc),
        })),
        Form::Transparent(inner) => Some(Def::Transparent(ShapeId(inner))),
    }
}

fn some_struct(kind: StructKind, fields: Items<Field<'static>>) -> Option<Def<'static>> {
    Some(structure(kind, fields, false))
}

/// The definition that a row tells of.
fn definition(alloc: Global, form: Form<'_>) -> Result<Option<Def<'static>>, OutOfMemory> {
    match form {
        Form::Fields(kind, rows) => Ok(some_struct(kind, fields(alloc, rows)?)),
        Form::Flattened => Ok(some_struct(StructKind::Struct, flattened(alloc)?)),
        Form::RenamedItem => Ok(some_struct(StructKind::TupleStruct, renamed(alloc)?)),
        _ => Ok(plain(alloc, form)),
    }
}

/// Names the shape of a row, and defines it where it has a definition.
fn add(
    alloc: Global,
    builder: &mut ShapesBuilder<'static>,
    name: &str,
    form: Form<'_>,
) -> Result<(), NameFault> {
    let id = builder.name(name)?;
    match definition(alloc, form)? {
        Some(def) => builder.define(id, def),
        None => {}
    }
    Ok(())
}

fn builder(alloc: Global, rows: Rows<'_>) -> Result<ShapesBuilder<'static>, NameFault> {
    let mut builder = ShapesBuilder::new(alloc)?;
    for (name, form) in rows {
        add(alloc, &mut builder, name, *form)?;
    }
    Ok(builder)
}

/// The registry of these shapes. No row is one too many, which would count as want of memory here.
pub fn registry(alloc: Global, rows: Rows<'_>) -> Result<Shapes<'static>, CheckFault> {
    match builder(alloc, rows) {
        Ok(builder) => builder.check(alloc),
        Err(NameFault::TooMany | NameFault::Alloc) => Err(CheckFault::Alloc),
    }
}
