use crate::items::Items;
use crate::name::Name;
use crate::shape::ShapeId;
use crate::value::Value;

/// The form of a struct, or of a variant's fields. `Tuple` stands for `TupleStruct` in a variant.
#[derive(Debug, Clone, Copy, PartialEq, Eq)]
pub enum StructKind {
    /// No fields.
    Unit,
    /// A bare tuple.
    Tuple,
    /// A name with fields by place.
    TupleStruct,
    /// A name with named fields.
    Struct,
}

/// When a field isn't written.
#[derive(Debug, Clone, Copy, PartialEq, Eq)]
pub enum SkipRule {
    /// It is always written.
    Never,
    /// It is never written.
    Always,
    /// It isn't written where it is an option that holds nothing.
    None,
    /// It isn't written where it is a list, set, map or text with nothing in it.
    Empty,
    /// It isn't written where it equals its declared default.
    Default,
}

/// What a metadata field of a container holds.
#[derive(Debug, Clone, Copy, PartialEq, Eq)]
pub enum MetaKind {
    /// Where the value stood in the input.
    Span,
    /// Its lines of documentation.
    Doc,
    /// Its tag.
    Tag,
}

/// A field of a struct or a variant. `'v` is how long texts of declared defaults are borrowed.
#[derive(Debug, Drop)]
pub struct Field<'v> {
    /// Its declared name. A tuple's item has its place, in decimal.
    pub name: Name,
    /// The name that is written and read in place of the declared one.
    pub rename: Option<Name>,
    /// A further name that is read.
    pub alias: Option<Name>,
    /// The shape of its values.
    pub shape: ShapeId,
    /// The value that it has where it is absent.
    pub default: Option<Value<'v>>,
    /// When it isn't written.
    pub skip: SkipRule,
    /// Whether its own fields or entries stand in the object of its struct.
    pub flatten: bool,
    /// What it holds, where it is a metadata field of a container.
    pub metadata: Option<MetaKind>,
    /// The number of the proxy that stands for it.
    pub proxy: Option<u32>,
}

/// What a struct is made of. `'v` is how long texts of declared defaults are borrowed.
#[derive(Debug, Drop)]
pub struct StructDef<'v> {
    /// Its form.
    pub kind: StructKind,
    /// Its fields, in their order.
    pub fields: Items<Field<'v>>,
    /// Whether an unknown key is refused.
    pub deny_unknown_fields: bool,
    /// The value from which absent fields are taken.
    pub default: Option<Value<'v>>,
    /// Whether it is a container: one value with metadata about it.
    pub container: bool,
}
