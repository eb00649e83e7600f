use crate::shape_quoted::Quoted;
use shape_types::{MetaKind, SkipRule, TagKind};

/// What a line of a shape text says.
#[derive(Clone, Copy)]
pub enum ShapeLine<'a> {
    /// A shape begins.
    Head {
        /// Its name.
        name: &'a str,
        /// What it is.
        head: Head<'a>,
    },
    /// The tuple above has an item.
    Item {
        /// The name of its shape.
        shape: &'a str,
    },
    /// The struct above has a field.
    Field(FieldLine<'a>),
    /// The enum above has a variant.
    Variant(VariantLine<'a>),
}

/// What a line says of the shape that begins there. Other shapes stand by their names.
#[derive(Clone, Copy)]
pub enum Head<'a> {
    /// A value, or nothing.
    Option(&'a str),
    /// Items in order.
    List(&'a str),
    /// Distinct items.
    Set(&'a str),
    /// The values of another shape.
    Transparent(&'a str),
    /// One of two values.
    Result(&'a str, &'a str),
    /// Keys and values.
    Map(&'a str, &'a str),
    /// So many items.
    Array(u32, &'a str),
    /// A struct without fields.
    Unit,
    /// A struct with items.
    Tuple,
    /// A struct with fields.
    Struct {
        /// Whether an unknown key is refused.
        deny: bool,
        /// Whether it has a declared default.
        default: bool,
        /// Whether it is a container.
        container: bool,
    },
    /// An enum.
    Enum(FormLine<'a>),
}

/// How the variants of an enum are told apart, as a line says it.
#[derive(Clone, Copy)]
pub enum FormLine<'a> {
    /// By a key.
    External,
    /// By a tag beside the fields.
    Internal(Quoted<'a>, TagKind),
    /// By a tag beside the content, which has a key of its own.
    Adjacent(Quoted<'a>, Quoted<'a>, TagKind),
    /// By a number.
    Numeric,
    /// By the content.
    Untagged,
    /// Not at all: one is borrowed and one owned.
    Cow,
}

/// The default of a field, as a line says it.
#[derive(Clone, Copy)]
pub enum Literal<'a> {
    /// The unit value.
    Unit,
    /// A truth value.
    Bool(bool),
    /// A character.
    Char(char),
    /// A number without a sign.
    Unsigned(u128),
    /// A number with a sign.
    Signed(i128),
    /// A text.
    Text(Quoted<'a>),
    /// Nothing.
    None,
    /// No items, or no entries.
    Empty,
    /// The default of its shape.
    Own,
}

/// A field, as a line says it.
#[derive(Clone, Copy)]
pub struct FieldLine<'a> {
    /// Its name.
    pub name: &'a str,
    /// The name of its shape.
    pub shape: &'a str,
    /// The name that is written and read in place of its own.
    pub rename: Option<Quoted<'a>>,
    /// A further name that is read.
    pub alias: Option<Quoted<'a>>,
    /// The value that it has where it is absent.
    pub default: Option<Literal<'a>>,
    /// When it isn't written.
    pub skip: SkipRule,
    /// Whether its own fields or entries stand in the object of its struct.
    pub flatten: bool,
    /// What it holds, where it is a metadata field.
    pub metadata: Option<MetaKind>,
}

/// What belongs behind a line.
#[derive(Clone, Copy)]
pub enum Body {
    /// Nothing.
    Nothing,
    /// Items.
    Items,
    /// Fields.
    Fields,
}

/// A variant, as a line says it.
#[derive(Clone, Copy)]
pub struct VariantLine<'a> {
    /// Its name.
    pub name: &'a str,
    /// What belongs behind it.
    pub body: Body,
    /// The name that is written and read in place of its own.
    pub rename: Option<Quoted<'a>>,
    /// Its number.
    pub discriminant: Option<i64>,
}
