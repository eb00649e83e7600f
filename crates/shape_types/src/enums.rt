use crate::field::{Field, StructKind};
use crate::items::Items;
use crate::name::Name;

/// How a variant is chosen within a tagged enum.
#[derive(Debug, Clone, Copy, PartialEq, Eq)]
pub enum VariantMode {
    /// By its tag.
    Tagged,
    /// By any tag that no other variant has.
    Other,
    /// By its content.
    Untagged,
}

/// A variant of an enum. `'v` is how long texts of declared defaults are borrowed.
#[derive(Debug, Drop)]
pub struct Variant<'v> {
    /// Its declared name.
    pub name: Name,
    /// The name that is written and read in place of the declared one.
    pub rename: Option<Name>,
    /// The form of its fields.
    pub kind: StructKind,
    /// Its fields, in their order.
    pub fields: Items<Field<'v>>,
    /// Its number.
    pub discriminant: Option<i64>,
    /// How it is chosen.
    pub mode: VariantMode,
}

/// How a tag names its variant.
#[derive(Debug, Clone, Copy, PartialEq, Eq)]
pub enum TagKind {
    /// By the effective name.
    Name,
    /// By the discriminant, as a number without a sign.
    Unsigned,
    /// By the discriminant.
    Signed,
}

/// How the variants of an enum are told apart.
#[derive(Debug, Drop)]
pub enum EnumForm {
    /// An object of one entry, whose key is the tag.
    External,
    /// An object with an entry for the tag beside the variant's own.
    Internal {
        /// The key of the tag.
        tag: Name,
        /// How the tag names the variant.
        by: TagKind,
    },
    /// An object with an entry for the tag and one for the content.
    Adjacent {
        /// The key of the tag.
        tag: Name,
        /// The key of the content.
        content: Name,
        /// How the tag names the variant.
        by: TagKind,
    },
    /// A number, which is the variant's discriminant.
    Numeric,
    /// The content alone.
    Untagged,
    /// A value that is borrowed or owned.
    Cow,
}

/// What an enum is made of. `'v` is how long texts of declared defaults are borrowed.
#[derive(Debug, Drop)]
pub struct EnumDef<'v> {
    /// How its variants are told apart.
    pub form: EnumForm,
    /// Its variants, in their order.
    pub variants: Items<Variant<'v>>,
}
