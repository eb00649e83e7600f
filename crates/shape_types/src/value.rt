use crate::boxed::Boxed;
use crate::items::Items;
use crate::text::Text;

/// A value. What it means depends on its shape: see `types` of `shape_core::Shapes`.
///
/// Two values are equal where they have the same content, whether or not a text is borrowed.
#[cycle(value)]
#[derive(Debug, PartialEq, Eq, Drop)]
pub enum Value<'de> {
    /// The one value of the unit type.
    Unit,
    /// Of `bool`.
    Bool(bool),
    /// Of `char`.
    Char(char),
    /// Of a whole number type without a sign.
    Unsigned(u128),
    /// Of a whole number type with a sign.
    Signed(i128),
    /// Of `String` or `Str`.
    Text(Text<'de>),
    /// An option that holds nothing.
    None,
    /// An option that holds a value.
    Some(Boxed<Value<'de>>),
    /// A result that went well.
    Ok(Boxed<Value<'de>>),
    /// A result that holds an error.
    Err(Boxed<Value<'de>>),
    /// The items of a list, an array or a set.
    List(Items<Value<'de>>),
    /// The entries of a map, in their order.
    Map(Items<Pair<'de>>),
    /// A value for each field of a struct, in the order of its fields.
    Struct(Items<Value<'de>>),
    /// A variant of an enum.
    Enum {
        /// Its place among the variants, from 0.
        variant: u32,
        /// A value for each of its fields.
        fields: Items<Value<'de>>,
    },
}

/// An entry of a map.
#[cycle(value)]
#[derive(Debug, PartialEq, Eq, Drop)]
pub struct Pair<'de> {
    /// The key.
    pub key: Value<'de>,
    /// What stands under the key.
    pub value: Value<'de>,
}
