//! How a format wants values written.

/// The order in which the fields of a struct are written.
#[derive(Debug, Clone, Copy, PartialEq, Eq, Default)]
pub enum FieldOrdering {
    /// As they are declared.
    #[default]
    Declaration,
}

/// Whether the keys of fields are written.
#[derive(Debug, Clone, Copy, PartialEq, Eq, Default)]
pub enum StructFieldMode {
    /// They are.
    #[default]
    Named,
    /// Fields are known by their places.
    Unnamed,
}

/// How a map is written.
#[derive(Debug, Clone, Copy, PartialEq, Eq, Default)]
pub enum MapEncoding {
    /// Like a struct, with a key before each value.
    #[default]
    Struct,
    /// As a list of pairs.
    Pairs,
}

/// How the variant of an enum is written.
#[derive(Debug, Clone, Copy, PartialEq, Eq, Default)]
pub enum EnumVariantEncoding {
    /// By its name.
    #[default]
    Tagged,
    /// By its place.
    Index,
}
