//! What has to come, in the words of errors.

/// What has to come where something else does, or nothing.
#[derive(Clone, Copy)]
pub enum Expected {
    /// Any value.
    Value,
    /// A value of a shape that is read.
    SupportedValue,
    /// What an option holds, or nothing.
    OptionValue,
    /// The start of a result.
    ResultStart,
    /// The same, where another event stands.
    ResultVariantStart,
    /// The end of a result.
    ResultEnd,
    /// The same, where another event stands.
    ResultVariantEnd,
    /// A key of a result.
    ResultKey,
    /// The same, where another event stands.
    VariantKey,
    /// Its name.
    VariantName,
    /// One of its two names.
    OkOrErr,
    /// The start of a struct.
    StructStart,
    /// A key of a struct, or its end.
    KeyOrEnd,
    /// The start of a list.
    SequenceStart,
    /// The start of an array.
    ArrayStart,
    /// The start of a tuple.
    TupleStart,
    /// A start of items, where one of entries stands.
    Array,
    /// A scalar.
    Scalar,
    /// A scalar, or a node that has one.
    ScalarOrNode,
    /// A key of a node, or its end.
    FieldOrEnd,
    /// The argument of a node.
    Argument,
    /// A value that is passed over.
    SkippedValue,
}

impl Expected {
    /// It in words.
    pub fn text<'t>(self) -> &'t str {
        match self {
            Expected::Value => "value",
            Expected::SupportedValue => "value of a shape that is read",
            Expected::OptionValue => "value for option",
            Expected::ResultStart => "struct start for Result",
            Expected::ResultVariantStart => "struct start for Result variant",
            Expected::ResultEnd => "struct end for Result",
            Expected::ResultVariantEnd => "struct end for Result variant",
            Expected::ResultKey => "variant key for Result",
            Expected::VariantKey => "field key with variant name",
            Expected::VariantName => "variant name",
            Expected::OkOrErr => "Ok or Err variant",
            Expected::StructStart => "struct start",
            Expected::KeyOrEnd => "field key or struct end",
            Expected::SequenceStart => "sequence start",
            Expected::ArrayStart => "sequence start for array",
            Expected::TupleStart => "sequence start for tuple",
            Expected::Array => "array",
            Expected::Scalar => "scalar value",
            Expected::ScalarOrNode => "scalar value or node with argument",
            Expected::FieldOrEnd => "field or struct end",
            Expected::Argument => "argument value",
            Expected::SkippedValue => "value to skip",
        }
    }
}

/// An event that is refused: what it is, and what had to come.
#[derive(Clone, Copy)]
pub struct Unfit {
    /// What it is, in words.
    pub got: &'static str,
    /// What had to come.
    pub expected: Expected,
}
