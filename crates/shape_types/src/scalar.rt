ghost use Rattle.std.specs.Prelude.{◌≡◌};
ghost use Rattle.shape_types.specs.Scalars.{scalar_name};

/// A type whose values have no parts. `USize` and `ISize` have 64 bits.
#[derive(Debug, Clone, Copy, PartialEq, Eq)]
pub enum ScalarType {
    /// The type of one value.
    Unit,
    /// A truth value.
    Bool,
    /// A character.
    Char,
    /// A whole number of 8 bits.
    U8,
    /// A whole number of 16 bits.
    U16,
    /// A whole number of 32 bits.
    U32,
    /// A whole number of 64 bits.
    U64,
    /// A whole number of 128 bits.
    U128,
    /// A whole number as wide as an address.
    USize,
    /// A number of 8 bits with a sign.
    I8,
    /// A number of 16 bits with a sign.
    I16,
    /// A number of 32 bits with a sign.
    I32,
    /// A number of 64 bits with a sign.
    I64,
    /// A number of 128 bits with a sign.
    I128,
    /// A number with a sign, as wide as an address.
    ISize,
    /// A text.
    String,
    /// A text that has to be borrowed from the input.
    Str,
}

impl ScalarType {
    /// The scalars in the order of their numbers in every registry, from 0 to 16.
    pub const ALL: [ScalarType; 17] = [
        ScalarType::Unit,
        ScalarType::Bool,
        ScalarType::Char,
        ScalarType::U8,
        ScalarType::U16,
        ScalarType::U32,
        ScalarType::U64,
        ScalarType::U128,
        ScalarType::USize,
        ScalarType::I8,
        ScalarType::I16,
        ScalarType::I32,
        ScalarType::I64,
        ScalarType::I128,
        ScalarType::ISize,
        ScalarType::String,
        ScalarType::Str,
    ];

    /// The name of the scalar's shape in every registry.
    pub fn name(self) -> &'static str
        ensures { result.now ≡ scalar_name self }
    {
        match self {
            ScalarType::Unit => "unit",
            ScalarType::Bool => "bool",
            ScalarType::Char => "char",
            ScalarType::U8 => "u8",
            ScalarType::U16 => "u16",
            ScalarType::U32 => "u32",
            ScalarType::U64 => "u64",
            ScalarType::U128 => "u128",
            ScalarType::USize => "usize",
            ScalarType::I8 => "i8",
            ScalarType::I16 => "i16",
            ScalarType::I32 => "i32",
            ScalarType::I64 => "i64",
            ScalarType::I128 => "i128",
            ScalarType::ISize => "isize",
            ScalarType::String => "String",
            ScalarType::Str => "Str",
        }
    }
}
