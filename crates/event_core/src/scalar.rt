//! The scalars of events.
ghost use Rattle.std.specs.Prelude.{◌≡◌, IfOk, IfSome, Some};
ghost use Rattle.event_core.specs.Kinds.{scalar_name};
ghost use Rattle.event_core.specs.ScalarTexts.{string_of, display_of, in_brackets};

use shape_types::{Bytes, Name, OutOfMemory, Text};
use std::alloc::Global;
use std::fmt::Display;

/// A value without parts.
#[derive(Debug, PartialEq, Eq, Drop)]
pub enum ScalarValue<'de> {
    /// The value of a type that has one value.
    Unit,
    /// No value.
    Null,
    /// A truth value.
    Bool(bool),
    /// A character.
    Char(char),
    /// A whole number of 64 bits with a sign.
    I64(i64),
    /// A whole number of 64 bits.
    U64(u64),
    /// A whole number of 128 bits with a sign.
    I128(i128),
    /// A whole number of 128 bits.
    U128(u128),
    /// A text.
    Str(Text<'de>),
    /// Bytes.
    Bytes(Bytes<'de>),
}

impl<'de> ScalarValue<'de> {
    /// What it is, in a word.
    pub fn kind_name(&self) -> &'static str
        ensures { result.now ≡ scalar_name self.now }
    {
        match self {
            ScalarValue::Unit => "unit",
            ScalarValue::Null => "null",
            ScalarValue::Bool(_) => "bool",
            ScalarValue::Char(_) => "char",
            ScalarValue::I64(_) => "i64",
            ScalarValue::U64(_) => "u64",
            ScalarValue::I128(_) => "i128",
            ScalarValue::U128(_) => "u128",
            ScalarValue::Str(_) => "string",
            ScalarValue::Bytes(_) => "bytes",
        }
    }

    /// The scalar as a text: a number in decimal, a character and a text as they are, `null` for Null, and the empty
    /// text for Unit. None for bytes. It is refused for want of memory alone.
    pub fn to_string_value(&self, alloc: Global) -> Result<Option<Name>, OutOfMemory>
        ensures { IfOk result (λ text. text ≡ string_of self.now) }
    {
        match self {
            ScalarValue::Unit => copied(alloc, ""),
            ScalarValue::Null => copied(alloc, "null"),
            ScalarValue::Bool(told) => shown(alloc, told),
            ScalarValue::Char(letter) => shown(alloc, letter),
            ScalarValue::I64(number) => shown(alloc, number),
            ScalarValue::U64(number) => shown(alloc, number),
            ScalarValue::I128(number) => shown(alloc, number),
            ScalarValue::U128(number) => shown(alloc, number),
            ScalarValue::Str(text) => copied(alloc, text.as_str()),
            ScalarValue::Bytes(_) => Ok(None),
        }
    }

    /// What it is and its text, as `i64(-5)`, for messages. A text is shown as it is, and Unit, Null and bytes have no
    /// text beside what they are. It is refused for want of memory alone.
    pub fn to_display_string(&self, alloc: Global) -> Result<Name, OutOfMemory>
        ensures { IfOk result (λ text. text ≡ display_of self.now) }
    {
        match self {
            ScalarValue::Unit => Name::copy(alloc, "unit"),
            ScalarValue::Null => Name::copy(alloc, "null"),
            ScalarValue::Bool(told) => in_brackets(alloc, "bool", told),
            ScalarValue::Char(letter) => in_brackets(alloc, "char", letter),
            ScalarValue::I64(number) => in_brackets(alloc, "i64", number),
            ScalarValue::U64(number) => in_brackets(alloc, "u64", number),
            ScalarValue::I128(number) => in_brackets(alloc, "i128", number),
            ScalarValue::U128(number) => in_brackets(alloc, "u128", number),
            ScalarValue::Str(text) => Name::copy(alloc, text.as_str()),
            ScalarValue::Bytes(_) => Name::copy(alloc, "bytes"),
        }
    }

    /// The same scalar again. It is refused for want of memory alone.
    pub fn try_clone(&self, alloc: Global) -> Result<ScalarValue<'de>, OutOfMemory>
        ensures { IfOk result (λ copy. copy ≡ self.now) }
    {
        match self {
            ScalarValue::Unit => Ok(ScalarValue::Unit),
            ScalarValue::Null => Ok(ScalarValue::Null),
            ScalarValue::Bool(told) => Ok(ScalarValue::Bool(*told)),
            ScalarValue::Char(letter) => Ok(ScalarValue::Char(*letter)),
            ScalarValue::I64(number) => Ok(ScalarValue::I64(*number)),
            ScalarValue::U64(number) => Ok(ScalarValue::U64(*number)),
            ScalarValue::I128(number) => Ok(ScalarValue::I128(*number)),
            ScalarValue::U128(number) => Ok(ScalarValue::U128(*number)),
            ScalarValue::Str(text) => match text.try_clone(alloc) {
                Ok(text) => Ok(ScalarValue::Str(text)),
                Err(refused) => Err(refused),
            },
            ScalarValue::Bytes(bytes) => match bytes.try_clone(alloc) {
                Ok(bytes) => Ok(ScalarValue::Bytes(bytes)),
                Err(refused) => Err(refused),
            },
        }
    }
}

/// What is shown.
fn shown<T: Display>(alloc: Global, shown: &T) -> Result<Option<Name>, OutOfMemory>
    ensures { IfOk result (λ text. IfSome (T.output shown.now) (λ bytes. text ≡ Some bytes)) }
{
    Ok(Some(Name::from_string(shown.to_string(alloc)?)))
}

/// The text.
fn copied(alloc: Global, text: &str) -> Result<Option<Name>, OutOfMemory>
    ensures { IfOk result (λ copy. copy ≡ Some text.now) }
{
    Ok(Some(Name::copy(alloc, text)?))
}

/// A word, and what is shown in round brackets.
fn in_brackets<T: Display>(alloc: Global, word: &str, shown: &T) -> Result<Name, OutOfMemory>
    ensures { IfOk result (λ text. IfSome (T.output shown.now) (λ bytes. text ≡ in_brackets word.now bytes)) }
{
    Ok(Name::from_string(format!(in alloc; "{word}({shown})")?))
}
