//! The scalars, each where its type takes it.
ghost use Rattle.std.specs.Prelude.{◌≤◌, ◌^◌, option_map, nat_lt};
ghost use Rattle.semantics_lines.specs.Calls.{null_literal, bool_literal, char_literal, i64_literal, u64_literal, str_literal, write_scalar};
ghost use Rattle.semantics.specs.Calling.{one_call, part_of, scalar_calls};
ghost use Rattle.semantics.specs.Typed.{takes_unit, takes_bool, takes_char, takes_text, takes_unsigned, takes_signed};
ghost use Rattle.semantics.specs.Writing.{unsigned_literal, signed_literal};
ghost use Rattle.shape_types.specs.Scalars.{scalar_type_of};
ghost use Rattle.format_write.specs.Writes.{Writes, is_within};

use crate::calls;
use crate::stop::Stop;
use event_core::ScalarValue;
use format_traits::FormatSerializer;
use itoa::{Buffer, Integer};
use shape_core::{ScalarType, Text};

/// Writes null for the value of the unit type.
pub(crate) fn write_unit<S: FormatSerializer>(
    kind: Option<ScalarType>,
    serializer: &mut S,
) -> Result<(), Stop<S::Error>>
    ensures { Writes (part_of (option_map scalar_type_of kind) (λ t. scalar_calls (takes_unit t) null_literal)) (S.made serializer.old serializer.new) (S.writing serializer.old) (S.writing serializer.new) result }
{
    match kind {
        Some(ScalarType::Unit) => calls::scalar(ScalarValue::Null, serializer),
        _ => Err(Stop::NoForm),
    }
}

/// Writes a truth value.
pub(crate) fn write_bool<S: FormatSerializer>(
    kind: Option<ScalarType>,
    told: bool,
    serializer: &mut S,
) -> Result<(), Stop<S::Error>>
    ensures { Writes (part_of (option_map scalar_type_of kind) (λ t. scalar_calls (takes_bool t) (bool_literal told))) (S.made serializer.old serializer.new) (S.writing serializer.old) (S.writing serializer.new) result }
{
    match kind {
        Some(ScalarType::Bool) => calls::scalar(ScalarValue::Bool(told), serializer),
        _ => Err(Stop::NoForm),
    }
}

/// Writes a character.
pub(crate) fn write_char<S: FormatSerializer>(
    kind: Option<ScalarType>,
    letter: char,
    serializer: &mut S,
) -> Result<(), Stop<S::Error>>
    ensures { Writes (part_of (option_map scalar_type_of kind) (λ t. scalar_calls (takes_char t) (char_literal letter))) (S.made serializer.old serializer.new) (S.writing serializer.old) (S.writing serializer.new) result }
{
    match kind {
        Some(ScalarType::Char) => calls::scalar(ScalarValue::Char(letter), serializer),
        _ => Err(Stop::NoForm),
    }
}

/// Writes a text, which isn't copied.
pub(crate) fn write_text<S: FormatSerializer>(
    kind: Option<ScalarType>,
    text: &str,
    serializer: &mut S,
) -> Result<(), Stop<S::Error>>
    ensures { Writes (part_of (option_map scalar_type_of kind) (λ t. scalar_calls (takes_text t) (str_literal text.now))) (S.made serializer.old serializer.new) (S.writing serializer.old) (S.writing serializer.new) result }
{
    match kind {
        Some(ScalarType::String | ScalarType::Str) => write_str(text, serializer),
        _ => Err(Stop::NoForm),
    }
}

/// Writes a whole number without a sign. One of 128 bits is written as a text, in decimal.
pub(crate) fn write_unsigned<S: FormatSerializer>(
    kind: Option<ScalarType>,
    number: u128,
    serializer: &mut S,
) -> Result<(), Stop<S::Error>>
    ensures { Writes (part_of (option_map scalar_type_of kind) (λ t. scalar_calls (takes_unsigned number t) (unsigned_literal t number))) (S.made serializer.old serializer.new) (S.writing serializer.old) (S.writing serializer.new) result }
{
    match kind {
        Some(ScalarType::U8) => write_below(0x100, number, serializer),
        Some(ScalarType::U16) => write_below(0x1_0000, number, serializer),
        Some(ScalarType::U32) => write_below(0x1_0000_0000, number, serializer),
        Some(ScalarType::U64 | ScalarType::USize) => {
            write_below(0x1_0000_0000_0000_0000, number, serializer)
        }
        Some(ScalarType::U128) => write_decimal(number, serializer),
        _ => Err(Stop::NoForm),
    }
}

/// Writes a number of up to 64 bits, where it is below the limit.
fn write_below<S: FormatSerializer>(
    limit: u128,
    number: u128,
    serializer: &mut S,
) -> Result<(), Stop<S::Error>>
    requires { limit ≤ 2 ^ 64 }
    ensures { Writes (scalar_calls (nat_lt number limit) (u64_literal number)) (S.made serializer.old serializer.new) (S.writing serializer.old) (S.writing serializer.new) result }
{
    if number < limit {
        calls::scalar(ScalarValue::U64(number as u64), serializer)
    } else {
        Err(Stop::NoForm)
    }
}

/// Writes a whole number with a sign. One of 128 bits is written as a text, in decimal.
pub(crate) fn write_signed<S: FormatSerializer>(
    kind: Option<ScalarType>,
    number: i128,
    serializer: &mut S,
) -> Result<(), Stop<S::Error>>
    ensures { Writes (part_of (option_map scalar_type_of kind) (λ t. scalar_calls (takes_signed number t) (signed_literal t number))) (S.made serializer.old serializer.new) (S.writing serializer.old) (S.writing serializer.new) result }
{
    match kind {
        Some(ScalarType::I8) => write_within(0x80, number, serializer),
        Some(ScalarType::I16) => write_within(0x8000, number, serializer),
        Some(ScalarType::I32) => write_within(0x8000_0000, number, serializer),
        Some(ScalarType::I64 | ScalarType::ISize) => {
            write_within(0x8000_0000_0000_0000, number, serializer)
        }
        Some(ScalarType::I128) => write_decimal(number, serializer),
        _ => Err(Stop::NoForm),
    }
}

/// Writes a number of up to 64 bits with a sign, where it is below the limit and not below its negative.
fn write_within<S: FormatSerializer>(
    limit: u64,
    number: i128,
    serializer: &mut S,
) -> Result<(), Stop<S::Error>>
    requires { limit ≤ 2 ^ 63 }
    ensures { Writes (scalar_calls (is_within limit number) (i64_literal number)) (S.made serializer.old serializer.new) (S.writing serializer.old) (S.writing serializer.new) result }
{
    let limit = i128::from(limit);
    if -limit <= number && number < limit {
        calls::scalar(ScalarValue::I64(number as i64), serializer)
    } else {
        Err(Stop::NoForm)
    }
}

/// Writes the decimal of a number as a text.
fn write_decimal<S: FormatSerializer, I: Integer>(
    number: I,
    serializer: &mut S,
) -> Result<(), Stop<S::Error>>
    ensures { Writes (one_call (write_scalar (str_literal (I.text number)))) (S.made serializer.old serializer.new) (S.writing serializer.old) (S.writing serializer.new) result }
{
    let mut digits = Buffer::new();
    write_str(digits.format(number), serializer)
}

/// Writes a text.
fn write_str<S: FormatSerializer>(text: &str, serializer: &mut S) -> Result<(), Stop<S::Error>>
    ensures { Writes (one_call (write_scalar (str_literal text.now))) (S.made serializer.old serializer.new) (S.writing serializer.old) (S.writing serializer.new) result }
{
    calls::scalar(ScalarValue::Str(Text::Borrowed(text)), serializer)
}
