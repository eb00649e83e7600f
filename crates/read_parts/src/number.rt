//! Whole numbers, which have to be in the range of their type.
ghost use Rattle.std.specs.Prelude.{◌≡◌, IfSome, pos, Ok, false, cond, negsuc, ℕ};
ghost use Rattle.semantics_lines.specs.Trees.{unsigned, signed, text};
ghost use Rattle.semantics.specs.Typed.{takes_unsigned, takes_signed};
ghost use Rattle.semantics.specs.Setters.{out_of_range, set_number, set_number_or_text};
ghost use Rattle.read_parts.specs.Answers.{Gives};
ghost use Rattle.read_parts.specs.Targets.{target_type, target_shape, target_event};
ghost use Rattle.shape_types.specs.Scalars.{scalar_type_of};

use crate::target::{Target, out_of_memory};
use event_core::DeserializeErrorKind;
use shape_core::{Name, ScalarType, Text, Value};
use std::fmt::Display;

/// Whether a type without a sign has the number.
pub(crate) fn takes_unsigned(scalar: ScalarType, number: u128) -> bool
    ensures { result ≡ takes_unsigned number (scalar_type_of scalar) }
{
    match scalar {
        ScalarType::U8 => u8::try_from(number).is_ok(),
        ScalarType::U16 => u16::try_from(number).is_ok(),
        ScalarType::U32 => u32::try_from(number).is_ok(),
        ScalarType::U64 | ScalarType::USize => u64::try_from(number).is_ok(),
        ScalarType::U128 => true,
        _ => false,
    }
}

/// Whether a type with a sign has the number.
pub(crate) fn takes_signed(scalar: ScalarType, number: i128) -> bool
    ensures { result ≡ takes_signed number (scalar_type_of scalar) }
{
    match scalar {
        ScalarType::I8 => i8::try_from(number).is_ok(),
        ScalarType::I16 => i16::try_from(number).is_ok(),
        ScalarType::I32 => i32::try_from(number).is_ok(),
        ScalarType::I64 | ScalarType::ISize => i64::try_from(number).is_ok(),
        ScalarType::I128 => true,
        _ => false,
    }
}

fn unsigned_value<'de>(
    target: Target<'_>,
    number: u128,
) -> Result<Value<'de>, DeserializeErrorKind<'de>>
    ensures { Gives (target_event target.entry) (cond (takes_unsigned number (target_type target.entry)) (Ok (unsigned number)) (out_of_range (target_type target.entry) (pos number))) result }
{
    if takes_unsigned(target.scalar, number) {
        Ok(Value::Unsigned(number))
    } else {
        Err(target.out_of_range(&number))
    }
}

fn signed_value<'de>(
    target: Target<'_>,
    number: i128,
) -> Result<Value<'de>, DeserializeErrorKind<'de>>
    ensures { Gives (target_event target.entry) (cond (takes_signed number (target_type target.entry)) (Ok (signed number)) (out_of_range (target_type target.entry) number)) result }
{
    if takes_signed(target.scalar, number) {
        Ok(Value::Signed(number))
    } else {
        Err(target.out_of_range(&number))
    }
}

/// Sets a number that isn't negative.
pub(crate) fn set_unsigned<'de>(
    target: Target<'_>,
    number: u128,
) -> Result<Value<'de>, DeserializeErrorKind<'de>>
    ensures { Gives (target_event target.entry) (set_number (target_shape target.entry) (target_type target.entry) (pos number)) result }
{
    match target.scalar {
        ScalarType::U8
        | ScalarType::U16
        | ScalarType::U32
        | ScalarType::U64
        | ScalarType::U128
        | ScalarType::USize => unsigned_value(target, number),
        ScalarType::I8
        | ScalarType::I16
        | ScalarType::I32
        | ScalarType::I64
        | ScalarType::I128
        | ScalarType::ISize => match i128::try_from(number) {
            Ok(number) => signed_value(target, number),
            Err(_) => Err(target.out_of_range(&number)),
        },
        _ => Err(target.wrong_kind()),
    }
}

/// Sets a negative number.
fn set_negative<'de>(
    target: Target<'_>,
    number: i128,
) -> Result<Value<'de>, DeserializeErrorKind<'de>>
    requires { (n : ℕ) × (number ≡ negsuc n) }
    ensures { Gives (target_event target.entry) (set_number (target_shape target.entry) (target_type target.entry) number) result }
{
    match target.scalar {
        ScalarType::U8
        | ScalarType::U16
        | ScalarType::U32
        | ScalarType::U64
        | ScalarType::U128
        | ScalarType::USize => Err(target.out_of_range(&number)),
        ScalarType::I8
        | ScalarType::I16
        | ScalarType::I32
        | ScalarType::I64
        | ScalarType::I128
        | ScalarType::ISize => signed_value(target, number),
        _ => Err(target.wrong_kind()),
    }
}

/// Sets a number.
pub(crate) fn set_signed<'de>(
    target: Target<'_>,
    number: i128,
) -> Result<Value<'de>, DeserializeErrorKind<'de>>
    ensures { Gives (target_event target.entry) (set_number (target_shape target.entry) (target_type target.entry) number) result }
{
    match u128::try_from(number) {
        Ok(number) => set_unsigned(target, number),
        Err(_) => set_negative(target, number),
    }
}

/// The decimal of a number, as a text.
fn spelled<'de, T: Display>(
    target: Target<'_>,
    number: &T,
) -> Result<Value<'de>, DeserializeErrorKind<'de>>
    ensures { IfSome (T.output number.now) (λ shown. Gives (target_event target.entry) (Ok (text (record { bytes = shown; borrowed = false }))) result) }
{
    match number.to_string(target.alloc) {
        Ok(shown) => Ok(Value::Text(Text::Owned(Name::from_string(shown)))),
        Err(_) => Err(out_of_memory()),
    }
}

/// Sets a number of 64 bits, which may become a text.
pub(crate) fn set_u64<'de>(
    target: Target<'_>,
    number: u64,
) -> Result<Value<'de>, DeserializeErrorKind<'de>>
    ensures { Gives (target_event target.entry) (set_number_or_text (target_shape target.entry) (target_type target.entry) (pos number)) result }
{
    match target.scalar {
        ScalarType::String => spelled(target, &number),
        _ => set_unsigned(target, u128::from(number)),
    }
}

/// Sets a number of 64 bits with a sign, which may become a text.
pub(crate) fn set_i64<'de>(
    target: Target<'_>,
    number: i64,
) -> Result<Value<'de>, DeserializeErrorKind<'de>>
    ensures { Gives (target_event target.entry) (set_number_or_text (target_shape target.entry) (target_type target.entry) number) result }
{
    match target.scalar {
        ScalarType::String => spelled(target, &number),
        _ => set_signed(target, i128::from(number)),
    }
}
