//! Texts, and what is read of them.
ghost use Rattle.std.specs.Prelude.{◌≡◌, Some, None, Ok, option_map};
ghost use Rattle.semantics_lines.specs.Shapes.{bits128};
ghost use Rattle.semantics_lines.specs.Trees.{text as text_tree};
ghost use Rattle.semantics.specs.Typed.{takes_unsigned, takes_signed};
ghost use Rattle.semantics.specs.Numerals.{passing, whole_number, signed_whole_number, unsigned_text, signed_text, bool_text, char_text};
ghost use Rattle.semantics.specs.Setters.{parsed, lent, kept, read_text, set_text};
ghost use Rattle.shape_types.specs.Scalars.{scalar_type_of};
ghost use Rattle.shape_types.specs.Texts.{phrase_of};
ghost use Rattle.shape_types.specs.Trees.{tree_of};
ghost use Rattle.read_parts.specs.Answers.{Gives};
ghost use Rattle.read_parts.specs.Targets.{target_type, target_shape, target_event};

use crate::number::{takes_signed, takes_unsigned};
use crate::target::{Target, out_of_memory};
use event_core::DeserializeErrorKind;
use shape_core::{ScalarType, Text, Value};

/// The truth value that the text names.
fn bool_of(text: &str) -> Option<bool>
    ensures { result ≡ bool_text text.now }
{
    match text {
        "true" => Some(true),
        "false" => Some(false),
        _ => None,
    }
}

/// The character that is the whole text.
fn char_of(text: &str) -> Option<char>
    ensures { result ≡ char_text text.now }
{
    match text.parse::<char>() {
        Ok(letter) => Some(letter),
        Err(_) => None,
    }
}

/// The number that digits write, behind a plus or not, below 2 to the power of 128.
fn whole_number(text: &str) -> Option<u128>
    ensures { result ≡ unsigned_text bits128 text.now }
{
    match text.parse::<u128>() {
        Ok(number) => Some(number),
        Err(_) => None,
    }
}

/// The number that digits write, behind a sign or not, as far as 128 bits with a sign go.
fn signed_whole_number(text: &str) -> Option<i128>
    ensures { result ≡ signed_text bits128 text.now }
{
    match text.parse::<i128>() {
        Ok(number) => Some(number),
        Err(_) => None,
    }
}

fn in_range(scalar: ScalarType, number: Option<u128>) -> Option<u128>
    ensures { result ≡ passing (λ n. takes_unsigned n (scalar_type_of scalar)) number }
{
    match number {
        Some(number) => if takes_unsigned(scalar, number) {
            Some(number)
        } else {
            None
        },
        None => None,
    }
}

fn in_signed_range(scalar: ScalarType, number: Option<i128>) -> Option<i128>
    ensures { result ≡ passing (λ z. takes_signed z (scalar_type_of scalar)) number }
{
    match number {
        Some(number) => if takes_signed(scalar, number) {
            Some(number)
        } else {
            None
        },
        None => None,
    }
}

/// The number of the type that the text writes, at a type without a sign.
fn unsigned_of(scalar: ScalarType, text: &str) -> Option<u128>
    ensures { result ≡ passing (λ n. takes_unsigned n (scalar_type_of scalar)) (whole_number text.now) }
{
    in_range(scalar, whole_number(text))
}

/// The number of the type that the text writes, at a type with a sign.
fn signed_of(scalar: ScalarType, text: &str) -> Option<i128>
    ensures { result ≡ passing (λ z. takes_signed z (scalar_type_of scalar)) (signed_whole_number text.now) }
{
    in_signed_range(scalar, signed_whole_number(text))
}

/// Sets what was read of a text.
fn set_parsed<'de>(
    target: Target<'_>,
    text: &str,
    value: Option<Value<'de>>,
) -> Result<Value<'de>, DeserializeErrorKind<'de>>
    ensures { Gives (target_event target.entry) (parsed (target_shape target.entry) text.now (option_map tree_of value.entry)) result }
{
    match value {
        Some(value) => Ok(value),
        None => Err(target.parse_failed(text)),
    }
}

/// A text that stays borrowed where it is and may.
fn text_value<'de>(
    target: Target<'_>,
    text: Text<'de>,
    borrow: bool,
) -> Result<Value<'de>, DeserializeErrorKind<'de>>
    ensures { Gives (target_event target.entry) (Ok (text_tree (kept borrow (phrase_of text.entry)))) result }
{
    if borrow || !text.is_borrowed() {
        return Ok(Value::Text(text));
    }
    let owned = text.to_owned(target.alloc);
    drop(text);
    match owned {
        Ok(text) => Ok(Value::Text(text)),
        Err(_) => Err(out_of_memory()),
    }
}

/// A text that has to be borrowed.
fn borrowed_value<'de>(
    target: Target<'_>,
    text: Text<'de>,
    borrow: bool,
) -> Result<Value<'de>, DeserializeErrorKind<'de>>
    ensures { Gives (target_event target.entry) (lent borrow (phrase_of text.entry)) result }
{
    if borrow && text.is_borrowed() {
        Ok(Value::Text(text))
    } else {
        drop(text);
        Err(target.cannot_borrow())
    }
}

/// The value of the type that the text writes.
fn read_text<'de>(scalar: ScalarType, text: &str) -> Option<Value<'de>>
    ensures { option_map tree_of result ≡ read_text (scalar_type_of scalar) text.now }
{
    match scalar {
        ScalarType::Bool => Some(Value::Bool(bool_of(text)?)),
        ScalarType::Char => Some(Value::Char(char_of(text)?)),
        ScalarType::U8
        | ScalarType::U16
        | ScalarType::U32
        | ScalarType::U64
        | ScalarType::U128
        | ScalarType::USize => Some(Value::Unsigned(unsigned_of(scalar, text)?)),
        ScalarType::I8
        | ScalarType::I16
        | ScalarType::I32
        | ScalarType::I64
        | ScalarType::I128
        | ScalarType::ISize => Some(Value::Signed(signed_of(scalar, text)?)),
        _ => None,
    }
}

/// Sets a text.
pub(crate) fn set_text<'de>(
    target: Target<'_>,
    text: Text<'de>,
    borrow: bool,
) -> Result<Value<'de>, DeserializeErrorKind<'de>>
    ensures { Gives (target_event target.entry) (set_text borrow (target_shape target.entry) (target_type target.entry) (phrase_of text.entry)) result }
{
    match target.scalar {
        ScalarType::String => text_value(target, text, borrow),
        ScalarType::Str => borrowed_value(target, text, borrow),
        ScalarType::Unit => {
            drop(text);
            Err(target.wrong_kind())
        }
        scalar => {
            let value = read_text(scalar, text.as_str());
            let answer = set_parsed(target, text.as_str(), value);
            drop(text);
            answer
        }
    }
}
