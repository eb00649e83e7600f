//! What a line says before its metadata, and how the content of each body is read.
ghost use Rattle.std.specs.Prelude.{◌≡◌, IfOk};
ghost use Rattle.std.specs.Option.{option_map};
ghost use Rattle.tape_text.specs.Bodies.{key_at, str_at, letter_at, hex_at, variant_at};
ghost use Rattle.tape_text.specs.Bodies.{small_at, small_signed_at, large_at, large_signed_at};
ghost use Rattle.tape_text.specs.Views.{body_of};

use event_core::ScalarValue;
use line_text::{
    bytes_at, char_at, number_at, signed_at, text_at, unquoted, wide_number_at, wide_signed_at,
};
use shape_types::{Bytes, OutOfMemory, Text};
use std::alloc::Global;

/// What a line says before its metadata.
#[derive(Drop)]
pub enum LineBody<'de> {
    /// An object begins.
    StructStart,
    /// It ends.
    StructEnd,
    /// A list begins.
    SequenceStart,
    /// It ends.
    SequenceEnd,
    /// In place of a key.
    OrderedField,
    /// A key, perhaps with a name.
    Key(Option<Text<'de>>),
    /// The tag of a variant, where it has one.
    Tag(Option<&'de str>),
    /// A value without parts.
    Scalar(ScalarValue<'de>),
}

/// The name of a key, and what stands after it.
#[tactic(auto, unfolding(crate::specs::Bodies::key_at))]
pub(crate) fn key_at<'de>(
    alloc: Global,
    text: &'de str,
) -> Result<Option<(LineBody<'de>, &'de str)>, OutOfMemory>
    ensures { IfOk result (λ found. option_map (λ p. (body_of p.0, p.1.now)) found ≡ key_at text.now) }
{
    match text_at(alloc, text) {
        Ok(Some((name, rest))) => Ok(Some((LineBody::Key(Some(name)), rest))),
        Ok(None) => Ok(None),
        Err(refused) => Err(refused),
    }
}

/// A text, and what stands after it.
#[tactic(auto, unfolding(crate::specs::Bodies::str_at))]
pub(crate) fn str_at<'de>(
    alloc: Global,
    text: &'de str,
) -> Result<Option<(LineBody<'de>, &'de str)>, OutOfMemory>
    ensures { IfOk result (λ found. option_map (λ p. (body_of p.0, p.1.now)) found ≡ str_at text.now) }
{
    match text_at(alloc, text) {
        Ok(Some((inner, rest))) => Ok(Some((LineBody::Scalar(ScalarValue::Str(inner)), rest))),
        Ok(None) => Ok(None),
        Err(refused) => Err(refused),
    }
}

/// A character, and what stands after it.
#[tactic(auto, unfolding(crate::specs::Bodies::letter_at))]
pub(crate) fn letter_at(text: &str) -> Option<(LineBody<'_>, &str)>
    ensures { option_map (λ p. (body_of p.0, p.1.now)) result ≡ letter_at text.now }
{
    match char_at(text) {
        Some((c, rest)) => Some((LineBody::Scalar(ScalarValue::Char(c)), rest)),
        None => None,
    }
}

/// Bytes in hexadecimal, and what stands after them.
#[tactic(auto, unfolding(crate::specs::Bodies::hex_at))]
pub(crate) fn hex_at<'de>(
    alloc: Global,
    text: &'de str,
) -> Result<Option<(LineBody<'de>, &'de str)>, OutOfMemory>
    ensures { IfOk result (λ found. option_map (λ p. (body_of p.0, p.1.now)) found ≡ hex_at text.now) }
{
    match bytes_at(alloc, text) {
        Ok(Some((bytes, rest))) => {
            let value = ScalarValue::Bytes(Bytes::Owned(bytes));
            Ok(Some((LineBody::Scalar(value), rest)))
        }
        Ok(None) => Ok(None),
        Err(refused) => Err(refused),
    }
}

/// The name of a variant after its first quote, and what stands after the other.
#[tactic(auto, unfolding(crate::specs::Bodies::variant_at))]
pub(crate) fn variant_at(text: &str) -> Option<(LineBody<'_>, &str)>
    ensures { option_map (λ p. (body_of p.0, p.1.now)) result ≡ variant_at text.now }
{
    match unquoted(text) {
        Some((name, rest)) => Some((LineBody::Tag(Some(name)), rest)),
        None => None,
    }
}

/// A number of 64 bits, and what stands after it.
#[tactic(auto, unfolding(crate::specs::Bodies::small_at))]
pub(crate) fn small_at(text: &str) -> Option<(LineBody<'_>, &str)>
    ensures { option_map (λ p. (body_of p.0, p.1.now)) result ≡ small_at text.now }
{
    match number_at(text) {
        Some((n, rest)) => Some((LineBody::Scalar(ScalarValue::U64(n)), rest)),
        None => None,
    }
}

/// A signed number of 64 bits, and what stands after it.
#[tactic(auto, unfolding(crate::specs::Bodies::small_signed_at))]
pub(crate) fn small_signed_at(text: &str) -> Option<(LineBody<'_>, &str)>
    ensures { option_map (λ p. (body_of p.0, p.1.now)) result ≡ small_signed_at text.now }
{
    match signed_at(text) {
        Some((n, rest)) => Some((LineBody::Scalar(ScalarValue::I64(n)), rest)),
        None => None,
    }
}

/// A number of 128 bits, and what stands after it.
#[tactic(auto, unfolding(crate::specs::Bodies::large_at))]
pub(crate) fn large_at(text: &str) -> Option<(LineBody<'_>, &str)>
    ensures { option_map (λ p. (body_of p.0, p.1.now)) result ≡ large_at text.now }
{
    match wide_number_at(text) {
        Some((n, rest)) => Some((LineBody::Scalar(ScalarValue::U128(n)), rest)),
        None => None,
    }
}

/// A signed number of 128 bits, and what stands after it.
#[tactic(auto, unfolding(crate::specs::Bodies::large_signed_at))]
pub(crate) fn large_signed_at(text: &str) -> Option<(LineBody<'_>, &str)>
    ensures { option_map (λ p. (body_of p.0, p.1.now)) result ≡ large_signed_at text.now }
{
    match wide_signed_at(text) {
        Some((n, rest)) => Some((LineBody::Scalar(ScalarValue::I128(n)), rest)),
        None => None,
    }
}
