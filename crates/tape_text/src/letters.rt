//! The body of a line by its first letter.
ghost use Rattle.std.specs.Prelude.{◌≡◌, IfOk, codes, None};
ghost use Rattle.std.specs.Option.{option_map};
ghost use Rattle.semantics_lines.specs.Events.{null, bool};
ghost use Rattle.tape_text.specs.Bodies.{holds, fixed, body_at};
ghost use Rattle.tape_text.specs.Letters.{unit_or_number, tag_after, plain_after, key_after, body_after};
ghost use Rattle.tape_text.specs.Views.{body_of};

use crate::body::{
    LineBody, hex_at, key_at, large_at, large_signed_at, letter_at, small_at, small_signed_at,
    str_at, variant_at,
};
use event_core::ScalarValue;
use line_text::after;
use shape_types::OutOfMemory;
use std::alloc::Global;

/// The rest of `null`.
fn null_after(text: &str) -> Option<(LineBody<'_>, &str)>
    ensures { option_map (λ p. (body_of p.0, p.1.now)) result ≡ fixed (codes "ull") (holds null) text.now }
{
    let rest = after(text, "ull")?;
    Some((LineBody::Scalar(ScalarValue::Null), rest))
}

/// The rest of the word of a boolean.
fn bool_after<'a>(text: &'a str, word: &str, value: bool) -> Option<(LineBody<'a>, &'a str)>
    ensures { option_map (λ p. (body_of p.0, p.1.now)) result ≡ fixed word.now (holds (bool value)) text.now }
{
    let rest = after(text, word)?;
    Some((LineBody::Scalar(ScalarValue::Bool(value)), rest))
}

/// The rest of `unit`, or a number of 64 bits.
fn unit_or_number(text: &str) -> Option<(LineBody<'_>, &str)>
    ensures { option_map (λ p. (body_of p.0, p.1.now)) result ≡ unit_or_number text.now }
{
    if let Some(rest) = after(text, "nit") {
        return Some((LineBody::Scalar(ScalarValue::Unit), rest));
    }
    small_at(after(text, " ")?)
}

/// The tag of a variant, where it has one.
fn tag_after(text: &str) -> Option<(LineBody<'_>, &str)>
    ensures { option_map (λ p. (body_of p.0, p.1.now)) result ≡ tag_after text.now }
{
    if let Some(rest) = after(text, " -") {
        return Some((LineBody::Tag(None), rest));
    }
    variant_at(after(text, " \"")?)
}

/// A body that owns no text, and what stands after it.
fn plain_after(letter: char, text: &str) -> Option<(LineBody<'_>, &str)>
    ensures { option_map (λ p. (body_of p.0, p.1.now)) result ≡ plain_after letter text.now }
{
    match letter {
        '{' => Some((LineBody::StructStart, text)),
        '}' => Some((LineBody::StructEnd, text)),
        '[' => Some((LineBody::SequenceStart, text)),
        ']' => Some((LineBody::SequenceEnd, text)),
        'o' => Some((LineBody::OrderedField, text)),
        'u' => unit_or_number(text),
        't' => bool_after(text, "rue", true),
        'f' => bool_after(text, "alse", false),
        'n' => null_after(text),
        'v' => tag_after(text),
        'c' => letter_at(after(text, " ")?),
        'i' => small_signed_at(after(text, " ")?),
        'U' => large_at(after(text, " ")?),
        'I' => large_signed_at(after(text, " ")?),
        _ => None,
    }
}

/// A key, perhaps with a name.
fn key_after<'de>(
    alloc: Global,
    text: &'de str,
) -> Result<Option<(LineBody<'de>, &'de str)>, OutOfMemory>
    ensures { IfOk result (λ found. option_map (λ p. (body_of p.0, p.1.now)) found ≡ key_after text.now) }
{
    if let Some(rest) = after(text, " -") {
        return Ok(Some((LineBody::Key(None), rest)));
    }
    match after(text, " ") {
        Some(rest) => key_at(alloc, rest),
        None => Ok(None),
    }
}

/// The body whose word begins with this letter, and what stands after it.
fn body_after<'de>(
    alloc: Global,
    letter: char,
    text: &'de str,
) -> Result<Option<(LineBody<'de>, &'de str)>, OutOfMemory>
    ensures { IfOk result (λ found. option_map (λ p. (body_of p.0, p.1.now)) found ≡ body_after letter text.now) }
{
    match letter {
        'k' => key_after(alloc, text),
        's' => match after(text, " ") {
            Some(rest) => str_at(alloc, rest),
            None => Ok(None),
        },
        'b' => match after(text, " ") {
            Some(rest) => hex_at(alloc, rest),
            None => Ok(None),
        },
        _ => Ok(plain_after(letter, text)),
    }
}

/// The body of a line, and what stands after it.
pub fn body_at<'de>(
    alloc: Global,
    text: &'de str,
) -> Result<Option<(LineBody<'de>, &'de str)>, OutOfMemory>
    ensures { IfOk result (λ found. option_map (λ p. (body_of p.0, p.1.now)) found ≡ body_at text.now) }
{
    let mut chars = text.chars();
    match chars.next() {
        Some(letter) => body_after(alloc, letter, chars.as_str()),
        None => Ok(None),
    }
}
