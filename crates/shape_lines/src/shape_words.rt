//! Reading a front of a line: words that are known, names, and numbers after words.
ghost use Rattle.std.specs.Prelude.{◌≡◌};
ghost use Rattle.std.specs.Option.{option_copied, option_map};
ghost use Rattle.std.specs.List.{list_all};
ghost use Rattle.semantics_lines.specs.ShapeLines.{is_name_byte, is_name};
ghost use Rattle.laws_lines.specs.Fronts.{number_at, signed_at};
ghost use Rattle.laws_lines.specs.ShapeLineReading.{behind, whole, flag_at, name_at, names_at, below};
ghost use Rattle.shape_lines.specs.ShapeLines.{one_piece, two_pieces, told_number};

use line_text::{after, wide_number_at, wide_signed_at, word};

/// An ASCII letter, a digit or `_`.
fn is_name_byte(b: u8) -> bool
    ensures { result ≡ is_name_byte b }
{
    b == b'_' || (b'0' <= b && b <= b'9') || (b'A' <= b && b <= b'Z') || (b'a' <= b && b <= b'z')
}

/// ASCII letters, digits and `_` alone.
fn has_name_bytes(text: &str) -> bool
    ensures { result ≡ list_all is_name_byte text.now }
{
    text.bytes().all(is_name_byte)
}

/// One or more ASCII letters, digits or `_`.
fn is_name(text: &str) -> bool
    ensures { result ≡ is_name text.now }
{
    !text.is_empty() && has_name_bytes(text)
}

/// A name up to the end of the word, and what stands behind it.
#[tactic(auto, unfolding(laws_lines::specs::ShapeLineReading::name_at))]
pub(crate) fn name_at(text: &str) -> Option<(&str, &str)>
    ensures { option_map one_piece result ≡ name_at text.now }
{
    let (name, rest) = word(text);
    if is_name(name) {
        Some((name, rest))
    } else {
        None
    }
}

/// A name behind these words, and what stands behind it.
pub(crate) fn name_behind<'a>(text: &'a str, words: &str) -> Option<(&'a str, &'a str)>
    ensures { option_map one_piece result ≡ behind words.now name_at text.now }
{
    name_at(after(text, words)?)
}

/// A name behind these words, where nothing stands behind it.
pub(crate) fn whole_name<'a>(text: &'a str, words: &str) -> Option<&'a str>
    ensures { option_copied result ≡ whole words.now name_at text.now }
{
    let (name, rest) = name_behind(text, words)?;
    if rest == "" { Some(name) } else { None }
}

/// Two names, a space between them, and what stands behind them.
#[tactic(auto, unfolding(laws_lines::specs::ShapeLineReading::names_at))]
pub(crate) fn names_at(text: &str) -> Option<((&str, &str), &str)>
    ensures { option_map two_pieces result ≡ names_at text.now }
{
    let (name, rest) = name_at(text)?;
    let (other, rest) = name_behind(rest, " ")?;
    Some(((name, other), rest))
}

/// Two names behind these words, where nothing stands behind them.
pub(crate) fn whole_names<'a>(text: &'a str, words: &str) -> Option<(&'a str, &'a str)>
    ensures { option_map one_piece result ≡ whole words.now names_at text.now }
{
    let (names, rest) = names_at(after(text, words)?)?;
    if rest == "" { Some(names) } else { None }
}

/// Whether these words stand there, and what stands behind them.
#[tactic(auto, unfolding(laws_lines::specs::ShapeLineReading::flag_at))]
pub(crate) fn flag_at<'a>(text: &'a str, words: &str) -> (bool, &'a str)
    ensures flag { result.0 ≡ (flag_at words.now text.now).0 }
    ensures rest { result.1.now ≡ (flag_at words.now text.now).1 }
{
    match after(text, words) {
        Some(rest) => (true, rest),
        None => (false, text),
    }
}

/// A number behind these words, and what stands behind it.
pub(crate) fn number_behind<'a>(text: &'a str, words: &str) -> Option<(u128, &'a str)>
    ensures { option_map told_number result ≡ behind words.now (number_at 128) text.now }
{
    wide_number_at(after(text, words)?)
}

/// The number, where it fits 32 bits.
pub(crate) fn below_32(n: u128) -> Option<u32>
    ensures { result ≡ below 32 n }
{
    if n < 4_294_967_296 {
        Some(n as u32)
    } else {
        None
    }
}

/// A signed number behind these words, and what stands behind it.
pub(crate) fn signed_behind<'a>(text: &'a str, words: &str) -> Option<(i128, &'a str)>
    ensures { option_map (λ p. (p.0, p.1.now)) result ≡ behind words.now (signed_at 127 128) text.now }
{
    wide_signed_at(after(text, words)?)
}
