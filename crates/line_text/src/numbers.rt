//! Reading a number: a decimal without leading zeros, in the range of its type.
ghost use Rattle.std.specs.Prelude.{◌≡◌};
ghost use Rattle.std.specs.Option.{option_map};
ghost use Rattle.laws_lines.specs.Fronts.{number_of, number_at, negative, positive, signed_of, signed_at};
ghost use Rattle.line_text.specs.Padded.{is_padded};

use crate::fronts::{after, word};

/// A plus sign or a leading zero stands in front.
fn is_padded(text: &[u8]) -> bool
    ensures { result ≡ is_padded text.now }
{
    match text {
        [b'+', ..] | [b'0', _, ..] => true,
        _ => false,
    }
}

/// The number of 64 bits whose decimal this is.
fn number(text: &str) -> Option<u64>
    ensures { result ≡ number_of 64 text.now }
{
    if is_padded(text.as_bytes()) {
        return None;
    }
    text.parse().ok()
}

/// The number of 128 bits whose decimal this is, without a sign or a leading zero.
pub fn wide_number(text: &str) -> Option<u128>
    ensures { result ≡ number_of 128 text.now }
{
    if is_padded(text.as_bytes()) {
        return None;
    }
    text.parse().ok()
}

/// A number of 64 bits up to the end of the word, and what stands after it.
#[tactic(auto, unfolding(laws_lines::specs::Fronts::number_at))]
pub fn number_at(text: &str) -> Option<(u64, &str)>
    ensures { option_map (λ p. (p.0, p.1.now)) result ≡ number_at 64 text.now }
{
    let (digits, rest) = word(text);
    Some((number(digits)?, rest))
}

/// A number of 128 bits up to the end of the word, and what stands after it.
#[tactic(auto, unfolding(laws_lines::specs::Fronts::number_at))]
pub fn wide_number_at(text: &str) -> Option<(u128, &str)>
    ensures { option_map (λ p. (p.0, p.1.now)) result ≡ number_at 128 text.now }
{
    let (digits, rest) = word(text);
    Some((wide_number(digits)?, rest))
}

/// The number below 0 of this size, where it fits.
fn negative(n: u64) -> Option<i64>
    ensures { result ≡ negative 63 n }
{
    if n == 0 || n > 9_223_372_036_854_775_808 {
        return None;
    }
    Some(-1 - (n - 1) as i64)
}

/// The signed number, where it fits.
fn positive(n: u64) -> Option<i64>
    ensures { result ≡ positive 63 n }
{
    if n < 9_223_372_036_854_775_808 {
        Some(n as i64)
    } else {
        None
    }
}

/// The number below 0 of this size, where it fits.
fn wide_negative(n: u128) -> Option<i128>
    ensures { result ≡ negative 127 n }
{
    if n == 0 || n > 170_141_183_460_469_231_731_687_303_715_884_105_728 {
        return None;
    }
    Some(-1 - (n - 1) as i128)
}

/// The signed number, where it fits.
fn wide_positive(n: u128) -> Option<i128>
    ensures { result ≡ positive 127 n }
{
    if n < 170_141_183_460_469_231_731_687_303_715_884_105_728 {
        Some(n as i128)
    } else {
        None
    }
}

/// The signed number of 64 bits whose decimal this is.
#[tactic(auto, unfolding(laws_lines::specs::Fronts::signed_of))]
fn signed(text: &str) -> Option<i64>
    ensures { result ≡ signed_of 63 64 text.now }
{
    match after(text, "-") {
        Some(digits) => negative(number(digits)?),
        None => positive(number(text)?),
    }
}

/// The signed number of 128 bits whose decimal this is.
#[tactic(auto, unfolding(laws_lines::specs::Fronts::signed_of))]
fn wide_signed(text: &str) -> Option<i128>
    ensures { result ≡ signed_of 127 128 text.now }
{
    match after(text, "-") {
        Some(digits) => wide_negative(wide_number(digits)?),
        None => wide_positive(wide_number(text)?),
    }
}

/// A signed number of 64 bits up to the end of the word, and what stands after it.
#[tactic(auto, unfolding(laws_lines::specs::Fronts::signed_at))]
pub fn signed_at(text: &str) -> Option<(i64, &str)>
    ensures { option_map (λ p. (p.0, p.1.now)) result ≡ signed_at 63 64 text.now }
{
    let (digits, rest) = word(text);
    Some((signed(digits)?, rest))
}

/// A signed number of 128 bits up to the end of the word, and what stands after it.
#[tactic(auto, unfolding(laws_lines::specs::Fronts::signed_at))]
pub fn wide_signed_at(text: &str) -> Option<(i128, &str)>
    ensures { option_map (λ p. (p.0, p.1.now)) result ≡ signed_at 127 128 text.now }
{
    let (digits, rest) = word(text);
    Some((wide_signed(digits)?, rest))
}
