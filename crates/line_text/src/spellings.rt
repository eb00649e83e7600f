//! Reading a text with spellings, from after its first quote: a backslash before `\`, `"` or `n`, which is a line feed.
ghost use Rattle.std.specs.Prelude.{◌≡◌, ◌≤◌, length, true, false, [], ◌∷◌, IfOk, IfSome, IsTrue, MatchOption, encode_utf8};
ghost use Rattle.std.specs.Option.{option_copied, option_map};
ghost use Rattle.std.specs.Str.{all_scalars};
ghost use Rattle.std.specs.Str.Iter.{chars_rest};
ghost use Rattle.laws_lines.specs.Quoted.{with_front, spelled, unquote, after_quote};

use shape_types::{Name, OutOfMemory};
use std::alloc::Global;
use std::str::Chars;

/// The character that a backslash and this one spell.
fn spelled(c: char) -> Option<char>
    ensures { result ≡ spelled c }
{
    match c {
        '\\' | '"' => Some(c),
        'n' => Some('\n'),
        _ => None,
    }
}

/// The character that a backslash and the coming character spell.
pub(crate) fn next_spelled(chars: &mut Chars<'_>) -> Option<char>
    ensures read { MatchOption result (unquote true (chars_rest chars.old) ≡ None)
        (λ c. unquote true (chars_rest chars.old) ≡ with_front (encode_utf8 c) (unquote false (chars_rest chars.new))) }
    ensures less { length (chars_rest chars.new) ≤ length (chars_rest chars.old) }
    ensures scalar { IfSome result (λ c. IsTrue (all_scalars (c ∷ []))) }
{
    match chars.next() {
        Some(c) => spelled(c),
        None => None,
    }
}

/// What stands after the closing quote of a text.
pub fn after_quote(text: &str) -> Option<&str>
    ensures { option_copied result ≡ after_quote text.now }
{
    let mut chars = text.chars();
    'chars: while let Some(c) = chars.next() {
        match c {
            '"' => return Some(chars.as_str()),
            '\n' => return None,
            '\\' => match next_spelled(&mut chars) {
                Some(_) => {}
                None => return None,
            },
            _ => {}
        }
    }
    None
}

/// A text up to its closing quote, and what stands after that.
pub fn unquote(alloc: Global, text: &str) -> Result<Option<(Name, &str)>, OutOfMemory>
    ensures { IfOk result (λ found. option_map (λ p. (p.0, p.1.now)) found ≡ unquote false text.now) }
{
    let mut out = String::new(alloc);
    let mut chars = text.chars();
    'chars: while let Some(c) = chars.next() {
        match c {
            '"' => return Ok(Some((Name::from_string(out), chars.as_str()))),
            '\n' => return Ok(None),
            '\\' => match next_spelled(&mut chars) {
                Some(meant) => out.push(meant)?,
                None => return Ok(None),
            },
            _ => out.push(c)?,
        }
    }
    Ok(None)
}
