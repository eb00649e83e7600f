//! Reading a text between quotes. It is lent from the line where it needs no spelling.
ghost use Rattle.std.specs.Prelude.{◌≡◌, IfOk};
ghost use Rattle.std.specs.Option.{option_map};
ghost use Rattle.semantics_lines.specs.Texts.{is_special, is_plain};
ghost use Rattle.shape_types.specs.Texts.{phrase_of};
ghost use Rattle.laws_lines.specs.Quoted.{unquoted, text_at};
ghost use Rattle.line_text.specs.Special.{FindsSpecial};

use crate::fronts::after;
use crate::spellings::unquote;
use shape_types::{OutOfMemory, Text};
use std::alloc::Global;

/// A backslash, a quote or a line feed.
fn is_special(b: u8) -> bool
    ensures { result ≡ is_special b }
{
    b == b'\\' || b == b'"' || b == b'\n'
}

/// No byte of the text needs a spelling.
pub fn is_plain(text: &str) -> bool
    ensures { result ≡ is_plain text.now }
{
    text.bytes().all(|b| !is_special(b))
}

/// Where the first byte stands that needs a spelling.
fn first_special(bytes: &[u8]) -> Option<usize>
    ensures { FindsSpecial bytes.now result }
{
    bytes.iter().position(|b| is_special(*b))
}

/// What stands before the closing quote, where it needs no spelling, and what stands after that.
pub fn unquoted(text: &str) -> Option<(&str, &str)>
    ensures { option_map (λ found. (found.0.now, found.1.now)) result ≡ unquoted text.now }
{
    let bytes = text.as_bytes();
    let at = first_special(bytes)?;
    if bytes[at] == b'"' {
        Some((&text[..at], &text[at + 1..]))
    } else {
        None
    }
}

/// A text between quotes, and what stands after it.
pub fn text_at<'de>(
    alloc: Global,
    text: &'de str,
) -> Result<Option<(Text<'de>, &'de str)>, OutOfMemory>
    ensures { IfOk result (λ found. option_map (λ p. (phrase_of p.0, p.1.now)) found ≡ text_at text.now) }
{
    let Some(rest) = after(text, "\"") else {
        return Ok(None);
    };
    if let Some((inner, rest)) = unquoted(rest) {
        return Ok(Some((Text::Borrowed(inner), rest)));
    }
    match unquote(alloc, rest) {
        Ok(Some((name, rest))) => Ok(Some((Text::Owned(name), rest))),
        Ok(None) => Ok(None),
        Err(refused) => Err(refused),
    }
}
