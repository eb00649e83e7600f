//! Quoted texts of a line.
ghost use Rattle.std.specs.Prelude.{◌≡◌, IfOk};
ghost use Rattle.std.specs.Option.{option_map};
ghost use Rattle.laws_lines.specs.Quoted.{quoted_at, char_at};
ghost use Rattle.laws_lines.specs.ShapeLineReading.{behind, quotes_at};
ghost use Rattle.shape_lines.specs.ShapeLines.{told, told_piece, told_pieces, told_number};

use line_text::{after, after_quote, char_at, unquote};
use shape_types::{Name, OutOfMemory};
use std::alloc::Global;

/// A quoted text of a line, by what stands from behind its first quote to the end of the line.
#[derive(Clone, Copy)]
pub struct Quoted<'a> {
    from: &'a str,
}

/// The text that is meant.
pub(crate) fn text_of(alloc: Global, quoted: Quoted<'_>) -> Result<Name, OutOfMemory>
    ensures { IfOk result (λ name. name ≡ told quoted.entry) }
{
    match unquote(alloc, quoted.from)? {
        Some((name, _)) => Ok(name),
        None => Name::copy(alloc, ""),
    }
}

/// A text between quotes, and what stands behind it.
fn quoted_at(text: &str) -> Option<(Quoted<'_>, &str)>
    ensures { option_map told_piece result ≡ quoted_at text.now }
{
    let from = after(text, "\"")?;
    let rest = after_quote(from)?;
    Some((Quoted { from }, rest))
}

/// A text between quotes behind these words, and what stands behind it.
pub(crate) fn quoted_behind<'a>(text: &'a str, words: &str) -> Option<(Quoted<'a>, &'a str)>
    ensures { option_map told_piece result ≡ behind words.now quoted_at text.now }
{
    quoted_at(after(text, words)?)
}

/// Two texts between quotes, a space between them, and what stands behind them.
#[tactic(auto, unfolding(laws_lines::specs::ShapeLineReading::quotes_at))]
pub(crate) fn quotes_at(text: &str) -> Option<((Quoted<'_>, Quoted<'_>), &str)>
    ensures { option_map told_pieces result ≡ quotes_at text.now }
{
    let (quoted, rest) = quoted_at(text)?;
    let (other, rest) = quoted_behind(rest, " ")?;
    Some(((quoted, other), rest))
}

/// One character between quotes behind these words, and what stands behind it.
pub(crate) fn char_behind<'a>(text: &'a str, words: &str) -> Option<(char, &'a str)>
    ensures { option_map told_number result ≡ behind words.now char_at text.now }
{
    char_at(after(text, words)?)
}
