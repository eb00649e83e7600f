//! Reading one character between quotes.
ghost use Rattle.std.specs.Prelude.{◌≡◌};
ghost use Rattle.std.specs.Option.{option_map};
ghost use Rattle.std.specs.Str.Iter.{chars_rest};
ghost use Rattle.laws_lines.specs.Quoted.{char_at};
ghost use Rattle.line_text.specs.Characters.{ReadsFirst};

use crate::fronts::after;
use crate::spellings::next_spelled;
use std::str::Chars;

/// The first character of a quoted text, as it is meant.
fn first_char(chars: &mut Chars<'_>) -> Option<char>
    ensures { ReadsFirst (chars_rest chars.old) result (chars_rest chars.new) }
{
    match chars.next() {
        Some(c) => match c {
            '"' => None,
            '\n' => None,
            '\\' => next_spelled(chars),
            _ => Some(c),
        },
        None => None,
    }
}

/// One character between quotes, and what stands after it.
pub fn char_at(text: &str) -> Option<(char, &str)>
    ensures { option_map (λ p. (p.0, p.1.now)) result ≡ char_at text.now }
{
    let mut chars = after(text, "\"")?.chars();
    let c = first_char(&mut chars)?;
    Some((c, after(chars.as_str(), "\"")?))
}
