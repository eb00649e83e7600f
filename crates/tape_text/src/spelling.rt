//! Spelling a line of a tape, piece by piece.
ghost use Rattle.std.specs.Prelude.{◌≡◌, ◌<◌, ◌++◌, ◌∷◌, []};
ghost use Rattle.std.specs.List.{flat_map};
ghost use Rattle.semantics_lines.specs.Texts.{is_plain};
ghost use Rattle.semantics_lines.specs.Lines.{escape, quoted, hex_digit, hex_pair, hex};
ghost use Rattle.tape_text.specs.Writer.{Adds, body_text};

use line_text::is_plain;
use shape_types::OutOfMemory;

/// What a line holds before its line feed.
#[derive(Clone, Copy)]
pub enum Body<'a> {
    /// A word by itself.
    Word(&'a str),
    /// A word and a text between quotes.
    Text(&'a str, &'a str),
    /// A word and the digits of a number.
    Number(&'a str, &'a str),
    /// Bytes in hexadecimal.
    Hex(&'a [u8]),
}

#[tactic(auto, using(crate::proofs::Adding::adds_more, crate::proofs::Adding::adds_nothing))]
fn put(bytes: &mut Vec<u8>, text: &str) -> Result<(), OutOfMemory>
    ensures { Adds text.now bytes.old.items bytes.new.items result }
{
    bytes.extend_from_slice(text.as_bytes())?;
    Ok(())
}

#[tactic(auto, using(crate::proofs::Adding::adds_more, crate::proofs::Adding::adds_nothing))]
/// A byte of a text, spelled by two where it needs that.
fn put_escape(bytes: &mut Vec<u8>, byte: u8) -> Result<(), OutOfMemory>
    ensures { Adds (escape byte) bytes.old.items bytes.new.items result }
{
    match byte {
        b'\\' => put(bytes, "\\\\"),
        b'"' => put(bytes, "\\\""),
        b'\n' => put(bytes, "\\n"),
        _ => {
            bytes.push(byte)?;
            Ok(())
        }
    }
}

#[tactic(auto, using(crate::proofs::Adding::adds_plain))]
/// A text with its spellings, copied whole where it needs none.
fn put_escaped(bytes: &mut Vec<u8>, text: &str) -> Result<(), OutOfMemory>
    ensures { Adds (flat_map escape text.now) bytes.old.items bytes.new.items result }
{
    if is_plain(text) {
        return put(bytes, text);
    }
    put_spelled(bytes, text.as_bytes())
}

#[tactic(auto, using(crate::proofs::Adding::adds_lost))]
fn put_spelled(bytes: &mut Vec<u8>, text: &[u8]) -> Result<(), OutOfMemory>
    ensures { Adds (flat_map escape text.now) bytes.old.items bytes.new.items result }
{
    'bytes: for byte in text {
        match put_escape(bytes, *byte) {
            Ok(()) => {}
            Err(refused) => return Err(refused),
        }
    }
    Ok(())
}

#[tactic(auto, using(crate::proofs::Adding::adds_more, crate::proofs::Adding::adds_nothing))]
fn put_closed(bytes: &mut Vec<u8>, text: &str) -> Result<(), OutOfMemory>
    ensures { Adds (flat_map escape text.now ++ (34 ∷ [])) bytes.old.items bytes.new.items result }
{
    put_escaped(bytes, text)?;
    put(bytes, "\"")
}

#[tactic(auto, using(crate::proofs::Adding::adds_more, crate::proofs::Adding::adds_nothing))]
/// A text between quotes.
fn put_quoted(bytes: &mut Vec<u8>, text: &str) -> Result<(), OutOfMemory>
    ensures { Adds (quoted text.now) bytes.old.items bytes.new.items result }
{
    put(bytes, "\"")?;
    put_closed(bytes, text)
}

fn hex_digit(n: u8) -> u8
    requires { n < 16 }
    ensures { result ≡ hex_digit n }
{
    if n < 10 { b'0' + n } else { b'a' + (n - 10) }
}

#[tactic(auto, using(crate::proofs::Adding::adds_more, crate::proofs::Adding::adds_nothing))]
fn put_pair(bytes: &mut Vec<u8>, byte: u8) -> Result<(), OutOfMemory>
    ensures { Adds (hex_pair byte) bytes.old.items bytes.new.items result }
{
    bytes.extend_from_slice(&[hex_digit(byte / 16), hex_digit(byte % 16)])?;
    Ok(())
}

#[tactic(auto, using(crate::proofs::Adding::adds_lost))]
/// Two digits for each byte.
fn put_hex(bytes: &mut Vec<u8>, items: &[u8]) -> Result<(), OutOfMemory>
    ensures { Adds (hex items.now) bytes.old.items bytes.new.items result }
{
    'items: for item in items {
        match put_pair(bytes, *item) {
            Ok(()) => {}
            Err(refused) => return Err(refused),
        }
    }
    Ok(())
}

#[tactic(auto, using(crate::proofs::Adding::adds_more, crate::proofs::Adding::adds_nothing))]
fn put_body(bytes: &mut Vec<u8>, body: Body<'_>) -> Result<(), OutOfMemory>
    ensures { Adds (body_text body.entry) bytes.old.items bytes.new.items result }
{
    match body {
        Body::Word(word) => put(bytes, word),
        Body::Text(word, text) => {
            put(bytes, word)?;
            put_quoted(bytes, text)
        }
        Body::Number(word, digits) => {
            put(bytes, word)?;
            put(bytes, digits)
        }
        Body::Hex(items) => {
            put(bytes, "b ")?;
            put_hex(bytes, items)
        }
    }
}

#[tactic(auto, using(crate::proofs::Adding::adds_more, crate::proofs::Adding::adds_nothing))]
/// A line and its line feed.
pub fn put_line(bytes: &mut Vec<u8>, body: Body<'_>) -> Result<(), OutOfMemory>
    ensures { Adds (body_text body.entry ++ (10 ∷ [])) bytes.old.items bytes.new.items result }
{
    put_body(bytes, body)?;
    put(bytes, "\n")
}
