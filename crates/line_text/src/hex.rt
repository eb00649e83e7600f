//! Reading bytes in hexadecimal: two digits for each, whose letters are small.
ghost use Rattle.std.specs.Prelude.{◌≡◌, None, IfOk};
ghost use Rattle.std.specs.Option.{option_map};
ghost use Rattle.laws_lines.specs.Fronts.{digit, unhexed, bytes_at};

use crate::fronts::word;
use shape_types::{Items, OutOfMemory};
use std::alloc::Global;

/// The value of a hexadecimal digit.
fn digit(c: u8) -> Option<u8>
    ensures { result ≡ digit c }
{
    match c {
        b'0'..=b'9' => Some(c - b'0'),
        b'a'..=b'f' => Some(c - b'a' + 10),
        _ => None,
    }
}

/// The bytes whose pairs of digits these are.
fn unhexed(alloc: Global, digits: &[u8]) -> Result<Option<Items<u8>>, OutOfMemory>
    ensures { IfOk result (λ found. found ≡ unhexed None digits.now) }
{
    let mut bytes = Items::new(alloc);
    let mut high = None;
    'digits: for c in digits {
        let Some(value) = digit(*c) else {
            return Ok(None);
        };
        match high {
            None => high = Some(value),
            Some(first) => {
                bytes.push(16 * first + value)?;
                high = None;
            }
        }
    }
    match high {
        None => Ok(Some(bytes)),
        Some(_) => Ok(None),
    }
}

/// Bytes up to the end of the word, and what stands after it.
#[tactic(auto, unfolding(laws_lines::specs::Fronts::bytes_at))]
pub fn bytes_at(alloc: Global, text: &str) -> Result<Option<(Items<u8>, &str)>, OutOfMemory>
    ensures { IfOk result (λ found. option_map (λ p. (p.0, p.1.now)) found ≡ bytes_at text.now) }
{
    let (digits, rest) = word(text);
    match unhexed(alloc, digits.as_bytes()) {
        Ok(Some(bytes)) => Ok(Some((bytes, rest))),
        Ok(None) => Ok(None),
        Err(refused) => Err(refused),
    }
}
