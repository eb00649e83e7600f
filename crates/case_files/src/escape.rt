//! The escapes of raw blocks.

use shape_types::OutOfMemory;

/// How far an escape was read.
#[derive(Clone, Copy)]
enum Escape {
    /// None is open.
    None,
    /// A backslash stands before.
    Open,
    /// A backslash and an `x` stand before.
    Byte,
    /// So does the first of two digits.
    HalfByte(u8),
}

/// What a byte makes: how far an escape is read then, and the byte that it stands for, if it ends one.
fn step(escape: Escape, b: u8) -> Option<(Escape, Option<u8>)> {
    match escape {
        Escape::None => match b {
            b'\\' => Some((Escape::Open, None)),
            _ => Some((Escape::None, Some(b))),
        },
        Escape::Open => match b {
            b'n' => Some((Escape::None, Some(b'\n'))),
            b's' => Some((Escape::None, Some(b' '))),
            b'\\' => Some((Escape::None, Some(b'\\'))),
            b'x' => Some((Escape::Byte, None)),
            _ => None,
        },
        Escape::Byte => Some((Escape::HalfByte(digit(b)?), None)),
        Escape::HalfByte(high) => {
            let byte = high.wrapping_mul(16).wrapping_add(digit(b)?);
            Some((Escape::None, Some(byte)))
        }
    }
}

/// The value of a hexadecimal digit.
fn digit(b: u8) -> Option<u8> {
    match b {
        b'0'..=b'9' => Some(b - b'0'),
        b'a'..=b'f' => Some(b - b'a' + 10),
        b'A'..=b'F' => Some(b - b'A' + 10),
        _ => None,
    }
}

/// Adds the bytes that a raw line stands for. It answers whether all of its escapes are escapes.
pub(crate) fn add_raw(bytes: &mut Vec<u8>, line: &str) -> Result<bool, OutOfMemory> {
    let mut escape = Escape::None;
    for b in line.bytes() {
        let Some((next, ended)) = step(escape, b) else {
            return Ok(false);
        };
        if let Some(byte) = ended {
            bytes.push(byte)?;
        }
        escape = next;
    }
    Ok(matches!(escape, Escape::None))
}
