//! Lines that no event has, and their faults, which come again.
use super::shown::reads;
use std::alloc::AllocError;

/// Each behind a line that is good.
static DAMAGED: [(&[u8], &str); 6] = [
    (
        b"o\nu 3",
        "unexpected end of input, expected line end at [2..5)",
    ),
    (
        b"o\n\xff",
        "unexpected end of input, expected line end at [2..3)",
    ),
    (b"o\nk\xff\n", "invalid UTF-8 near: [107, 255] at [2..4)"),
    (
        b"o\ns \"\xc3\"\n",
        "invalid UTF-8 near: [115, 32, 34, 195, 34] at [2..7)",
    ),
    (
        b"o\ns \"0123456789abcdef\x80\"\n",
        "invalid UTF-8 near: [115, 32, 34, 48, 49, 50, 51, 52, 53, 54, 55, 56, 57, 97, 98, 99] at [2..23)",
    ),
    (
        b"o\n\xe2\x82\xac\n",
        "unexpected character '\u{20ac}', expected tape line at [2..5)",
    ),
];

#[test]
fn a_fault_comes_again(rt: HostRuntime) -> Result<(), AllocError> {
    'lines: for (input, want) in DAMAGED.iter() {
        reads(&rt, rt.alloc(), input, &["OrderedField@[0..1)", want, want])?;
    }
    Ok(())
}
