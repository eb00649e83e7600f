//! Where something stands in the input.
ghost use Rattle.std.specs.Prelude.{◌≡◌};
ghost use Rattle.event_core.specs.Texts.{span_end};

use std::fmt;

/// A part of the input, in bytes. It prints as `[A..B)`, from its first byte to behind its last.
#[derive(Debug, Clone, Copy, PartialEq, Eq, Default)]
pub struct Span {
    /// The number of bytes before it.
    pub offset: usize,
    /// The number of bytes in it.
    pub len: usize,
}

impl Span {
    /// The number of bytes before its end. It stays at the greatest number that a `usize` holds.
    pub fn end(&self) -> usize
        ensures { result ≡ span_end self.now }
    {
        self.offset.saturating_add(self.len)
    }
}

impl fmt::Display for Span {
    ghost use Rattle.std.specs.Prelude.{Some};
    ghost use Rattle.event_core.specs.Texts.{span_text};

    ghost output = { λ span. Some (span_text span) };

    fn fmt<W: fmt::Write>(&self, f: &mut fmt::Formatter<W>) -> fmt::Result {
        let start = self.offset;
        let end = self.end();
        write!(f, "[{start}..{end})")
    }
}
