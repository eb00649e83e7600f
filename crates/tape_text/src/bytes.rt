//! The bytes of a tape.
ghost use Rattle.std.specs.Prelude.{◌≡◌};

use std::marker::Model;

/// A tape that was written. Contracts see its bytes.
#[derive(Debug, Drop)]
pub struct TapeBytes {
    bytes: Vec<u8>,
}

impl Model for TapeBytes {
    ghost use Rattle.std.specs.Prelude.{List, ℕ};

    ghost Value = { List ℕ };

    ghost view = { λ b. b.bytes.items };
}

impl TapeBytes {
    pub(crate) fn from_vec(bytes: Vec<u8>) -> TapeBytes
        ensures { result ≡ bytes.items }
    {
        TapeBytes { bytes }
    }

    /// The bytes, a line for each event with its line feed.
    pub fn as_slice(&self) -> &[u8]
        ensures { result.now ≡ self.now }
    {
        self.bytes.as_slice()
    }
}
