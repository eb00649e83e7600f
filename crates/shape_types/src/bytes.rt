ghost use Rattle.std.specs.Prelude.{◌≡◌, nat_eq, IfOk};
ghost use Rattle.std.specs.Cmp.{on_per, on_equiv, partial_equiv_from_equiv};
ghost use Rattle.std.specs.Cmp.Lexicographic.{pointwise, nat_list_eq_equiv};
ghost use Rattle.shape_types.specs.Texts.{byte_list, bytes_phrase};

use crate::items::Items;
use crate::memory::OutOfMemory;
use std::alloc::Global;

/// Bytes, borrowed from an input or owned. Two are equal where the bytes are.
#[derive(Debug, Drop)]
pub enum Bytes<'de> {
    /// They lie in the input.
    Borrowed(&'de [u8]),
    /// They have memory of their own.
    Owned(Items<u8>),
}

impl<'de> Bytes<'de> {
    /// The bytes, wherever they lie.
    pub fn as_slice(&self) -> &[u8]
        ensures { result.now ≡ byte_list self.now }
    {
        match self {
            Bytes::Borrowed(bytes) => bytes,
            Bytes::Owned(items) => items.as_slice(),
        }
    }

    /// Equal bytes, borrowed where these are.
    pub fn try_clone(&self, alloc: Global) -> Result<Bytes<'de>, OutOfMemory>
        ensures { IfOk result (λ b. b ≡ self.now) }
    {
        match self {
            Bytes::Borrowed(bytes) => Ok(Bytes::Borrowed(bytes)),
            Bytes::Owned(items) => match Items::from_slice(alloc, items.as_slice()) {
                Ok(items) => Ok(Bytes::Owned(items)),
                Err(refused) => Err(refused),
            },
        }
    }
}

impl<'de> PartialEq for Bytes<'de> {
    ghost eq = { λ a b. pointwise nat_eq (byte_list a) (byte_list b) };

    ghost laws = { on_per byte_list (partial_equiv_from_equiv nat_list_eq_equiv) };

    fn eq(&self, other: &Bytes<'de>) -> bool {
        self.as_slice() == other.as_slice()
    }
}

impl<'de> Eq for Bytes<'de> {
    ghost laws = { on_equiv byte_list nat_list_eq_equiv };
}
