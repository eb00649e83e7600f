ghost use Rattle.std.specs.Prelude.{◌≡◌, nat_eq, IfOk, IsTrue};
ghost use Rattle.std.specs.Str.{is_utf8};
ghost use Rattle.std.specs.Cmp.{on_per, on_equiv, partial_equiv_from_equiv};
ghost use Rattle.std.specs.Cmp.Lexicographic.{pointwise, nat_list_eq_equiv};
ghost use Rattle.shape_types.specs.Texts.{text_bytes, is_borrowed, phrase_of, owned};

use crate::memory::OutOfMemory;
use crate::name::Name;
use std::alloc::Global;

/// A text, borrowed from an input or owned. Two are equal where their bytes are.
#[derive(Debug, Drop)]
pub enum Text<'de> {
    /// It lies in the input.
    Borrowed(&'de str),
    /// It has memory of its own.
    Owned(Name),
}

impl<'de> Text<'de> {
    /// The text, wherever it lies.
    pub fn as_str(&self) -> &str
        ensures { result.now ≡ text_bytes self.now }
    {
        match self {
            Text::Borrowed(text) => text,
            Text::Owned(name) => name.as_str(),
        }
    }

    /// Whether it lies in the input.
    pub fn is_borrowed(&self) -> bool
        ensures { result ≡ is_borrowed self.now }
    {
        matches!(self, Text::Borrowed(_))
    }

    /// It is a text wherever it lies. It does nothing when it runs.
    pub fn utf8(&self)
        ensures { IsTrue (is_utf8 (text_bytes self.now)) }
    {
        let _ = self.as_str();
    }

    /// An equal text, borrowed where this one is.
    pub fn try_clone(&self, alloc: Global) -> Result<Text<'de>, OutOfMemory>
        ensures { IfOk result (λ t. t ≡ self.now) }
    {
        match self {
            Text::Borrowed(text) => Ok(Text::Borrowed(text)),
            Text::Owned(name) => match name.try_clone(alloc) {
                Ok(name) => Ok(Text::Owned(name)),
                Err(refused) => Err(refused),
            },
        }
    }

    /// An equal text that is owned, and so outlives the input.
    pub fn to_owned<'a>(&self, alloc: Global) -> Result<Text<'a>, OutOfMemory>
        ensures { IfOk result (λ t. phrase_of t ≡ owned (phrase_of self.now)) }
    {
        Ok(Text::Owned(Name::copy(alloc, self.as_str())?))
    }
}

impl<'de> PartialEq for Text<'de> {
    ghost eq = { λ a b. pointwise nat_eq (text_bytes a) (text_bytes b) };

    ghost laws = { on_per text_bytes (partial_equiv_from_equiv nat_list_eq_equiv) };

    fn eq(&self, other: &Text<'de>) -> bool {
        self.as_str() == other.as_str()
    }
}

impl<'de> Eq for Text<'de> {
    ghost laws = { on_equiv text_bytes nat_list_eq_equiv };
}
