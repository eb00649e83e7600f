ghost use Rattle.std.specs.Prelude.{◌≡◌, IfOk, IsTrue, nat_eq, string_bytes};
ghost use Rattle.std.specs.Str.{is_utf8};
ghost use Rattle.std.specs.Cmp.{partial_equiv_from_equiv};
ghost use Rattle.std.specs.Cmp.Lexicographic.{pointwise, nat_list_eq_equiv};

use crate::memory::OutOfMemory;
use std::alloc::Global;
use std::marker::Model;

/// A text of its own, as the name of a shape, a field or a variant. Contracts see its bytes.
#[derive(Debug, Drop)]
pub struct Name {
    text: String,
}

impl Model for Name {
    ghost use Rattle.std.specs.Prelude.{List, ℕ, string_bytes};

    ghost Value = { List ℕ };

    ghost view = { λ n. string_bytes n.text };
}

impl Name {
    /// A copy of the text.
    pub fn copy(alloc: Global, text: &str) -> Result<Name, OutOfMemory>
        ensures { IfOk result (λ n. n ≡ text.now) }
    {
        let text = String::from_str(alloc, text)?;
        Ok(Name { text })
    }

    /// The text itself, as a name.
    pub fn from_string(text: String) -> Name
        ensures { result ≡ string_bytes text }
    {
        Name { text }
    }

    /// The text of the name.
    pub fn as_str(&self) -> &str
        ensures { result.now ≡ self.now }
    {
        self.text.as_str()
    }

    /// A name is a text. It does nothing when it runs.
    pub fn utf8(&self)
        ensures { IsTrue (is_utf8 self.now) }
    {
        let _ = &self.text;
    }

    /// An equal name in memory of its own.
    pub fn try_clone(&self, alloc: Global) -> Result<Name, OutOfMemory>
        ensures { IfOk result (λ n. n ≡ self.now) }
    {
        Name::copy(alloc, self.as_str())
    }
}

impl PartialEq for Name {
    ghost eq = { pointwise nat_eq };

    ghost laws = { partial_equiv_from_equiv nat_list_eq_equiv };

    fn eq(&self, other: &Name) -> bool {
        self.as_str() == other.as_str()
    }
}

impl Eq for Name {
    ghost laws = { nat_list_eq_equiv };
}
