ghost use Rattle.std.specs.Prelude.{◌≡◌, ◌++◌, ◌∷◌, [], length, slice_get, OnOk, OnErr};
ghost use Rattle.std.specs.Option.{option_copied};

use shape_core::{Items, Name, OutOfMemory};
use std::alloc::Global;
use std::marker::Model;

/// The words of a command line behind the program's name. Contracts see the list of their bytes.
///
/// It keeps the allocator that it was made with, so that [`Words::push`] takes none.
#[derive(Debug, Drop)]
pub struct Words {
    alloc: Global,
    words: Items<Name>,
}

impl Model for Words {
    ghost use Rattle.std.specs.Prelude.{List, ℕ};

    ghost Value = { List (List ℕ) };

    ghost view = { λ w. w.words };
}

impl Words {
    /// No words. This takes no memory.
    pub fn new(alloc: Global) -> Words
        ensures { result ≡ [] }
    {
        Words {
            alloc,
            words: Items::new(alloc),
        }
    }

    /// Adds a copy of the word at the end. Want of memory leaves the list as it was.
    pub fn push(&mut self, word: &str) -> Result<(), OutOfMemory>
        ensures ok { OnOk result (self.new ≡ self.old ++ word.now ∷ []) }
        ensures err { OnErr result (self.new ≡ self.old) }
    {
        let word = Name::copy(self.alloc, word)?;
        self.words.push(word)
    }

    /// How many words there are.
    pub fn len(&self) -> usize
        ensures { result ≡ length self.now }
    {
        self.words.len()
    }

    /// The word at this place, which is counted from 0. None past the last one.
    pub fn get(&self, at: usize) -> Option<&str>
        ensures { option_copied result ≡ slice_get self.now at }
    {
        match self.words.get(at) {
            Some(word) => Some(word.as_str()),
            None => None,
        }
    }
}
