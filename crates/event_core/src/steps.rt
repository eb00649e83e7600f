//! A count of steps, for claims about how much work is done.
ghost use Rattle.std.specs.Prelude.{◌≡◌, ◌+◌, ◌<◌};

use std::marker::Model;
use std::sync::ledger::{Blank, Book, Ledger, Share};

/// How many steps were taken. It takes no bytes and no time, and only [`Steps::tick`] changes it.
#[derive(Drop)]
pub struct Steps<L: Ledger> {
    taken: Book<L>,
    hand: Share<L>,
}

impl<L: Ledger> Model for Steps<L> {
    ghost use Rattle.std.specs.Prelude.{ℕ, ◌<◌};

    ghost Value = { ℕ };

    ghost view = { λ s. s.taken.total };

    ghost invariant = { λ s. 0 < s.hand.parts };
}

impl<L: Ledger> Steps<L> {
    /// A count of no steps, on a ledger of its own.
    pub fn new(ledger: Blank) -> Steps<L>
        requires name { ledger.name ≡ L.name }
        requires parts { ledger.parts ≡ L.parts }
        requires used { 0 < L.parts }
        ensures { result ≡ 0 }
    {
        let (taken, hand) = ledger.open();
        Steps { taken, hand }
    }

    /// One step more.
    pub fn tick(&mut self)
        ensures { self.new ≡ self.old + 1 }
    {
        self.taken.add(&mut self.hand, 1);
    }
}
