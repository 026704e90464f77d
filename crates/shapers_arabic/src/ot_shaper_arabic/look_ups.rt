//! How often joining types are looked up.
ghost use Rattle.std.specs.Prelude.{◌≡◌, ◌+◌, ◌<◌};

use std::marker::{Brand, Model};
use std::sync::ledger::{Blank, Book, Ledger, Share};

/// How many joining types were looked up: a whole number without bound, which takes no bytes.
#[derive(Drop)]
pub struct LookUps<L: Ledger = Brand> {
    book: Book<L>,
    share: Share<L>,
}

impl<L: Ledger> Model for LookUps<L> {
    ghost use Rattle.std.specs.Prelude.{ℕ, ◌<◌};

    ghost Value = { ℕ };

    ghost view = { λ count. count.book.total };

    ghost invariant = { λ count. 0 < count.share.parts };
}

impl<L: Ledger> LookUps<L> {
    /// None so far, in the ledger that the blank is for.
    #[inline]
    pub fn new(blank: Blank) -> Self
        requires name { blank.name ≡ L.name }
        requires parts { blank.parts ≡ L.parts }
        requires some { 0 < blank.parts }
        ensures { result ≡ 0 }
    {
        let (book, share) = blank.open();
        LookUps { book, share }
    }

    // One more.
    #[inline]
    pub(super) fn add_one(&mut self)
        ensures { self.new ≡ self.old + 1 }
    {
        self.book.add(&mut self.share, 1);
    }
}
