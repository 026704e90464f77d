//! How often a glyph is read.
ghost use Rattle.std.specs.Prelude.{◌≡◌, ◌+◌, ◌-◌, ◌==◌, ◌<◌, if◌then◌else◌};

use std::marker::{Brand, Model};
use std::sync::ledger::{Blank, Book, Ledger, Share};

/// How often one glyph of a text is read: a whole number without bound.
#[derive(Drop)]
pub struct Reads<L: Ledger = Brand> {
    book: Book<L>,
    share: Share<L>,
    ahead: usize,
}

impl<L: Ledger> Model for Reads<L> {
    ghost use Rattle.std.specs.Prelude.{◌<◌};
    ghost use Rattle.shapers_spans.specs.Watch.{Watch};

    ghost Value = { Watch };

    ghost view = { λ count. record { reads = count.book.total; ahead = count.ahead } };

    ghost invariant = { λ count. 0 < count.share.parts };
}

impl<L: Ledger> Reads<L> {
    /// None so far of the glyph at this place of a text, in the ledger that the blank is for.
    #[inline]
    pub fn new(blank: Blank, place: usize) -> Self
        requires name { blank.name ≡ L.name }
        requires parts { blank.parts ≡ L.parts }
        requires some { 0 < blank.parts }
        requires place { place < usize.MAX }
        ensures { result ≡ record { reads = 0; ahead = place + 1 } }
    {
        let (book, share) = blank.open();
        Reads {
            book,
            share,
            ahead: place + 1,
        }
    }

    // The glyph at place `n` of what is left is read.
    #[inline]
    pub(crate) fn read(&mut self, n: usize)
        ensures { let more = (if self.old.ahead == n + 1 then 1 else 0) in
            self.new ≡ record self.old { reads = self.old.reads + more } }
    {
        if self.ahead > n && self.ahead - n == 1 {
            self.book.add(&mut self.share, 1);
        }
    }

    // So many glyphs are no longer left.
    #[inline]
    pub(crate) fn pass(&mut self, len: usize)
        ensures { self.new ≡ record self.old { ahead = self.old.ahead - len } }
    {
        self.ahead = self.ahead.saturating_sub(len);
    }
}
