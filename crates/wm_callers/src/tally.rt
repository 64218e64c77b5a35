//! A ledger's book beside a share of it.
ghost use Rattle.std.specs.Prelude.{◌≡◌, ◌+◌, ◌<◌};

use std::sync::ledger::{Book, Ledger, Share};

/// The book of a ledger, with a share that has nothing, into which all others are put in the end.
#[derive(Drop)]
pub(crate) struct Tally<L: Ledger> {
    pub(crate) book: Book<L>,
    rest: Share<L>,
    ghost no_parts: { rest.parts ≡ 0 },
    ghost no_amount: { rest.amount ≡ 0 },
}

impl<L: Ledger> Tally<L> {
    /// A tally of a book, whose other shares have all parts.
    pub(crate) fn new(book: Book<L>, rest: Share<L>) -> Tally<L>
        requires parts { rest.parts ≡ 0 }
        requires amount { rest.amount ≡ 0 }
        ensures { result.book.total ≡ book.total }
    {
        Tally { book, rest }
    }

    /// Counts one more, for this share.
    pub(crate) fn add(&mut self, share: &mut Share<L>)
        requires { 0 < share.old.parts }
        ensures total { self.new.book.total ≡ self.old.book.total + 1 }
        ensures amount { share.new.amount ≡ share.old.amount + 1 }
        ensures parts { share.new.parts ≡ share.old.parts }
    {
        let Tally { book, rest: _ } = self;
        book.add(share, 1);
    }

    /// The book, and the share that has nothing.
    pub(crate) fn into_parts(self) -> (Book<L>, Share<L>)
        ensures total { result.0.total ≡ self.book.total }
        ensures parts { result.1.parts ≡ 0 }
        ensures amount { result.1.amount ≡ 0 }
    {
        let Tally { book, rest } = self;
        (book, rest)
    }
}
