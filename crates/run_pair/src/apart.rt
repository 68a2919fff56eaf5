//! What is asked of the parts of an outside, and how they are given back.

ghost use Rattle.std.specs.Prelude.{◌≡◌};

use crate::book_part::BookPart;
use crate::pair::Pair;
use book::shelf::Shelf;
use outside::far_next::FarNext;
use outside::mailbox::Mailbox;

impl<F: Mailbox + Drop, N: Mailbox + Drop, S: Shelf + Drop> Pair<F, N, S> {
    /// Gives its parts back, without taking memory.
    pub fn into_parts(self) -> (F, N, BookPart<S>)
        ensures far { result.0 ≡ self.far }
        ensures near { result.1 ≡ self.near }
        ensures book { result.2 ≡ self.book }
    {
        let Pair {
            far,
            near,
            book,
            ..
        } = self;
        (far, near, book)
    }
}

impl<F: Mailbox + FarNext + Drop, N: Mailbox + Drop, S: Shelf + Drop> FarNext for Pair<F, N, S> {
    ghost uidnext = { λ pair. F.uidnext pair.far };

    fn far_next(&self) -> Option<u32> {
        self.far.far_next()
    }
}
