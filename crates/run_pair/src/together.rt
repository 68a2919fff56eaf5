//! How a pair is put together.

ghost use Rattle.std.specs.Prelude.{◌≡◌, false, true, None};
ghost use Rattle.mailcore.specs.declared.side.Side.TheVariants as sides;
ghost use Rattle.run_pair.specs.BookParts.{files_of, standing_of};

use crate::book_part::BookPart;
use crate::device_history::DeviceHistory;
use crate::pair::Pair;
use crate::tally::Tally;
use book::shelf::Shelf;
use device::history::History;
use outside::mailbox::Mailbox;
use std::alloc::Global;

impl<F: Mailbox + Drop, N: Mailbox + Drop, S: Shelf + Drop> Pair<F, N, S> {
    ghost use Rattle.run_pair.specs.Tallies.{seen_with, untouched};
    ghost use Rattle.run_pair.specs.Pairs.{IsWhole, device_of, honest_of, opened_of, seen_of};

    /// The outside of these parts, which are opened again. Both mailboxes go by one map of keywords. Nothing is open, and no call was made.
    pub fn new(alloc: Global, far: F, near: N, book: BookPart<S>) -> Self
        requires far { F.side ≡ sides.Far }
        requires near { N.side ≡ sides.Near }
        requires map { F.keywords far ≡ N.keywords near }
        ensures was_honest { honest_of result → (F.honest far) × (N.honest near) }
        ensures keywords { F.keywords result.far ≡ F.keywords far }
        ensures far { F.seen result.far ≡ record (F.seen far) { is_broken = false } }
        ensures near { N.seen result.near ≡ record (N.seen near) { is_broken = false } }
        ensures book { standing_of result.book ≡ record (standing_of book) { is_ready = true } }
        ensures files { files_of result.book ≡ files_of book }
        ensures seen { seen_of result ≡ seen_with (device_of result) untouched }
        ensures opened { opened_of result ≡ None }
        ensures tally { result.tally ≡ untouched }
        ensures whole { IsWhole result }
    {
        let (mut far, mut near, mut book) = (far, near, book);
        far.reopen();
        near.reopen();
        book.reopen();
        Pair {
            alloc,
            far,
            near,
            book,
            tally: Tally::new(),
            listed: DeviceHistory::new(),
            far_validities: History::new(),
            near_validities: History::new(),
        }
    }

    /// The far mailbox.
    pub fn far(&self) -> &F
        ensures { result.now ≡ self.now.far }
    {
        &self.far
    }
}
