//! What a run over a mailbox at a server and one in a folder stands on, while nothing is open.

ghost use Rattle.std.specs.Prelude.{◌≡◌, [], None};
ghost use Rattle.std.specs.Int.NonZero.{non_zero_u32_get};
ghost use Rattle.mail_sides.specs.FarSides.{seen_of as seen_of_far};
ghost use Rattle.near_box.specs.Mailboxes.{near_of};
ghost use Rattle.run_pair.specs.BookParts.{honest_in, seen_of as seen_of_book};
ghost use Rattle.run_pair.specs.Pairs.{opened_of, seen_of};
ghost use Rattle.run_pair.specs.Parts.{device_with};
ghost use Rattle.run_pair.specs.Tallies.{seen_with, untouched};

use crate::both::Both;
use crate::far_side::FarSide;
use crate::near_side::NearSide;
use book::shelf::Shelf;
use imap_link::link::Link;
use mailcore::keywords::Keywords;
use maildir::folder::Folder;
use run_pair::book_part::BookPart;
use run_pair::pair::Pair;
use std::alloc::Global;
use std::num::NonZeroU32;

/// The far mailbox, the folder of the near one, and the shelf of the book.
#[derive(Drop)]
pub struct BothSides<L: Link, F: Folder, S: Shelf> {
    /// The far mailbox.
    pub far: FarSide<L>,
    /// The folder of the near mailbox.
    pub folder: F,
    /// The shelf of the book.
    pub shelf: S,
}

impl<L: Link + Drop, F: Folder + Drop, S: Shelf + Drop> BothSides<L, F, S> {
    /// The outside of a run over them, the near mailbox under the far one's map of keywords. Nothing is open, and no call was made. The
    /// UIDVALIDITY of the near mailbox is `fresh` where its folder has no meta file.
    pub fn together(self, alloc: Global, fresh: NonZeroU32, keywords: Keywords) -> Both<L, F, S>
        requires map { self.far.far.keywords ≡ keywords }
        ensures seen { seen_of result ≡ seen_with (device_with (seen_of_far self.far).stored
            (near_of (non_zero_u32_get fresh) keywords (F.seen self.folder).stored) (S.seen self.shelf).stored []) untouched }
        ensures opened { opened_of result ≡ None }
        ensures keywords { result.far.far.keywords ≡ keywords }
    {
        let BothSides { far, folder, shelf } = self;
        let near = NearSide::new(alloc, folder, fresh, keywords);
        Pair::new(alloc, far, near, BookPart::new(alloc, shelf))
    }

    /// What the outside of a run stands on. It is closed.
    pub fn of(both: Both<L, F, S>) -> Self
        ensures far { result.far ≡ both.far }
        ensures folder { result.folder ≡ both.near.near.folder }
        ensures shelf { S.seen result.shelf ≡ seen_of_book both.book }
        ensures was_honest { S.honest result.shelf → honest_in both.book }
    {
        let (sides, _) = BothSides::apart(both);
        sides
    }

    /// The same, and the UIDVALIDITY that its near mailbox has where the folder has no meta file.
    pub fn apart(both: Both<L, F, S>) -> (Self, NonZeroU32)
        ensures far { result.0.far ≡ both.far }
        ensures folder { result.0.folder ≡ both.near.near.folder }
        ensures shelf { S.seen result.0.shelf ≡ seen_of_book both.book }
        ensures fresh { result.1 ≡ both.near.fresh }
        ensures was_honest { S.honest result.0.shelf → honest_in both.book }
    {
        let (far, near, book) = both.into_parts();
        let fresh = near.fresh();
        let sides = BothSides {
            far,
            folder: near.into_folder(),
            shelf: book.into_shelf(),
        };
        (sides, fresh)
    }
}
