//! Which mailboxes were lent, and what each stood on when it was given back, for contracts alone.

ghost use Rattle.std.specs.Prelude.{◌≡◌, [], ◌∷◌};

use crate::lent_history::LentHistory;
use book::shelf::Shelf;
use device::history::History;
use imap_link::link::Link;
use mail_sides::far_side::FarSide;
use mail_sides::sides::BothSides;
use maildir::folder::Folder;

/// Which mailboxes were lent, and the far side, the folder and the shelf of each as they were given back: the last first. Their links,
/// folders and shelves say whether servers and disks have behaved as specified. Contracts alone read it: it takes no memory.
#[derive(Drop)]
pub(crate) struct Loans<L: Link, F, S> {
    pub(crate) lent: LentHistory,
    far_sides: History<FarSide<L>>,
    folders: History<F>,
    shelves: History<S>,
}

impl<L: Link, F: Folder, S: Shelf> Loans<L, F, S> {
    /// None was lent.
    pub(crate) fn new() -> Self
        ensures lent { result.lent.loans ≡ [] }
        ensures far { result.far_sides.items ≡ [] }
        ensures folders { result.folders.items ≡ [] }
        ensures shelves { result.shelves.items ≡ [] }
    {
        Loans {
            lent: LentHistory::new(),
            far_sides: History::new(),
            folders: History::new(),
            shelves: History::new(),
        }
    }

    /// A mailbox that was lent is given back.
    pub(crate) fn give_back(&mut self, sides: &BothSides<L, F, S>)
        ensures lent { self.new.lent ≡ self.old.lent }
        ensures far { self.new.far_sides.items ≡ sides.now.far ∷ self.old.far_sides.items }
        ensures folders { self.new.folders.items ≡ sides.now.folder ∷ self.old.folders.items }
        ensures shelves { self.new.shelves.items ≡ sides.now.shelf ∷ self.old.shelves.items }
    {
        self.far_sides = self.far_sides.and(&sides.far);
        self.folders = self.folders.and(&sides.folder);
        self.shelves = self.shelves.and(&sides.shelf);
    }
}
