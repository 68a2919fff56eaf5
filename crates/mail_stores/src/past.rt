//! What stores were asked for, what servers and disks answered, and which mailboxes they have lent, for contracts alone.

ghost use Rattle.std.specs.Prelude.{◌≡◌, []};

use crate::asked_history::AskedHistory;
use crate::loans::Loans;
use book::shelf::Shelf;
use device::history::History;
use imap_link::link::Link;
use mail_sides::logged_in::LoggedIn;
use mail_sides::sides::BothSides;
use maildir::folder::Folder;
use near_places::looks::Looks;

/// What stores were asked for; of each listing that a server answered, the session after and before it; of each that a disk answered, its
/// answers; and which mailboxes they have lent, with both sides of each as it was lent. Contracts alone read it: it takes no memory.
#[derive(Drop)]
pub(crate) struct Past<L: Link, F: Folder, S: Shelf> {
    pub(crate) asked: AskedHistory,
    pub(crate) listed: History<History<LoggedIn<L>>>,
    pub(crate) found: History<Looks>,
    pub(crate) as_lent: History<BothSides<L, F, S>>,
    pub(crate) loans: Loans<L, F, S>,
}

impl<L: Link, F: Folder, S: Shelf> Past<L, F, S> {
    /// They were asked for nothing, and lent none.
    pub(crate) fn new() -> Self
        ensures asked { result.asked.asked ≡ [] }
        ensures listed { result.listed.items ≡ [] }
        ensures found { result.found.items ≡ [] }
        ensures as_lent { result.as_lent.items ≡ [] }
        ensures lent { result.loans.lent.loans ≡ [] }
    {
        Past {
            asked: AskedHistory::new(),
            listed: History::new(),
            found: History::new(),
            as_lent: History::new(),
            loans: Loans::new(),
        }
    }
}
