//! The outside of a run over any two mailboxes and any shelf.

ghost use Rattle.std.specs.Prelude.{◌≡◌, true, false};
ghost use Rattle.mailcore.specs.declared.side.Side.TheVariants as sides;
ghost use Rattle.run_pair.specs.BookParts.{standing_of};

use crate::book_part::BookPart;
use crate::device_history::DeviceHistory;
use crate::tally::Tally;
use book::shelf::Shelf;
use device::history::History;
use outside::mailbox::Mailbox;
use std::alloc::Global;

/// The outside of a run over a far mailbox, a near one and a book. While no call has failed, each of them is whole.
///
/// Besides what the trait asks, each call says why it reports a fault (`why`), and that it is counted as it is reported (`tallied`).
/// A plan is written, and a run is ended, after a sync of the near mailbox (`synced`).
#[derive(Drop)]
pub struct Pair<F: Mailbox, N: Mailbox, S: Shelf> {
    pub(crate) alloc: Global,
    pub(crate) far: F,
    pub(crate) near: N,
    pub(crate) book: BookPart<S>,
    pub(crate) tally: Tally,
    pub(crate) listed: DeviceHistory,
    pub(crate) far_validities: History<u32>,
    pub(crate) near_validities: History<u32>,
    pub ghost far_is: { F.side ≡ sides.Far },
    pub ghost near_is: { N.side ≡ sides.Near },
    pub ghost one_map: { F.keywords far ≡ N.keywords near },
    pub ghost far_whole: { tally.is_broken ≡ false → (F.seen far).is_broken ≡ false },
    pub ghost near_whole: { tally.is_broken ≡ false → (N.seen near).is_broken ≡ false },
    pub ghost book_whole: { tally.is_broken ≡ false → (standing_of book).is_ready ≡ true },
}
