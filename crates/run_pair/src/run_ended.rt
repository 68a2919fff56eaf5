//! A run is ended after a sync of the near mailbox.

ghost use Rattle.std.specs.Prelude.{◌≡◌, ◌⊎◌, ◌<◌, true, false, OnOk, IfErr, IsErrOf};
ghost use Rattle.mailcore.specs.declared.side.Side.TheVariants as sides;
ghost use Rattle.book.specs.Commits.{CommitsHalf, CommitsTo};
ghost use Rattle.outside.specs.BoxArrivals.{Arrives};
ghost use Rattle.outside.specs.MailboxCalls.{HasCause};
ghost use Rattle.outside.specs.Calls.{FromBook};
ghost use Rattle.run_pair.specs.PartCalls.{PartChanges};
ghost use Rattle.run_pair.specs.BookParts.{files_of, honest_in, kept_of, standing_of};
ghost use Rattle.run_pair.specs.Kept.{AreCommitted, IsHeld, IsRead, OfKept, TakesCommit};
ghost use Rattle.run_pair.specs.Naming.{PendingNamesNothing};

use crate::book_part::BookPart;
use crate::naming::whose_of;
use crate::tally::reported;
use book::shelf::Shelf;
use device::whose::Whose;
use mailcore::side::Side;
use outside::fault::OutsideFault;
use outside::mailbox::Mailbox;

/// Ends the run, after a sync of the near mailbox: no entry of the new state may outlive its message.
pub(crate) fn commit_synced<N: Mailbox, S: Shelf + Drop>(
    near: &mut N,
    book: &mut BookPart<S>,
) -> Result<(), OutsideFault>
    requires side { N.side ≡ sides.Near }
    requires whole { (N.seen near.old).is_broken ≡ false }
    requires ready { (standing_of book.old).is_ready ≡ true }
    requires takes { TakesCommit (kept_of book.old) }
    ensures was_honest { N.honest near.new → N.honest near.old }
    ensures book_was_honest { honest_in book.new → honest_in book.old }
    ensures keywords { N.keywords near.new ≡ N.keywords near.old }
    ensures open { N.is_open near.new ≡ N.is_open near.old }
    ensures synced { N.is_open near.old ≡ true → (book.new ≡ book.old)
        ⊎ ((N.is_synced near.new ≡ true) × (PendingNamesNothing (kept_of book.old) ⊎ (N.is_settled near.new ≡ true))) }
    ensures whole { OnOk result ((N.seen near.new).is_broken ≡ false) }
    ensures ready { OnOk result ((standing_of book.new).is_ready ≡ true) }
    ensures kept { OnOk result (AreCommitted (kept_of book.old) (kept_of book.new)) }
    ensures held { OnOk result (honest_in book.new → IsHeld (kept_of book.new) (files_of book.new)) }
    ensures reported { IfErr result FromBook }
    ensures arrives { N.honest near.new → Arrives sides.Near N.ours N.alone (N.seen near.old).stored (N.seen near.new).stored }
    ensures cause { IsErrOf result OutsideFault.Stopped → HasCause (N.ended near.old near.new) (N.seen near.old) (N.seen near.new)
        ⊎ ((standing_of book.old).stops < (standing_of book.new).stops) }
    ensures part { N.honest near.new → PartChanges (honest_in book.new) (λ _. OfKept CommitsTo (kept_of book.old))
        (OfKept CommitsHalf (kept_of book.old)) (files_of book.old) (files_of book.new) result }
{
    match near.sync(whose_of_pending(book)) {
        Ok(()) => book.commit(),
        Err(fault) => Err(reported(Side::Near, fault)),
    }
}

/// Whose changes of the near mailbox are synced before the state that the pending plan makes.
fn whose_of_pending<S: Shelf + Drop>(book: &BookPart<S>) -> Whose
    requires read { IsRead (kept_of book.now) }
    ensures { result ≡ Whose.Own → PendingNamesNothing (kept_of book.now) }
{
    match book.pending() {
        Some(journal) => whose_of(&journal.plan, book.state()),
        None => Whose::All,
    }
}
