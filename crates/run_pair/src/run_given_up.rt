//! A run is given up after a sync of the near mailbox.

ghost use Rattle.std.specs.Prelude.{◌≡◌, ◌⊎◌, ◌<◌, true, false, OnOk, IfErr, IsErrOf};
ghost use Rattle.mailcore.specs.declared.side.Side.TheVariants as sides;
ghost use Rattle.book.specs.GivingUp.{GivesUpHalf, GivesUpTo};
ghost use Rattle.book.specs.LostSides.{AreRising};
ghost use Rattle.outside.specs.BoxArrivals.{Arrives};
ghost use Rattle.outside.specs.MailboxCalls.{HasCause};
ghost use Rattle.outside.specs.Calls.{FromBook};
ghost use Rattle.run_pair.specs.PartCalls.{PartChanges};
ghost use Rattle.run_pair.specs.BookParts.{files_of, honest_in, kept_of, standing_of};
ghost use Rattle.run_pair.specs.Kept.{AreGivenUp, IsHeld, OfKept, TakesGivingUp};

use crate::book_part::BookPart;
use crate::tally::reported;
use book::lost_sides::LostSides;
use book::shelf::Shelf;
use device::whose::Whose;
use mailcore::side::Side;
use outside::fault::OutsideFault;
use outside::mailbox::Mailbox;

/// Gives the plan up, after a sync of the near mailbox: no entry of a copy may outlive it.
pub(crate) fn give_up_synced<N: Mailbox, S: Shelf + Drop>(
    near: &mut N,
    book: &mut BookPart<S>,
    lost: &LostSides,
) -> Result<(), OutsideFault>
    requires side { N.side ≡ sides.Near }
    requires whole { (N.seen near.old).is_broken ≡ false }
    requires ready { (standing_of book.old).is_ready ≡ true }
    requires rising { AreRising lost.now }
    requires takes { TakesGivingUp (kept_of book.old) }
    ensures was_honest { N.honest near.new → N.honest near.old }
    ensures book_was_honest { honest_in book.new → honest_in book.old }
    ensures keywords { N.keywords near.new ≡ N.keywords near.old }
    ensures open { N.is_open near.new ≡ N.is_open near.old }
    ensures synced { N.is_open near.old ≡ true → (book.new ≡ book.old)
        ⊎ ((N.is_synced near.new ≡ true) × (⊥ ⊎ (N.is_settled near.new ≡ true))) }
    ensures whole { OnOk result ((N.seen near.new).is_broken ≡ false) }
    ensures ready { OnOk result ((standing_of book.new).is_ready ≡ true) }
    ensures kept { OnOk result (AreGivenUp lost.now (kept_of book.old) (kept_of book.new)) }
    ensures held { OnOk result (honest_in book.new → IsHeld (kept_of book.new) (files_of book.new)) }
    ensures reported { IfErr result FromBook }
    ensures arrives { N.honest near.new → Arrives sides.Near N.ours N.alone (N.seen near.old).stored (N.seen near.new).stored }
    ensures cause { IsErrOf result OutsideFault.Stopped → HasCause (N.ended near.old near.new) (N.seen near.old) (N.seen near.new)
        ⊎ ((standing_of book.old).stops < (standing_of book.new).stops) }
    ensures part { N.honest near.new → PartChanges (honest_in book.new) (λ _. OfKept (GivesUpTo lost.now) (kept_of book.old))
        (OfKept (GivesUpHalf lost.now) (kept_of book.old)) (files_of book.old) (files_of book.new) result }
{
    match near.sync(Whose::All) {
        Ok(()) => book.give_up(lost),
        Err(fault) => Err(reported(Side::Near, fault)),
    }
}
