//! The plan of a run is written after a sync of the near mailbox.

ghost use Rattle.std.specs.Prelude.{◌≡◌, ◌⊎◌, ◌<◌, true, false, OnOk, IfErr, IsErrOf};
ghost use Rattle.mailcore.specs.declared.side.Side.TheVariants as sides;
ghost use Rattle.book.specs.declared.book.Pending.TheVariants.{Missing, Useless};
ghost use Rattle.book.specs.Books.{Turns, TurnsHalf};
ghost use Rattle.book.specs.BookLogs.{begun};
ghost use Rattle.outside.specs.BoxArrivals.{Arrives};
ghost use Rattle.outside.specs.MailboxCalls.{HasCause};
ghost use Rattle.outside.specs.Calls.{FromBook};
ghost use Rattle.run_pair.specs.PartCalls.{PartChanges};
ghost use Rattle.run_pair.specs.BookParts.{files_of, honest_in, kept_of, standing_of};
ghost use Rattle.run_pair.specs.Kept.{OfKept, TakesPlan, turned};
ghost use Rattle.run_pair.specs.Naming.{PlanNamesNothing};

use crate::book_part::BookPart;
use crate::naming::whose_of;
use crate::tally::reported;
use book::shelf::Shelf;
use mailcore::side::Side;
use outside::fault::OutsideFault;
use outside::mailbox::Mailbox;
use rules::plan::Plan;

/// Writes the plan, after a sync of the near mailbox: it names UIDs that files there were given just before, by this process or by one that
/// was killed.
pub(crate) fn begin_synced<N: Mailbox, S: Shelf + Drop>(
    near: &mut N,
    book: &mut BookPart<S>,
    plan: Plan,
) -> Result<(), OutsideFault>
    requires side { N.side ≡ sides.Near }
    requires whole { (N.seen near.old).is_broken ≡ false }
    requires ready { (standing_of book.old).is_ready ≡ true }
    requires takes { TakesPlan (kept_of book.old) plan }
    ensures was_honest { N.honest near.new → N.honest near.old }
    ensures book_was_honest { honest_in book.new → honest_in book.old }
    ensures keywords { N.keywords near.new ≡ N.keywords near.old }
    ensures open { N.is_open near.new ≡ N.is_open near.old }
    ensures synced { N.is_open near.old ≡ true → (book.new ≡ book.old)
        ⊎ ((N.is_synced near.new ≡ true) × (PlanNamesNothing (kept_of book.old) plan ⊎ (N.is_settled near.new ≡ true))) }
    ensures whole { OnOk result ((N.seen near.new).is_broken ≡ false) }
    ensures ready { OnOk result ((standing_of book.new).is_ready ≡ true) }
    ensures kept { OnOk result (kept_of book.new ≡ turned (λ _. begun plan) (kept_of book.old)) }
    ensures reported { IfErr result FromBook }
    ensures arrives { N.honest near.new → Arrives sides.Near N.ours N.alone (N.seen near.old).stored (N.seen near.new).stored }
    ensures cause { IsErrOf result OutsideFault.Stopped → HasCause (N.ended near.old near.new) (N.seen near.old) (N.seen near.new)
        ⊎ ((standing_of book.old).stops < (standing_of book.new).stops) }
    ensures part { N.honest near.new → PartChanges (honest_in book.new) (λ _. OfKept (λ _. Turns Missing (begun plan)) (kept_of book.old))
        (OfKept (λ _. TurnsHalf Missing Useless) (kept_of book.old)) (files_of book.old) (files_of book.new) result }
{
    match near.sync(whose_of(&plan, book.state())) {
        Ok(()) => book.begin(plan),
        Err(fault) => Err(reported(Side::Near, fault)),
    }
}
