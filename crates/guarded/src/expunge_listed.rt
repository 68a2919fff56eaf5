//! A near message is removed only where the far mailbox lists none that was removed before.

ghost use Rattle.std.specs.Prelude.{◌≡◌, true, OnOk};
ghost use Rattle.outside.specs.MailboxOperations.{removed};
ghost use Rattle.mailcore.specs.declared.side.Side.{Side};
ghost use Rattle.mailcore.specs.declared.side.Side.TheVariants.{Far};
ghost use Rattle.outside.specs.Arrivals.{Arrives};
ghost use Rattle.outside.specs.BoxCalls.{Names, Turns};
ghost use Rattle.outside.specs.Calls.{Changes};
ghost use Rattle.outside.specs.Opened.{IsOpen};
ghost use Rattle.guarded.specs.Questions.{HasListed, WasListed};

use crate::guard::Guard;
use crate::stop_refused::stop_refused;
use mailcore::side::Side;
use mailcore::uid::Uid;
use outside::fault::OutsideFault;
use outside::outside::Outside;

/// Removes a message, if a guard that has seen what the far mailbox lists lets it. Else the call stops before it has an effect.
#[tactic(auto, using(crate::proofs::Again::is_open_still))]
pub(crate) fn expunge_listed<O: Outside, G: Guard>(
    outside: &mut O,
    guard: &mut G,
    side: Side,
    uid: Uid,
) -> Result<(), OutsideFault>
    requires far_open { IsOpen Far (O.opened outside.old) }
    requires is_open { IsOpen side (O.opened outside.old) }
    ensures let_on { OnOk result (G.goes_on guard.new ≡ true) }
    ensures listed { OnOk result (HasListed G.asked
        (WasListed (O.honest outside.new) (Arrives O.ours O.alone) O.alone (O.seen outside.old)) guard.old guard.new) }
    ensures was_honest { O.honest outside.new → O.honest outside.old }
    ensures keywords { O.keywords outside.new ≡ O.keywords outside.old }
    ensures opened { O.opened outside.new ≡ O.opened outside.old }
    ensures call { Changes {T = Unit {0}} (O.honest outside.new) (Arrives O.ours O.alone) (λ _. Turns side uid (removed uid))
        (Names side uid) (O.seen outside.old) (O.seen outside.new) result }
{
    let listing = outside.look_far()?;
    if guard.may_remove(&listing) {
        outside.expunge(side, uid)
    } else {
        Err(stop_refused(outside, guard))
    }
}
