//! A plan is begun only where it may be.

ghost use Rattle.std.specs.Prelude.{◌≡◌, false, OnOk};
ghost use Rattle.book.specs.declared.book.Pending.TheVariants.{Missing, Useless};
ghost use Rattle.book.specs.Books.{Turns, TurnsHalf};
ghost use Rattle.book.specs.BookLogs.{begun};
ghost use Rattle.outside.specs.Arrivals.{Arrives};
ghost use Rattle.outside.specs.BookCalls.{OfBook};
ghost use Rattle.outside.specs.Calls.{FromBook, Writes, stopped};
ghost use Rattle.outside.specs.Opened.{TakesPlan, turned};

use outside::fault::OutsideFault;
use outside::outside::Outside;
use rules::plan::Plan;

/// Begins this plan, if it may be begun. Else the call stops before it has an effect.
pub(crate) fn begin_if<O: Outside>(
    may: bool,
    outside: &mut O,
    plan: Plan,
) -> Result<(), OutsideFault>
    requires takes { TakesPlan (O.opened outside.old) plan }
    ensures refused { may ≡ false → O.seen outside.new ≡ stopped (O.seen outside.old) }
    ensures was_honest { O.honest outside.new → O.honest outside.old }
    ensures keywords { O.keywords outside.new ≡ O.keywords outside.old }
    ensures opened { OnOk result (O.opened outside.new ≡ turned (λ _. begun plan) (O.opened outside.old)) }
    ensures call { Writes (O.honest outside.new) (Arrives O.ours O.alone) FromBook
        (OfBook (λ _. Turns Missing (begun plan)) (O.opened outside.old)) (OfBook (λ _. TurnsHalf Missing Useless) (O.opened outside.old))
        (O.seen outside.old) (O.seen outside.new) result }
{
    if may {
        outside.begin(plan)
    } else {
        refuse(outside, &plan)
    }
}

/// Does not begin this plan: the call stops before it has an effect.
fn refuse<O: Outside>(outside: &mut O, _plan: &Plan) -> Result<(), OutsideFault>
    ensures refused { O.seen outside.new ≡ stopped (O.seen outside.old) }
    ensures was_honest { O.honest outside.new → O.honest outside.old }
    ensures keywords { O.keywords outside.new ≡ O.keywords outside.old }
    ensures opened { OnOk result (O.opened outside.new ≡ turned (λ _. begun _plan.now) (O.opened outside.old)) }
    ensures call { Writes (O.honest outside.new) (Arrives O.ours O.alone) FromBook
        (OfBook (λ _. Turns Missing (begun _plan.now)) (O.opened outside.old)) (OfBook (λ _. TurnsHalf Missing Useless) (O.opened outside.old))
        (O.seen outside.old) (O.seen outside.new) result }
{
    Err(outside.stop())
}
