//! How a plan is made: marks are drawn for the new messages of two listings.

ghost use Rattle.std.specs.Prelude.{◌≡◌, ◌+◌, ◌<◌, ◌^◌, All, Some, IfOk, IfErr, true};
ghost use Rattle.outside.specs.MailboxOperations.{HasNumbers};
ghost use Rattle.outside.specs.Opened.{IsRead, TakesPlan, state_of};
ghost use Rattle.rules.specs.World.{World, IsInOrder};
ghost use Rattle.planner.specs.Listed.{marks_of};
ghost use Rattle.run_states.specs.Plans.{IsPlanned};
ghost use Rattle.rules.specs.Outcome.{count_new};
ghost use Rattle.rules.specs.Scene.{scene};
ghost use Rattle.runner.specs.Answers.{AreDrawn, AreUnfit, IsDrawn, IsPlanFault, Moves, RepeatsFor, RepeatsIn, run_of};
ghost use Rattle.runner.specs.Validities.{ListsChanged};
ghost use Rattle.runner.specs.Before.{AreShown, HasNoJournal};

use crate::fault::RunFault;
use crate::opening::Listings;
use mailcore::fault::CoreFault;
use mailcore::marks::draw_marks;
use mailcore::side::Side;
use mailcore::tuid::Tuid;
use mailcore::uid::Uid;
use outside::outside::Outside;
use planner::fault::PlanFault;
use planner::news::news;
use planner::plan::plan;
use planner::unfit::unfit;
use rand_core::Rng;
use rules::options::Options;
use rules::plan::Plan;
use rules::state::SyncState;
use std::alloc::Global;

/// Marks for the new messages, one for each.
fn marks_for<R: Rng>(
    alloc: Global,
    rng: &mut R,
    both: &Listings,
    state: &SyncState,
    options: &Options,
) -> Result<Vec<Tuid>, RunFault>
    ensures drawn { IfOk result (λ marks. AreDrawn (R.stream rng.old) both.now.far both.now.near state.now options.now marks.items) }
    ensures moved { Moves (R.stream rng.old) (R.stream rng.new) }
    ensures fault { IfErr result (λ fault. IsPlanFault fault × ((side : Side) → fault ≡ RunFault.ValidityChanged side → ⊥)) }
    ensures repeats { IfErr result (λ fault. fault ≡ RunFault.MarksRepeat → RepeatsFor (R.stream rng.old)
        (count_new (scene both.now.far both.now.near state.now options.now))) }
{
    let count = news(&both.far, &both.near, state, options);
    match draw_marks(alloc, rng, count) {
        Ok(marks) => Ok(marks),
        Err(CoreFault::NoMemory) => Err(RunFault::NoMemory),
        Err(CoreFault::MarksRepeat) => Err(RunFault::MarksRepeat),
    }
}

/// The plan of both listings. `ValidityChanged`: a box reports another UIDVALIDITY than when it was opened.
pub(crate) fn make_plan<O: Outside, R: Rng>(
    alloc: Global,
    outside: &O,
    both: &Listings,
    options: &Options,
    rng: &mut R,
) -> Result<Plan, RunFault>
    requires journal { HasNoJournal (O.opened outside.now) }
    requires room { run_of (O.opened outside.now) + 1 < 2 ^ 64 }
    requires far_numbers { HasNumbers both.now.far }
    requires near_numbers { HasNumbers both.now.near }
    ensures takes { IfOk result (λ p. TakesPlan (O.opened outside.now) p) }
    ensures drawn { IfOk result (λ p. IsDrawn (O.opened outside.now) (R.stream rng.old) both.now.far both.now.near options.now p.steps) }
    ensures plan { IfOk result (λ p. (w : World) → IsInOrder w → state_of (O.opened outside.now) ≡ Some w.state → AreShown
        w both.now.far both.now.near
        → All (λ mark. O.ours mark ≡ true) (marks_of p.steps) → IsPlanned O.ours w options.now p) }
    ensures moved { Moves (R.stream rng.old) (R.stream rng.new) }
    ensures fault { IfErr result IsPlanFault }
    ensures repeats { IfErr result (λ fault. fault ≡ RunFault.MarksRepeat → RepeatsIn (O.opened outside.now) (R.stream rng.old)
        both.now.far both.now.near options.now) }
    ensures changed { IfErr result (λ fault. (side : Side) → fault ≡ RunFault.ValidityChanged side → ListsChanged (O.opened outside.now)
        both.now.far both.now.near side) }
{
    let state = outside.state();
    let marks = marks_for(alloc, rng, both, state, options)?;
    match plan(alloc, &both.far, &both.near, state, options, &marks) {
        Ok(plan) => Ok(plan),
        Err(PlanFault::NoMemory) => Err(RunFault::NoMemory),
        Err(PlanFault::ValidityChanged(side)) => Err(RunFault::ValidityChanged(side)),
    }
}

/// The messages of both listings that only want fitness to be new.
pub(crate) fn all_skipped<O: Outside>(
    alloc: Global,
    outside: &O,
    both: &Listings,
    options: &Options,
) -> Result<Vec<(Side, Uid)>, RunFault>
    requires read { IsRead (O.opened outside.now) }
    ensures unfit { IfOk result (λ v. AreUnfit (O.opened outside.now) both.now.far both.now.near options.now v.items) }
    ensures fault { IfErr result (λ fault. fault ≡ RunFault.NoMemory) }
{
    match unfit(alloc, &both.far, &both.near, outside.state(), options) {
        Ok(found) => Ok(found),
        Err(_) => Err(RunFault::NoMemory),
    }
}
