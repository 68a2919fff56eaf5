//! A step that copies a message.

ghost use Rattle.std.specs.Prelude.{◌≡◌, List, ◌∷◌, None, Some, IfOk, true, false};
ghost use Rattle.rules.specs.declared.plan.Step.TheVariants as step;
ghost use Rattle.sync_state.specs.JournalText.{LogsNew};
ghost use Rattle.run_states.specs.Conditions.{Underway};
ghost use Rattle.run_states.specs.Openings.{Opening};
ghost use Rattle.mailcore.specs.Sides.{target};
ghost use Rattle.outside.specs.Asked.{after_look};
ghost use Rattle.run_states.specs.Plans.{first_uid};
ghost use Rattle.runner.specs.Asking.{Copy, Performs, known_at, known_past};
ghost use Rattle.runner.specs.Parts.{StepPart};
ghost use Rattle.runner.specs.Going.{IsGoing, AfterCopy, AfterStep, BeforeStep, AfterSearch, CopiesUnder, FoundCopy, logged_of, made_by, next_at, plan_at};
ghost use Rattle.runner.specs.Finding.{OfSame, copy_at, copy_under, reported_found};
ghost use Rattle.runner.specs.Sources.{BySource};

use crate::fault::{RunFault, step_fault};
use crate::pending::first_uid;
use crate::performed::StepResult;
use mailcore::flags::Flags;
use mailcore::side::{Direction, Side};
use mailcore::tuid::Tuid;
use mailcore::uid::Uid;
use outside::fault_number::FAR_UNKNOWN_ANSWER;
use outside::outside::{Carried, Outside};

/// Looks for the copy that an earlier pass may have made: it has a UID that the target gave since the plan was made.
fn seek<O: Outside>(
    outside: &mut O,
    number: usize,
    direction: Direction,
    mark: Tuid,
) -> Result<Option<Uid>, RunFault>
    ghost opening: { Opening O.ours O.alone }
    requires going { IsGoing (O.opened outside.old) }
    requires next { CopiesUnder (O.opened outside.old) direction mark }
    ensures was_honest { O.honest outside.new → O.honest outside.old }
    ensures keywords { O.keywords outside.new ≡ O.keywords outside.old }
    ensures opened { O.opened outside.new ≡ O.opened outside.old }
    ensures part { StepPart number (O.opened outside.old) (O.honest outside.new)
        (BeforeStep opening (O.opened outside.old) true) (Underway opening) (λ _. 0)
        (AfterSearch opening (O.opened outside.old)) (O.seen outside.old) (O.seen outside.new) result }
    ensures found { IfOk result (λ found. O.honest outside.new → BeforeStep opening (O.opened outside.old) true
        (O.seen outside.old).device → OfSame O.ours (O.seen outside.old).device (λ d. found ≡ copy_under
        (plan_at (O.opened outside.old)) direction mark d)) }
    ensures asked { O.asked outside.new ≡ after_look O.noted (target direction) mark (first_uid (plan_at (O.opened outside.old)) (target direction))
        (O.asked outside.old) result }
{
    let side = direction.target();
    let from = first_uid(outside, side);
    match outside.find_mark(side, mark, from) {
        Ok(found) => Ok(found),
        Err(fault) => Err(step_fault(fault, number)),
    }
}

/// Looks for the copy that was just made, whose UID was not reported.
fn find_copy<O: Outside>(
    outside: &mut O,
    number: usize,
    direction: Direction,
    mark: Tuid,
) -> Result<Option<Uid>, RunFault>
    ghost opening: { Opening O.ours O.alone }
    requires going { IsGoing (O.opened outside.old) }
    requires next { CopiesUnder (O.opened outside.old) direction mark }
    ensures was_honest { O.honest outside.new → O.honest outside.old }
    ensures keywords { O.keywords outside.new ≡ O.keywords outside.old }
    ensures opened { O.opened outside.new ≡ O.opened outside.old }
    ensures part { StepPart number (O.opened outside.old) (O.honest outside.new)
        (AfterCopy opening (O.opened outside.old)) (Underway opening) (λ _. 0)
        (FoundCopy opening (O.opened outside.old)) (O.seen outside.old) (O.seen outside.new) result }
    ensures asked { O.asked outside.new ≡ after_look O.noted (target direction) mark (first_uid (plan_at (O.opened outside.old)) (target direction))
        (O.asked outside.old) result }
{
    let side = direction.target();
    let from = first_uid(outside, side);
    match outside.find_mark(side, mark, from) {
        Ok(copy) => Ok(copy),
        Err(fault) => Err(step_fault(fault, number)),
    }
}

/// Makes the copy. It is void exactly where its source is gone or not fit to be copied. `StoreFault`, number 3 of the far box: its UID was
/// not reported, and no message bears its mark.
fn copy<O: Outside>(
    outside: &mut O,
    number: usize,
    direction: Direction,
    uid: Uid,
    flags: Flags,
    mark: Tuid,
) -> Result<StepResult, RunFault>
    ghost opening: { Opening O.ours O.alone }
    requires going { IsGoing (O.opened outside.old) }
    requires next { next_at (O.opened outside.old) ≡ Some (step.New direction uid flags mark) }
    requires map { opening.options.keywords ≡ O.keywords outside.old }
    ensures was_honest { O.honest outside.new → O.honest outside.old }
    ensures keywords { O.keywords outside.new ≡ O.keywords outside.old }
    ensures opened { O.opened outside.new ≡ O.opened outside.old }
    ensures fits { IfOk result (λ r. LogsNew (logged_of r)) }
    ensures made { IfOk result (λ r. reported_found r ≡ None) }
    ensures source { IfOk result (λ r. O.honest outside.new → BySource O.ours O.alone direction uid r (O.seen outside.old).device) }
    ensures part { StepPart number (O.opened outside.old) (O.honest outside.new)
        (BeforeStep opening (O.opened outside.old) false) (Underway opening) made_by
        (λ r. AfterStep opening (O.opened outside.old) (logged_of r)) (O.seen outside.old) (O.seen outside.new) result }
    ensures asked { (left : List Copy) → (let plan = plan_at (O.opened outside.old) in
        Performs O.noted (record { plan = plan; free = (target direction, mark) ∷ left }) (record { plan = plan; free = left })
        (O.asked outside.old) (O.asked outside.new) result) }
{
    let carried = match outside.carry(direction, uid, mark, flags) {
        Ok(carried) => carried,
        Err(fault) => return Err(step_fault(fault, number)),
    };
    match carried {
        Carried::Absent => Ok(StepResult::Void),
        Carried::Unfit => Ok(StepResult::Void),
        Carried::Made(reported) => match reported {
            Some(copy) => Ok(StepResult::Made(copy)),
            None => match find_copy(outside, number, direction, mark)? {
                Some(copy) => Ok(StepResult::Made(copy)),
                None => Err(RunFault::StoreFault(Side::Far, FAR_UNKNOWN_ANSWER)),
            },
        },
    }
}

/// Performs a step that copies a message. Where the plan was resumed, a copy that is there is not made again.
pub(crate) fn bring<O: Outside>(
    outside: &mut O,
    number: usize,
    direction: Direction,
    uid: Uid,
    flags: Flags,
    mark: Tuid,
    is_resumed: bool,
) -> Result<StepResult, RunFault>
    ghost opening: { Opening O.ours O.alone }
    requires going { IsGoing (O.opened outside.old) }
    requires next { next_at (O.opened outside.old) ≡ Some (step.New direction uid flags mark) }
    requires map { opening.options.keywords ≡ O.keywords outside.old }
    ensures was_honest { O.honest outside.new → O.honest outside.old }
    ensures keywords { O.keywords outside.new ≡ O.keywords outside.old }
    ensures opened { O.opened outside.new ≡ O.opened outside.old }
    ensures fits { IfOk result (λ r. LogsNew (logged_of r)) }
    ensures found { IfOk result (λ r. O.honest outside.new → BeforeStep opening (O.opened outside.old) is_resumed
        (O.seen outside.old).device → OfSame O.ours (O.seen outside.old).device (λ d. reported_found r ≡ copy_at
        (plan_at (O.opened outside.old)) (step.New direction uid flags mark) d)) }
    ensures part { StepPart number (O.opened outside.old) (O.honest outside.new)
        (BeforeStep opening (O.opened outside.old) is_resumed) (Underway opening) made_by
        (λ r. AfterStep opening (O.opened outside.old) (logged_of r)) (O.seen outside.old) (O.seen outside.new) result }
    ensures asked { Performs O.noted (known_at is_resumed (O.opened outside.old)) (known_past is_resumed (O.opened outside.old))
        (O.asked outside.old) (O.asked outside.new) result }
{
    if !is_resumed {
        return copy(outside, number, direction, uid, flags, mark);
    }
    match seek(outside, number, direction, mark)? {
        Some(copy) => Ok(StepResult::Found(copy)),
        None => copy(outside, number, direction, uid, flags, mark),
    }
}
