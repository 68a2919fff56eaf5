//! A step that changes flags of a message, or removes it.

ghost use Rattle.std.specs.Prelude.{◌≡◌, ◌∷◌, [], Some, IfOk, true, false};
ghost use Rattle.rules.specs.declared.plan.Step.TheVariants as step;
ghost use Rattle.sync_state.specs.declared.journal.Logged.TheVariants.{Done};
ghost use Rattle.law_outcome.specs.Steps.{changed_uid};
ghost use Rattle.run_states.specs.Conditions.{Underway};
ghost use Rattle.run_states.specs.Openings.{Opening};
ghost use Rattle.runner.specs.Asking.{Calls};
ghost use Rattle.runner.specs.Parts.{StepPart};
ghost use Rattle.runner.specs.Going.{IsGoing, DuringStep, AfterStep, BeforeStep, logged_of, made_by, next_at, sets_some};

use crate::fault::{RunFault, step_fault};
use crate::performed::StepResult;
use mailcore::flags::{Flag, Flags};
use mailcore::side::{Direction, Side};
use mailcore::uid::Uid;
use outside::outside::Outside;

/// Flags of a pair that go from one side to the other.
#[derive(Clone, Copy, PartialEq, Eq)]
pub(crate) struct FlagStep {
    /// To the side whose message changes.
    pub direction: Direction,
    /// The far message.
    pub far: Uid,
    /// The near message.
    pub near: Uid,
    /// The flags that are set.
    pub set: Flags,
    /// The flags that are cleared.
    pub cleared: Flags,
}

/// The message that changes.
fn changed_uid(direction: Direction, far: Uid, near: Uid) -> Uid
    ensures { result ≡ changed_uid direction far near }
{
    match direction {
        Direction::Pull => near,
        Direction::Push => far,
    }
}

/// Sets the flags, if the step sets any.
fn set_flags<O: Outside>(outside: &mut O, number: usize, flags: &FlagStep) -> Result<(), RunFault>
    ghost opening: { Opening O.ours O.alone }
    requires going { IsGoing (O.opened outside.old) }
    requires next { next_at (O.opened outside.old) ≡ Some (step.Flags flags.now.direction flags.now.far flags.now.near flags.now.set
        flags.now.cleared) }
    requires whole { (O.seen outside.old).is_broken ≡ false }
    requires map { opening.options.keywords ≡ O.keywords outside.old }
    ensures was_honest { O.honest outside.new → O.honest outside.old }
    ensures keywords { O.keywords outside.new ≡ O.keywords outside.old }
    ensures opened { O.opened outside.new ≡ O.opened outside.old }
    ensures idle { flags.now.set ≡ 0 → O.seen outside.new ≡ O.seen outside.old }
    ensures part { StepPart number (O.opened outside.old) (O.honest outside.new)
        (BeforeStep opening (O.opened outside.old) true) (Underway opening) (λ _. 0)
        (λ _. DuringStep opening (O.opened outside.old) (sets_some flags.now.set)) (O.seen outside.old)
        (O.seen outside.new) result }
    ensures asked { Calls O.noted (step.Flags flags.now.direction flags.now.far flags.now.near flags.now.set
        flags.now.cleared ∷ []) (O.asked outside.old) (O.asked outside.new) }
{
    if flags.set.is_empty() {
        return Ok(());
    }
    let side = flags.direction.target();
    let uid = changed_uid(flags.direction, flags.far, flags.near);
    match outside.add_flags(side, uid, flags.set) {
        Ok(()) => Ok(()),
        Err(fault) => Err(step_fault(fault, number)),
    }
}

/// Clears the flags, if the step clears any.
fn clear_flags<O: Outside>(outside: &mut O, number: usize, flags: &FlagStep) -> Result<(), RunFault>
    ghost opening: { Opening O.ours O.alone }
    requires going { IsGoing (O.opened outside.old) }
    requires next { next_at (O.opened outside.old) ≡ Some (step.Flags flags.now.direction flags.now.far flags.now.near flags.now.set
        flags.now.cleared) }
    requires whole { (O.seen outside.old).is_broken ≡ false }
    requires map { opening.options.keywords ≡ O.keywords outside.old }
    ensures was_honest { O.honest outside.new → O.honest outside.old }
    ensures keywords { O.keywords outside.new ≡ O.keywords outside.old }
    ensures opened { O.opened outside.new ≡ O.opened outside.old }
    ensures idle { flags.now.cleared ≡ 0 → O.seen outside.new ≡ O.seen outside.old }
    ensures part { StepPart number (O.opened outside.old) (O.honest outside.new)
        (DuringStep opening (O.opened outside.old) (sets_some flags.now.set))
        (Underway opening) (λ _. 0) (λ _. AfterStep opening (O.opened outside.old) Done) (O.seen outside.old)
        (O.seen outside.new) result }
    ensures asked { Calls O.noted (step.Flags flags.now.direction flags.now.far flags.now.near flags.now.set
        flags.now.cleared ∷ []) (O.asked outside.old) (O.asked outside.new) }
{
    if flags.cleared.is_empty() {
        return Ok(());
    }
    let side = flags.direction.target();
    let uid = changed_uid(flags.direction, flags.far, flags.near);
    match outside.remove_flags(side, uid, flags.cleared) {
        Ok(()) => Ok(()),
        Err(fault) => Err(step_fault(fault, number)),
    }
}

/// Performs a step that carries flags over: one call for those that are set, if there are any, and one for those that are cleared.
pub(crate) fn carry_flags<O: Outside>(
    outside: &mut O,
    number: usize,
    flags: &FlagStep,
) -> Result<StepResult, RunFault>
    ghost opening: { Opening O.ours O.alone }
    requires going { IsGoing (O.opened outside.old) }
    requires next { next_at (O.opened outside.old) ≡ Some (step.Flags flags.now.direction flags.now.far flags.now.near flags.now.set
        flags.now.cleared) }
    requires whole { (O.seen outside.old).is_broken ≡ false }
    requires map { opening.options.keywords ≡ O.keywords outside.old }
    ensures was_honest { O.honest outside.new → O.honest outside.old }
    ensures keywords { O.keywords outside.new ≡ O.keywords outside.old }
    ensures opened { O.opened outside.new ≡ O.opened outside.old }
    ensures idle { flags.now.set ≡ 0 → flags.now.cleared ≡ 0 → O.seen outside.new ≡ O.seen outside.old }
    ensures fits { IfOk result (λ r. logged_of r ≡ Done) }
    ensures part { StepPart number (O.opened outside.old) (O.honest outside.new)
        (BeforeStep opening (O.opened outside.old) true) (Underway opening) made_by
        (λ r. AfterStep opening (O.opened outside.old) (logged_of r)) (O.seen outside.old) (O.seen outside.new) result }
    ensures asked { Calls O.noted (step.Flags flags.now.direction flags.now.far flags.now.near flags.now.set
        flags.now.cleared ∷ []) (O.asked outside.old) (O.asked outside.new) }
{
    set_flags(outside, number, flags)?;
    clear_flags(outside, number, flags)?;
    Ok(StepResult::Plain)
}

/// Marks the message on the direction's target as deleted, since its counterpart has gone.
pub(crate) fn mark_deleted<O: Outside>(
    outside: &mut O,
    number: usize,
    direction: Direction,
    far: Uid,
    near: Uid,
) -> Result<StepResult, RunFault>
    ghost opening: { Opening O.ours O.alone }
    requires going { IsGoing (O.opened outside.old) }
    requires next { next_at (O.opened outside.old) ≡ Some (step.Gone direction far near) }
    ensures was_honest { O.honest outside.new → O.honest outside.old }
    ensures keywords { O.keywords outside.new ≡ O.keywords outside.old }
    ensures opened { O.opened outside.new ≡ O.opened outside.old }
    ensures fits { IfOk result (λ r. logged_of r ≡ Done) }
    ensures part { StepPart number (O.opened outside.old) (O.honest outside.new)
        (BeforeStep opening (O.opened outside.old) true) (Underway opening) made_by
        (λ r. AfterStep opening (O.opened outside.old) (logged_of r)) (O.seen outside.old) (O.seen outside.new) result }
    ensures asked { Calls O.noted (step.Gone direction far near ∷ []) (O.asked outside.old) (O.asked outside.new) }
{
    let side = direction.target();
    let uid = changed_uid(direction, far, near);
    match outside.add_flags(side, uid, Flags::only(Flag::Deleted)) {
        Ok(()) => Ok(StepResult::Plain),
        Err(fault) => Err(step_fault(fault, number)),
    }
}

/// Removes a message.
pub(crate) fn remove<O: Outside>(
    outside: &mut O,
    number: usize,
    side: Side,
    uid: Uid,
) -> Result<StepResult, RunFault>
    ghost opening: { Opening O.ours O.alone }
    requires going { IsGoing (O.opened outside.old) }
    requires next { next_at (O.opened outside.old) ≡ Some (step.Expunge side uid) }
    ensures was_honest { O.honest outside.new → O.honest outside.old }
    ensures keywords { O.keywords outside.new ≡ O.keywords outside.old }
    ensures opened { O.opened outside.new ≡ O.opened outside.old }
    ensures fits { IfOk result (λ r. logged_of r ≡ Done) }
    ensures part { StepPart number (O.opened outside.old) (O.honest outside.new)
        (BeforeStep opening (O.opened outside.old) true) (Underway opening) made_by
        (λ r. AfterStep opening (O.opened outside.old) (logged_of r)) (O.seen outside.old) (O.seen outside.new) result }
    ensures asked { Calls O.noted (step.Expunge side uid ∷ []) (O.asked outside.old) (O.asked outside.new) }
{
    match outside.expunge(side, uid) {
        Ok(()) => Ok(StepResult::Plain),
        Err(fault) => Err(step_fault(fault, number)),
    }
}
