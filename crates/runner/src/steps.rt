//! The steps of the plan that is pending, one after another.

ghost use Rattle.std.specs.Prelude.{◌≡◌, ◌∷◌, [], All, None, Some, drop, length, IfOk, OnOk, false};
ghost use Rattle.book.specs.Books.{torn, Turns, TurnsHalf};
ghost use Rattle.book.specs.BookLogs.{logged_more};
ghost use Rattle.sync_state.specs.JournalText.{FitsStep};
ghost use Rattle.outside.specs.Arrivals.{Arrives};
ghost use Rattle.outside.specs.BookCalls.{FromLog, OfBook};
ghost use Rattle.outside.specs.Opened.{TakesLog, turned};
ghost use Rattle.run_states.specs.Conditions.{Underway};
ghost use Rattle.run_states.specs.Openings.{Opening};
ghost use Rattle.runner.specs.Asking.{Asks, Performs, known_at, known_past};
ghost use Rattle.runner.specs.Parts.{Never, PartOr, RunPart, StepPart};
ghost use Rattle.runner.specs.Going.{IsGoing, AfterStep, BeforeStep, FitsNext, HasLogged, log_at, logged_of, logs_of, made, made_by, next_at, number_at, plan_at, steps_of};
ghost use Rattle.runner.specs.Finding.{AreFoundSo, IsFoundSo, OfSame, copy_at, reported_found};
ghost use Rattle.outside.specs.Calls.{Writes};

use crate::changing::{FlagStep, carry_flags, mark_deleted, remove};
use crate::copying::bring;
use crate::fault::{RunFault, step_fault};
use crate::pending::next_step;
use crate::performed::{Performed, StepResult};
use crate::progress::{Progress, report_logged};
use outside::fault::OutsideFault;
use outside::outside::Outside;
use rules::plan::Step;
use std::alloc::Global;
use sync_state::journal::Logged;

/// Performs the next step. Where the plan was resumed, what is done already makes no difference.
fn perform<O: Outside>(
    outside: &mut O,
    number: usize,
    step: &Step,
    is_resumed: bool,
) -> Result<StepResult, RunFault>
    ghost opening: { Opening O.ours O.alone }
    requires going { IsGoing (O.opened outside.old) }
    requires next { next_at (O.opened outside.old) ≡ Some step.now }
    requires whole { (O.seen outside.old).is_broken ≡ false }
    requires map { opening.options.keywords ≡ O.keywords outside.old }
    ensures was_honest { O.honest outside.new → O.honest outside.old }
    ensures keywords { O.keywords outside.new ≡ O.keywords outside.old }
    ensures opened { O.opened outside.new ≡ O.opened outside.old }
    ensures fits { IfOk result (λ r. FitsStep step.now (logged_of r)) }
    ensures found { IfOk result (λ r. O.honest outside.new → BeforeStep opening (O.opened outside.old) is_resumed
        (O.seen outside.old).device → OfSame O.ours (O.seen outside.old).device (λ d. reported_found r ≡ copy_at
        (plan_at (O.opened outside.old)) step.now d)) }
    ensures part { StepPart number (O.opened outside.old) (O.honest outside.new)
        (BeforeStep opening (O.opened outside.old) is_resumed) (Underway opening) made_by
        (λ r. AfterStep opening (O.opened outside.old) (logged_of r)) (O.seen outside.old) (O.seen outside.new) result }
    ensures asked { Performs O.noted (known_at is_resumed (O.opened outside.old)) (known_past is_resumed (O.opened outside.old))
        (O.asked outside.old) (O.asked outside.new) result }
{
    match *step {
        Step::New {
            direction,
            uid,
            flags,
            mark,
        } => bring(outside, number, direction, uid, flags, mark, is_resumed),
        Step::Gone {
            direction,
            far,
            near,
        } => mark_deleted(outside, number, direction, far, near),
        Step::Flags {
            direction,
            far,
            near,
            set,
            cleared,
        } => {
            let flags = FlagStep {
                direction,
                far,
                near,
                set,
                cleared,
            };
            carry_flags(outside, number, &flags)
        }
        Step::Expunge { side, uid } => remove(outside, number, side, uid),
    }
}

/// How a result is logged.
fn logged_as(became: &StepResult) -> Logged
    ensures { result ≡ logged_of became.now }
{
    match *became {
        StepResult::Made(copy) | StepResult::Found(copy) => Logged::Copied(copy),
        StepResult::Plain => Logged::Done,
        StepResult::Void => Logged::Void,
    }
}

/// Logs the step of this number so.
fn write<O: Outside>(outside: &mut O, number: usize, logged: Logged) -> Result<(), OutsideFault>
    requires takes { TakesLog (O.opened outside.old) number logged }
    ensures was_honest { O.honest outside.new → O.honest outside.old }
    ensures keywords { O.keywords outside.new ≡ O.keywords outside.old }
    ensures opened { OnOk result (O.opened outside.new ≡ turned (λ p. logged_more p logged) (O.opened outside.old)) }
    ensures call { Writes (O.honest outside.new) (Arrives O.ours O.alone) (FromLog (O.opened outside.old) logged)
        (OfBook (λ p. Turns p (logged_more p logged)) (O.opened outside.old)) (OfBook (λ p. TurnsHalf p (torn p)) (O.opened outside.old))
        (O.seen outside.old) (O.seen outside.new) result }
    ensures asked { O.asked outside.new ≡ O.asked outside.old }
{
    match logged {
        Logged::Copied(copy) => outside.done(number, Some(copy)),
        Logged::Done => outside.done(number, None),
        Logged::Void => outside.void(number),
    }
}

/// Logs what became of the next step.
fn log<O: Outside>(outside: &mut O, number: usize, became: &StepResult) -> Result<(), RunFault>
    ghost opening: { Opening O.ours O.alone }
    requires going { IsGoing (O.opened outside.old) }
    requires number { number ≡ number_at (O.opened outside.old) }
    requires fits { FitsNext (next_at (O.opened outside.old)) (logged_of became.now) }
    ensures was_honest { O.honest outside.new → O.honest outside.old }
    ensures keywords { O.keywords outside.new ≡ O.keywords outside.old }
    ensures opened { OnOk result (HasLogged (O.opened outside.old) (O.opened outside.new) (logged_of became.now ∷ [])) }
    ensures part { PartOr Never (O.honest outside.new)
        (AfterStep opening (O.opened outside.old) (logged_of became.now)) (Underway opening) (λ _. 0)
        (λ _. BeforeStep opening (O.opened outside.new) false) (O.seen outside.old) (O.seen outside.new) result }
    ensures asked { O.asked outside.new ≡ O.asked outside.old }
{
    match write(outside, number, logged_as(became)) {
        Ok(()) => Ok(()),
        Err(fault) => Err(step_fault(fault, number)),
    }
}

/// Performs the step that is next, and logs it.
fn advance<O: Outside>(
    outside: &mut O,
    number: usize,
    step: Step,
    is_resumed: bool,
) -> Result<Performed, RunFault>
    ghost opening: { Opening O.ours O.alone }
    requires going { IsGoing (O.opened outside.old) }
    requires number { number ≡ number_at (O.opened outside.old) }
    requires next { next_at (O.opened outside.old) ≡ Some step }
    requires whole { (O.seen outside.old).is_broken ≡ false }
    requires map { opening.options.keywords ≡ O.keywords outside.old }
    ensures was_honest { O.honest outside.new → O.honest outside.old }
    ensures keywords { O.keywords outside.new ≡ O.keywords outside.old }
    ensures opened { IfOk result (λ p. HasLogged (O.opened outside.old) (O.opened outside.new) (logged_of p.result ∷ [])) }
    ensures step { IfOk result (λ p. p.step ≡ step) }
    ensures fits { IfOk result (λ p. FitsStep p.step (logged_of p.result)) }
    ensures found { IfOk result (λ p. O.honest outside.new → BeforeStep opening (O.opened outside.old) is_resumed
        (O.seen outside.old).device → OfSame O.ours (O.seen outside.old).device (λ d. IsFoundSo (plan_at (O.opened outside.old)) d p)) }
    ensures part { RunPart Never (O.opened outside.new) (O.honest outside.new)
        (BeforeStep opening (O.opened outside.old) is_resumed) (Underway opening) (λ p. made_by p.result)
        (λ _. BeforeStep opening (O.opened outside.new) false) (O.seen outside.old) (O.seen outside.new) result }
    ensures asked { Performs O.noted (known_at is_resumed (O.opened outside.old)) (known_at is_resumed (O.opened outside.new))
        (O.asked outside.old) (O.asked outside.new) result }
{
    let result = perform(outside, number, &step, is_resumed)?;
    log(outside, number, &result)?;
    Ok(Performed { step, result })
}

/// Performs and logs the steps that are not logged yet, in order, and gives what became of them. How many are logged is reported before
/// the first of them, and after each.
pub(crate) fn carry_out<O: Outside, P: Progress>(
    alloc: Global,
    outside: &mut O,
    is_resumed: bool,
    progress: &P,
) -> Result<Vec<Performed>, RunFault>
    ghost opening: { Opening O.ours O.alone }
    requires going { IsGoing (O.opened outside.old) }
    requires whole { (O.seen outside.old).is_broken ≡ false }
    requires map { opening.options.keywords ≡ O.keywords outside.old }
    ensures was_honest { O.honest outside.new → O.honest outside.old }
    ensures keywords { O.keywords outside.new ≡ O.keywords outside.old }
    ensures opened { IfOk result (λ performed. HasLogged (O.opened outside.old) (O.opened outside.new) (logs_of performed.items)) }
    ensures ended { OnOk result (next_at (O.opened outside.new) ≡ None) }
    ensures steps { IfOk result (λ performed. steps_of performed.items ≡ drop (length (log_at (O.opened outside.old)))
        (plan_at (O.opened outside.old)).steps) }
    ensures fits { IfOk result (λ performed. All (λ p. FitsStep p.step (logged_of p.result)) performed.items) }
    ensures found { IfOk result (λ performed. O.honest outside.new → BeforeStep opening (O.opened outside.old) is_resumed
        (O.seen outside.old).device → OfSame O.ours (O.seen outside.old).device (λ d. AreFoundSo (plan_at (O.opened outside.old)) d
        performed.items)) }
    ensures part { RunPart Never (O.opened outside.new) (O.honest outside.new) (BeforeStep opening (O.opened outside.old) is_resumed)
        (Underway opening) (λ performed. made performed.items)
        (λ _. BeforeStep opening (O.opened outside.new) is_resumed) (O.seen outside.old) (O.seen outside.new) result }
    ensures asked { Asks O.noted (known_at is_resumed (O.opened outside.old)) (O.asked outside.old) (O.asked outside.new) }
{
    let mut performed = Vec::new(alloc);
    report_logged(outside, progress);
    while let Some((number, step)) = next_step(outside) {
        let Ok(()) = performed.try_reserve(1) else {
            return Err(RunFault::NoMemory);
        };
        let one = advance(outside, number, step, is_resumed)?;
        report_logged(outside, progress);
        let Ok(()) = performed.push(one) else {
            return Err(RunFault::NoMemory);
        };
    }
    Ok(performed)
}
