//! A run in several attempts, each after one that met a stop.

ghost use Rattle.std.specs.Prelude.{◌≡◌, ◌≤◌, ◌+◌, [], None, Some, OnOk, OnErr, IfOk, IfErr, false, ℕ};
ghost use Rattle.run_states.specs.Openings.{Opening};
ghost use Rattle.runner.specs.Answers.{Moves};
ghost use Rattle.runner.specs.Asking.{Asks, nothing};
ghost use Rattle.runner.specs.AttemptStages.{Attempt};
ghost use Rattle.runner.specs.Attempts.{AtOpening, FromOpening, HasNoNext, HasReached, IsReached, AttemptAt, found_by};
ghost use Rattle.runner.specs.Faults.{ReportsLastRun, ReportsUnread, or_greatest, or_unread};
ghost use Rattle.runner.specs.Finding.{FindsSame};
ghost use Rattle.runner.specs.PassStages.{Frame};
ghost use Rattle.runner.specs.Parts.{IsStuck, Never, PartOr};
ghost use Rattle.runner.specs.Results.{HasResults};
ghost use Rattle.runner.specs.Settled.{CountsAttempts, HasReason, IsSettled, IsUnsettled};
ghost use Rattle.runner.specs.Validities.{IsKept};

use crate::fault::{RunFault, call_fault};
use crate::pass::{Pass, Settled};
use crate::progress::Progress;
use crate::run::pass;
use outside::outside::Outside;
use rand_core::Rng;
use rules::options::Options;
use std::alloc::Global;

/// The number of the run: the state's and 1. `BadState(2)`: the state's is the greatest.
fn next_run<O: Outside>(outside: &mut O) -> Result<u64, RunFault>
    ghost opening: { Opening O.ours O.alone }
    ensures frame { Frame O.Outside outside.old outside.new }
    ensures number { IfOk result (λ number. O.honest outside.new → HasReached number (O.seen outside.new).device.files) }
    ensures kept { OnOk result (O.honest outside.new → IsKept O.alone (O.seen outside.old).device (O.seen outside.new).device) }
    ensures greatest { HasNoNext (O.honest outside.new) O.alone (O.seen outside.old).device (O.seen outside.new).device result }
    ensures same { OnOk result (O.honest outside.new → FindsSame O.ours (O.seen outside.old).device (O.seen outside.new).device) }
    ensures stuck { IsStuck (O.seen outside.old) (O.seen outside.new) result }
    ensures part { PartOr (or_unread (ReportsUnread (O.honest outside.new) (O.seen outside.new).device)
        (or_greatest (ReportsLastRun (O.opened outside.new) (O.honest outside.new) (O.seen outside.new).device) Never))
        (O.honest outside.new) (AtOpening opening) (AtOpening opening)
        (λ _. 0) (λ number d. (number ≡ opening.world.state.run + 1) × AtOpening opening d) (O.seen outside.old)
        (O.seen outside.new) result }
    ensures asked { Asks O.noted nothing (O.asked outside.old) (O.asked outside.new) }
{
    match outside.open_book() {
        Ok(()) => {
            let last = outside.state().run;
            if last == u64::MAX {
                return Err(RunFault::BadState(2));
            }
            Ok(last + 1)
        }
        Err(fault) => Err(call_fault(fault)),
    }
}

/// The run's number, which is fixed at the first reading that is not stopped.
fn fix_run<O: Outside>(outside: &mut O, run: &mut Option<u64>) -> Result<u64, RunFault>
    ghost opening: { Opening O.ours O.alone }
    requires whole { (number : ℕ) → run.old ≡ Some number → (O.seen outside.old).is_broken ≡ false }
    ensures frame { Frame O.Outside outside.old outside.new }
    ensures unfixed { OnErr result ((run.old ≡ None) × (run.new ≡ None)) }
    ensures fixed { IfOk result (λ number. run.new ≡ Some number) }
    ensures number { IfOk result (λ number. O.honest outside.new → IsReached run.old (O.seen outside.old).device.files
        → HasReached number (O.seen outside.new).device.files) }
    ensures kept { OnOk result (O.honest outside.new → IsKept O.alone (O.seen outside.old).device (O.seen outside.new).device) }
    ensures greatest { run.old ≡ None → HasNoNext (O.honest outside.new) O.alone (O.seen outside.old).device (O.seen outside.new).device result }
    ensures same { OnOk result (O.honest outside.new → FindsSame O.ours (O.seen outside.old).device (O.seen outside.new).device) }
    ensures stuck { IsStuck (O.seen outside.old) (O.seen outside.new) result }
    ensures part { PartOr (or_unread (ReportsUnread (O.honest outside.new) (O.seen outside.new).device)
        (or_greatest (ReportsLastRun (O.opened outside.new) (O.honest outside.new) (O.seen outside.new).device) Never))
        (O.honest outside.new) (AttemptAt opening run.old) (AttemptAt opening run.new)
        (λ _. 0) (λ _. AttemptAt opening run.new) (O.seen outside.old) (O.seen outside.new) result }
    ensures asked { Asks O.noted nothing (O.asked outside.old) (O.asked outside.new) }
{
    if let Some(number) = *run {
        return Ok(number);
    }
    let number = next_run(outside)?;
    *run = Some(number);
    Ok(number)
}

/// One attempt.
fn attempt<O: Outside, R: Rng, P: Progress>(
    alloc: Global,
    outside: &mut O,
    run: &mut Option<u64>,
    options: &Options,
    rng: &mut R,
    progress: &P,
) -> Result<Pass, RunFault>
    ghost opening: { Opening O.ours O.alone }
    requires whole { (number : ℕ) → run.old ≡ Some number → (O.seen outside.old).is_broken ≡ false }
    requires map { O.keywords outside.old ≡ options.now.keywords }
    ensures attempt { Attempt O.Outside opening options.now (R.stream rng.old) (R.stream rng.new) run.old run.new outside.old
        outside.new result }
    ensures asked { Asks O.noted nothing (O.asked outside.old) (O.asked outside.new) }
{
    let number = fix_run(outside, run)?;
    pass(alloc, outside, number, options, rng, progress)
}

/// Opens all again, but for the first attempt.
fn again<O: Outside>(outside: &mut O, tried: u32)
    ensures frame { Frame O.Outside outside.old outside.new }
    ensures seen { O.seen outside.new ≡ found_by tried (O.seen outside.old) }
    ensures asked { O.asked outside.new ≡ O.asked outside.old }
{
    if tried == 0 {
        return;
    }
    outside.reopen();
}

/// Carries out one run, the one after the state's, in up to `tries` attempts. An attempt that is interrupted is followed by the next one.
///
/// `Stopped`: each attempt was interrupted; the first counts as interrupted if the outside had failed before. Any other error ends the run
/// at once. `BadState(2)`: the state has the greatest run number. After an error call `reopen` first, or lose an attempt.
pub fn settle<O: Outside, R: Rng, P: Progress>(
    alloc: Global,
    outside: &mut O,
    options: &Options,
    tries: u32,
    rng: &mut R,
    progress: &P,
) -> Result<Settled, RunFault>
    ghost opening: { Opening O.ours O.alone }
    requires map { O.keywords outside.old ≡ options.now.keywords }
    ensures was_honest { O.honest outside.new → O.honest outside.old }
    ensures keywords { O.keywords outside.new ≡ O.keywords outside.old }

    // Whatever others do meanwhile, and whatever calls answer: each call that changes, removes or copies a message is one that a step of the
    // plan calls for, which is the plan that was last read from the journal or written into it. A copy is asked for once where the plan was
    // written since, and else right after a look that has found none under its mark.
    ensures asked { Asks O.noted nothing (O.asked outside.old) (O.asked outside.new) }

    // If it succeeds, the run is over: both mailboxes and the state are what the rules prescribe for the world that it began with. The
    // answer says what the last attempt did. If it fails, the run is still pending, and the next call resumes it.
    ensures done { IfOk result (λ settled. FromOpening (O.honest outside.new) opening options.now (R.stream rng.old)
        (O.seen outside.old).device
        (IsSettled opening (O.opened outside.new) options.now (R.stream rng.old) settled (O.seen outside.old) (O.seen outside.new))) }
    ensures left { IfErr result (λ fault. FromOpening (O.honest outside.new) opening options.now (R.stream rng.old)
        (O.seen outside.old).device (IsUnsettled opening tries (R.stream rng.old) fault (O.seen outside.old) (O.seen outside.new))) }

    // Each copy that is reported stands with its source in an entry of the new state.
    ensures results { IfOk result (λ settled. O.honest outside.new → HasResults settled.last (O.seen outside.new).device) }

    // Each error but `Stopped` has its cause. After the run with the greatest number there is no other.
    ensures caused { IfErr result (λ fault. HasReason (O.opened outside.new) (O.honest outside.new) opening options.now (R.stream rng.old)
        (R.stream rng.new) fault (O.seen outside.old) (O.seen outside.new)) }
    ensures greatest { HasNoNext (O.honest outside.new) O.alone (O.seen outside.old).device (O.seen outside.new).device result }

    // Each attempt but the last was interrupted once; if the answer is `Stopped`, the last was too. A copy that is reported as found was not
    // made again by the last one. Marks are drawn as pairs of words.
    ensures counts { CountsAttempts tries (O.seen outside.old) (O.seen outside.new) result }
    ensures stuck { tries ≤ 1 → IsStuck (O.seen outside.old) (O.seen outside.new) result }
    ensures moved { Moves (R.stream rng.old) (R.stream rng.new) }
{
    let mut run = None;
    for tried in 0..tries {
        again(outside, tried);
        match attempt(alloc, outside, &mut run, options, rng, progress) {
            Ok(last) => {
                return Ok(Settled { stops: tried, last });
            }
            Err(RunFault::Stopped) => {}
            Err(fault) => {
                return Err(fault);
            }
        }
    }
    Err(RunFault::Stopped)
}
