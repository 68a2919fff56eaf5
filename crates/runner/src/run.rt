//! A whole run: it is begun, or resumed where its plan is pending, and its state is committed.

ghost use Rattle.std.specs.Prelude.{◌≡◌, ◌<◌, ◌+◌, ◌^◌, IsErr, OnOk, IfOk, false};
ghost use Rattle.outside.specs.Asked.{Begun};
ghost use Rattle.outside.specs.Opened.{IsBook, IsRead};
ghost use Rattle.run_states.specs.Conditions.{Underway};
ghost use Rattle.run_states.specs.Openings.{Opening, once_listed};
ghost use Rattle.runner.specs.Maps.{HasMapIn};
ghost use Rattle.runner.specs.Asking.{Asks, nothing};
ghost use Rattle.runner.specs.Faults.{or_repeats};
ghost use Rattle.runner.specs.Parts.{IsStuck, Part, PartOr, RunPart, Never};
ghost use Rattle.runner.specs.Validities.{IsKept};
ghost use Rattle.runner.specs.Going.{AreOpen, BeforeStep, plan_at};
ghost use Rattle.runner.specs.Before.{HasPlan, ReadUnderway, Resumed, world_shown};
ghost use Rattle.runner.specs.Results.{HasResults};
ghost use Rattle.runner.specs.Answers.{RunEnd, HasRepeats, PlanStart, PassStart, Moves, OfFiles, PassEnd, made_in, run_of};
ghost use Rattle.runner.specs.Attempts.{AnswersAt};
ghost use Rattle.runner.specs.PassStages.{DrawnStage, Frame, IsReadFor, LeavesSkipped, MayPlan, Proposed, ReadStage, Stage, plan_reasons, read_reasons, run_reasons};
ghost use Rattle.runner.specs.Passes.{LeavesMade, ReportsRun, pass_reasons};

use crate::concluding::conclude;
use crate::fault::RunFault;
use crate::opening::{clear, forget, list_both, open_boxes, recall, untear, write_plan};
use crate::pass::Pass;
use crate::planning::{all_skipped, make_plan};
use crate::progress::Progress;
use crate::same_map::same_map;
use crate::steps::carry_out;
use mailcore::side::Side;
use mailcore::uid::Uid;
use outside::outside::Outside;
use rand_core::Rng;
use rules::options::Options;
use std::alloc::Global;

/// Makes a plan and writes it. Messages that are not fit are reported.
fn propose<O: Outside, R: Rng>(
    alloc: Global,
    outside: &mut O,
    options: &Options,
    rng: &mut R,
) -> Result<Vec<(Side, Uid)>, RunFault>
    ghost opening: { Opening O.ours O.alone }
    requires ready { MayPlan O.Outside opening outside.old }
    ensures frame { Frame O.Outside outside.old outside.new }
    ensures moved { Moves (R.stream rng.old) (R.stream rng.new) }
    ensures proposed { IfOk result (λ unfit. Proposed O.Outside opening options.now (R.stream rng.old) outside.old outside.new
        unfit.items) }
    ensures part { PartOr (or_repeats (HasRepeats opening (O.opened outside.new) (O.honest outside.new) (PlanStart opening (O.opened outside.old)
        options.now (R.stream rng.old) (O.seen outside.old).device) options.now (R.stream rng.old)) (plan_reasons O.Outside outside.old outside.new))
        (O.honest outside.new) (PlanStart opening (O.opened outside.old) options.now (R.stream rng.old)) (Underway opening) (λ _. 0)
        (λ _. BeforeStep (once_listed opening (world_shown (O.opened outside.new))) (O.opened outside.new) false) (O.seen outside.old)
        (O.seen outside.new) result }
    ensures begun { OnOk result (O.asked outside.new ≡ O.noted (O.asked outside.old) (Begun (plan_at (O.opened outside.new)))) }
    ensures asked { Asks O.noted nothing (O.asked outside.old) (O.asked outside.new) }
{
    clear(outside)?;
    let both = list_both(alloc, outside)?;
    let plan = make_plan(alloc, outside, &both, options, rng)?;
    let unfit = all_skipped(alloc, outside, &both, options)?;
    write_plan(outside, plan)?;
    Ok(unfit)
}

/// Makes a plan and carries it out.
fn begin<O: Outside, R: Rng, P: Progress>(
    alloc: Global,
    outside: &mut O,
    options: &Options,
    rng: &mut R,
    progress: &P,
) -> Result<Pass, RunFault>
    ghost opening: { Opening O.ours O.alone }
    requires ready { MayPlan O.Outside opening outside.old }
    ensures stage { DrawnStage O.Outside opening (run_of (O.opened outside.old) + 1) options.now (R.stream rng.old) (R.stream rng.new)
        (plan_reasons O.Outside outside.old outside.new) (PlanStart opening (O.opened outside.old) options.now (R.stream rng.old))
        (RunEnd opening) outside.old outside.new result }
{
    let unfit = propose(alloc, outside, options, rng)?;
    let performed = carry_out(alloc, outside, false, progress)?;
    conclude(outside, false)?;
    Ok(Pass::Ran(performed, unfit))
}

/// Goes on with a plan that is pending.
fn resume<O: Outside, P: Progress>(
    alloc: Global,
    outside: &mut O,
    progress: &P,
) -> Result<Pass, RunFault>
    ghost opening: { Opening O.ours O.alone }
    requires book { IsBook (O.opened outside.old) }
    requires plan { HasPlan (O.opened outside.old) }
    requires boxes { AreOpen (O.opened outside.old) }
    requires map { opening.options.keywords ≡ O.keywords outside.old }
    ensures stage { Stage O.Outside opening (run_of (O.opened outside.old) + 1) Never (Resumed opening (O.opened outside.old))
        (RunEnd opening) outside.old outside.new result }
{
    untear(outside)?;
    let performed = carry_out(alloc, outside, true, progress)?;
    conclude(outside, true)?;
    Ok(Pass::Finished(performed))
}

/// The run's number is taken: a journal goes, unless it holds a plan of the next run.
fn skip<O: Outside>(outside: &mut O) -> Result<Pass, RunFault>
    ghost opening: { Opening O.ours O.alone }
    requires read { IsRead (O.opened outside.old) }
    requires whole { (O.seen outside.old).is_broken ≡ false }
    ensures frame { Frame O.Outside outside.old outside.new }
    ensures answer { IfOk result (λ pass. pass ≡ Pass.Already) }
    ensures made { OnOk result (LeavesSkipped O.Outside outside.old outside.new) }
    ensures part { Part (O.honest outside.new) (ReadUnderway opening (O.opened outside.old)) (Underway opening) made_in
        (λ _. PassEnd opening (run_of (O.opened outside.old))) (O.seen outside.old) (O.seen outside.new) result }
    ensures asked { O.asked outside.new ≡ O.asked outside.old }
{
    forget(outside)?;
    Ok(Pass::Already)
}

/// Finishes the plan that is pending, or makes one and carries it out.
fn work<O: Outside, R: Rng, P: Progress>(
    alloc: Global,
    outside: &mut O,
    options: &Options,
    rng: &mut R,
    progress: &P,
) -> Result<Pass, RunFault>
    ghost opening: { Opening O.ours O.alone }
    requires book { IsBook (O.opened outside.old) }
    requires boxes { AreOpen (O.opened outside.old) }
    requires room { run_of (O.opened outside.old) + 1 < 2 ^ 64 }
    requires mapped { HasMapIn options.now.keywords (O.opened outside.old) }
    requires map { opening.options.keywords ≡ O.keywords outside.old }
    ensures stage { ReadStage O.Outside opening (run_of (O.opened outside.old) + 1) options.now (R.stream rng.old) (R.stream rng.new)
        (plan_reasons O.Outside outside.old outside.new) (RunEnd opening) outside.old outside.new result }
{
    if outside.pending().is_some() {
        resume(alloc, outside, progress)
    } else {
        begin(alloc, outside, options, rng, progress)
    }
}

/// Opens both boxes first, and looks whether a plan that is pending goes by the map handed in.
fn open_and_work<O: Outside, R: Rng, P: Progress>(
    alloc: Global,
    outside: &mut O,
    options: &Options,
    rng: &mut R,
    progress: &P,
) -> Result<Pass, RunFault>
    ghost opening: { Opening O.ours O.alone }
    requires book { IsBook (O.opened outside.old) }
    requires room { run_of (O.opened outside.old) + 1 < 2 ^ 64 }
    requires map { O.keywords outside.old ≡ options.now.keywords }
    ensures stage { ReadStage O.Outside opening (run_of (O.opened outside.old) + 1) options.now (R.stream rng.old) (R.stream rng.new)
        (read_reasons O.Outside options.now.keywords outside.old outside.new) (RunEnd opening) outside.old outside.new result }
{
    open_boxes(outside)?;
    same_map(outside, options)?;
    work(alloc, outside, options, rng, progress)
}

/// Makes the run of this number, or resumes it, once the shelf was read. A run that was made before is skipped.
fn make_or_resume<O: Outside, R: Rng, P: Progress>(
    alloc: Global,
    outside: &mut O,
    run: u64,
    options: &Options,
    rng: &mut R,
    progress: &P,
) -> Result<Pass, RunFault>
    ghost opening: { Opening O.ours O.alone }
    requires read { IsReadFor O.Outside options.now outside.old }
    ensures stage { ReadStage O.Outside opening run options.now (R.stream rng.old) (R.stream rng.new)
        (run_reasons O.Outside run options.now.keywords outside.old outside.new) (PassEnd opening run) outside.old outside.new result }
    ensures made { IfOk result (λ pass. pass ≡ Pass.Already → LeavesSkipped O.Outside outside.old outside.new) }
    ensures beyond { run_of (O.opened outside.old) + 1 < run → IsErr result × (O.seen outside.new ≡ O.seen outside.old) }
{
    let last = outside.state().run;
    if run <= last {
        return skip(outside);
    }
    if run - last > 1 {
        return Err(RunFault::BadState(0));
    }
    open_and_work(alloc, outside, options, rng, progress)
}

/// Carries out the run of this number, or resumes it if its plan is pending.
///
/// `BadState(0)`: the last run recorded is not the one before. `Stopped`: it was interrupted, and the next call resumes it.
/// `KeywordsChanged`: its plan was made by another map of keywords, and nothing has changed; by that map it can be resumed.
pub fn pass<O: Outside, R: Rng, P: Progress>(
    alloc: Global,
    outside: &mut O,
    run: u64,
    options: &Options,
    rng: &mut R,
    progress: &P,
) -> Result<Pass, RunFault>
    ghost opening: { Opening O.ours O.alone }
    requires map { O.keywords outside.old ≡ options.now.keywords }
    ensures was_honest { O.honest outside.new → O.honest outside.old }
    ensures keywords { O.keywords outside.new ≡ O.keywords outside.old }

    // Whatever others do meanwhile, and whatever calls answer: each call that changes, removes or copies a message is one that a step of the
    // plan calls for, which is the plan that was last read from the journal or written into it. A copy is asked for once where the plan was
    // written since, and else right after a look that has found none under its mark.
    ensures asked { Asks O.noted nothing (O.asked outside.old) (O.asked outside.new) }

    // The answer depends on what the files held: the run was made before, its plan was pending, or it is planned now, as the rules
    // call for, with the marks that the generator gave as pairs of words.
    ensures answers { IfOk result (λ pass. O.honest outside.new
        → AnswersAt run options.now pass (O.seen outside.old).device (R.stream rng.old)) }
    ensures moved { Moves (R.stream rng.old) (R.stream rng.new) }

    // Each copy that is reported stands with its source in an entry of the new state.
    ensures results { IfOk result (λ pass. O.honest outside.new → HasResults pass (O.seen outside.new).device) }

    // If the run was underway, the answer reports its steps, and the end is what the rules prescribe for the world that it began with.
    ensures reported { IfOk result (λ pass. O.honest outside.new → PassStart opening run options.now (R.stream rng.old)
        (O.seen outside.old).device → ReportsRun opening run (O.opened outside.new) pass (O.seen outside.old).device (O.seen outside.new).device) }

    // A run that was made before is not made again. A run after the next one is refused, and nothing has changed. On an outside that had
    // failed before, it stops.
    ensures made { IfOk result (λ pass. pass ≡ Pass.Already
        → LeavesMade (O.honest outside.new) O.alone (O.seen outside.old).device (O.seen outside.new).device) }
    ensures beyond { OfFiles (O.honest outside.new) (O.seen outside.old).device (λ s p. s.run + 1 < run
        → IsErr result × IsKept O.alone (O.seen outside.old).device (O.seen outside.new).device) }
    ensures stuck { IsStuck (O.seen outside.old) (O.seen outside.new) result }

    // A run that is underway is over if this succeeds. After any error it is still underway, and the error has its cause. A step that is
    // reported as refused is the one after the last that is logged.
    ensures part { RunPart (pass_reasons (O.opened outside.new) (O.honest outside.new) opening run options.now (R.stream rng.old)
        (O.seen outside.old).device (O.seen outside.new).device) (O.opened outside.new) (O.honest outside.new) (PassStart opening run
        options.now (R.stream rng.old)) (Underway opening) made_in (λ _. PassEnd opening run) (O.seen outside.old)
        (O.seen outside.new) result }
{
    recall(outside)?;
    make_or_resume(alloc, outside, run, options, rng, progress)
}
