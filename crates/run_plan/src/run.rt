//! The program `mbplan`, over readers and writers.

ghost use Rattle.std.specs.Prelude.{◌≡◌, ◌≤◌, ◌<◌, IsErr};
ghost use Rattle.std.specs.Io.KnownBytes.{Keeps};

use crate::failure::PlanFailure;
use mailcore::marks::draw_marks;
use mailcore::side::Side;
use mailcore::uid::Uid;
use planner::news::news;
use planner::plan::plan;
use planner::unfit::unfit;
use rules::plan::Plan;
use std::alloc::{AllocError, Global};
use std::io;
use std::io::{Read, Write};
use worlds::listed::{ListedWorld, read_listed_world};
use worlds::plan_lines::{NoteLine, StepLine, UnfitLine};
use worlds::trial_generator::TrialGenerator;

/// Whether a program is given arguments.
#[derive(Clone, Copy, PartialEq, Eq)]
pub enum PlanArguments {
    /// None.
    Absent,
    /// One or more.
    Given,
}

/// Reads a world from `input` and writes its plan to `out`: a line for each step and note, and for each message that
/// is not fit to be copied. It gives the program's exit status.
///
/// With status 0 the whole plan is written. Else `err` gets the reason why there is none, and nothing of a plan is written
/// unless `out` failed: status 2 for arguments, which are not taken, and for a bad text; status 1 for a UIDVALIDITY
/// that has changed, where memory ran out, and where reading or writing failed.
pub fn run_plan<I: Read, O: Write, E: Write>(
    alloc: Global,
    arguments: PlanArguments,
    input: &mut I,
    out: &mut O,
    err: &mut E,
) -> u8
    ensures status { result ≤ 2 }
    ensures none_taken { arguments ≡ PlanArguments.Given → 0 < result }
    ensures nothing_reported { result ≡ 0 → Keeps (E.contents err.old) (E.contents err.new) }
    ensures nothing_printed { result ≡ 2 → Keeps (O.contents out.old) (O.contents out.new) }
{
    match plan_text(alloc, arguments, input) {
        Ok(text) => match print(out, text.as_bytes()) {
            Ok(()) => 0,
            Err(_) => 1,
        },
        Err(failure) => match writeln!(err, "mbplan: {failure}") {
            Ok(()) => failure.status(),
            Err(_) => 1,
        },
    }
}

fn print<O: Write>(out: &mut O, text: &[u8]) -> io::Result<()> {
    out.write_all(text)?;
    out.flush()
}

/// The lines of the plan of the world that is read.
fn plan_text<I: Read>(
    alloc: Global,
    arguments: PlanArguments,
    input: &mut I,
) -> Result<String, PlanFailure>
    ensures { arguments ≡ PlanArguments.Given → IsErr result }
{
    if arguments == PlanArguments::Given {
        return Err(PlanFailure::Usage);
    }
    let world = input_world(alloc, input)?;
    plan_lines(alloc, &world)
}

/// The world whose text is read. The text is let go before there is a plan.
fn input_world<I: Read>(alloc: Global, input: &mut I) -> Result<ListedWorld, PlanFailure> {
    let mut text = Vec::new(alloc);
    input.read_to_end(&mut text)?;
    Ok(read_listed_world(alloc, &text)?)
}

/// The lines of the plan of a world.
fn plan_lines(alloc: Global, world: &ListedWorld) -> Result<String, PlanFailure> {
    let plan = trial_plan(alloc, world)?;
    let unfit = unfit(alloc, &world.far, &world.near, &world.state, &world.options)?;
    Ok(lines_of(alloc, &plan, &unfit)?)
}

/// The plan of a world, with marks of the trial generator.
fn trial_plan(alloc: Global, world: &ListedWorld) -> Result<Plan, PlanFailure> {
    let ListedWorld {
        options,
        far,
        near,
        state,
    } = world;
    let count = news(far, near, state, options);
    let marks = draw_marks(alloc, &mut TrialGenerator::new(), count)?;
    Ok(plan(alloc, far, near, state, options, &marks)?)
}

fn lines_of(alloc: Global, plan: &Plan, unfit: &[(Side, Uid)]) -> Result<String, AllocError> {
    let mut text = String::new(alloc);
    for step in plan.steps.as_slice() {
        writeln!(text, "{}", StepLine(step))?;
    }
    for note in plan.notes.as_slice() {
        writeln!(text, "{}", NoteLine(note))?;
    }
    for (side, uid) in unfit {
        writeln!(text, "{}", UnfitLine(*side, *uid))?;
    }
    Ok(text)
}
