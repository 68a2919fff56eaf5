//! How the answer of a run is reported.

ghost use Rattle.std.specs.Prelude.{◌≡◌, ◌++◌, IfOk, OnOk, string_bytes};
ghost use Rattle.std.specs.List.{flat_map};
ghost use Rattle.reports.specs.Answers.{answer_of, answer_word, performed_in, performed_row, unfit_in, unfit_row};

use crate::performed::PerformedLine;
use mailcore::side::Side;
use mailcore::uid::Uid;
use runner::pass::Pass;
use runner::performed::Performed;
use std::alloc::{AllocError, Global};
use worlds::plan_lines::UnfitLine;

/// The word that an answer is reported with.
pub fn answer_word(pass: &Pass) -> &'static str
    ensures { result.now ≡ answer_word pass.now }
{
    match pass {
        Pass::Already => "already",
        Pass::Ran(_, _) => "ran",
        Pass::Finished(_) => "finished",
    }
}

/// The steps that were performed.
fn performed_in(pass: &Pass) -> &[Performed]
    ensures { result.now ≡ performed_in pass.now }
{
    match pass {
        Pass::Already => &[],
        Pass::Ran(performed, _) | Pass::Finished(performed) => performed,
    }
}

/// The messages that were skipped.
fn unfit_in(pass: &Pass) -> &[(Side, Uid)]
    ensures { result.now ≡ unfit_in pass.now }
{
    match pass {
        Pass::Already | Pass::Finished(_) => &[],
        Pass::Ran(_, unfit) => unfit,
    }
}

/// All lines of an answer, each with its end: those of the steps that were performed, those of the messages that are not fit to be
/// copied, and the word of the answer. `AllocError`: memory ran out.
pub fn answer_text(alloc: Global, pass: &Pass) -> Result<String, AllocError>
    ensures { IfOk result (λ text. string_bytes text ≡ answer_of pass.now) }
{
    let mut text = String::new(alloc);
    match write_answer(&mut text, pass) {
        Ok(()) => Ok(text),
        Err(fault) => Err(fault),
    }
}

fn write_answer(text: &mut String, pass: &Pass) -> Result<(), AllocError>
    ensures { OnOk result (string_bytes text.new ≡ string_bytes text.old ++ answer_of pass.now) }
{
    write_performed(text, performed_in(pass))?;
    write_unfit(text, unfit_in(pass))?;
    writeln!(text, "{}", answer_word(pass))
}

/// Adds a line for each step.
fn write_performed(text: &mut String, performed: &[Performed]) -> Result<(), AllocError>
    ensures { OnOk result (string_bytes text.new ≡ string_bytes text.old ++ flat_map performed_row performed.now) }
{
    for one in performed {
        writeln!(text, "{}", PerformedLine(one))?;
    }
    Ok(())
}

/// Adds a line for each message that is not fit to be copied.
fn write_unfit(text: &mut String, unfit: &[(Side, Uid)]) -> Result<(), AllocError>
    ensures { OnOk result (string_bytes text.new ≡ string_bytes text.old ++ flat_map unfit_row unfit.now) }
{
    for (side, uid) in unfit {
        writeln!(text, "{}", UnfitLine(*side, *uid))?;
    }
    Ok(())
}
