//! What the lines of an answer do not say: why a message was not copied, and what follows after an earlier run was finished.

ghost use Rattle.std.specs.Prelude.{◌≡◌, OnOk};
ghost use Rattle.std.specs.Io.KnownBytes.{Appends};
ghost use Rattle.std.specs.List.{flat_map, list_any};
ghost use Rattle.channels.specs.Explanations.{explanation_line, explanations, given, has_unfit, is_of};
ghost use Rattle.channels.specs.Outcomes.{has_void, is_void};

use mailcore::side::Side;
use mailcore::uid::Uid;
use runner::pass::Pass;
use runner::performed::{Performed, StepResult};
use std::io::Write;
use std::{fmt, io};

/// What is said of an answer on a line of standard error. It is no fault by itself.
#[derive(Clone, Copy)]
pub enum Explanation {
    /// A message of this side is not fit to be copied.
    Unfit(Side),
    /// A message was not copied, since it was not there any more, or not fit, when it was fetched.
    Void,
    /// What an earlier run had begun was finished.
    Finished,
}

impl fmt::Display for Explanation {
    ghost use Rattle.std.specs.Prelude.{Some};
    ghost use Rattle.channels.specs.Explanations.{explanation_text};

    ghost output = { λ e. Some (explanation_text e) };

    fn fmt<W: fmt::Write>(&self, f: &mut fmt::Formatter<W>) -> fmt::Result {
        f.write_str(match self {
            Explanation::Unfit(Side::Far) =>
                "mbsync: unfit far: more than 16777216 bytes, so it stays there alone",
            Explanation::Unfit(Side::Near) => {
                "mbsync: unfit near: a NUL, or more than 16777216 bytes with line ends CR LF, so it stays there alone"
            }
            Explanation::Void => {
                "mbsync: void: gone, or not fit, when it was fetched; it is not copied later either"
            }
            Explanation::Finished =>
                "mbsync: finished the interrupted run; run again for later changes",
        })
    }
}

/// Explains an answer: each reason once, on a line.
pub(crate) fn explain<E: Write>(err: &mut E, pass: &Pass) -> io::Result<()>
    ensures { OnOk result (Appends (E.contents err.old) (E.contents err.new) (flat_map explanation_line (explanations pass.now))) }
{
    explain_if(
        err,
        has_unfit(Side::Far, pass),
        Explanation::Unfit(Side::Far),
    )?;
    explain_if(
        err,
        has_unfit(Side::Near, pass),
        Explanation::Unfit(Side::Near),
    )?;
    explain_if(err, has_void(pass), Explanation::Void)?;
    explain_if(
        err,
        matches!(pass, Pass::Finished(_)),
        Explanation::Finished,
    )
}

/// Writes this line, if it applies.
fn explain_if<E: Write>(err: &mut E, applies: bool, explanation: Explanation) -> io::Result<()>
    ensures { OnOk result (Appends (E.contents err.old) (E.contents err.new) (flat_map explanation_line (given applies explanation))) }
{
    if applies {
        writeln!(err, "{explanation}")?;
    }
    Ok(())
}

/// Whether a message of this side was skipped since it is not fit to be copied.
fn has_unfit(side: Side, pass: &Pass) -> bool
    ensures { result ≡ has_unfit side pass.now }
{
    match pass {
        Pass::Already | Pass::Finished(_) => false,
        Pass::Ran(_, unfit) => any_of(side, unfit),
    }
}

fn any_of(side: Side, unfit: &[(Side, Uid)]) -> bool
    ensures { result ≡ list_any (is_of side) unfit.now }
{
    unfit.iter().any(|one| is_of(side, one))
}

/// Whether a message is of this side.
fn is_of(side: Side, message: &(Side, Uid)) -> bool
    ensures { result ≡ is_of side message.now }
{
    message.0 == side
}

/// Whether a step of a run was void.
pub(crate) fn has_void(pass: &Pass) -> bool
    ensures { result ≡ has_void pass.now }
{
    match pass {
        Pass::Already => false,
        Pass::Ran(steps, _) => any_void(steps),
        Pass::Finished(steps) => any_void(steps),
    }
}

fn any_void(steps: &[Performed]) -> bool
    ensures { result ≡ list_any is_void steps.now }
{
    steps.iter().any(|performed| is_void(performed))
}

/// Whether a message that was to be copied is not there any more, or not fit to be copied.
fn is_void(performed: &Performed) -> bool
    ensures { result ≡ is_void performed.now }
{
    matches!(performed.result, StepResult::Void)
}
