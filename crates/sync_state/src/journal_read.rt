//! How the text of a journal is read.

ghost use Rattle.std.specs.Prelude.{◌≡◌, ◌≢◌, ◌+◌, ◌<◌, [], length, IfOk, IfErr, IfSome, IfNone, OnOk, MatchBool, MatchOption};
ghost use Rattle.sync_state.specs.declared.journal.Logged.{Logged};
ghost use Rattle.sync_state.specs.JournalText.{HasGo, log_line};
ghost use Rattle.sync_state.specs.JournalReading.{ReportsHead, ReportsNumbers, PlanHeadRead, NumbersRead, FitsAt, LogRead, ReportsLog};

use crate::fault::BookFault;
use crate::journal::Logged;
use crate::journal_lines::read_logged;
use crate::keyword_lines::read_keywords;
use crate::lines::take;
use crate::version::Version;
use crate::words::{Highest, Number, Positive};
use mailcore::keywords::Keywords;
use rules::plan::{PlanSide, Step};
use std::alloc::Global;
use texts::lines::Lines;

/// The numbers with which a plan begins.
#[derive(Clone, Copy)]
pub struct PlanNumbers {
    /// The version of the text.
    pub version: Version,
    /// The number of the run.
    pub run: Number,
    /// The far side.
    pub far: PlanSide,
    /// The near side.
    pub near: PlanSide,
}

/// What stands before the steps of a plan.
#[derive(Drop)]
pub struct PlanHead {
    /// The numbers.
    pub numbers: PlanNumbers,
    /// The keywords.
    pub keywords: Keywords,
}

/// UIDVALIDITY, highest UID and UIDNEXT.
type SideFields = (Positive, (Highest, Positive));

/// Whether one of the whole lines is `go`.
pub fn has_go(text: &[u8]) -> bool
    ensures { MatchBool result (HasGo text.now) (¬ HasGo text.now) }
{
    let mut lines = Lines::new(text);
    while let Some(line) = lines.next_line() {
        if line.text == b"go".as_slice() {
            return true;
        }
    }
    false
}

/// What stands before the steps. A line that is no keyword of the map is left.
pub fn read_head(alloc: Global, lines: &mut Lines<'_>) -> Result<PlanHead, BookFault>
    requires { lines.old.taken ≡ 0 }
    ensures ok { IfOk result (λ head. PlanHeadRead head lines.old.rest.now lines.new.rest.now) }
    ensures taken { IfOk result (λ head. lines.new.taken ≡ 4 + length head.keywords) }
    ensures refused { IfErr result (ReportsHead lines.old.rest.now) }
{
    let numbers = read_numbers(lines)?;
    let keywords = read_keywords(alloc, lines, numbers.version)?;
    Ok(PlanHead { numbers, keywords })
}

/// The numbers of the first four lines.
fn read_numbers(lines: &mut Lines<'_>) -> Result<PlanNumbers, BookFault>
    requires { lines.old.taken ≡ 0 }
    ensures ok { IfOk result (λ numbers. NumbersRead numbers lines.old.rest.now lines.new.rest.now) }
    ensures taken { OnOk result (lines.new.taken ≡ 4) }
    ensures refused { IfErr result (ReportsNumbers lines.old.rest.now) }
{
    let Some(version) = take(lines, b"journal ") else {
        return Err(BookFault::BadJournal(1));
    };
    let Some(run) = take(lines, b"run ") else {
        return Err(BookFault::BadJournal(2));
    };
    let Some(far) = take::<SideFields>(lines, b"far ") else {
        return Err(BookFault::BadJournal(3));
    };
    let Some(near) = take::<SideFields>(lines, b"near ") else {
        return Err(BookFault::BadJournal(4));
    };
    Ok(PlanNumbers {
        version,
        run,
        far: plan_side(far),
        near: plan_side(near),
    })
}

fn plan_side(fields: SideFields) -> PlanSide
    ensures { result ≡ record { validity = fields.0.0; highest = fields.1.0.0; next = fields.1.1.0 } }
{
    let (validity, (highest, next)) = fields;
    PlanSide {
        validity: validity.0,
        highest: highest.0,
        next: next.0,
    }
}

/// How this line logs the step after the first `count` steps.
pub fn next_logged(line: &[u8], count: usize, steps: &[Step]) -> Option<Logged>
    ensures some { IfSome result (λ logged. FitsAt steps.now count logged × (line.now ≡ log_line (count + 1) logged)) }
    ensures none { IfNone result ((logged : Logged) → FitsAt steps.now count logged → line.now ≢ log_line (count + 1) logged) }
{
    if count < steps.len() {
        read_logged(line, count as u64 + 1, &steps[count])
    } else {
        None
    }
}

/// What the lines that are left log.
pub fn read_log(
    alloc: Global,
    lines: &mut Lines<'_>,
    steps: &[Step],
) -> Result<Vec<Logged>, BookFault>
    ensures ok { IfOk result (λ log. LogRead steps.now log.items lines.old.rest.now lines.new.rest.now) }
    ensures refused { IfErr result (ReportsLog steps.now lines.old.taken lines.old.rest.now) }
{
    let mut log = Vec::new(alloc);
    while let Some(line) = lines.next_line() {
        match next_logged(line.text, log.len(), steps) {
            Some(logged) => log.push(logged)?,
            None => return Err(BookFault::BadJournal(lines.taken)),
        }
    }
    Ok(log)
}
