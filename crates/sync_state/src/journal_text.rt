//! The text of a journal.

ghost use Rattle.std.specs.Prelude.{◌≡◌, ◌++◌, map, IfOk, IfErr, OnOk, OnErr, MatchOption, Err};
ghost use Rattle.sync_state.specs.Lines.{lines_text};
ghost use Rattle.sync_state.specs.JournalText.{HasGo, journal_lines, log_lines, plan_lines, plan_head_lines, step_line, note_line};
ghost use Rattle.sync_state.specs.JournalReading.{IsWritten, ReportsJournal};

use crate::fault::BookFault;
use crate::items::read_items;
use crate::journal::{Journal, Log, Logged, WrittenJournal};
use crate::journal_lines::{push_logged, push_note, push_step};
use crate::journal_read::{has_go, read_head, read_log};
use crate::keyword_lines::push_keywords;
use crate::lines::{push_line, take};
use crate::version::Version;
use crate::words::{Highest, Number, Positive};
use rules::plan::{Note, Notes, Plan, Step, Steps};
use std::alloc::{AllocError, Global};
use texts::lines::Lines;

/// The text of a plan, in the second version. Its last line is `go`.
pub fn write_plan(alloc: Global, plan: &Plan) -> Result<Vec<u8>, BookFault>
    ensures spelled { IfOk result (λ text. text.items ≡ lines_text (plan_lines Version.Two plan.now)) }
    ensures no_memory { OnErr result (result ≡ Err BookFault.NoMemory) }
{
    write_plan_in(alloc, Version::Two, plan)
}

/// The text of a journal, in the second version: its plan, and a line for each step that is logged.
pub fn write_journal(alloc: Global, journal: &Journal) -> Result<Vec<u8>, BookFault>
    ensures spelled { IfOk result (λ text. text.items ≡ lines_text (journal_lines Version.Two journal.now)) }
    ensures no_memory { OnErr result (result ≡ Err BookFault.NoMemory) }
{
    write_journal_in(alloc, Version::Two, journal)
}

/// The text of a journal in this version.
pub fn write_journal_in(
    alloc: Global,
    version: Version,
    journal: &Journal,
) -> Result<Vec<u8>, BookFault>
    ensures spelled { IfOk result (λ text. text.items ≡ lines_text (journal_lines version journal.now)) }
    ensures no_memory { OnErr result (result ≡ Err BookFault.NoMemory) }
{
    let mut text = write_plan_in(alloc, version, &journal.plan)?;
    push_log(&mut text, journal.log.as_slice())?;
    Ok(text)
}

fn write_plan_in(alloc: Global, version: Version, plan: &Plan) -> Result<Vec<u8>, BookFault>
    ensures spelled { IfOk result (λ text. text.items ≡ lines_text (plan_lines version plan.now)) }
    ensures no_memory { OnErr result (result ≡ Err BookFault.NoMemory) }
{
    let mut text = head_text(alloc, version, plan)?;
    push_steps(&mut text, plan.steps.as_slice())?;
    push_notes(&mut text, plan.notes.as_slice())?;
    push_line(&mut text, b"go", ())?;
    Ok(text)
}

fn push_log(text: &mut Vec<u8>, log: &[Logged]) -> Result<(), AllocError>
    ensures { OnOk result (text.new.items ≡ text.old.items ++ lines_text (log_lines 1 log.now)) }
{
    for (i, logged) in log.iter().enumerate() {
        push_logged(text, i as u64 + 1, *logged)?;
    }
    Ok(())
}

/// The first four lines, and those of the keywords.
fn head_text(alloc: Global, version: Version, plan: &Plan) -> Result<Vec<u8>, AllocError>
    ensures { IfOk result (λ text. text.items ≡ lines_text (plan_head_lines version plan.now)) }
{
    let (far, near) = (plan.far, plan.near);
    let mut text = Vec::new(alloc);
    push_line(&mut text, b"journal ", version)?;
    push_line(&mut text, b"run ", Number(plan.run))?;
    let numbers = (Highest(far.highest), Positive(far.next));
    push_line(&mut text, b"far ", (Positive(far.validity), numbers))?;
    let numbers = (Highest(near.highest), Positive(near.next));
    push_line(&mut text, b"near ", (Positive(near.validity), numbers))?;
    push_keywords(&mut text, plan.keywords.as_slice())?;
    Ok(text)
}

fn push_steps(text: &mut Vec<u8>, steps: &[Step]) -> Result<(), AllocError>
    ensures { OnOk result (text.new.items ≡ text.old.items ++ lines_text (map step_line steps.now)) }
{
    for step in steps {
        push_step(text, step)?;
    }
    Ok(())
}

fn push_notes(text: &mut Vec<u8>, notes: &[Note]) -> Result<(), AllocError>
    ensures { OnOk result (text.new.items ≡ text.old.items ++ lines_text (map note_line notes.now)) }
{
    for note in notes {
        push_note(text, note)?;
    }
    Ok(())
}

/// The plan with this text, in whatever version, and how its steps are logged, or none if no whole line is `go`: only whole lines count.
/// `BadJournal`: a whole line is `go`, and this is the first line after which no valid journal is possible.
pub fn read_journal(alloc: Global, text: &[u8]) -> Result<Option<WrittenJournal>, BookFault>
    ensures read { IfOk result (λ read. MatchOption read (¬ HasGo text.now) (λ written. IsWritten written text.now)) }
    ensures refused { IfErr result (ReportsJournal text.now) }
{
    if !has_go(text) {
        return Ok(None);
    }
    let mut lines = Lines::new(text);
    let head = read_head(alloc, &mut lines)?;
    let numbers = head.numbers;
    let steps = read_items::<Step>(alloc, &mut lines, numbers.version)?;
    let notes = read_items::<Note>(alloc, &mut lines, numbers.version)?;
    let Some(()) = take(&mut lines, b"go") else {
        return Err(BookFault::BadJournal(lines.taken + 1));
    };
    let log = read_log(alloc, &mut lines, &steps)?;
    let plan = Plan {
        run: numbers.run.0,
        far: numbers.far,
        near: numbers.near,
        steps: Steps::from_vec(steps),
        notes: Notes::from_vec(notes),
        keywords: head.keywords,
    };
    let log = Log::from_vec(log);
    Ok(Some(WrittenJournal {
        version: numbers.version,
        journal: Journal { plan, log },
        is_torn: !lines.rest.is_empty(),
    }))
}
