//! Whether a journal agrees with the state on which its plan was made.

ghost use Rattle.std.specs.Prelude.{◌≡◌, ◌↔◌, ◌<◌, true, not, [], length, position, IfNone, IfOk, IfSome};
ghost use Rattle.book.specs.Agreement.{is_entry, step_agrees, note_agrees, log_agrees, disagreement, Agrees, IsAgreed};
ghost use Rattle.book.specs.BookLogs.{fresh};
ghost use Rattle.book.specs.TakenUids.{KnowsTaken};

use crate::places::entry_at;
use crate::taken::Taken;
use mailcore::uid::Uid;
use rules::entry::{Entries, Entry};
use rules::plan::{Note, Plan, Step};
use std::alloc::{AllocError, Global};
use sync_state::journal::{Journal, Logged};

/// The number of the journal's first line, counted from 1, that does not agree with these entries, or none if each does.
///
/// The source of a new message is in no entry, each other step and each note names a pair that is an entry, and the UID
/// of a copy is not taken when it is made. The UIDs are kept in ordered sets: steps and log cost as much as it takes to sort them.
/// `AllocError`: memory ran out.
pub fn disagreement(
    alloc: Global,
    entries: &Entries,
    journal: &Journal,
) -> Result<Option<usize>, AllocError>
    ensures first { IfOk result (λ line. line ≡ disagreement entries.now journal.now) }
    ensures agreed { IfOk result (λ line. IfNone line (IsAgreed entries.now journal.now)) }
{
    let steps = journal.plan.steps.as_slice();
    let notes = journal.plan.notes.as_slice();
    let first = 5 + journal.plan.keywords.as_slice().len();
    if let Some(i) = bad_step(alloc, entries, steps)? {
        return Ok(Some(first + i));
    }
    if let Some(i) = bad_note(entries, notes) {
        return Ok(Some(first + steps.len() + i));
    }
    match bad_copy(alloc, entries.as_slice(), steps, journal.log.as_slice())? {
        Some(i) => Ok(Some(first + steps.len() + notes.len() + 1 + i)),
        None => Ok(None),
    }
}

/// Whether each step and each note of a plan agrees with these entries, as `disagreement` says. `AllocError`: memory ran out.
pub fn plan_agrees(alloc: Global, entries: &Entries, plan: &Plan) -> Result<bool, AllocError>
    ensures { IfOk result (λ agrees. Agrees entries.now (fresh plan.now) ↔ (agrees ≡ true)) }
{
    if bad_step(alloc, entries, plan.steps.as_slice())?.is_some() {
        return Ok(false);
    }
    Ok(bad_note(entries, plan.notes.as_slice()).is_none())
}

/// The place of the first step that does not agree with these entries.
fn bad_step(alloc: Global, entries: &Entries, steps: &[Step]) -> Result<Option<usize>, AllocError>
    ensures { IfOk result (λ at. at ≡ position (λ step. not (step_agrees entries.now step)) steps.now) }
{
    let named = Taken::named(alloc, entries.as_slice())?;
    Ok(
        steps
            .iter()
            .position(|step| !step_agrees(entries, &named, step)),
    )
}

fn bad_note(entries: &Entries, notes: &[Note]) -> Option<usize>
    ensures { result ≡ position (λ note. not (note_agrees entries.now note)) notes.now }
{
    notes.iter().position(|note| !note_agrees(entries, note))
}

/// The place of the first logged step whose copy has a UID that was taken.
fn bad_copy(
    alloc: Global,
    entries: &[Entry],
    steps: &[Step],
    log: &[Logged],
) -> Result<Option<usize>, AllocError>
    ensures first { IfOk result (λ at. at ≡ position not (log_agrees entries.now steps.now [] steps.now log.now)) }
    ensures within { IfOk result (λ at. IfSome at (λ i. i < length log.now)) }
{
    let mut taken = Taken::planned(alloc, entries, steps)?;
    for i in 0..steps.len().min(log.len()) {
        if !taken.is_free(&steps[i], log[i]) {
            return Ok(Some(i));
        }
        taken.add_copy(&steps[i], log[i])?;
    }
    Ok(None)
}

/// Whether a step agrees with these entries, which name these UIDs.
fn step_agrees(entries: &Entries, named: &Taken, step: &Step) -> bool
    ensures { KnowsTaken entries.now [] [] named.now → result ≡ step_agrees entries.now step.now }
{
    match *step {
        Step::New { direction, uid, .. } => !named.has(direction.source(), uid.get()),
        Step::Gone { far, near, .. } | Step::Flags { far, near, .. } => {
            is_entry(entries, Some(far), Some(near))
        }
        Step::Expunge { .. } => true,
    }
}

fn note_agrees(entries: &Entries, note: &Note) -> bool
    ensures { result ≡ note_agrees entries.now note.now }
{
    match *note {
        Note::Record { far, near, .. } => is_entry(entries, Some(far), Some(near)),
        Note::Drop { far, near } => is_entry(entries, far, near),
    }
}

fn is_entry(entries: &Entries, far: Option<Uid>, near: Option<Uid>) -> bool
    ensures { result ≡ is_entry entries.now far near }
{
    match entry_at(entries.as_slice(), far, near) {
        Some(entry) => entry.far == far && entry.near == near,
        None => false,
    }
}
