//! The state that a finished journal makes of the one before.

ghost use Rattle.std.specs.Prelude.{◌≡◌, ◌+◌, [], ◌∷◌, ◌++◌, All, AllPairs, IfOk, OnOk, true, map};
ghost use Rattle.std.specs.List.{list_any};
ghost use Rattle.std.specs.List.Sorted.{IsPermutation};
ghost use Rattle.book.specs.EntryOrders.{IsNotAfter};
ghost use Rattle.sync_state.specs.declared.version.Version.TheVariants.{Two};
ghost use Rattle.sync_state.specs.StateText.{HasText, IsEntry};
ghost use Rattle.rules.specs.Entries.{ArePairs, is_full};
ghost use Rattle.sync_state.specs.JournalText.{HasJournal, bottom, note_place, rises};
ghost use Rattle.book.specs.Agreement.{Agrees, is_pair};
ghost use Rattle.book.specs.Committed.{Commits, drops, recorded, entry_after, kept_entries, entry_of_copy, entries_of_copies};
ghost use Rattle.book.specs.Changes.{AreGones, HasReached, PairNotAfter, Reached, gone_place, is_of, pair_place, record_place};
ghost use Rattle.book.specs.PlacedLists.{entry_place};

use crate::changes::{Gones, UidPair, Walk};
use mailcore::flags::Flags;
use mailcore::side::{Direction, Side};
use mailcore::uid::Uid;
use rules::entry::{Entries, Entry};
use rules::plan::{Note, Step};
use rules::state::SyncState;
use std::alloc::{AllocError, Global};
use sync_state::journal::{Journal, Logged};

pub(crate) fn is_pair(entry: &Entry, far: Option<Uid>, near: Option<Uid>) -> bool
    ensures { result ≡ is_pair far near entry.now }
{
    entry.far == far && entry.near == near
}

fn drops(entry: &Entry, note: &Note) -> bool
    ensures { result ≡ drops entry.now note.now }
{
    match note {
        Note::Record { .. } => false,
        Note::Drop { far, near } => is_pair(entry, *far, *near),
    }
}

/// Whether a note drops the entry: the note at this place, if any does.
fn is_dropped(entry: &Entry, notes: &[Note], at: usize) -> bool
    requires rise { rises bottom (map note_place notes.now) ≡ true }
    requires reached { Reached note_place (entry_place entry.now) notes.now at }
    ensures { result ≡ list_any (drops entry.now) notes.now }
{
    match notes.get(at) {
        Some(note) => drops(entry, note),
        None => false,
    }
}

/// The flags recorded from now on: the note at this place records them, if any does.
fn recorded(entry: &Entry, notes: &[Note], at: usize) -> Flags
    requires rise { rises bottom (map note_place notes.now) ≡ true }
    requires reached { is_full entry.now ≡ true → Reached note_place (record_place entry.now) notes.now at }
    ensures { result ≡ recorded entry.now notes.now }
{
    match notes.get(at) {
        Some(note) => recorded_by(entry, note),
        None => entry.flags,
    }
}

/// The flags that this note records of the entry, or those that were recorded.
fn recorded_by(entry: &Entry, note: &Note) -> Flags
    ensures { result ≡ recorded entry.now (note.now ∷ []) }
{
    if let Note::Record { far, near, flags } = note
        && is_pair(entry, Some(*far), Some(*near))
    {
        return *flags;
    }
    entry.flags
}

/// Whether the entry is one of these pairs: that at this place, if any is.
fn is_gone(entry: &Entry, pairs: &[UidPair], at: usize) -> bool
    requires in_order { AllPairs PairNotAfter pairs.now }
    requires reached { Reached pair_place (gone_place entry.now) pairs.now at }
    ensures { result ≡ list_any (is_of entry.now) pairs.now }
{
    match pairs.get(at) {
        Some(pair) => is_pair(entry, Some(pair.far), Some(pair.near)),
        None => false,
    }
}

/// The entry as it is from now on.
fn entry_after(journal: &Journal, gones: &Gones, walk: Walk, entry: &Entry) -> Entry
    requires text { HasJournal journal.now }
    requires gones { AreGones journal.now.plan.steps gones.now }
    requires reached { HasReached journal.now gones.now entry.now walk }
    ensures { result ≡ entry_after journal.now entry.now }
{
    let (mut far, mut near) = (entry.far, entry.near);
    if is_gone(entry, &gones.far, walk.far_gones) {
        far = None;
    }
    if is_gone(entry, &gones.near, walk.near_gones) {
        near = None;
    }
    Entry {
        far,
        near,
        flags: recorded(entry, journal.plan.notes.as_slice(), walk.records),
    }
}

/// Adds an entry of the state before as it is from now on, if it is not dropped and a side is left.
fn push_kept(
    list: &mut Vec<Entry>,
    journal: &Journal,
    gones: &Gones,
    walk: Walk,
    entry: &Entry,
) -> Result<(), AllocError>
    requires text { HasJournal journal.now }
    requires gones { AreGones journal.now.plan.steps gones.now }
    requires reached { HasReached journal.now gones.now entry.now walk }
    ensures { OnOk result (list.new.items ≡ list.old.items ++ kept_entries journal.now (entry.now ∷ [])) }
{
    if is_dropped(entry, journal.plan.notes.as_slice(), walk.drops) {
        return Ok(());
    }
    let after = entry_after(journal, gones, walk, entry);
    if after.has_a_side() {
        list.push(after)?;
    }
    Ok(())
}

/// Adds the entries of the state before as they are from now on: one merge of them with the notes and the gones.
fn merge(
    list: &mut Vec<Entry>,
    journal: &Journal,
    gones: &Gones,
    entries: &[Entry],
) -> Result<(), AllocError>
    requires text { HasJournal journal.now }
    requires gones { AreGones journal.now.plan.steps gones.now }
    requires pairs { ArePairs entries.now }
    ensures { OnOk result (list.new.items ≡ list.old.items ++ kept_entries journal.now entries.now) }
{
    let mut walk = Walk::START;
    for entry in entries {
        walk = walk.go_to(journal, gones, entry);
        push_kept(list, journal, gones, walk, entry)?;
    }
    Ok(())
}

fn push_all_kept(
    alloc: Global,
    list: &mut Vec<Entry>,
    journal: &Journal,
    entries: &[Entry],
) -> Result<(), AllocError>
    requires text { HasJournal journal.now }
    requires pairs { ArePairs entries.now }
    ensures { OnOk result (list.new.items ≡ list.old.items ++ kept_entries journal.now entries.now) }
{
    let gones = Gones::of(alloc, journal.plan.steps.as_slice())?;
    merge(list, journal, &gones, entries)
}

pub(crate) fn push_copies(
    list: &mut Vec<Entry>,
    steps: &[Step],
    log: &[Logged],
) -> Result<(), AllocError>
    ensures { OnOk result (list.new.items ≡ list.old.items ++ entries_of_copies steps.now log.now) }
{
    for (step, logged) in steps.iter().zip(log) {
        push_copy(list, step, logged)?;
    }
    Ok(())
}

/// Adds the entry of a copy, if the step made one.
fn push_copy(list: &mut Vec<Entry>, step: &Step, logged: &Logged) -> Result<(), AllocError>
    ensures { OnOk result (list.new.items ≡ list.old.items ++ entry_of_copy step.now logged.now) }
{
    let Step::New {
        direction,
        uid,
        flags,
        ..
    } = step
    else {
        return Ok(());
    };
    let Logged::Copied(copy) = logged else {
        return Ok(());
    };
    let (far, near) = match direction {
        Direction::Pull => (Some(*uid), Some(*copy)),
        Direction::Push => (Some(*copy), Some(*uid)),
    };
    list.push(Entry {
        far,
        near,
        flags: *flags,
    })?;
    Ok(())
}

/// Puts entries in the order in which they stand in a state.
pub(crate) fn sort(list: &mut Vec<Entry>)
    ensures same { IsPermutation list.old.items list.new.items }
    ensures in_order { AllPairs IsNotAfter list.new.items }
{
    list.sort_unstable_by_key(|entry| (entry.number(Side::Far), entry.number(Side::Near)));
}

/// The state that a finished journal makes of the one before.
pub fn committed(alloc: Global, old: &SyncState, journal: &Journal) -> Result<SyncState, AllocError>
    requires fits { HasJournal journal.now }
    requires entries { All (IsEntry Two) old.now.entries }
    requires agrees { Agrees old.now.entries journal.now }
    requires next { journal.now.plan.run ≡ old.now.run + 1 }
    ensures commits { IfOk result (λ state. Commits journal.now old.now state) }
    ensures has_text { IfOk result (HasText Two) }
{
    let plan = &journal.plan;
    let mut list = Vec::new(alloc);
    push_all_kept(alloc, &mut list, journal, old.entries.as_slice())?;
    push_copies(&mut list, plan.steps.as_slice(), journal.log.as_slice())?;
    sort(&mut list);
    Ok(SyncState {
        run: plan.run,
        far_validity: plan.far.validity,
        near_validity: plan.near.validity,
        max_pulled: plan.far.highest,
        max_pushed: plan.near.highest,
        entries: Entries::from_vec(list),
    })
}
