//! What a journal says of the entries, as a walk over them comes to it. Entries and notes stand in order of their UIDs, and the gones
//! are put into it, so that the walk passes each of them once.

ghost use Rattle.std.specs.Prelude.{◌≡◌, true, map, AllPairs, IfOk};
ghost use Rattle.std.specs.List.Sorted.{IsPermutation};
ghost use Rattle.rules.specs.Entries.{is_full};
ghost use Rattle.sync_state.specs.JournalText.{HasJournal, bottom, is_below, note_place, rises};
ghost use Rattle.sync_state.specs.Places.{place_at};
ghost use Rattle.book.specs.Committed.{says_gone};
ghost use Rattle.book.specs.Changes.{AreGone, AreGones, HasPassed, HasReached, PairNotAfter, Passed, Reached, gone_place, is_of, pair_place, record_place};
ghost use Rattle.book.specs.PlacedLists.{passes};

use crate::places::place_of;
use mailcore::side::{Direction, Side};
use mailcore::uid::Uid;
use rules::entry::Entry;
use rules::plan::{Note, Step};
use std::alloc::{AllocError, Global};
use sync_state::journal::Journal;
use sync_state::place::StepPlace;

/// The UIDs of an entry.
#[derive(Clone, Copy)]
pub(crate) struct UidPair {
    pub(crate) far: Uid,
    pub(crate) near: Uid,
}

/// The entries of which a side has vanished, for each side, in order.
#[derive(Drop)]
pub(crate) struct Gones {
    pub(crate) far: Vec<UidPair>,
    pub(crate) near: Vec<UidPair>,
}

impl Gones {
    /// What these steps say.
    pub(crate) fn of(alloc: Global, steps: &[Step]) -> Result<Gones, AllocError>
        ensures { IfOk result (AreGones steps.now) }
    {
        let far = gone_pairs(alloc, Direction::Pull, steps)?;
        let near = gone_pairs(alloc, Direction::Push, steps)?;
        Ok(Gones { far, near })
    }
}

/// The entries whose source of the direction has vanished, in order: a plan has them in the order of their targets.
fn gone_pairs(
    alloc: Global,
    direction: Direction,
    steps: &[Step],
) -> Result<Vec<UidPair>, AllocError>
    ensures { IfOk result (λ pairs. AreGone steps.now direction pairs.items) }
{
    let mut pairs = Vec::new(alloc);
    for step in steps {
        if let Some(pair) = gone_pair(direction, step) {
            pairs.push(pair)?;
        }
    }
    sort_pairs(&mut pairs);
    Ok(pairs)
}

/// The entry of which the step says that its source has vanished.
fn gone_pair(direction: Direction, step: &Step) -> Option<UidPair>
    ensures { (e : Entry) → passes (is_of e) result ≡ says_gone direction e step.now }
{
    match *step {
        Step::Gone {
            direction: gone,
            far,
            near,
        } if gone == direction => Some(UidPair { far, near }),
        _ => None,
    }
}

fn sort_pairs(pairs: &mut Vec<UidPair>)
    ensures same { IsPermutation pairs.old.items pairs.new.items }
    ensures in_order { AllPairs PairNotAfter pairs.new.items }
{
    pairs.sort_unstable_by_key(|pair| (pair.far.get(), pair.near.get()));
}

/// How many of the gones and notes a walk over the entries has passed.
#[derive(Clone, Copy)]
pub(crate) struct Walk {
    pub(crate) far_gones: usize,
    pub(crate) near_gones: usize,
    pub(crate) records: usize,
    pub(crate) drops: usize,
}

impl Walk {
    /// None yet.
    pub(crate) const START: Walk = Walk {
        far_gones: 0,
        near_gones: 0,
        records: 0,
        drops: 0,
    };

    /// Goes on to what is said of an entry.
    pub(crate) fn go_to(self, journal: &Journal, gones: &Gones, entry: &Entry) -> Walk
        requires text { HasJournal journal.now }
        requires gones { AreGones journal.now.plan.steps gones.now }
        requires passed { HasPassed journal.now gones.now entry.now self }
        ensures passed { HasPassed journal.now gones.now entry.now result }
        ensures reached { HasReached journal.now gones.now entry.now result }
    {
        let notes = journal.plan.notes.as_slice();
        Walk {
            far_gones: first_pair_from(&gones.far, self.far_gones, entry),
            near_gones: first_pair_from(&gones.near, self.near_gones, entry),
            records: first_record_from(notes, self.records, entry),
            drops: first_note_from(notes, self.drops, place_of(entry)),
        }
    }
}

/// The first of these pairs, from one on, that does not stand before the entry.
fn first_pair_from(pairs: &[UidPair], from: usize, entry: &Entry) -> usize
    requires in_order { AllPairs PairNotAfter pairs.now }
    requires passed { Passed pair_place (gone_place entry.now) pairs.now from }
    ensures { Reached pair_place (gone_place entry.now) pairs.now result }
{
    let mut at = from;
    while at < pairs.len() && is_before(pairs[at], entry) {
        at += 1;
    }
    at
}

fn is_before(pair: UidPair, entry: &Entry) -> bool
    ensures { result ≡ is_below (pair_place pair) (gone_place entry.now) }
{
    let (far, near) = (entry.number(Side::Far), entry.number(Side::Near));
    pair.far.get() < far || (pair.far.get() == far && pair.near.get() < near)
}

/// The first of these notes, from one on, that may record the entry.
fn first_record_from(notes: &[Note], from: usize, entry: &Entry) -> usize
    requires rise { rises bottom (map note_place notes.now) ≡ true }
    requires passed { Passed note_place (record_place entry.now) notes.now from }
    ensures passed { Passed note_place (record_place entry.now) notes.now result }
    ensures reached { is_full entry.now ≡ true → Reached note_place (record_place entry.now) notes.now result }
{
    let Some((far, near)) = entry.uids() else {
        return from;
    };
    let flags = entry.flags;
    first_note_from(
        notes,
        from,
        StepPlace::of_note(&Note::Record { far, near, flags }),
    )
}

/// The first of these notes, from one on, that does not stand below a place.
fn first_note_from(notes: &[Note], from: usize, place: StepPlace) -> usize
    requires rise { rises bottom (map note_place notes.now) ≡ true }
    requires passed { Passed note_place (place_at place) notes.now from }
    ensures { Reached note_place (place_at place) notes.now result }
{
    let mut at = from;
    while at < notes.len() && StepPlace::of_note(&notes[at]).is_below(place) {
        at += 1;
    }
    at
}
