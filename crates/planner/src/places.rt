//! Where the entries stand that name a UID: an index of one side.

ghost use Rattle.std.specs.Prelude.{◌≡◌, ◌<◌, ◌≤◌, ◌^◌, ◌+◌, ◌==◌, ℕ, drop, find, length, IfOk, OnOk};
ghost use Rattle.std.specs.List.{slice_index_or};
ghost use Rattle.rules.specs.Entries.{ArePairs};
ghost use Rattle.planner.specs.Index.{IsIndex, places_from};
ghost use Rattle.planner.specs.declared.places.EntryPlace.{EntryPlace};

use crate::turns::Turns;
use mailcore::side::Side;
use rules::entry::Entry;
use std::alloc::{AllocError, Global};

/// The UID that an entry names, 0 where the side has vanished, and where the entry stands.
#[derive(Clone, Copy, PartialEq, Eq)]
pub struct EntryPlace {
    /// The number of the UID.
    pub uid: u32,
    /// How many entries stand before it.
    pub at: usize,
}

/// A place for each entry, in the order of the entries.
pub fn places(
    alloc: Global,
    side: Side,
    entries: &[Entry],
    turns: &mut Turns,
) -> Result<Vec<EntryPlace>, AllocError>
    requires room { turns.old + length entries.now < 2 ^ 64 }
    ensures places { IfOk result (λ v. v.items ≡ places_from 0 side entries.now) }
    ensures count { IfOk result (λ v. length v.items ≡ length entries.now) }
    ensures turns { OnOk result (turns.new ≡ turns.old + length entries.now) }
    ensures most { turns.new ≤ turns.old + length entries.now }
{
    let mut places = Vec::with_capacity(alloc, entries.len())?;
    for (at, entry) in entries.iter().enumerate() {
        turns.tick();
        places.push(EntryPlace {
            uid: entry.number(side),
            at,
        })?;
    }
    Ok(places)
}

/// The index of the far side: the entries stand in its order.
pub fn far_places(
    alloc: Global,
    entries: &[Entry],
    turns: &mut Turns,
) -> Result<Vec<EntryPlace>, AllocError>
    requires pairs { ArePairs entries.now }
    requires room { turns.old + length entries.now < 2 ^ 64 }
    ensures index { IfOk result (λ v. IsIndex Side.Far entries.now v.items) }
    ensures count { IfOk result (λ v. length v.items ≡ length entries.now) }
    ensures turns { OnOk result (turns.new ≡ turns.old + length entries.now) }
    ensures most { turns.new ≤ turns.old + length entries.now }
{
    let places = places(alloc, Side::Far, entries, turns)?;
    Ok(places)
}

/// The index of the near side.
pub fn near_places(
    alloc: Global,
    entries: &[Entry],
    turns: &mut Turns,
) -> Result<Vec<EntryPlace>, AllocError>
    requires room { turns.old + length entries.now < 2 ^ 64 }
    ensures index { IfOk result (λ v. IsIndex Side.Near entries.now v.items) }
    ensures count { IfOk result (λ v. length v.items ≡ length entries.now) }
    ensures turns { OnOk result (turns.new ≡ turns.old + length entries.now) }
    ensures most { turns.new ≤ turns.old + length entries.now }
{
    let mut places = places(alloc, Side::Near, entries, turns)?;
    places.sort_by_key(|place| place.uid)?;
    Ok(places)
}

/// The first of these places, from one on, whose UID is at least this one.
pub fn first_place_from(places: &[EntryPlace], from: usize, uid: u32, turns: &mut Turns) -> usize
    requires within { from ≤ length places.now }
    requires room { turns.old + length places.now < 2 ^ 64 + from }
    ensures from { from ≤ result }
    ensures within { result ≤ length places.now }
    ensures turns { turns.new + from ≡ turns.old + result }
    ensures passed { (u : ℕ) → uid ≤ u →
        find (λ p. p.uid == u) (drop result places.now) ≡ find (λ p. p.uid == u) (drop from places.now) }
    ensures reached { (d : EntryPlace) → result < length places.now → uid ≤ (slice_index_or places.now result d).uid }
{
    let mut at = from;
    while at < places.len() && places[at].uid < uid {
        turns.tick();
        at += 1;
    }
    at
}
