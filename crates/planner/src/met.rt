//! The messages of a side, each with the entry that names it.

ghost use Rattle.std.specs.Prelude.{◌≡◌, ◌<◌, ◌≤◌, ◌^◌, ◌+◌, ◌==◌, ℕ, length, map, drop, find, IfOk, OnOk};
ghost use Rattle.std.specs.List.{slice_index_or};
ghost use Rattle.std.specs.List.Sorted.{IsNonDecreasingBy};
ghost use Rattle.mailcore.specs.Listed.{IsRising};
ghost use Rattle.rules.specs.Entries.{ArePairs, uid_of};
ghost use Rattle.planner.specs.Index.{IsIndex};
ghost use Rattle.planner.specs.Merging.{holder, met_by};
ghost use Rattle.planner.specs.declared.places.EntryPlace.{EntryPlace};

use crate::places::{EntryPlace, first_place_from};
use crate::standings::Standing;
use crate::turns::Turns;
use mailcore::listing::Item;
use mailcore::side::Side;
use std::alloc::{AllocError, Global};

/// A listed message, and the entry that names it.
#[derive(Clone, Copy, PartialEq, Eq)]
pub struct Met {
    /// The message.
    pub item: Item,
    /// What names it.
    pub holder: Option<Standing>,
}

/// What names this UID, whose place is the one here if it has one.
fn holder_here(
    side: Side,
    places: &[EntryPlace],
    at: usize,
    uid: u32,
    standings: &[Standing],
) -> Option<Standing>
    requires positive { 0 < uid }
    requires pairs { ArePairs (map (λ st. st.entry) standings.now) }
    requires index { IsIndex side (map (λ st. st.entry) standings.now) places.now }
    requires reached { (d : EntryPlace) → at < length places.now → uid ≤ (slice_index_or places.now at d).uid }
    requires passed { find (λ p. p.uid == uid) (drop at places.now) ≡ find (λ p. p.uid == uid) places.now }
    ensures { result ≡ holder side standings.now uid }
{
    if at < places.len() && places[at].uid == uid {
        Some(standings[places[at].at])
    } else {
        None
    }
}

/// The messages with what names them.
pub fn meet(
    alloc: Global,
    side: Side,
    items: &[Item],
    places: &[EntryPlace],
    standings: &[Standing],
    turns: &mut Turns,
) -> Result<Vec<Met>, AllocError>
    requires rising { IsRising items.now }
    requires pairs { ArePairs (map (λ st. st.entry) standings.now) }
    requires index { IsIndex side (map (λ st. st.entry) standings.now) places.now }
    requires room { turns.old + length items.now + length places.now < 2 ^ 64 }
    ensures met { IfOk result (λ v. v.items ≡ map (met_by side standings.now) items.now) }
    ensures least { OnOk result (turns.old + length items.now ≤ turns.new) }
    ensures most { turns.new ≤ turns.old + length items.now + length places.now }
{
    let mut met = Vec::with_capacity(alloc, items.len())?;
    let mut at = 0;
    for item in items {
        turns.tick();
        let uid = item.uid.get();
        at = first_place_from(places, at, uid, turns);
        met.push(Met {
            item: *item,
            holder: holder_here(side, places, at, uid, standings),
        })?;
    }
    Ok(met)
}
