//! The merges of a plan, one after another.

ghost use Rattle.std.specs.Prelude.{◌≡◌, ◌<◌, ◌≤◌, ◌^◌, ◌+◌, ◌*◌, length, map, IfOk, OnOk};
ghost use Rattle.mailcore.specs.declared.side.Side.TheVariants.{Far, Near};
ghost use Rattle.mailcore.specs.Listed.{IsRising};
ghost use Rattle.rules.specs.Entries.{ArePairs};
ghost use Rattle.planner.specs.Merging.{standing_of, met_by};
ghost use Rattle.planner.specs.Merges.{IsMerged};

use crate::listed::listed_flags;
use crate::met::{Met, meet};
use crate::places::{far_places, near_places};
use crate::standings::{Standing, standings};
use crate::turns::Turns;
use mailcore::listing::Item;
use mailcore::side::Side;
use rules::entry::Entry;
use std::alloc::{AllocError, Global};

/// The entries and messages, each with what was found of it.
#[derive(Drop)]
pub struct Merged {
    /// The far messages.
    pub far: Vec<Met>,
    /// The near messages.
    pub near: Vec<Met>,
    /// The entries.
    pub standings: Vec<Standing>,
}

/// Merges both listings with the entries.
pub fn merge_all(
    alloc: Global,
    far: &[Item],
    near: &[Item],
    entries: &[Entry],
    turns: &mut Turns,
) -> Result<Merged, AllocError>
    requires far_rising { IsRising far.now }
    requires near_rising { IsRising near.now }
    requires pairs { ArePairs entries.now }
    requires room { turns.old + 2 * length far.now + 2 * length near.now + 9 * length entries.now < 2 ^ 64 }
    ensures all { IfOk result (IsMerged far.now near.now entries.now) }
    ensures least { OnOk result (turns.old + length far.now + length near.now + length entries.now ≤ turns.new) }
    ensures most { turns.new ≤ turns.old + 2 * length far.now + 2 * length near.now + 9 * length entries.now }
{
    let far_places = far_places(alloc, entries, turns)?;
    let near_places = near_places(alloc, entries, turns)?;
    let far_flags = listed_flags(alloc, Side::Far, far, entries, &far_places, turns)?;
    let near_flags = listed_flags(alloc, Side::Near, near, entries, &near_places, turns)?;
    let standings = standings(alloc, entries, &far_flags, &near_flags, far, near, turns)?;
    let far = meet(alloc, Side::Far, far, &far_places, &standings, turns)?;
    let near = meet(alloc, Side::Near, near, &near_places, &standings, turns)?;
    Ok(Merged {
        far,
        near,
        standings,
    })
}
