//! The entries with what is listed of them.

ghost use Rattle.std.specs.Prelude.{◌≡◌, ◌<◌, ◌≤◌, ◌^◌, ◌+◌, length, map, IfOk, OnOk};
ghost use Rattle.mailcore.specs.Listed.{IsRising};
ghost use Rattle.rules.specs.Entries.{uid_of};
ghost use Rattle.rules.specs.Scene.{flags_at};
ghost use Rattle.planner.specs.Merging.{standing_of};

use crate::turns::Turns;
use mailcore::flags::Flags;
use mailcore::listing::Item;
use mailcore::side::Side;
use rules::entry::Entry;
use std::alloc::{AllocError, Global};

/// An entry, and the flags of its messages where they are listed.
#[derive(Clone, Copy, PartialEq, Eq)]
pub struct Standing {
    /// The entry.
    pub entry: Entry,
    /// The far message's flags.
    pub far: Option<Flags>,
    /// The near message's flags.
    pub near: Option<Flags>,
}

/// The entries with these flags.
pub fn standings(
    alloc: Global,
    entries: &[Entry],
    far: &[Option<Flags>],
    near: &[Option<Flags>],
    far_items: &[Item],
    near_items: &[Item],
    turns: &mut Turns,
) -> Result<Vec<Standing>, AllocError>
    requires far { far.now ≡ map (λ e. flags_at far_items.now (uid_of Side.Far e)) entries.now }
    requires near { near.now ≡ map (λ e. flags_at near_items.now (uid_of Side.Near e)) entries.now }
    requires room { turns.old + length entries.now < 2 ^ 64 }
    ensures standings { IfOk result (λ v. v.items ≡ map (standing_of far_items.now near_items.now) entries.now) }
    ensures turns { OnOk result (turns.new ≡ turns.old + length entries.now) }
    ensures most { turns.new ≤ turns.old + length entries.now }
{
    let mut standings = Vec::with_capacity(alloc, entries.len())?;
    for (i, entry) in entries.iter().enumerate() {
        turns.tick();
        standings.push(Standing {
            entry: *entry,
            far: far[i],
            near: near[i],
        })?;
    }
    Ok(standings)
}
