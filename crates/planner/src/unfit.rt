//! Messages that are skipped, since they are not fit to be copied.

ghost use Rattle.std.specs.Prelude.{◌≡◌, ◌++◌, OnOk, IfOk};
ghost use Rattle.std.specs.List.{list_all};
ghost use Rattle.mailcore.specs.Sides.{source};
ghost use Rattle.rules.specs.Scene.{scene};
ghost use Rattle.planner.specs.Scenes.{IsMet};
ghost use Rattle.rules.specs.Called.{is_unfit};
ghost use Rattle.planner.specs.Seen.{seen};
ghost use Rattle.planner.specs.Listed.{unfit_uids, all_unfit};

use crate::bounds::{few_entries, few_items};
use crate::lists::Lists;
use crate::merged::merge_all;
use crate::met::Met;
use crate::turns::Turns;
use mailcore::listing::{Item, Listing};
use mailcore::side::{Direction, Side};
use mailcore::uid::Uid;
use rules::options::Options;
use rules::state::SyncState;
use std::alloc::{AllocError, Global};

/// The messages that would be new but for their fitness: those of the far side and then those of the near side, each
/// in the order of their UIDs. Where all are fit, none is looked up.
///
/// `AllocError`: memory ran out.
pub fn unfit(
    alloc: Global,
    far: &Listing,
    near: &Listing,
    state: &SyncState,
    options: &Options,
) -> Result<Vec<(Side, Uid)>, AllocError>
    ensures { IfOk result (λ v. v.items ≡ all_unfit (scene far.now near.now state.now options.now)) }
{
    let entries = state.entries.as_slice();
    let (far_items, near_items) = (far.items.as_slice(), near.items.as_slice());
    if are_fit(far_items) && are_fit(near_items) {
        return Ok(Vec::new(alloc));
    }
    few_items(far_items);
    few_items(near_items);
    few_entries(entries);
    let merged = merge_all(alloc, far_items, near_items, entries, &mut Turns::new())?;
    let lists = Lists::new(&merged, far, near, state, options);
    let mut found = Vec::new(alloc);
    lists.push_unfit(Direction::Pull, &mut found)?;
    lists.push_unfit(Direction::Push, &mut found)?;
    Ok(found)
}

/// Whether all of these messages are fit to be copied.
fn are_fit(items: &[Item]) -> bool
    ensures { result ≡ list_all (λ i. i.fit) items.now }
{
    items.iter().all(|item| item.fit)
}

impl Lists<'_> {
    fn is_unfit(&self, direction: Direction, met: &Met) -> bool
        requires { IsMet (source direction) self.now.standings.now met.now }
        ensures { result ≡ is_unfit (seen self.now) direction met.now.item }
    {
        self.would_be_new(direction, met) && !met.item.fit
    }

    fn push_unfit(
        &self,
        direction: Direction,
        found: &mut Vec<(Side, Uid)>,
    ) -> Result<(), AllocError>
        ensures { OnOk result (found.new.items ≡ found.old.items ++ unfit_uids (seen self.now) direction) }
    {
        let side = direction.source();
        for met in self.met(side) {
            if self.is_unfit(direction, met) {
                found.push((side, met.item.uid))?;
            }
        }
        Ok(())
    }
}
