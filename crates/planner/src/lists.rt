//! The merged lists that a plan is made on.

ghost use Rattle.std.specs.Prelude.{All};
ghost use Rattle.mailcore.specs.Listed.{IsRising};
ghost use Rattle.mailcore.specs.declared.side.Side.TheVariants.{Far, Near};
ghost use Rattle.rules.specs.Entries.{ArePairs};
ghost use Rattle.planner.specs.Scenes.{IsListed, IsMet, Stands, entries_of, items_of};

use crate::merged::Merged;
use crate::met::Met;
use crate::standings::Standing;
use mailcore::flags::Flags;
use mailcore::listing::Listing;
use mailcore::side::{Direction, Side};
use rules::entry::ListedPair;
use rules::options::Options;
use rules::state::SyncState;

/// The merged lists, lent, with what they keep.
#[derive(Clone, Copy)]
pub struct Lists<'a> {
    far: &'a [Met],
    near: &'a [Met],
    standings: &'a [Standing],
    max_pulled: u32,
    max_pushed: u32,
    options: &'a Options,
    ghost far_met: { All (IsMet Far standings.now) far.now },
    ghost near_met: { All (IsMet Near standings.now) near.now },
    ghost stands: { All (Stands (items_of far.now) (items_of near.now)) standings.now },
    ghost far_rising: { IsRising (items_of far.now) },
    ghost near_rising: { IsRising (items_of near.now) },
    ghost pairs: { ArePairs (entries_of standings.now) },
}

impl<'a> Lists<'a> {
    ghost use Rattle.std.specs.Prelude.{◌≡◌, Some, None, IfSome, IfNone, true};
    ghost use Rattle.rules.specs.Scene.{scene, items, highest, flags_at, full_entry, is_paired};
    ghost use Rattle.planner.specs.Merges.{IsMerged};
    ghost use Rattle.rules.specs.Entries.{uid_of};
    ghost use Rattle.rules.specs.Called.{pair_of};
    ghost use Rattle.planner.specs.Scenes.{flags_on};
    ghost use Rattle.planner.specs.Seen.{seen};

    /// The messages of these lists, of this state and these options.
    pub fn new(
        merged: &'a Merged,
        far: &Listing,
        near: &Listing,
        state: &SyncState,
        options: &'a Options,
    ) -> Self
        requires far_rising { IsRising far.now.items }
        requires near_rising { IsRising near.now.items }
        requires pairs { ArePairs state.now.entries }
        requires merged { IsMerged far.now.items near.now.items state.now.entries merged.now }
        ensures { seen result ≡ scene far.now near.now state.now options.now }
    {
        Lists {
            far: &merged.far,
            near: &merged.near,
            standings: &merged.standings,
            max_pulled: state.max_pulled,
            max_pushed: state.max_pushed,
            options,
        }
    }

    /// The entries, in order.
    pub fn standings(&self) -> &'a [Standing]
        ensures entries { entries_of result.now ≡ (seen self.now).entries }
        ensures stands { All (Stands (seen self.now).far (seen self.now).near) result.now }
    {
        self.standings
    }

    /// What the run may do.
    pub fn options(&self) -> &'a Options
        ensures { result.now ≡ (seen self.now).options }
    {
        self.options
    }

    /// The highest UID that earlier runs have taken over in a direction.
    pub fn highest(&self, direction: Direction) -> u32
        ensures { result ≡ highest direction (seen self.now) }
    {
        match direction {
            Direction::Pull => self.max_pulled,
            Direction::Push => self.max_pushed,
        }
    }

    /// The pair of a full entry whose messages are both listed.
    pub fn pair_of(&self, standing: &Standing) -> Option<ListedPair>
        requires { Stands (seen self.now).far (seen self.now).near standing.now }
        ensures { result ≡ pair_of (seen self.now) standing.now.entry }
    {
        let (far, near) = standing.entry.uids()?;
        let far_flags = self.flags_on(Side::Far, standing)?;
        let near_flags = self.flags_on(Side::Near, standing)?;
        Some(ListedPair {
            far,
            near,
            far_flags,
            near_flags,
            recorded: standing.entry.flags,
        })
    }

    /// The messages of a side.
    pub fn met(&self, side: Side) -> &'a [Met]
        ensures items { items_of result.now ≡ items (seen self.now) side }
        ensures met { All (IsMet side self.now.standings.now) result.now }
        ensures listed { All (IsListed (items (seen self.now) side)) result.now }
        ensures rising { IsRising (items (seen self.now) side) }
    {
        match side {
            Side::Far => self.far,
            Side::Near => self.near,
        }
    }

    /// The flags of an entry's message on a side.
    pub fn flags_on(&self, side: Side, standing: &Standing) -> Option<Flags>
        requires { Stands (seen self.now).far (seen self.now).near standing.now }
        ensures { result ≡ flags_at (items (seen self.now) side) (uid_of side standing.now.entry) }
    {
        match side {
            Side::Far => standing.far,
            Side::Near => standing.near,
        }
    }

    /// Whether an entry names the message.
    pub fn is_paired(&self, side: Side, met: &Met) -> bool
        requires { IsMet side self.now.standings.now met.now }
        ensures { result ≡ is_paired (seen self.now) side met.now.item.uid }
    {
        met.holder.is_some()
    }

    /// The full entry that names the message.
    pub fn full(&self, side: Side, met: &Met) -> Option<Standing>
        requires { IsMet side self.now.standings.now met.now }
        ensures some { IfSome result (λ st. full_entry (seen self.now) side met.now.item.uid ≡ Some st.entry) }
        ensures stands { IfSome result (Stands (seen self.now).far (seen self.now).near) }
        ensures none { IfNone result (full_entry (seen self.now) side met.now.item.uid ≡ None) }
    {
        // A UID is above 0.
        let _uid = met.item.uid.get();
        match met.holder {
            Some(standing) if standing.entry.is_full() => Some(standing),
            _ => None,
        }
    }
}
