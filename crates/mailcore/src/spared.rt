//! Which messages are not asked whether they are fit to be copied.

ghost use Rattle.std.specs.Prelude.{◌≡◌, ◌<◌, ◌||◌, ◌==◌, ℕ, false, nat_le};
ghost use Rattle.std.specs.List.Sorted.{IsNonDecreasing};

use crate::uid::Uid;
use std::alloc::Global;

/// Messages, by their UIDs, that are not asked whether they are fit to be copied, since they cannot be new: all up to one UID, and some
/// others.
#[derive(Drop)]
pub struct Spared {
    up_to: u32,
    // They do not fall.
    others: Vec<u32>,
    ghost in_order: { IsNonDecreasing others.items },
}

impl Spared {
    ghost use Rattle.std.specs.List.{list_any};
    ghost use Rattle.mailcore.specs.Spared.{spares};

    /// None is spared.
    pub fn none(alloc: Global) -> Spared
        ensures { (uid : ℕ) → 0 < uid → spares result uid ≡ false }
    {
        Spared::of(0, Vec::new(alloc))
    }

    /// All up to this UID, and these, in any order.
    pub fn of(up_to: u32, others: Vec<u32>) -> Spared
        ensures { (uid : ℕ) → spares result uid ≡ (nat_le uid up_to || list_any (λ u. u == uid) others.items) }
    {
        let mut others = others;
        others.sort_unstable();
        Spared { up_to, others }
    }

    /// Whether the message with this UID is spared.
    pub fn has(&self, uid: Uid) -> bool
        ensures { result ≡ spares self.now uid }
    {
        let uid = uid.get();
        uid <= self.up_to || self.others.binary_search(&uid).is_ok()
    }
}
