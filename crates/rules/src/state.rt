//! What the last run recorded.

ghost use Rattle.std.specs.Prelude.{◌≡◌, []};

use crate::entry::Entries;
use std::alloc::Global;

/// What the last run recorded.
#[derive(Drop)]
pub struct SyncState {
    /// The number of the last run, 0 if there was none.
    pub run: u64,
    /// The far mailbox's UIDVALIDITY, 0 if there was no run.
    pub far_validity: u32,
    /// The near mailbox's UIDVALIDITY, 0 if there was no run.
    pub near_validity: u32,
    /// MaxPulledUid: far messages up to this UID are not new any more. 0 at first.
    pub max_pulled: u32,
    /// MaxPushedUid: near messages up to this UID are not new any more. 0 at first.
    pub max_pushed: u32,
    /// The pairs.
    pub entries: Entries,
}

impl SyncState {
    /// The state before the first run.
    pub fn none(alloc: Global) -> Self
        ensures numbers { (result.run ≡ 0) × (result.far_validity ≡ 0) × (result.near_validity ≡ 0) }
        ensures highest { (result.max_pulled ≡ 0) × (result.max_pushed ≡ 0) }
        ensures entries { result.entries ≡ [] }
    {
        SyncState {
            run: 0,
            far_validity: 0,
            near_validity: 0,
            max_pulled: 0,
            max_pushed: 0,
            entries: Entries::new(alloc),
        }
    }
}
