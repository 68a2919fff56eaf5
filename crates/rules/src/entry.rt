//! Entries: the pairs of messages that earlier runs made.

ghost use Rattle.std.specs.Prelude.{◌≡◌, ◌↔◌, ℕ, ◌-◌, ◌<◌, ◌++◌, List, [], ◌∷◌, length, true, false, None, Some, Err, OnOk, OnErr, IsErrOf};
ghost use Rattle.std.specs.List.{list_all, list_any, slice_get};
ghost use Rattle.rules.specs.Entries.{ArePairs, follows, has_a_side, is_full, is_same, may_end, uid_of, uid_on, uids_of};
ghost use Rattle.rules.specs.EntryParts.{KnowsNear, is_above, is_above_last, is_near_free};

use crate::near_uids::NearUids;
use mailcore::fault::PushFault;
use mailcore::flags::Flags;
use mailcore::side::Side;
use mailcore::uid::Uid;
use std::alloc::{AllocError, Global};
use std::marker::Model;

/// A pair of messages that an earlier run made, with the flags that both had then. A side with no UID has vanished,
/// and never have both.
#[derive(Clone, Copy, PartialEq, Eq)]
pub struct Entry {
    /// The far message.
    pub far: Option<Uid>,
    /// The near message.
    pub near: Option<Uid>,
    /// The recorded flags.
    pub flags: Flags,
}

impl Entry {
    /// The number of the UID on this side, 0 if the side has vanished, as in the texts of states and plans.
    pub fn number(&self, side: Side) -> u32
        ensures number { result ≡ uid_of side self.now }
        ensures vanished { result ≡ 0 → uid_on side self.now ≡ None }
    {
        match side {
            Side::Far => self.far.map_or(0, |uid| uid.get()),
            Side::Near => self.near.map_or(0, |uid| uid.get()),
        }
    }

    /// Both UIDs, if neither side has vanished.
    pub fn uids(&self) -> Option<(Uid, Uid)>
        ensures { result ≡ uids_of self.now }
    {
        match (self.far, self.near) {
            (Some(far), Some(near)) => Some((far, near)),
            _ => None,
        }
    }

    /// Whether a side has not vanished.
    pub fn has_a_side(&self) -> bool
        ensures { result ≡ has_a_side self.now }
    {
        self.far.is_some() || self.near.is_some()
    }

    /// Whether neither side has vanished.
    pub fn is_full(&self) -> bool
        ensures { result ≡ is_full self.now }
    {
        self.far.is_some() && self.near.is_some()
    }
}

/// A full entry whose two messages are listed.
#[derive(Clone, Copy, PartialEq, Eq)]
pub struct ListedPair {
    /// The far message.
    pub far: Uid,
    /// The near message.
    pub near: Uid,
    /// The far message's flags.
    pub far_flags: Flags,
    /// The near message's flags.
    pub near_flags: Flags,
    /// The recorded flags.
    pub recorded: Flags,
}

/// Entries in order: rising by far and then near UID, and a UID stands in one entry of its side at most.
#[derive(Drop)]
pub struct Entries {
    list: Vec<Entry>,
    // What is known of the near UIDs of the list, so that `push` need not go over it: nothing after `from_vec`, which takes no memory.
    near: NearUids,
}

impl Model for Entries {
    ghost use Rattle.std.specs.Prelude.{List};
    ghost use Rattle.rules.specs.declared.entry.Entry.{Entry};

    ghost Value = { List Entry };

    ghost use Rattle.rules.specs.Entries.{ArePairs};
    ghost use Rattle.rules.specs.EntryParts.{KnowsNear};

    ghost view = { λ a. a.list.items };

    ghost invariant = { λ a. ArePairs a.list.items × KnowsNear a.near a.list.items };
}

impl Entries {
    /// No entry.
    pub fn new(alloc: Global) -> Self
        ensures { result ≡ [] }
    {
        Entries {
            list: Vec::new(alloc),
            near: NearUids::none(alloc),
        }
    }

    /// These entries, without taking memory.
    pub fn from_vec(list: Vec<Entry>) -> Self
        requires { ArePairs list.items }
        ensures { result ≡ list.items }
    {
        Entries {
            near: NearUids::Unknown,
            list,
        }
    }

    /// All of them.
    pub fn as_slice(&self) -> &[Entry]
        ensures all { result.now ≡ self.now }
        ensures pairs { ArePairs self.now }
    {
        &self.list
    }

    /// Gives the entries back, without taking memory.
    pub fn into_vec(self) -> Vec<Entry>
        ensures list { result.items ≡ self }
        ensures pairs { ArePairs result.items }
    {
        let Entries { list, near: _ } = self;
        list
    }

    /// Adds an entry after the others. `OutOfOrder`: it may not stand there, since it has no side, is not above
    /// the others, or names a UID that another names.
    pub fn push(&mut self, entry: Entry) -> Result<(), PushFault>
        ensures ok { OnOk result (self.new ≡ self.old ++ entry ∷ []) }
        ensures fits { OnOk result (may_end entry self.old ≡ true) }
        ensures out_of_order { IsErrOf result PushFault.OutOfOrder ↔ (may_end entry self.old ≡ false) }
        ensures err { OnErr result (self.new ≡ self.old) }
    {
        if !may_stand_last(&self.near, &self.list, &entry) {
            return Err(PushFault::OutOfOrder);
        }
        self.list.push(entry)?;
        match self.near.add(&self.list, entry.near) {
            Ok(()) => Ok(()),
            Err(refused) => {
                self.list.pop();
                Err(refused)
            }
        }
    }
}

fn may_stand_last(known: &NearUids, entries: &[Entry], entry: &Entry) -> bool
    requires pairs { ArePairs entries.now }
    requires known { KnowsNear known.now entries.now }
    ensures { result ≡ may_end entry.now entries.now }
{
    entry.has_a_side() && follows_all(known, entries, entry)
}

/// In order after others: they rise, so that the last one stands for all but their near UIDs.
fn follows_all(known: &NearUids, entries: &[Entry], entry: &Entry) -> bool
    requires pairs { ArePairs entries.now }
    requires known { KnowsNear known.now entries.now }
    ensures { result ≡ list_all (λ a. follows a entry.now) entries.now }
{
    is_above_last(entries, entry) && known.is_free(entries, entry.near)
}

fn is_above_last(entries: &[Entry], entry: &Entry) -> bool
    ensures last { result ≡ is_above_last (slice_get entries.now (length entries.now - 1)) entry.now }
    ensures positive { 0 < length entries.now → (uid : ℕ) → entry.now.far ≡ Some uid → 0 < uid }
{
    match entries.last() {
        Some(last) => is_above(last, entry),
        None => true,
    }
}

/// Whether the entry is in order after another, and has another far UID.
fn is_above(other: &Entry, entry: &Entry) -> bool
    ensures above { result ≡ is_above other.now entry.now }
    ensures positive { (uid : ℕ) → entry.now.far ≡ Some uid → 0 < uid }
{
    let (far, near) = (other.number(Side::Far), other.number(Side::Near));
    let (next_far, next_near) = (entry.number(Side::Far), entry.number(Side::Near));
    (far < next_far || (far == next_far && near < next_near))
        && (other.far != entry.far || other.far.is_none())
}
