//! What is known of the near UIDs of entries, so that a UID that is added need not be sought among them.

ghost use Rattle.std.specs.Prelude.{◌≡◌, ◌++◌, List, [], ◌∷◌, Err, IfOk, OnErr, OnOk, Some};
ghost use Rattle.std.specs.List.{list_any};
ghost use Rattle.rules.specs.declared.entry.Entry.{Entry};
ghost use Rattle.rules.specs.EntryParts.{KnowsNear, is_near_free};
ghost use Rattle.rules.specs.Entries.{is_same};

use crate::entry::Entry;
use mailcore::fault::PushFault;
use mailcore::uid::Uid;
use std::alloc::Global;
use std::collections::BTreeSet;

/// What is known of the near UIDs of entries.
#[derive(Drop)]
pub(crate) enum NearUids {
    /// Nothing.
    Unknown,
    /// None is above this one. Where near UIDs rise with far ones, as copies come, no more is needed.
    UpTo(u32, Global),
    /// They are these.
    Known(BTreeSet<u32>),
}

impl NearUids {
    /// Of no entries.
    pub(crate) fn none(alloc: Global) -> Self
        ensures { KnowsNear result [] }
    {
        NearUids::UpTo(0, alloc)
    }

    /// Whether none of the entries has this near UID.
    pub(crate) fn is_free(&self, entries: &[Entry], near: Option<Uid>) -> bool
        requires { KnowsNear self.now entries.now }
        ensures { result ≡ is_near_free near entries.now }
    {
        let Some(uid) = near else {
            return true;
        };
        match self {
            NearUids::UpTo(most, _) if *most < uid.get() => true,
            NearUids::Known(uids) => !uids.contains(&uid.get()),
            _ => !has_near_uid(entries, uid),
        }
    }

    /// Takes in the near UID of the last of these entries. Where near UIDs rise no more, all of them are gathered.
    pub(crate) fn add(&mut self, entries: &[Entry], near: Option<Uid>) -> Result<(), PushFault>
        ensures ok { OnOk result ((es : List Entry) (e : Entry) → entries.now ≡ es ++ e ∷ [] → e.near ≡ near → KnowsNear self.old es
            → KnowsNear self.new entries.now) }
        ensures err { OnErr result ((es : List Entry) → KnowsNear self.old es → KnowsNear self.new es) }
        ensures no_memory { OnErr result (result ≡ Err PushFault.NoMemory) }
    {
        match (&*self, near) {
            (NearUids::UpTo(most, alloc), Some(uid)) if *most >= uid.get() => {
                *self = gathered(*alloc, entries)?;
                Ok(())
            }
            _ => self.note(near),
        }
    }

    /// Notes one more near UID.
    fn note(&mut self, near: Option<Uid>) -> Result<(), PushFault>
        ensures ok { OnOk result ((es : List Entry) (e : Entry) → e.near ≡ near → KnowsNear self.old es → KnowsNear self.new (es ++ e ∷ [])) }
        ensures err { OnErr result ((es : List Entry) → KnowsNear self.old es → KnowsNear self.new es) }
        ensures no_memory { OnErr result (result ≡ Err PushFault.NoMemory) }
    {
        let Some(uid) = near else {
            return Ok(());
        };
        match self {
            NearUids::Unknown => {}
            NearUids::UpTo(most, _) => *most = uid.get().max(*most),
            NearUids::Known(uids) => {
                uids.insert(uid.get())?;
            }
        }
        Ok(())
    }
}

/// The near UIDs of these entries.
fn gathered(alloc: Global, entries: &[Entry]) -> Result<NearUids, PushFault>
    ensures knows { IfOk result (λ known. KnowsNear known entries.now) }
    ensures no_memory { OnErr result (result ≡ Err PushFault.NoMemory) }
{
    let mut known = NearUids::Known(BTreeSet::new(alloc));
    for entry in entries {
        known.note(entry.near)?;
    }
    Ok(known)
}

fn has_near_uid(entries: &[Entry], uid: Uid) -> bool
    ensures { result ≡ list_any (λ e. is_same e.near (Some uid)) entries.now }
{
    entries.iter().any(|entry| is_near(entry, uid))
}

fn is_near(entry: &Entry, uid: Uid) -> bool
    ensures { result ≡ is_same entry.now.near (Some uid) }
{
    entry.near == Some(uid)
}
