//! Whether the state says more of the near mailbox after a run than before.

ghost use Rattle.std.specs.Prelude.{◌≡◌};
ghost use Rattle.std.specs.List.{list_any};
ghost use Rattle.run_pair.specs.Naming.{NamesNothing, has_near as has_near_of, is_named as is_named_in};

use device::whose::Whose;
use mailcore::side::Side;
use rules::entry::Entry;
use rules::plan::Plan;
use rules::state::SyncState;

/// Whose changes of the near mailbox are synced before this plan is written, and before the state that it makes. Where that state names
/// nothing that this one does not name, an earlier process has left nothing to be synced that it needs.
pub(crate) fn whose_of(plan: &Plan, state: &SyncState) -> Whose
    ensures { result ≡ Whose.Own → NamesNothing state.now plan.now }
{
    let does_nothing = plan.steps.as_slice().is_empty() && plan.notes.as_slice().is_empty();
    if does_nothing
        && plan.near.validity == state.near_validity
        && is_named(state, plan.near.highest)
    {
        Whose::Own
    } else {
        Whose::All
    }
}

/// Whether the state names this near UID, as MaxPushedUid or in an entry: after a pull those of its copies are pushed no more.
fn is_named(state: &SyncState, uid: u32) -> bool
    ensures { result ≡ is_named_in uid state.now }
{
    uid == state.max_pushed || any_has(state.entries.as_slice(), uid)
}

fn any_has(entries: &[Entry], uid: u32) -> bool
    ensures { result ≡ list_any (has_near_of uid) entries.now }
{
    entries.iter().any(|entry| has_near(entry, uid))
}

/// Whether the near message of an entry has this UID.
fn has_near(entry: &Entry, uid: u32) -> bool
    ensures { result ≡ has_near_of uid entry.now }
{
    entry.number(Side::Near) == uid
}
