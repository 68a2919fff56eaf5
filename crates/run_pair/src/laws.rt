//! A law of the plans after which the state names nothing more of the near mailbox, shown by a function that does nothing.

ghost use Rattle.std.specs.Prelude.{◌≡◌, true, filter};
ghost use Rattle.std.specs.List.Sorted.{IsPermutation};
ghost use Rattle.book.specs.Committed.{Commits};
ghost use Rattle.rules.specs.Entries.{has_a_side};
ghost use Rattle.rules.specs.declared.state.SyncState.{SyncState};
ghost use Rattle.run_pair.specs.Naming.{NamesNothing, is_named};
ghost use Rattle.sync_state.specs.declared.journal.Journal.{Journal};

/// Such a plan makes a state whose near UIDVALIDITY is that of the state before, which names its MaxPushedUid, and whose entries are that
/// state's, as far as they have a side: what was synced for that state is all that this one needs.
pub fn nothing_more_is_named()
    ensures validity { (j : Journal) (old new : SyncState) → NamesNothing old j.plan → Commits j old new → new.near_validity ≡ old.near_validity }
    ensures highest { (j : Journal) (old new : SyncState) → NamesNothing old j.plan → Commits j old new → is_named new.max_pushed old ≡ true }
    ensures entries { (j : Journal) (old new : SyncState) → NamesNothing old j.plan → Commits j old new
        → IsPermutation (filter has_a_side old.entries) new.entries }
{}
