//! Laws of this crate's definitions, each shown by a function that does nothing.

ghost use Rattle.std.specs.Prelude.{◌≡◌, ℕ, ◌<◌, ◌^◌, All, List};
ghost use Rattle.outside.specs.BoxArrivals.{Arrives};
ghost use Rattle.mailcore.specs.declared.keywords.Keyword.{Keyword};
ghost use Rattle.mailcore.specs.KeywordNames.{IsWithin};
ghost use Rattle.mailcore.specs.Ranges.{AreFlagSets, IsInRange};
ghost use Rattle.mailcore.specs.Stores.{IsStore};
ghost use Rattle.maildir.specs.Folders.{Stored};
ghost use Rattle.maildir.specs.Gains.{Adds, Gains};
ghost use Rattle.near_box.specs.Mailboxes.{IsMailbox, near_of};
ghost use Rattle.mailcore.specs.Visitors.{Visitors};

use mailcore::side::Side;

/// The mailbox of a folder that holds one is a mailbox: its UIDs rise and are below the next one, its numbers are in their
/// ranges (no UID, next UID or validity is 0), and each flag has a name by the map, those of waiting files too.
pub fn near_mailboxes_are_mailboxes()
    ensures store { (fresh : ℕ) (keywords : List Keyword) (s : Stored) → IsMailbox fresh s → IsStore (near_of fresh keywords s).store }
    ensures ranges { (fresh : ℕ) (keywords : List Keyword) (s : Stored) → 0 < fresh → fresh < 2 ^ 32 → IsMailbox fresh s
        → IsInRange (near_of fresh keywords s).store }
    ensures within { (fresh : ℕ) (keywords : List Keyword) (s : Stored)
        → All (λ m. IsWithin keywords m.flags) (near_of fresh keywords s).store.messages }
    ensures waiting_within { (fresh : ℕ) (keywords : List Keyword) (s : Stored)
        → All (λ f. IsWithin keywords f.flags) (near_of fresh keywords s).waiting }
    ensures waiting { (fresh : ℕ) (keywords : List Keyword) (s : Stored) → AreFlagSets (near_of fresh keywords s).waiting }
{}

/// What others add to the folder of a mailbox arrives in the mailbox: its messages, its UIDVALIDITY and its next UID stay as they are,
/// the files wait among those that waited, and it is a mailbox still. Files that follow the others arrive in any folder.
pub fn folders_gain_what_arrives()
    ensures arrives { (v : Visitors) (fresh : ℕ) (keywords : List Keyword) (s s' : Stored) → IsMailbox fresh s → Gains v s s'
        → Arrives Side.Near v.ours v.alone (near_of fresh keywords s) (near_of fresh keywords s') }
    ensures store { (v : Visitors) (fresh : ℕ) (keywords : List Keyword) (s s' : Stored) → IsMailbox fresh s → Gains v s s'
        → (near_of fresh keywords s').store ≡ (near_of fresh keywords s).store }
    ensures mailbox { (v : Visitors) (fresh : ℕ) (s s' : Stored) → IsMailbox fresh s → Gains v s s' → IsMailbox fresh s' }
    ensures following { (v : Visitors) (fresh : ℕ) (keywords : List Keyword) (s s' : Stored) → Adds v s s'
        → Arrives Side.Near v.ours v.alone (near_of fresh keywords s) (near_of fresh keywords s') }
{}
