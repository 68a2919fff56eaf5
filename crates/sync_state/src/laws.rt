//! Laws of this crate's definitions, each shown by a function that does nothing.

ghost use Rattle.std.specs.Prelude.{◌≡◌, ℕ, List};
ghost use Rattle.rules.specs.declared.plan.Plan.{Plan};
ghost use Rattle.rules.specs.declared.state.SyncState.{SyncState};
ghost use Rattle.sync_state.specs.declared.journal.WrittenJournal.{WrittenJournal};
ghost use Rattle.sync_state.specs.declared.version.Version.{Version};
ghost use Rattle.sync_state.specs.declared.version.Version.TheVariants.{Two};
ghost use Rattle.sync_state.specs.JournalReading.{IsWritten};
ghost use Rattle.sync_state.specs.JournalText.{IsPlan};
ghost use Rattle.sync_state.specs.StateText.{HasText, StateText};
ghost use Rattle.sync_state.specs.Versions.{HasWords};

/// A text is that of one state at most: what was written is what is read.
pub fn states_by_their_text()
    ensures { (a b : SyncState) (text : List ℕ) → StateText a text → StateText b text → a ≡ b }
{}

/// A text holds one journal at most, with or without a torn line.
pub fn journals_by_their_text()
    ensures { (a b : WrittenJournal) (text : List ℕ) → IsWritten a text → IsWritten b text → a ≡ b }
{}

/// What has a text has one of the second version: a state of either version, and a plan.
pub fn texts_of_the_second_version()
    ensures states { (version : Version) (s : SyncState) → HasText version s → HasText Two s }
    ensures plans { (p : Plan) → IsPlan p → HasWords Two p }
{}
