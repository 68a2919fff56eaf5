//! A world: two mailboxes, the state of the last run and what a run may do.

use mailcore::flags::Flags;
use mailcore::mailbox::StoredMailbox;
use mailcore::octets::Octets;
use rules::options::Options;
use rules::state::SyncState;

/// A near file that has no UID yet.
#[derive(Drop)]
pub struct WaitingFile {
    /// Its flags.
    pub flags: Flags,
    /// Its bytes as they are stored.
    pub bytes: Octets,
}

/// What becomes of the near files that wait for a UID.
#[derive(Clone, Copy, PartialEq, Eq)]
pub enum Waiting {
    /// They stay waiting.
    Kept,
    /// Each gets the next UID of the near mailbox. A line for whose file no UID is left is a bad one.
    Admitted,
}

/// What is known before a run, as a text gives it (docs/FORMATS.md, "World").
#[derive(Drop)]
pub struct World {
    /// What the run may do.
    pub options: Options,
    /// The far mailbox.
    pub far: StoredMailbox,
    /// The near mailbox.
    pub near: StoredMailbox,
    /// The near files that wait for a UID, in the order of their names.
    pub waiting: Vec<WaitingFile>,
    /// What the last run recorded.
    pub state: SyncState,
}
