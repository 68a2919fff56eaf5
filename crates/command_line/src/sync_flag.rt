//! The flags that are Sync words.

ghost use Rattle.std.specs.Prelude.{◌≡◌};
ghost use Rattle.command_line.specs.SyncFlags.{flag_name, flag_word};

use mailcore::side::Direction;
use rules::sync_words::{SyncType, SyncWord};

/// A flag that is a Sync word.
#[derive(Clone, Copy, PartialEq, Eq)]
pub(crate) enum SyncFlag {
    /// `--pull`.
    Pull,
    /// `--push`.
    Push,
    /// `--new`.
    New,
    /// `--gone`.
    Gone,
    /// `--flags`.
    Flags,
    /// `--full`.
    Full,
    /// `--noop`.
    Noop,
}

impl SyncFlag {
    /// All flags, in the order of the synopsis.
    pub(crate) const ALL: [SyncFlag; 7] = [
        SyncFlag::Pull,
        SyncFlag::Push,
        SyncFlag::New,
        SyncFlag::Gone,
        SyncFlag::Flags,
        SyncFlag::Full,
        SyncFlag::Noop,
    ];

    /// Its name, after the two hyphens.
    pub(crate) fn name(self) -> &'static str
        ensures { result.now ≡ flag_name self }
    {
        match self {
            SyncFlag::Pull => "pull",
            SyncFlag::Push => "push",
            SyncFlag::New => "new",
            SyncFlag::Gone => "gone",
            SyncFlag::Flags => "flags",
            SyncFlag::Full => "full",
            SyncFlag::Noop => "noop",
        }
    }

    /// The word that it is.
    pub(crate) fn word(self) -> SyncWord
        ensures { result ≡ flag_word self }
    {
        match self {
            SyncFlag::Pull => SyncWord::Way(Direction::Pull),
            SyncFlag::Push => SyncWord::Way(Direction::Push),
            SyncFlag::New => SyncWord::Sort(SyncType::New),
            SyncFlag::Gone => SyncWord::Sort(SyncType::Gone),
            SyncFlag::Flags => SyncWord::Sort(SyncType::Flags),
            SyncFlag::Full => SyncWord::Full,
            SyncFlag::Noop => SyncWord::Nothing,
        }
    }

    /// What help says of it.
    pub(crate) fn help(self) -> &'static str {
        match self {
            SyncFlag::Pull => "Sync Pull: from the far side to the near one",
            SyncFlag::Push => "Sync Push: from the near side to the far one",
            SyncFlag::New => "Sync New: new messages",
            SyncFlag::Gone => "Sync Gone: messages that have gone",
            SyncFlag::Flags => "Sync Flags: changed flags",
            SyncFlag::Full => "Sync Full: new and gone messages and flags",
            SyncFlag::Noop => "Copy and mark nothing; Expunge still applies",
        }
    }
}
