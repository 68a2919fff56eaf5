//! Changes of the flags of a message.

ghost use Rattle.std.specs.Prelude.{◌≡◌};
ghost use Rattle.near_box.specs.FlagChanges.{changed_flags};

use mailcore::flags::Flags;

/// What becomes of the flags of a message.
#[derive(Clone, Copy)]
pub enum FlagChange {
    /// These are set.
    Add(Flags),
    /// These are cleared.
    Remove(Flags),
}

impl FlagChange {
    /// What these flags become.
    pub fn of(self, flags: Flags) -> Flags
        ensures { result ≡ changed_flags self flags }
    {
        match self {
            FlagChange::Add(more) => flags.union(more),
            FlagChange::Remove(fewer) => flags.minus(fewer),
        }
    }
}
