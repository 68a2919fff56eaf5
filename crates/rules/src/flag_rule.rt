//! How the flags of a pair propagate.

ghost use Rattle.std.specs.Prelude.{◌≡◌};
ghost use Rattle.rules.specs.FlagRule.{recorded_after, taken, with_deleted};

use mailcore::flags::{Flag, Flags};

/// The target's flags after it takes what has changed on the source alone since the flags were recorded.
pub fn taken(source: Flags, target: Flags, recorded: Flags) -> Flags
    ensures { result ≡ taken source target recorded }
{
    target
        .union(source.minus(recorded))
        .minus(recorded.minus(source))
}

/// The flags recorded after a run whose Flags cells are on in these directions.
pub fn recorded_after(pull: bool, push: bool, far: Flags, near: Flags, recorded: Flags) -> Flags
    ensures { result ≡ recorded_after pull push far near recorded }
{
    let pulled = if pull { far } else { recorded };
    let pushed = if push { near } else { recorded };
    taken(pushed, pulled, recorded)
}

/// The flags with `\Deleted`.
pub fn with_deleted(flags: Flags) -> Flags
    ensures { result ≡ with_deleted flags }
{
    flags.union(Flags::only(Flag::Deleted))
}
