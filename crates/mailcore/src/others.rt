//! Others who add messages to a device in memory: which marks their messages do not bear.

ghost use Rattle.std.specs.Prelude.{◌≡◌};
ghost use Rattle.mailcore.specs.Content.{mark_of};
ghost use Rattle.mailcore.specs.Visitors.{is_foreign};

use crate::copies::mark_of;

/// Others who add messages. It is the same for all values of a type.
pub trait Others: Drop {
    ghost use Rattle.std.specs.Prelude.{ℕ, Bool, List};

    /// The marks of the run, which their messages do not bear.
    ghost ours: { List ℕ → Bool };

    /// Whether this is a message that they may add.
    fn may_add(message: &[u8]) -> bool
        ensures { result ≡ is_foreign ours (mark_of message.now) };
}

/// Others whose messages bear no mark: each mark is the run's.
#[derive(Drop)]
pub struct NoMarks;

/// Others whose messages may bear any mark: none is known to be the run's.
#[derive(Drop)]
pub struct AnyMarks;

impl Others for NoMarks {
    ghost use Rattle.std.specs.Prelude.{true};

    ghost ours = { λ mark. true };

    fn may_add(message: &[u8]) -> bool {
        mark_of(message).is_none()
    }
}

impl Others for AnyMarks {
    ghost use Rattle.std.specs.Prelude.{false};

    ghost ours = { λ mark. false };

    #[tactic(auto, using(crate::proofs::Foreign::any_is_foreign))]
    fn may_add(_message: &[u8]) -> bool {
        true
    }
}
