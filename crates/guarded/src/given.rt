//! Which UIDs a far mailbox is known to have given.

ghost use Rattle.std.specs.Prelude.{◌≡◌};
ghost use Rattle.std.specs.Option.{option_copied};
ghost use Rattle.guarded.specs.Given.{copied_far, given_by, greatest_copied, greatest_far, is_again};

use mailcore::side::{Direction, Side};
use rules::plan::Step;
use rules::state::SyncState;
use sync_state::journal::{Journal, Logged};

/// What a far mailbox is known to have given.
#[derive(Clone, Copy)]
pub struct FarGiven {
    /// Its UIDVALIDITY then, or 0 if none is known.
    pub validity: u32,
    /// The greatest UID, or 0.
    pub greatest: u32,
}

impl FarGiven {
    /// Nothing is known.
    pub(crate) fn nothing() -> Self
        ensures { result ≡ record { validity = 0; greatest = 0 } }
    {
        FarGiven {
            validity: 0,
            greatest: 0,
        }
    }

    /// What a state knows, and the plan that is pending after it.
    pub fn by(state: &SyncState, pending: Option<&Journal>) -> Self
        ensures { result ≡ given_by state.now (option_copied pending.entry) }
    {
        let known = greatest_far(state);
        match pending {
            Some(journal) => FarGiven {
                validity: journal.plan.far.validity,
                greatest: known.max(greatest_copied(journal)),
            },
            None => FarGiven {
                validity: state.far_validity,
                greatest: known,
            },
        }
    }

    /// The greatest UID that is known, if a mailbox of this UIDVALIDITY and UIDNEXT is to give it again. One of another UIDVALIDITY gives
    /// other UIDs.
    pub fn again(&self, validity: u32, next: u32) -> Option<u32>
        ensures { result ≡ is_again self.now validity next }
    {
        if validity == self.validity && next <= self.greatest {
            Some(self.greatest)
        } else {
            None
        }
    }
}

/// The greatest far UID that a state knows, or 0.
fn greatest_far(state: &SyncState) -> u32
    ensures { result ≡ greatest_far state.now }
{
    state
        .entries
        .as_slice()
        .iter()
        .fold(state.max_pulled, |greatest, entry| {
            greatest.max(entry.number(Side::Far))
        })
}

/// The greatest far UID of a message that was copied by the steps of a journal, or of a copy that they made, or 0.
fn greatest_copied(journal: &Journal) -> u32
    ensures { result ≡ greatest_copied journal.now }
{
    let steps = journal.plan.steps.as_slice().iter();
    steps
        .zip(journal.log.as_slice())
        .map(|(step, logged)| copied_far(step, logged))
        .fold(0, |greatest, uid| greatest.max(uid))
}

/// The far UID of a step that was copied, or 0.
fn copied_far(step: &Step, logged: &Logged) -> u32
    ensures { result ≡ copied_far step.now logged.now }
{
    match (step, logged) {
        (
            Step::New {
                direction: Direction::Pull,
                uid,
                ..
            },
            Logged::Copied(_),
        ) => uid.get(),
        (
            Step::New {
                direction: Direction::Push,
                ..
            },
            Logged::Copied(copy),
        ) => copy.get(),
        _ => 0,
    }
}
