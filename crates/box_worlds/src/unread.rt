//! Why the world of a mailbox is not read.

ghost use Rattle.std.specs.Prelude.{◌≡◌};
ghost use Rattle.box_worlds.specs.Unread.{box_reported, book_reported, push_reported};

use mailcore::fault::PushFault;
use mailcore::side::Side;
use outside::box_fault::BoxFault;
use outside::fault_number::{FAR_REFUSED, FAR_UNKNOWN_ANSWER};
use runner::fault::RunFault;
use std::alloc::{AllocError, AllocFailed};
use sync_state::fault::BookFault;
use thiserror::Error;

/// Why the world of a mailbox is not read.
#[derive(Clone, Copy, Debug, PartialEq, Eq, Error)]
pub enum UnreadWorld {
    /// A run over the mailbox is unfinished: the next one completes it, and makes no plan.
    #[error("unfinished run")]
    Unfinished,
    /// The far mailbox is to give UIDs from the first number on, and has given the second one before: it was put back to an earlier time.
    #[error("stopped")]
    Anew(u32, u32),
    /// What the next run would report, too.
    #[error("{0}")]
    Run(RunFault),
}

/// How a fault of the mailbox on this side is reported.
pub(crate) fn box_reported(side: Side, fault: BoxFault) -> UnreadWorld
    ensures { result ≡ box_reported side fault }
{
    UnreadWorld::Run(match fault {
        BoxFault::Stopped => RunFault::Stopped,
        BoxFault::Refused => RunFault::StoreFault(side, FAR_REFUSED),
        BoxFault::Own(number) => RunFault::StoreFault(side, number),
        BoxFault::NoMemory => RunFault::NoMemory,
    })
}

/// How it is reported that a listed message does not follow the others.
pub(crate) fn push_reported(side: Side, fault: PushFault) -> UnreadWorld
    ensures { result ≡ push_reported side fault }
{
    UnreadWorld::Run(match fault {
        PushFault::OutOfOrder => RunFault::StoreFault(side, FAR_UNKNOWN_ANSWER),
        PushFault::NoMemory => RunFault::NoMemory,
    })
}

impl From<BookFault> for UnreadWorld {
    ghost from_gives = { λ fault reported. reported ≡ book_reported fault };

    fn from(fault: BookFault) -> UnreadWorld {
        UnreadWorld::Run(match fault {
            BookFault::Stopped => RunFault::Stopped,
            BookFault::BadState(line) => RunFault::BadState(line),
            BookFault::BadJournal(line) => RunFault::BadJournal(line),
            BookFault::NoMemory => RunFault::NoMemory,
        })
    }
}

impl From<AllocError> for UnreadWorld {
    ghost use Rattle.box_worlds.specs.Unread.{out_of_memory};

    ghost from_gives = { λ _ reported. reported ≡ out_of_memory };

    fn from(_fault: AllocError) -> UnreadWorld {
        UnreadWorld::Run(RunFault::NoMemory)
    }
}

impl<T: Drop> From<AllocFailed<T>> for UnreadWorld {
    ghost use Rattle.box_worlds.specs.Unread.{out_of_memory};

    ghost from_gives = { λ _ reported. reported ≡ out_of_memory };

    fn from(_fault: AllocFailed<T>) -> UnreadWorld {
        UnreadWorld::Run(RunFault::NoMemory)
    }
}
