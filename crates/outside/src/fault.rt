//! Why a call of the outside has no answer.

use mailcore::side::Side;
use thiserror::Error;

/// Why a call has no answer. From then on each call answers `Stopped`, until `reopen`.
#[derive(Clone, Copy, Debug, PartialEq, Eq, Error)]
pub enum OutsideFault {
    /// A call of a link, a folder or a shelf stopped, now or earlier.
    #[error("stopped")]
    Stopped,
    /// The far mailbox said no to a step (RFC 9051, section 7.1.2), and nothing has changed. A NO to a call before the steps is fault 2
    /// of its box.
    #[error("refused")]
    Refused,
    /// The box of this side has another fault, of this number. Nothing has changed.
    #[error("store fault {0:?} {1}")]
    Box(Side, u8),
    /// The state is not spelled so, from this line on. Line 0: the UID of a copy is taken.
    #[error("bad state {0}")]
    BadState(usize),
    /// The journal is bad, from this line on.
    #[error("bad journal {0}")]
    BadJournal(usize),
    /// A growth was refused.
    #[error("no memory")]
    NoMemory,
}
