//! How the faults of a book are reported.

ghost use Rattle.std.specs.Prelude.{◌≡◌};
ghost use Rattle.run_pair.specs.BookFaults.{reported, reported_by};

use outside::fault::OutsideFault;
use sync_state::fault::BookFault;

/// How a fault of the book is reported.
pub(crate) fn reported(fault: BookFault) -> OutsideFault
    ensures { result ≡ reported fault }
{
    match fault {
        BookFault::Stopped => OutsideFault::Stopped,
        BookFault::BadState(line) => OutsideFault::BadState(line),
        BookFault::BadJournal(line) => OutsideFault::BadJournal(line),
        BookFault::NoMemory => OutsideFault::NoMemory,
    }
}

/// How an answer of the book is reported.
pub(crate) fn reported_by(answer: Result<(), BookFault>) -> Result<(), OutsideFault>
    ensures { result ≡ reported_by answer }
{
    match answer {
        Ok(()) => Ok(()),
        Err(fault) => Err(reported(fault)),
    }
}
