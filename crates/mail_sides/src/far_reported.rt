//! How the faults of the far box are reported.

ghost use Rattle.std.specs.Prelude.{◌≡◌};
ghost use Rattle.mail_sides.specs.FarFaults.{reported, reported_by};

use imap_link::fault::FarFault;
use outside::box_fault::BoxFault;
use outside::fault_number::{FAR_NO_REV2, FAR_READ_ONLY, FAR_TOO_LONG, FAR_UNKNOWN_ANSWER};

/// How a fault of the far mailbox is reported: those that are its own by their numbers.
pub fn reported(fault: FarFault) -> BoxFault
    ensures { result ≡ reported fault }
{
    match fault {
        FarFault::Stopped => BoxFault::Stopped,
        FarFault::Refused => BoxFault::Refused,
        FarFault::Protocol => BoxFault::Own(FAR_UNKNOWN_ANSWER),
        FarFault::TooLong => BoxFault::Own(FAR_TOO_LONG),
        FarFault::NoRev2 => BoxFault::Own(FAR_NO_REV2),
        FarFault::ReadOnly => BoxFault::Own(FAR_READ_ONLY),
        FarFault::NoMemory => BoxFault::NoMemory,
    }
}

/// How an answer of the far box is reported.
pub(crate) fn reported_by<T>(answer: Result<T, FarFault>) -> Result<T, BoxFault>
    ensures { result ≡ reported_by answer }
{
    match answer {
        Ok(answer) => Ok(answer),
        Err(fault) => Err(reported(fault)),
    }
}
