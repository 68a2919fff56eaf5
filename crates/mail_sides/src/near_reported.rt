//! How the faults of the near box are reported.

ghost use Rattle.std.specs.Prelude.{◌≡◌};
ghost use Rattle.mail_sides.specs.NearFaults.{reported, reported_by};

use near_box::NearFault;
use outside::box_fault::BoxFault;
use outside::fault_number::{
    NEAR_ABSENT, NEAR_BAD_META, NEAR_TWO_WITH_ONE_UID, NEAR_UIDS_EXHAUSTED,
};

/// How a fault of the near box is reported.
pub(crate) fn reported(fault: NearFault) -> BoxFault
    ensures { result ≡ reported fault }
{
    match fault {
        NearFault::Stopped => BoxFault::Stopped,
        NearFault::Absent => BoxFault::Own(NEAR_ABSENT),
        NearFault::TwoWithOneUid => BoxFault::Own(NEAR_TWO_WITH_ONE_UID),
        NearFault::BadMeta => BoxFault::Own(NEAR_BAD_META),
        NearFault::UidsExhausted => BoxFault::Own(NEAR_UIDS_EXHAUSTED),
        NearFault::NoMemory => BoxFault::NoMemory,
    }
}

/// How an answer of the near box is reported.
pub(crate) fn reported_by<T>(answer: Result<T, NearFault>) -> Result<T, BoxFault>
    ensures { result ≡ reported_by answer }
{
    match answer {
        Ok(answer) => Ok(answer),
        Err(fault) => Err(reported(fault)),
    }
}
