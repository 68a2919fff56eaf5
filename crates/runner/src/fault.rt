//! Why a run was not finished.

ghost use Rattle.std.specs.Prelude.{◌≡◌};
ghost use Rattle.runner.specs.Faults as spec;

use mailcore::side::Side;
use outside::fault::OutsideFault;
use outside::fault_number::FAR_REFUSED;
use std::error::Error;
use std::fmt;

/// Why a run was not finished. After each it can be resumed, once the outside was reopened.
#[derive(Clone, Copy, Debug, PartialEq, Eq)]
pub enum RunFault {
    /// A call was stopped.
    Stopped,
    /// The far mailbox said no to the step of this number, counted from 1.
    Refused(usize),
    /// The UIDVALIDITY of this side's mailbox is not the one that the journal or else the state names.
    ValidityChanged(Side),
    /// The state is not spelled so, from this line on. Line 0: the run's number is not the next one, or the UID of a copy is taken.
    BadState(usize),
    /// The journal is bad, from this line on.
    BadJournal(usize),
    /// Another fault of this side's box, by its number. Number 2 of the far box: it said no to a call before the steps. Number 3: a copy
    /// was made whose UID was not reported, and no message bears its mark.
    StoreFault(Side, u8),
    /// 64 marks in a row had been drawn already.
    MarksRepeat,
    /// A growth was refused.
    NoMemory,
    /// A plan of this run is pending, and by its map keywords have other letters than by the one handed in.
    KeywordsChanged,
}

/// A fault as `mbsync` prints it, without an end of line (docs/FORMATS.md, "Lines of `mbsync`").
impl fmt::Display for RunFault {
    ghost use Rattle.std.specs.Prelude.{Some};
    ghost use Rattle.runner.specs.FaultTexts.{fault_text};

    ghost output = { λ fault. Some (fault_text fault) };

    fn fmt<W: fmt::Write>(&self, f: &mut fmt::Formatter<W>) -> fmt::Result {
        match *self {
            RunFault::Stopped => f.write_str("stopped"),
            RunFault::Refused(step) => write!(f, "refused step {step}"),
            RunFault::ValidityChanged(side) => write!(f, "validity changed {side}"),
            RunFault::BadState(line) => write!(f, "bad state {line}"),
            RunFault::BadJournal(line) => write!(f, "bad journal {line}"),
            RunFault::StoreFault(side, number) => write!(f, "store fault {side} {number}"),
            RunFault::MarksRepeat => f.write_str("marks repeat"),
            RunFault::NoMemory => f.write_str("no memory"),
            RunFault::KeywordsChanged => f.write_str("keywords changed"),
        }
    }
}

impl Error for RunFault {}

/// How a fault of the outside is reported while no step is performed.
pub(crate) fn call_fault(fault: OutsideFault) -> RunFault
    ensures { result ≡ spec.call_fault fault }
{
    match fault {
        OutsideFault::Stopped => RunFault::Stopped,
        OutsideFault::Refused => RunFault::StoreFault(Side::Far, FAR_REFUSED),
        OutsideFault::Box(side, number) => RunFault::StoreFault(side, number),
        OutsideFault::BadState(line) => RunFault::BadState(line),
        OutsideFault::BadJournal(line) => RunFault::BadJournal(line),
        OutsideFault::NoMemory => RunFault::NoMemory,
    }
}

/// How a fault of the outside is reported while the step of this number is performed.
pub(crate) fn step_fault(fault: OutsideFault, number: usize) -> RunFault
    ensures { result ≡ spec.step_fault fault number }
{
    match fault {
        OutsideFault::Stopped => RunFault::Stopped,
        OutsideFault::Refused => RunFault::Refused(number),
        OutsideFault::Box(side, code) => RunFault::StoreFault(side, code),
        OutsideFault::BadState(line) => RunFault::BadState(line),
        OutsideFault::BadJournal(line) => RunFault::BadJournal(line),
        OutsideFault::NoMemory => RunFault::NoMemory,
    }
}
