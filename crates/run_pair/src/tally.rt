//! Whether calls of an outside are answered, what was reported and named, and how the device was each time it was opened again.

ghost use Rattle.std.specs.Prelude.{◌≡◌, false};
ghost use Rattle.outside.specs.BoxCalls.{copies_made};
ghost use Rattle.outside.specs.Devices.{Device};
ghost use Rattle.run_pair.specs.Faults.{reported, reported_by, unstepped};
ghost use Rattle.run_pair.specs.Tallies.{counted_again, ended, ended_naming, failed, no_copies, untouched};

use crate::book_part::BookPart;
use crate::device_history::DeviceHistory;
use book::shelf::Shelf;
use device::history::History;
use mailcore::side::Side;
use mailcore::uid::Uid;
use outside::box_fault::BoxFault;
use outside::fault::OutsideFault;
use outside::fault_number::FAR_REFUSED;
use outside::mailbox::Mailbox;
use outside::outside::Carried;
use std::marker::Model;

/// Whether calls of an outside are answered, and, for contracts alone, which faults were reported, how many copies were made, which
/// messages calls have named, and how the device was each time the outside was opened again.
#[derive(Drop)]
pub struct Tally {
    is_broken: bool,
    reported: History<OutsideFault>,
    copies: History<Carried>,
    named: History<(Side, Uid)>,
    reopened: DeviceHistory,
}

impl Model for Tally {
    ghost use Rattle.std.specs.Prelude.{length, map};
    ghost use Rattle.run_pair.specs.Tallies.{Counts};

    ghost Value = { Counts };

    ghost view = { λ t. record {
      is_broken = t.is_broken;
      reported = t.reported.items;
      copies = length t.copies.items;
      named = map (λ message. record { side = message.0; uid = message.1 }) t.named.items;
      reopened = t.reopened.devices;
    } };
}

impl Tally {
    /// That of an outside of which no call was made.
    pub fn new() -> Self
        ensures { result ≡ untouched }
    {
        Tally {
            is_broken: false,
            reported: History::new(),
            copies: History::new(),
            named: History::new(),
            reopened: DeviceHistory::new(),
        }
    }

    /// Whether a call has failed since the outside was opened.
    pub fn is_broken(&self) -> bool
        ensures { result ≡ self.now.is_broken }
    {
        self.is_broken
    }

    /// Ends a call with this answer, which makes no copy. After a fault no call is answered.
    pub fn end<T>(&mut self, answer: Result<T, OutsideFault>) -> Result<T, OutsideFault>
        ensures same { result ≡ answer }
        ensures now { self.new ≡ ended no_copies answer self.old }
    {
        if let Err(fault) = &answer {
            self.fail(*fault);
        }
        answer
    }

    /// The same of a call of the mailbox of this side.
    pub fn end_at<T>(&mut self, side: Side, answer: Result<T, BoxFault>) -> Result<T, OutsideFault>
        ensures same { result ≡ reported_by side answer }
        ensures now { self.new ≡ ended no_copies (reported_by side answer) self.old }
    {
        match answer {
            Ok(answer) => Ok(answer),
            Err(fault) => {
                let fault = reported(side, fault);
                self.fail(fault);
                Err(fault)
            }
        }
    }

    /// The same of a call before the steps of a plan: what was refused is fault 2 of the mailbox.
    pub fn end_opening<T>(
        &mut self,
        side: Side,
        answer: Result<T, BoxFault>,
    ) -> Result<T, OutsideFault>
        ensures same { result ≡ reported_by side (unstepped answer) }
        ensures now { self.new ≡ ended no_copies (reported_by side (unstepped answer)) self.old }
    {
        match answer {
            Err(BoxFault::Refused) => self.end_at(side, Err(BoxFault::Own(FAR_REFUSED))),
            answer => self.end_at(side, answer),
        }
    }

    /// The same of a call that was to change or to remove this message of the mailbox. It is named, unless the fault says that nothing
    /// was changed.
    pub fn end_naming<T>(
        &mut self,
        side: Side,
        uid: Uid,
        answer: Result<T, BoxFault>,
    ) -> Result<T, OutsideFault>
        ensures same { result ≡ reported_by side answer }
        ensures now { self.new ≡ ended_naming side uid (reported_by side answer) self.old }
    {
        match &answer {
            Err(BoxFault::Refused | BoxFault::Own(_)) => {}
            _ => self.named = self.named.and(&(side, uid)),
        }
        self.end_at(side, answer)
    }

    /// The same of a call that may have made a copy.
    pub fn end_carry(
        &mut self,
        answer: Result<Carried, OutsideFault>,
    ) -> Result<Carried, OutsideFault>
        ensures same { result ≡ answer }
        ensures now { self.new ≡ ended copies_made answer self.old }
    {
        match &answer {
            Ok(carried) => {
                if matches!(carried, Carried::Made(_)) {
                    self.copies = self.copies.and(carried);
                }
            }
            Err(fault) => self.fail(*fault),
        }
        answer
    }

    /// No call is answered any more, as after a stop.
    pub fn stop(&mut self)
        ensures { self.new ≡ failed OutsideFault.Stopped self.old }
    {
        self.fail(OutsideFault::Stopped);
    }

    /// The outside of these parts is opened again: calls are answered. The parts are there for contracts alone, which name its device by
    /// them.
    pub fn reopen<F: Mailbox, N: Mailbox, S: Shelf>(
        &mut self,
        _far: &F,
        _near: &N,
        _book: &BookPart<S>,
    )
        ghost device: { Device }
        ensures { self.new ≡ counted_again device self.old }
    {
        self.is_broken = false;
        self.reopened = self.reopened.and();
    }

    /// A call reports this fault, and from now on none is answered.
    fn fail(&mut self, fault: OutsideFault)
        ensures { self.new ≡ failed fault self.old }
    {
        self.is_broken = true;
        self.reported = self.reported.and(&fault);
    }
}

/// How a fault of the mailbox of a side is reported.
pub(crate) fn reported(side: Side, fault: BoxFault) -> OutsideFault
    ensures { result ≡ reported side fault }
{
    match fault {
        BoxFault::Stopped => OutsideFault::Stopped,
        BoxFault::Refused => OutsideFault::Refused,
        BoxFault::Own(number) => OutsideFault::Box(side, number),
        BoxFault::NoMemory => OutsideFault::NoMemory,
    }
}
