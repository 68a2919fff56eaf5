//! How a call of the near mailbox begins, and what a file that is gone is to it.

ghost use Rattle.std.specs.Prelude.{◌≡◌, true, false, length, IfErr, OnOk};
ghost use Rattle.near_box.specs.NearCalls.{Reported};
ghost use Rattle.near_box.specs.Surveys.{Surveys};

use crate::near_box::NearBox;
use crate::near_fault::NearFault;
use crate::read_fault::ReadFault;
use maildir::folder::Folder;

impl<F: Folder> NearBox<F> {
    ghost use Rattle.near_box.specs.Boxes.{stored_in};

    /// A call begins: the box counts as failed until it has ended well.
    pub(crate) fn begin(&mut self) -> Result<(), NearFault>
        ensures was_honest { F.honest self.new.folder → F.honest self.old.folder }
        ensures folder { self.new.folder ≡ self.old.folder }
        ensures ready { OnOk result (self.old.is_ready ≡ true) }
        ensures failed { IfErr result (λ fault. (fault ≡ NearFault.Stopped) × (self.old.is_ready ≡ false)) }
        ensures begun { self.new.is_ready ≡ false }
        ensures same { (self.new.survey ≡ self.old.survey) × (self.new.fresh ≡ self.old.fresh) × (self.new.missed ≡ self.old.missed) }
        ensures keywords { self.new.keywords ≡ self.old.keywords }
        ensures surveys { F.honest self.new.folder → OnOk result (Surveys self.new.survey self.new.fresh self.new.keywords (stored_in self.new)) }
    {
        if !self.is_ready {
            return Err(NearFault::Stopped);
        }
        self.is_ready = false;
        Ok(())
    }

    /// What a fault in reading is to the caller: a file that is gone is a stop, which the box counts.
    pub(crate) fn failed(&mut self, fault: ReadFault) -> NearFault
        ensures was_honest { F.honest self.new.folder → F.honest self.old.folder }
        ensures folder { self.new.folder ≡ self.old.folder }
        ensures same { (self.new.is_ready ≡ self.old.is_ready) × (self.new.fresh ≡ self.old.fresh) }
        ensures keywords { self.new.keywords ≡ self.old.keywords }
        ensures reported { Reported fault (length self.old.missed.items) (length self.new.missed.items) result }
    {
        match fault {
            ReadFault::Gone => {
                self.missed = self.missed.and(&());
                NearFault::Stopped
            }
            ReadFault::Device(fault) => NearFault::from(fault),
        }
    }
}
