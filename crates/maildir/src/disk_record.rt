//! A record of the calls of the system on the folder of a mailbox, which contracts alone read.

ghost use Rattle.std.specs.Prelude.{◌≡◌, List, [], ◌∷◌};
ghost use Rattle.std.specs.Borrow.{ftrue};
ghost use Rattle.maildir.specs.DiskEvents.{DiskEvent, DiskWorld};

use crate::disk_call::DiskCall;
use crate::folder::FileName;
use std::marker::{Model, PhantomData};

/// The calls of the system on the folder of a mailbox, each with its answer, the last one first.
///
/// It takes no memory, and its functions do nothing when they run. Beside the calls stands what no program can know: what stood in the
/// folder when the record was begun, what others have added before each call, and how much of each call took place that failed. No
/// clause says what that is, so what is proved above holds whatever it is.
#[derive(Drop)]
pub struct DiskRecord {
    of: PhantomData<u8>,
    pub ghost world: { DiskWorld },
    pub ghost events: { List DiskEvent },
}

impl Model for DiskRecord {
    ghost also_owns = { λ _. ftrue };
}

impl DiskRecord {
    /// No call.
    pub fn new() -> DiskRecord
        ensures { result.events ≡ [] }
    {
        DiskRecord { of: PhantomData }
    }

    /// Notes a call on the file of this name. A call that adds bytes or reads them has these, one that renames the new name, and one
    /// that lists names these.
    pub fn note(&mut self, _call: &DiskCall, _name: &[u8], _bytes: &[u8], _names: &[FileName])
        ensures { self.new ≡ record self.old {
          events = record { call = _call.now; name = _name.now; bytes = _bytes.now; names = _names.now } ∷ self.old.events;
        } }
    {}
}
