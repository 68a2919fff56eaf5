//! A record of the calls of the system on the files of a folder, which contracts alone read.

ghost use Rattle.std.specs.Prelude.{◌≡◌, List, [], ◌∷◌};
ghost use Rattle.std.specs.Borrow.{ftrue};
ghost use Rattle.device.specs.FileEvents.{FileEvent, World};

use crate::file_call::FileCall;
use std::marker::{Model, PhantomData};

/// The calls of the system on the files of a folder, each with its answer, the last one first.
///
/// It takes no memory, and its functions do nothing when they run. Beside the calls stands what no program can know: what the files
/// held when the record was begun, and how much of each call took place that failed. No clause says what that is, so what is proved
/// above holds whatever it is.
#[derive(Drop)]
pub struct FileRecord {
    of: PhantomData<u8>,
    pub ghost world: { World },
    pub ghost events: { List FileEvent },
}

impl Model for FileRecord {
    ghost also_owns = { λ _. ftrue };
}

impl FileRecord {
    /// No call.
    pub fn new() -> FileRecord
        ensures { result.events ≡ [] }
    {
        FileRecord { of: PhantomData }
    }

    /// Notes a call on the file of this name. A call that adds bytes or reads them has these, and one that renames the new name.
    pub fn note(&mut self, _call: &FileCall, _name: &[u8], _bytes: &[u8])
        ensures { self.new ≡ record self.old { events = record { call = _call.now; name = _name.now; bytes = _bytes.now } ∷ self.old.events } }
    {}
}
