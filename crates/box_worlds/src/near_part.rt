//! The near files that wait for a UID, as a world has them.

ghost use Rattle.std.specs.Prelude.{◌≡◌, false, IfOk, OnOk};
ghost use Rattle.mailcore.specs.Content.{fit};
ghost use Rattle.mail_sides.specs.NearSides.{seen_of};

use crate::bodies::{Bodies, short_body};
use crate::reader::WorldReader;
use crate::unread::{UnreadWorld, box_reported};
use mail_sides::near_side::NearSide;
use mailcore::content::fit;
use mailcore::flags::Flags;
use mailcore::octets::Octets;
use mailcore::side::Side;
use maildir::folder::Folder;
use outside::mailbox::Mailbox;
use std::alloc::AllocError;
use worlds::world::WaitingFile;

impl WorldReader<'_> {
    /// The files that wait for a UID in an open mailbox, in the order in which they get one.
    pub(crate) fn waiting<F: Folder + Drop>(
        self,
        near: &mut NearSide<F>,
    ) -> Result<Vec<WaitingFile>, UnreadWorld>
        ensures was_honest { F.honest near.new.near.folder → F.honest near.old.near.folder }
        ensures keeps { F.honest near.new.near.folder → (seen_of near.new).stored ≡ (seen_of near.old).stored }
    {
        let mut files = Vec::new(self.alloc);
        for place in 0..near.waiting_count() {
            match near.read_waiting(place) {
                Ok(Some(flags)) => files.push(self.waiting_file(flags, near.waiting_body())?)?,
                Ok(None) => break,
                Err(fault) => return Err(box_reported(Side::Near, fault)),
            }
        }
        Ok(files)
    }

    /// A file that waits, with these flags and bytes.
    fn waiting_file(self, flags: Flags, stored: &[u8]) -> Result<WaitingFile, AllocError>
        ensures flags { IfOk result (λ file. file.flags ≡ flags) }
        ensures short { self.entry.bodies ≡ Bodies.Short → IfOk result (λ file. fit Side.Near file.bytes ≡ fit Side.Near stored.now) }
        ensures stored { self.entry.bodies ≡ Bodies.Stored → IfOk result (λ file. file.bytes ≡ stored.now) }
    {
        let bytes = match self.bodies {
            Bodies::Short => short_body(self.alloc, Side::Near, fit(Side::Near, stored))?,
            Bodies::Stored => Octets::from_vec(Vec::from_slice(self.alloc, stored)?),
        };
        Ok(WaitingFile { flags, bytes })
    }
}
