//! What another session does to a message. Nothing of it is reported to the connection.

use crate::service::Service;
use imap_commands::command::StoreMode;
use mailcore::flags::{Flag, Flags};
use mailcore::uid::Uid;
use std::alloc::AllocError;
use wire_tokens::uid_set::UidSet;

impl Service {
    ghost use Rattle.std.specs.Prelude.{◌≡◌, OnOk, OnErr};
    ghost use Rattle.imap_server.specs.Acts.{flagged_by_others, removed_by_others};

    /// Another session sets flags of the message with this UID in the mailbox of this name, and then clears others: of both those that have
    /// a name.
    pub(crate) fn flag(
        &mut self,
        name: &[u8],
        uid: Uid,
        set: Flags,
        clear: Flags,
    ) -> Result<(), AllocError>
        ensures ok { OnOk result (self.new ≡ flagged_by_others name.now uid set clear self.old) }
        ensures err { OnErr result (self.new ≡ self.old) }
    {
        let Some(place) = self.place_of(name) else {
            return Ok(());
        };
        let one = UidSet::one(self.alloc, uid)?;
        let set = set.kept(&self.keywords);
        let clear = clear.kept(&self.keywords);
        self.store_at(place, &one, StoreMode::Add, set);
        self.store_at(place, &one, StoreMode::Remove, clear);
        Ok(())
    }

    /// Another session removes the message with this UID from the mailbox of this name.
    pub(crate) fn remove(&mut self, name: &[u8], uid: Uid) -> Result<(), AllocError>
        ensures ok { OnOk result (self.new ≡ removed_by_others name.now uid self.old) }
        ensures err { OnErr result (self.new ≡ self.old) }
    {
        let Some(place) = self.place_of(name) else {
            return Ok(());
        };
        let one = UidSet::one(self.alloc, uid)?;
        self.store_at(place, &one, StoreMode::Add, Flags::only(Flag::Deleted));
        self.expunge_at(place, &one);
        Ok(())
    }
}
