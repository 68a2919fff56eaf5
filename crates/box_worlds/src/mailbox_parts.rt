//! A mailbox as a world has it.

ghost use Rattle.std.specs.Prelude.{◌≡◌, false, true, IfOk, OnOk, map};
ghost use Rattle.mailcore.specs.Content.{fit};
ghost use Rattle.mailcore.specs.Listed.{item_of};
ghost use Rattle.mailcore.specs.Spared.{spares};
ghost use Rattle.box_worlds.specs.Spared.{item_spared};

use crate::bodies::{Bodies, short_body};
use crate::reader::WorldReader;
use crate::unread::{UnreadWorld, box_reported, push_reported};
use mailcore::listing::{Item, Listing};
use mailcore::mailbox::{Message, StoredMailbox};
use mailcore::mailbox_name::MailboxName;
use mailcore::octets::Octets;
use mailcore::side::Side;
use mailcore::spared::Spared;
use mailcore::uid::Uid;
use outside::mailbox::Mailbox as OpenMailbox;
use rules::state::SyncState;
use runner::fault::RunFault;
use std::alloc::{AllocError, Global};

/// An empty mailbox, under this UIDVALIDITY.
pub(crate) fn empty_mailbox(alloc: Global, validity: u32) -> Result<StoredMailbox, AllocError>
    ensures { IfOk result (λ mailbox. (mailbox.validity ≡ validity) × (mailbox.next ≡ 1)) }
{
    let name = MailboxName::inbox(alloc)?;
    Ok(StoredMailbox::new(alloc, name, validity, 1))
}

/// Opens a mailbox and lists it.
fn list_opened<M: OpenMailbox>(
    side: Side,
    mailbox: &mut M,
    spared: &Spared,
) -> Result<Listing, UnreadWorld>
    ensures was_honest { M.honest mailbox.new → M.honest mailbox.old }
    ensures keeps { M.alone ≡ true → M.honest mailbox.new → (M.seen mailbox.new).stored ≡ (M.seen mailbox.old).stored }
    ensures whole { OnOk result ((M.seen mailbox.new).is_broken ≡ false) }
    ensures open { OnOk result (M.is_open mailbox.new ≡ true) }
{
    mailbox.reopen();
    if let Err(fault) = mailbox.open() {
        return Err(box_reported(side, fault));
    }
    match mailbox.list(spared) {
        Ok(listing) => Ok(listing),
        Err(fault) => Err(box_reported(side, fault)),
    }
}

impl WorldReader<'_> {
    /// The mailbox of this side as a world has it, after a run that recorded this. It is open then.
    pub(crate) fn mailbox<M: OpenMailbox>(
        self,
        side: Side,
        mailbox: &mut M,
        state: &SyncState,
    ) -> Result<StoredMailbox, UnreadWorld>
        ensures was_honest { M.honest mailbox.new → M.honest mailbox.old }
        ensures keeps { M.alone ≡ true → M.honest mailbox.new → (M.seen mailbox.new).stored ≡ (M.seen mailbox.old).stored }
        ensures whole { OnOk result ((M.seen mailbox.new).is_broken ≡ false) }
        ensures open { OnOk result (M.is_open mailbox.new ≡ true) }
    {
        let spared = self.spared(side, state);
        let listing = list_opened(side, mailbox, &spared)?;
        self.listed_mailbox(side, mailbox, &listing, &spared)
    }

    /// The messages that cannot be new: whether these are fit to be copied changes no plan.
    fn spared(self, side: Side, state: &SyncState) -> Spared {
        let (is_copied, highest) = match side {
            Side::Far => (self.options.cells.new.pull, state.max_pulled),
            Side::Near => (self.options.cells.new.push, state.max_pushed),
        };
        let up_to = if is_copied { highest } else { u32::MAX };
        Spared::of(up_to, Vec::new(self.alloc))
    }

    /// A mailbox with the messages of a listing, in which those that are spared are said to be fit.
    fn listed_mailbox<M: OpenMailbox>(
        self,
        side: Side,
        mailbox: &mut M,
        listing: &Listing,
        spared: &Spared,
    ) -> Result<StoredMailbox, UnreadWorld>
        requires whole { (M.seen mailbox.old).is_broken ≡ false }
        requires open { M.is_open mailbox.old ≡ true }
        ensures was_honest { M.honest mailbox.new → M.honest mailbox.old }
        ensures keeps { M.alone ≡ true → M.honest mailbox.new → (M.seen mailbox.new).stored ≡ (M.seen mailbox.old).stored }
        ensures whole { OnOk result ((M.seen mailbox.new).is_broken ≡ false) }
        ensures open { OnOk result (M.is_open mailbox.new ≡ true) }
        ensures numbers { IfOk result (λ made. (made.validity ≡ listing.now.validity) × (made.next ≡ listing.now.next)) }
        ensures messages { self.entry.bodies ≡ Bodies.Short
            → IfOk result (λ made. map (item_of side) made.messages ≡ map (item_spared (spares spared.now)) listing.now.items) }
    {
        let name = MailboxName::inbox(self.alloc)?;
        let mut made = StoredMailbox::new(self.alloc, name, listing.validity, listing.next);
        for item in listing.items.as_slice() {
            let is_fit = spared.has(item.uid) || item.fit;
            let message = Message {
                uid: item.uid,
                flags: item.flags,
                bytes: self.body(side, mailbox, item, is_fit)?,
            };
            if let Err(fault) = made.push(message) {
                return Err(push_reported(side, fault));
            }
        }
        Ok(made)
    }

    /// The bytes of a listed message, which is said to be fit or not. At a server one that is not fit is never loaded.
    fn body<M: OpenMailbox>(
        self,
        side: Side,
        mailbox: &mut M,
        item: &Item,
        is_fit: bool,
    ) -> Result<Octets, UnreadWorld>
        requires whole { (M.seen mailbox.old).is_broken ≡ false }
        requires open { M.is_open mailbox.old ≡ true }
        ensures was_honest { M.honest mailbox.new → M.honest mailbox.old }
        ensures keeps { M.alone ≡ true → M.honest mailbox.new → (M.seen mailbox.new).stored ≡ (M.seen mailbox.old).stored }
        ensures whole { OnOk result ((M.seen mailbox.new).is_broken ≡ false) }
        ensures open { OnOk result (M.is_open mailbox.new ≡ true) }
        ensures short { self.entry.bodies ≡ Bodies.Short → IfOk result (λ bytes. fit side bytes ≡ is_fit) }
    {
        if self.bodies == Bodies::Stored && (side == Side::Near || item.fit) {
            return self.stored_body(side, mailbox, item.uid);
        }
        Ok(short_body(self.alloc, side, is_fit)?)
    }

    /// The bytes of a message as they are stored. `Stopped`: it is not there any more.
    fn stored_body<M: OpenMailbox>(
        self,
        side: Side,
        mailbox: &mut M,
        uid: Uid,
    ) -> Result<Octets, UnreadWorld>
        requires whole { (M.seen mailbox.old).is_broken ≡ false }
        requires open { M.is_open mailbox.old ≡ true }
        ensures was_honest { M.honest mailbox.new → M.honest mailbox.old }
        ensures keeps { M.alone ≡ true → M.honest mailbox.new → (M.seen mailbox.new).stored ≡ (M.seen mailbox.old).stored }
        ensures whole { OnOk result ((M.seen mailbox.new).is_broken ≡ false) }
        ensures open { OnOk result (M.is_open mailbox.new ≡ true) }
    {
        match mailbox.load(uid) {
            Ok(true) => Ok(Octets::from_vec(Vec::from_slice(self.alloc, mailbox.body())?)),
            Ok(false) => Err(UnreadWorld::Run(RunFault::Stopped)),
            Err(fault) => Err(box_reported(side, fault)),
        }
    }
}
