//! Mailboxes and the messages that they store.

ghost use Rattle.std.specs.Prelude.{◌≡◌, ◌↔◌, ◌&&◌, ◌++◌, [], ◌∷◌, true, false, OnOk, OnErr, IfOk, IsErrOf, map, nat_lt};
ghost use Rattle.std.specs.List.{list_all};
ghost use Rattle.mailcore.specs.Listed.{AreBelow, AreRising, item_of, may_end};

use crate::content::fit;
use crate::fault::PushFault;
use crate::flags::Flags;
use crate::listing::{Item, Items, Listing};
use crate::mailbox_name::MailboxName;
use crate::octets::Octets;
use crate::side::Side;
use crate::uid::Uid;
use std::alloc::{AllocError, Global};
use std::marker::Model;

/// A stored message.
#[derive(Drop)]
pub struct Message {
    /// Its UID.
    pub uid: Uid,
    /// Its flags.
    pub flags: Flags,
    /// Its bytes as they are stored.
    pub bytes: Octets,
}

/// Stored messages, in the order of their UIDs.
#[derive(Drop)]
pub struct Messages {
    list: Vec<Message>,
}

impl Model for Messages {
    ghost use Rattle.std.specs.Prelude.{List};
    ghost use Rattle.mailcore.specs.declared.mailbox.Message.{Message};

    ghost Value = { List Message };

    ghost use Rattle.mailcore.specs.Listed.{AreRising};

    ghost view = { λ a. a.list.items };

    ghost invariant = { λ a. AreRising a.list.items };
}

impl Messages {
    /// No message.
    pub fn new(alloc: Global) -> Self
        ensures { result ≡ [] }
    {
        Messages {
            list: Vec::new(alloc),
        }
    }

    /// These messages, which stand in the order of their UIDs, without taking memory.
    pub fn from_vec(list: Vec<Message>) -> Self
        requires { AreRising list.items }
        ensures { result ≡ list.items }
    {
        Messages { list }
    }

    /// All of them.
    pub fn as_slice(&self) -> &[Message]
        ensures all { result.now ≡ self.now }
        ensures rising { AreRising self.now }
    {
        &self.list
    }

    /// Gives the messages back, without taking memory.
    pub fn into_vec(self) -> Vec<Message>
        ensures list { result.items ≡ self }
        ensures rising { AreRising result.items }
    {
        self.list
    }

    /// Adds a message after the others. `OutOfOrder`: its UID is not above theirs.
    pub fn push(&mut self, message: Message) -> Result<(), PushFault>
        ensures ok { OnOk result (self.new ≡ self.old ++ message ∷ []) }
        ensures above { OnOk result (list_all (λ m. nat_lt m.uid message.uid) self.old ≡ true) }
        ensures out_of_order { IsErrOf result PushFault.OutOfOrder ↔ (list_all (λ m. nat_lt m.uid message.uid) self.old ≡ false) }
        ensures err { OnErr result (self.new ≡ self.old) }
    {
        if !is_above(&self.list, message.uid) {
            return Err(PushFault::OutOfOrder);
        }
        self.list.push(message)?;
        Ok(())
    }
}

/// Whether a UID is above those of messages in order: the last has the greatest.
fn is_above(messages: &[Message], uid: Uid) -> bool
    requires { AreRising messages.now }
    ensures { result ≡ list_all (λ m. nat_lt m.uid uid) messages.now }
{
    match messages.last() {
        Some(last) => last.uid.get() < uid.get(),
        None => true,
    }
}

/// A mailbox: each of its UIDs is below the next one that it gives (RFC 9051, section 2.3.1.1).
#[derive(Drop)]
pub struct StoredMailbox {
    /// Its name.
    pub name: MailboxName,
    /// Its UIDVALIDITY, 1 to 4294967295.
    pub validity: u32,
    /// Its UIDNEXT, 1 to 4294967295.
    pub next: u32,
    /// Its messages.
    pub messages: Messages,
    ghost below_next: { AreBelow messages next },
}

impl StoredMailbox {
    /// An empty mailbox.
    pub fn new(alloc: Global, name: MailboxName, validity: u32, next: u32) -> Self
        ensures { (result.name ≡ name) × (result.validity ≡ validity) × (result.next ≡ next) × (result.messages ≡ []) }
    {
        StoredMailbox {
            name,
            validity,
            next,
            messages: Messages::new(alloc),
        }
    }

    /// Adds a message after the others. `OutOfOrder`: its UID is not above theirs, or not below the next one.
    pub fn push(&mut self, message: Message) -> Result<(), PushFault>
        ensures ok { OnOk result (self.new.messages ≡ self.old.messages ++ message ∷ []) }
        ensures fits { OnOk result (may_end self.old.messages self.old.next message.uid ≡ true) }
        ensures out_of_order { IsErrOf result PushFault.OutOfOrder ↔ (may_end self.old.messages self.old.next message.uid ≡ false) }
        ensures err { OnErr result (self.new.messages ≡ self.old.messages) }
        ensures same { (self.new.name ≡ self.old.name) × (self.new.validity ≡ self.old.validity) × (self.new.next ≡ self.old.next) }
    {
        if message.uid.get() >= self.next {
            return Err(PushFault::OutOfOrder);
        }
        self.messages.push(message)
    }

    /// What the mailbox lists, as the mailbox of this side.
    pub fn listing(&self, alloc: Global, side: Side) -> Result<Listing, AllocError>
        ensures items { IfOk result (λ l. l.items ≡ map (item_of side) self.now.messages) }
        ensures numbers { IfOk result (λ l. (l.validity ≡ self.now.validity) × (l.next ≡ self.now.next)) }
    {
        let items = shown(alloc, side, self.messages.as_slice())?;
        Ok(Listing {
            validity: self.validity,
            next: self.next,
            items: Items::from_vec(items),
        })
    }
}

/// What a listing shows of messages.
fn shown(alloc: Global, side: Side, messages: &[Message]) -> Result<Vec<Item>, AllocError>
    ensures { IfOk result (λ v. v.items ≡ map (item_of side) messages.now) }
{
    let mut items = Vec::with_capacity(alloc, messages.len())?;
    for message in messages {
        items.push(Item {
            uid: message.uid,
            flags: message.flags,
            fit: fit(side, message.bytes.as_slice()),
        })?;
    }
    Ok(items)
}
