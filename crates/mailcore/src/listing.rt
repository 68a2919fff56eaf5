//! What a mailbox lists: its messages by their UIDs and flags.

ghost use Rattle.std.specs.Prelude.{◌≡◌, ◌↔◌, ◌++◌, [], ◌∷◌, true, false, OnOk, OnErr, IsErrOf, nat_lt};
ghost use Rattle.std.specs.List.{list_all};
ghost use Rattle.mailcore.specs.Listed.{IsRising};

use crate::fault::PushFault;
use crate::flags::Flags;
use crate::uid::Uid;
use std::alloc::Global;
use std::marker::Model;

/// A listed message.
#[derive(Clone, Copy, PartialEq, Eq)]
pub struct Item {
    /// Its UID.
    pub uid: Uid,
    /// Its flags.
    pub flags: Flags,
    /// Whether it may be copied to the other side.
    pub fit: bool,
}

/// Listed messages, in the order of their UIDs.
#[derive(Drop)]
pub struct Items {
    list: Vec<Item>,
}

impl Model for Items {
    ghost use Rattle.std.specs.Prelude.{List};
    ghost use Rattle.mailcore.specs.declared.listing.Item.{Item};

    ghost Value = { List Item };

    ghost use Rattle.mailcore.specs.Listed.{IsRising};

    ghost view = { λ a. a.list.items };

    ghost invariant = { λ a. IsRising a.list.items };
}

impl Items {
    /// No message.
    pub fn new(alloc: Global) -> Self
        ensures { result ≡ [] }
    {
        Items {
            list: Vec::new(alloc),
        }
    }

    /// These messages, without taking memory. The caller owes that their UIDs rise.
    pub fn from_vec(list: Vec<Item>) -> Self
        requires { IsRising list.items }
        ensures { result ≡ list.items }
    {
        Items { list }
    }

    /// Gives the messages back, without taking memory.
    pub fn into_vec(self) -> Vec<Item>
        ensures { result.items ≡ self }
    {
        self.list
    }

    /// All of them.
    pub fn as_slice(&self) -> &[Item]
        ensures all { result.now ≡ self.now }
        ensures rising { IsRising self.now }
    {
        &self.list
    }

    /// Adds a message after the others. `OutOfOrder`: its UID is not above theirs.
    pub fn push(&mut self, item: Item) -> Result<(), PushFault>
        ensures ok { OnOk result (self.new ≡ self.old ++ item ∷ []) }
        ensures above { OnOk result (list_all (λ i. nat_lt i.uid item.uid) self.old ≡ true) }
        ensures out_of_order { IsErrOf result PushFault.OutOfOrder ↔ (list_all (λ i. nat_lt i.uid item.uid) self.old ≡ false) }
        ensures err { OnErr result (self.new ≡ self.old) }
    {
        if !is_above(&self.list, &item) {
            return Err(PushFault::OutOfOrder);
        }
        self.list.push(item)?;
        Ok(())
    }
}

/// Whether a message's UID is above those of messages in order: the last has the greatest.
fn is_above(items: &[Item], item: &Item) -> bool
    requires { IsRising items.now }
    ensures { result ≡ list_all (λ i. nat_lt i.uid item.now.uid) items.now }
{
    match items.last() {
        Some(last) => last.uid.get() < item.uid.get(),
        None => true,
    }
}

/// What a mailbox lists.
#[derive(Drop)]
pub struct Listing {
    /// Its UIDVALIDITY, 1 to 4294967295.
    pub validity: u32,
    /// Its UIDNEXT, 1 to 4294967295.
    pub next: u32,
    /// Its messages.
    pub items: Items,
}
