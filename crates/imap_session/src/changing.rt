//! What UID STORE and UID EXPUNGE make of the messages of a mailbox (RFC 9051, sections 6.4.6 and 6.4.9).

ghost use Rattle.std.specs.Prelude.{◌≡◌, map, filter};
ghost use Rattle.mailcore.specs.Listed.{AreRising};
ghost use Rattle.wire_tokens.specs.Sets.{names};
ghost use Rattle.imap_session.specs.NamedMessages.{greatest, stored, swept};
ghost use Rattle.imap_session.specs.Boxes.{store_of, far_of, IsServed};
ghost use Rattle.imap_session.specs.Changing.{new_flags, given, stays};
ghost use Rattle.imap_session.specs.Naming.{Going};

use crate::naming::{greatest, is_named, reach};
use imap_commands::command::StoreMode;
use mailcore::flags::{Flag, Flags};
use mailcore::mailbox::{Message, Messages, StoredMailbox};
use std::alloc::Global;
use std::mem;
use wire_tokens::uid_set::UidSet;

/// Changes the flags of those messages that the set names.
pub fn store(
    alloc: Global,
    mailbox: &mut StoredMailbox,
    set: &UidSet,
    mode: StoreMode,
    flags: Flags,
)
    requires { IsServed (far_of mailbox.old) }
    ensures store { far_of mailbox.new ≡ record (far_of mailbox.old) { store = stored mode flags set.now (store_of mailbox.old) } }
    ensures served { IsServed (far_of mailbox.new) }
{
    let messages = mem::replace(&mut mailbox.messages, Messages::new(alloc));
    let mut list = messages.into_vec();
    give_flags(&mut list, set, mode, flags);
    mailbox.messages = Messages::from_vec(list);
}

/// Changes the flags of those of all messages of a mailbox, in the order of their UIDs, that the set names.
fn give_flags(list: &mut [Message], set: &UidSet, mode: StoreMode, flags: Flags)
    requires { AreRising list.old }
    ensures { list.new ≡ map (given (names (greatest list.old) set.now) mode flags) list.old }
{
    let top = greatest(list);
    let (start, end) = reach(list, set, top);
    for index in start..end {
        let message = &mut list[index];
        if is_named(set, top, message.uid) {
            message.flags = new_flags(mode, message.flags, flags);
        }
    }
}

/// The flags with these set, or taken away.
fn new_flags(mode: StoreMode, old: Flags, flags: Flags) -> Flags
    ensures { result ≡ new_flags mode flags old }
{
    match mode {
        StoreMode::Add => old.union(flags),
        StoreMode::Remove => old.minus(flags),
    }
}

/// Removes the messages that go.
pub fn expunge(alloc: Global, mailbox: &mut StoredMailbox, set: &UidSet)
    requires { IsServed (far_of mailbox.old) }
    ensures store { far_of mailbox.new ≡ record (far_of mailbox.old) { store = swept set.now (store_of mailbox.old) } }
    ensures served { IsServed (far_of mailbox.new) }
{
    let messages = mem::replace(&mut mailbox.messages, Messages::new(alloc));
    let mut list = messages.into_vec();
    keep_staying(&mut list, set);
    mailbox.messages = Messages::from_vec(list);
}

/// Leaves those of all messages of a mailbox, in the order of their UIDs, that stay.
fn keep_staying(list: &mut Vec<Message>, set: &UidSet)
    requires { AreRising list.old.items }
    ensures { list.new.items ≡ filter (stays (names (greatest list.old.items) set.now)) list.old.items }
{
    let top = greatest(list);
    let (start, end) = reach(list, set, top);
    if end - start > 1 {
        list.retain(|message| !goes(set, top, message));
    } else if start < end && goes(set, top, &list[start]) {
        // One message alone: no other is looked at.
        list.remove(start);
    }
}

/// Whether the set names the message and it is marked as deleted, where this is the greatest UID.
pub fn goes(set: &UidSet, top: u32, message: &Message) -> bool
    ensures { Going set.now top message.now result }
{
    message.flags.has(Flag::Deleted) && is_named(set, top, message.uid)
}
