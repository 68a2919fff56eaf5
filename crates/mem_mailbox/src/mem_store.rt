//! The messages of a mailbox as a list.

ghost use Rattle.std.specs.Prelude.{◌≡◌, ◌<◌, ◌≤◌, ◌+◌, ◌^◌, ◌==◌, ◌&&◌, true, false, filter, find, map, not, IfOk, OnOk, OnErr, MatchOption};
ghost use Rattle.std.specs.Option.{option_map};
ghost use Rattle.mailcore.specs.Content.{mark_of};
ghost use Rattle.mailcore.specs.FlagSet.{DELETED, has, minus, union};
ghost use Rattle.mailcore.specs.Listed.{AreBelow};
ghost use Rattle.mailcore.specs.Operations.{is_mark, marked_among, with_flags};
ghost use Rattle.mailcore.specs.Spared.{spares};
ghost use Rattle.mem_mailbox.specs.Listings.{item_in};
ghost use Rattle.mem_mailbox.specs.Named.{named_message};

use mailcore::content::fit;
use mailcore::copies::mark_of;
use mailcore::copy_pieces::CopyPieces;
use mailcore::flags::{Flag, Flags};
use mailcore::keywords::Keywords;
use mailcore::listing::{Item, Items, Listing};
use mailcore::mailbox::{Message, Messages};
use mailcore::octets::Octets;
use mailcore::side::Side;
use mailcore::spared::Spared;
use mailcore::tuid::Tuid;
use mailcore::uid::Uid;
use std::alloc::{AllocError, Global};

/// The messages of a mailbox of either side, its UIDVALIDITY and its UIDNEXT. Its UIDs rise and are below the next one.
#[derive(Drop)]
pub struct MemStore {
    pub(crate) validity: u32,
    pub(crate) next: u32,
    pub(crate) messages: Vec<Message>,
    /// All that was changed so far outlives a loss of power.
    pub(crate) is_synced: bool,
    pub ghost positive: { (0 < validity) × (0 < next) },
}

/// Memory ran out while a mailbox was listed. UIDs that do not rise would be reported as that too: no clause says that they rise.
#[derive(Clone, Copy, PartialEq, Eq)]
pub(crate) struct Unlisted;

impl MemStore {
    ghost use Rattle.mailcore.specs.CopyPieces.{text_left};
    ghost use Rattle.mailcore.specs.Operations.{added, bytes_of, flags_added, flags_removed, marked_from};
    ghost use Rattle.outside.specs.MailboxOperations.{HasNumbers, removed};
    ghost use Rattle.mem_mailbox.specs.Listings.{ShowsIn};
    ghost use Rattle.mem_mailbox.specs.Views.{store_of};

    /// A store of this UIDVALIDITY and UIDNEXT, 1 to 4294967295, with these messages. Nothing was changed.
    pub fn new(validity: u32, next: u32, messages: Messages) -> Self
        requires positive { (0 < validity) × (0 < next) }
        requires below_next { AreBelow messages next }
        ensures { store_of result ≡ record { validity = validity; next = next; messages = messages } }
    {
        MemStore {
            validity,
            next,
            messages: messages.into_vec(),
            is_synced: true,
        }
    }

    /// Its UIDVALIDITY.
    pub fn validity(&self) -> u32
        ensures { result ≡ (store_of self.now).validity }
    {
        self.validity
    }

    /// Its UIDNEXT.
    pub fn next(&self) -> u32
        ensures { result ≡ (store_of self.now).next }
    {
        self.next
    }

    /// Its messages.
    pub fn messages(&self) -> &[Message]
        ensures { result.now ≡ (store_of self.now).messages }
    {
        &self.messages
    }

    /// What a mailbox of this side lists, where near messages that are spared are said to be fit.
    pub(crate) fn list(
        &self,
        alloc: Global,
        side: Side,
        spared: &Spared,
    ) -> Result<Listing, Unlisted>
        ensures shows { IfOk result (ShowsIn side (spares spared.now) (store_of self.now)) }
        ensures numbers { IfOk result HasNumbers }
    {
        let mut items = Items::new(alloc);
        for message in &self.messages {
            let item = item_in(side, spared, message);
            items.push(item).map_err(|_| Unlisted)?;
        }
        Ok(Listing {
            validity: self.validity,
            next: self.next,
            items,
        })
    }

    /// The UID of the first message that is at least `from` and has the mark.
    pub(crate) fn find_mark(&self, mark: Tuid, from: u32) -> Option<Uid>
        ensures { result ≡ marked_from mark from (store_of self.now) }
    {
        find_mark(&self.messages, mark, from)
    }

    /// The bytes of the message with this UID, copied; or none where it is not there.
    pub(crate) fn copied_body(&self, alloc: Global, uid: Uid) -> Result<Option<Vec<u8>>, AllocError>
        ensures { IfOk result (λ body. option_map (λ b. b.items) body ≡ bytes_of uid (store_of self.now)) }
    {
        match message_of(&self.messages, uid) {
            Some(message) => Ok(Some(Vec::from_slice(alloc, message.bytes.as_slice())?)),
            None => Ok(None),
        }
    }

    /// The next UID, if one is left.
    pub(crate) fn next_uid(&self) -> Option<Uid>
        ensures { MatchOption result (2 ^ 32 ≤ (store_of self.now).next + 1) (λ uid. uid ≡ (store_of self.now).next) }
    {
        Uid::new(self.next)
    }

    /// Adds a copy under the next UID.
    pub(crate) fn add(
        &mut self,
        alloc: Global,
        uid: Uid,
        flags: Flags,
        copy: CopyPieces<'_>,
    ) -> Result<(), AllocError>
        requires next { uid ≡ (store_of self.old).next }
        ensures ok { OnOk result (store_of self.new ≡ added uid flags (text_left copy.entry) (store_of self.old)) }
        ensures unsynced { OnOk result (self.new.is_synced ≡ false) }
        ensures err { OnErr result (store_of self.new ≡ store_of self.old) }
    {
        let mut text = Vec::new(alloc);
        copy.append_to(&mut text)?;
        let bytes = Octets::from_vec(text);
        self.messages.push(Message { uid, flags, bytes })?;
        self.next = uid.get() + 1;
        self.is_synced = false;
        Ok(())
    }

    /// Sets these flags of a message, if it is there.
    pub(crate) fn add_flags(&mut self, uid: Uid, flags: Flags)
        ensures now { store_of self.new ≡ flags_added uid flags (store_of self.old) }
        ensures unsynced { self.new.is_synced ≡ false }
    {
        add_flags(&mut self.messages, uid, flags);
        self.is_synced = false;
    }

    /// Clears these flags of a message, if it is there.
    pub(crate) fn remove_flags(&mut self, uid: Uid, flags: Flags)
        ensures now { store_of self.new ≡ flags_removed uid flags (store_of self.old) }
        ensures unsynced { self.new.is_synced ≡ false }
    {
        remove_flags(&mut self.messages, uid, flags);
        self.is_synced = false;
    }

    /// Removes a message, if it is there and marked as deleted.
    pub(crate) fn expunge(&mut self, uid: Uid)
        ensures now { store_of self.new ≡ removed uid (store_of self.old) }
        ensures unsynced { self.new.is_synced ≡ false }
    {
        expunge(&mut self.messages, uid);
        self.is_synced = false;
    }

    /// All that was changed so far outlives a loss of power from now on.
    pub(crate) fn sync(&mut self)
        ensures same { store_of self.new ≡ store_of self.old }
        ensures synced { self.new.is_synced ≡ true }
    {
        self.is_synced = true;
    }
}

/// Leaves messages those of their flags that have a name by this map.
pub(crate) fn name_flags(messages: &mut Vec<Message>, keywords: &Keywords)
    ensures { messages.new.items ≡ map (named_message keywords.now) messages.old.items }
{
    name_each(messages, keywords);
}

fn name_each(messages: &mut [Message], keywords: &Keywords)
    ensures { messages.new ≡ map (named_message keywords.now) messages.old }
{
    if let Some((first, rest)) = messages.split_first_mut() {
        first.flags = first.flags.kept(keywords);
        name_each(rest, keywords);
    }
}

/// The message with this UID.
fn message_of(messages: &[Message], uid: Uid) -> Option<&Message>
    ensures { option_map (λ m. m.now) result ≡ find (λ m. m.uid == uid) messages.now }
{
    messages.iter().find(|message| message.uid == uid)
}

/// What a mailbox of this side lists of a message.
fn item_in(side: Side, spared: &Spared, message: &Message) -> Item
    ensures { result ≡ item_in side (spares spared.now) message.now }
{
    let is_spared = side == Side::Near && spared.has(message.uid);
    Item {
        uid: message.uid,
        flags: message.flags,
        fit: is_spared || fit(side, message.bytes.as_slice()),
    }
}

/// Sets these flags of a message, if it is there.
fn add_flags(messages: &mut [Message], uid: Uid, flags: Flags)
    ensures { messages.new ≡ map (with_flags (λ f. union f flags) uid) messages.old }
{
    if let Some((first, rest)) = messages.split_first_mut() {
        add_flags_of(first, uid, flags);
        add_flags(rest, uid, flags);
    }
}

fn add_flags_of(message: &mut Message, uid: Uid, flags: Flags)
    ensures { message.new ≡ with_flags (λ f. union f flags) uid message.old }
{
    if message.uid == uid {
        message.flags = message.flags.union(flags);
    }
}

/// Clears these flags of a message, if it is there.
fn remove_flags(messages: &mut [Message], uid: Uid, flags: Flags)
    ensures { messages.new ≡ map (with_flags (λ f. minus f flags) uid) messages.old }
{
    if let Some((first, rest)) = messages.split_first_mut() {
        remove_flags_of(first, uid, flags);
        remove_flags(rest, uid, flags);
    }
}

fn remove_flags_of(message: &mut Message, uid: Uid, flags: Flags)
    ensures { message.new ≡ with_flags (λ f. minus f flags) uid message.old }
{
    if message.uid == uid {
        message.flags = message.flags.minus(flags);
    }
}

/// Removes a message, if it is there and marked as deleted.
fn expunge(messages: &mut Vec<Message>, uid: Uid)
    ensures { messages.new.items ≡ filter (λ m. not (m.uid == uid && has m.flags DELETED)) messages.old.items }
{
    messages.retain(|message| !(message.uid == uid && message.flags.has(Flag::Deleted)));
}

/// Whether a message bears a mark.
fn bears(message: &Message, mark: &Tuid) -> bool
    ensures { result ≡ is_mark (mark_of message.now.bytes) mark.now }
{
    match mark_of(message.bytes.as_slice()) {
        Some(found) => found == *mark,
        None => false,
    }
}

/// The UID of the first message that is at least `from` and has the mark.
fn find_mark(messages: &[Message], mark: Tuid, from: u32) -> Option<Uid>
    ensures { result ≡ marked_among mark from messages.now }
{
    messages
        .iter()
        .find(|message| from <= message.uid.get() && bears(message, &mark))
        .map(|message| message.uid)
}
