//! UID FETCH, UID STORE and UID EXPUNGE (RFC 9051, sections 6.4.5, 6.4.6 and 6.4.9).

ghost use Rattle.std.specs.Prelude.{◌≡◌, ◌<◌, ◌∷◌, [], List, length, take, IfOk, OnOk};
ghost use Rattle.mailcore.specs.declared.keywords.Keyword.{Keyword};
ghost use Rattle.mailcore.specs.KeywordNames.{names_of};
ghost use Rattle.wire_strings.specs.Literals.{IsLiteral};
ghost use Rattle.imap_replies.specs.declared.reply.Reply.TheVariants as replies;
ghost use Rattle.imap_session.specs.NamedMessages.{named_in};
ghost use Rattle.imap_session.specs.MessageCommands.{shown, fetched, removed};
ghost use Rattle.imap_session.specs.Boxes.{store_of, far_of, IsServed};
ghost use Rattle.imap_server.specs.Writing.{Wrote};

use crate::mailbox_commands::number;
use crate::service::Service;
use crate::writing::{say, say_done, say_out_of_place};
use imap_commands::command::{FetchItems, StoreMode};
use imap_replies::fetch::{FetchItem, FetchList};
use imap_replies::reply::Reply;
use imap_session::changing::{expunge, goes, store};
use imap_session::naming::{greatest, is_named, reach};
use mailcore::flags::Flags;
use mailcore::keywords::Keywords;
use mailcore::mailbox::{Message, StoredMailbox};
use std::alloc::{AllocError, Global};
use wire_strings::octets::LentOctets;
use wire_strings::string::WireString;
use wire_tokens::flag_list::FlagList;
use wire_tokens::number::NonZero;
use wire_tokens::tag::Tag;
use wire_tokens::uid_set::UidSet;

impl Service {
    ghost use Rattle.std.specs.Prelude.{◌≡◌, ◌<◌, length, OnOk, OnErr};
    ghost use Rattle.imap_session.specs.NamedMessages.{stored, swept};
    ghost use Rattle.imap_session.specs.MessageCommands.{fetches, stores, expunges};
    ghost use Rattle.imap_server.specs.Places.{changed_there};
    ghost use Rattle.imap_server.specs.Writing.{Answered};

    /// Answers UID FETCH. Each body is written once, into the answer.
    pub(crate) fn fetch(
        &self,
        tag: Tag,
        set: &UidSet,
        items: FetchItems,
        out: &mut Vec<u8>,
    ) -> Result<(), AllocError>
        ensures { OnOk result (Answered (fetches self.now tag set.now items) out.old.items out.new.items self.now) }
    {
        match self.selected_place() {
            Some(place) => {
                say_messages(
                    self.alloc,
                    self.mailbox(place),
                    &self.keywords,
                    set,
                    items,
                    out,
                )?;
                say_done(tag, out)?;
                Ok(())
            }
            None => {
                say_out_of_place(tag, out)?;
                Ok(())
            }
        }
    }

    /// Answers UID STORE.
    pub(crate) fn store(
        &mut self,
        tag: Tag,
        set: &UidSet,
        mode: StoreMode,
        names: &FlagList,
        out: &mut Vec<u8>,
    ) -> Result<(), AllocError>
        ensures ok { OnOk result (Answered (stores self.old tag set.now mode names.now) out.old.items out.new.items self.new) }
        ensures err { OnErr result (self.new ≡ self.old) }
    {
        match self.selected_place() {
            Some(place) => {
                say_done(tag, out)?;
                let flags = names.names().named(&self.keywords);
                self.store_at(place, set, mode, flags);
                Ok(())
            }
            None => {
                say_out_of_place(tag, out)?;
                Ok(())
            }
        }
    }

    /// The same to the mailbox at this place.
    pub(crate) fn store_at(&mut self, place: usize, set: &UidSet, mode: StoreMode, flags: Flags)
        requires { place < length self.old.mailboxes }
        ensures { self.new ≡ record self.old { mailboxes = changed_there (stored mode flags set.now) place self.old.mailboxes } }
    {
        store(self.alloc, &mut self.mailboxes[place], set, mode, flags);
    }

    /// Answers UID EXPUNGE.
    pub(crate) fn expunge(
        &mut self,
        tag: Tag,
        set: &UidSet,
        out: &mut Vec<u8>,
    ) -> Result<(), AllocError>
        ensures ok { OnOk result (Answered (expunges self.old tag set.now) out.old.items out.new.items self.new) }
        ensures err { OnErr result (self.new ≡ self.old) }
    {
        match self.selected_place() {
            Some(place) => {
                say_removed(self.mailbox(place), set, out)?;
                say_done(tag, out)?;
                self.expunge_at(place, set);
                Ok(())
            }
            None => {
                say_out_of_place(tag, out)?;
                Ok(())
            }
        }
    }

    /// The same to the mailbox at this place.
    pub(crate) fn expunge_at(&mut self, place: usize, set: &UidSet)
        requires { place < length self.old.mailboxes }
        ensures { self.new ≡ record self.old { mailboxes = changed_there (swept set.now) place self.old.mailboxes } }
    {
        expunge(self.alloc, &mut self.mailboxes[place], set);
    }
}

/// Reports the items of those messages that the set names.
fn say_messages(
    alloc: Global,
    mailbox: &StoredMailbox,
    keywords: &Keywords,
    set: &UidSet,
    items: FetchItems,
    out: &mut Vec<u8>,
) -> Result<(), AllocError>
    requires { IsServed (far_of mailbox.now) }
    ensures { OnOk result (Wrote (fetched keywords.now (named_in (store_of mailbox.now) set.now) items 1 mailbox.now.messages) out.old.items out.new.items) }
{
    let messages = mailbox.messages.as_slice();
    let top = greatest(messages);
    let (start, end) = reach(messages, set, top);
    for index in start..end {
        let message = &messages[index];
        if is_named(set, top, message.uid) {
            say_message(alloc, index as u32 + 1, message, keywords, items, out)?;
        }
    }
    Ok(())
}

/// Reports the items of a message.
fn say_message(
    alloc: Global,
    place: u32,
    message: &Message,
    keywords: &Keywords,
    items: FetchItems,
    out: &mut Vec<u8>,
) -> Result<(), AllocError>
    requires place { 0 < place }
    requires body { IsLiteral message.now.bytes }
    ensures { OnOk result (Wrote (replies.Fetch place (shown keywords.now items message.now) ∷ []) out.old.items out.new.items) }
{
    let flags = FlagList::of(alloc, message.flags, keywords)?;
    let list = shown(alloc, message, &flags, items)?;
    say(&Reply::Fetch(number(place), list), out)?;
    Ok(())
}

/// The items of a message; its bytes are lent, and so are these names of its flags.
fn shown<'a>(
    alloc: Global,
    message: &'a Message,
    flags: &'a FlagList,
    items: FetchItems,
) -> Result<FetchList<'a>, AllocError>
    requires { IsLiteral message.now.bytes }
    ensures { (keywords : List Keyword) → flags.now ≡ names_of keywords message.now.flags → IfOk result (λ list. list ≡ shown keywords items message.now) }
{
    let bytes = message.bytes.as_slice();
    let mut list = Vec::new(alloc);
    list.push(FetchItem::Uid(NonZero::from(message.uid)))?;
    match items {
        FetchItems::Listing => {
            list.push(FetchItem::Flags(flags.names()))?;
            list.push(FetchItem::Size(bytes.len() as u32))?;
        }
        FetchItems::Body => list.push(FetchItem::Body(Some(literal(bytes))))?,
        FetchItems::Head => list.push(FetchItem::Head(Some(literal(head(bytes)))))?,
    }
    match FetchList::new(list) {
        Some(list) => Ok(list),
        None => unreachable!(),
    }
}

/// These octets as a literal.
fn literal(bytes: &[u8]) -> WireString<'_>
    requires { IsLiteral bytes.now }
    ensures { result ≡ WireString.Literal bytes.now }
{
    match LentOctets::read(bytes) {
        Some(octets) => WireString::Literal(octets),
        None => unreachable!(),
    }
}

/// The first 22 octets of a message, or all.
fn head(bytes: &[u8]) -> &[u8]
    requires { IsLiteral bytes.now }
    ensures head { result.now ≡ take 22 bytes.now }
    ensures literal { IsLiteral result.now }
{
    if bytes.len() > 22 {
        &bytes[..22]
    } else {
        bytes
    }
}

/// Reports which messages are removed: those that the set names and that are marked as deleted.
fn say_removed(mailbox: &StoredMailbox, set: &UidSet, out: &mut Vec<u8>) -> Result<(), AllocError>
    requires { IsServed (far_of mailbox.now) }
    ensures { OnOk result (Wrote (removed (named_in (store_of mailbox.now) set.now) 1 mailbox.now.messages) out.old.items out.new.items) }
{
    let messages = mailbox.messages.as_slice();
    let top = greatest(messages);
    let (start, end) = reach(messages, set, top);
    let mut place = start as u32 + 1;
    for index in start..end {
        if goes(set, top, &messages[index]) {
            say_expunged(place, out)?;
        } else {
            place += 1;
        }
    }
    Ok(())
}

/// Reports that the message at this place is removed.
fn say_expunged(place: u32, out: &mut Vec<u8>) -> Result<(), AllocError>
    requires { 0 < place }
    ensures { OnOk result (Wrote (replies.Expunge place ∷ []) out.old.items out.new.items) }
{
    say(&Reply::Expunge(number(place)), out)?;
    Ok(())
}
