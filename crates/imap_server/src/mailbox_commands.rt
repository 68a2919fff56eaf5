//! CREATE and SELECT (RFC 9051, sections 6.3.4 and 6.3.2).

ghost use Rattle.std.specs.Prelude.{◌≡◌, ◌<◌, ◌≤◌, ◌∷◌, [], true, length, OnOk, IfOk, IfSome, IfNone};
ghost use Rattle.mailcore.specs.MailboxNames.{is_mailbox_name};
ghost use Rattle.imap_session.specs.Answering.{listed};
ghost use Rattle.imap_session.specs.MailboxCommands.{next_validity, empty_mailbox, closes, opening};
ghost use Rattle.imap_session.specs.Boxes.{far_of, all_of, IsServed};
ghost use Rattle.imap_server.specs.Services.{condition_of};
ghost use Rattle.imap_server.specs.Writing.{Wrote};

use crate::condition::ConnectionState;
use crate::service::Service;
use crate::words::word_code;
use crate::writing::{
    say, say_done, say_done_with, say_no, say_no_with, say_note, say_out_of_place,
};
use imap_replies::reply::Reply;
use imap_replies::response::Code;
use mailcore::keywords::Keywords;
use mailcore::mailbox::StoredMailbox;
use mailcore::mailbox_name::{MailboxName, is_mailbox_name};
use std::alloc::{AllocError, Global};
use wire_strings::text::Text;
use wire_tokens::flag_list::FlagList;
use wire_tokens::number::NonZero;
use wire_tokens::tag::Tag;

impl Service {
    ghost use Rattle.std.specs.Prelude.{◌≡◌, None, OnOk, OnErr};
    ghost use Rattle.imap_session.specs.MailboxCommands.{creates, creates_at, selects};
    ghost use Rattle.imap_server.specs.Writing.{Answered};

    /// Answers CREATE.
    pub(crate) fn create(
        &mut self,
        tag: Tag,
        name: &Text,
        out: &mut Vec<u8>,
    ) -> Result<(), AllocError>
        ensures ok { OnOk result (Answered (creates self.old tag name.now) out.old.items out.new.items self.new) }
        ensures err { OnErr result (self.new ≡ self.old) }
    {
        if !self.is_logged_in() {
            return say_out_of_place(tag, out);
        }
        match self.place_of(name.as_slice()) {
            Some(_) => {
                say_no_with(tag, b"ALREADYEXISTS", b"exists", out)?;
                Ok(())
            }
            None => self.create_new(tag, name.as_slice(), out),
        }
    }

    /// The same, where no mailbox has the name.
    fn create_new(&mut self, tag: Tag, name: &[u8], out: &mut Vec<u8>) -> Result<(), AllocError>
        ensures ok { OnOk result (Answered (creates_at None self.old tag name.now) out.old.items out.new.items self.new) }
        ensures err { OnErr result (self.new ≡ self.old) }
    {
        if !is_mailbox_name(name) {
            say_no(tag, b"name", out)?;
            return Ok(());
        }
        match next_validity(&self.mailboxes) {
            Some(validity) => {
                let mailbox = empty_mailbox(self.alloc, name, validity)?;
                say_done(tag, out)?;
                self.mailboxes.push(mailbox)?;
                Ok(())
            }
            None => {
                say_no(tag, b"limit", out)?;
                Ok(())
            }
        }
    }

    /// Answers SELECT.
    pub(crate) fn select(
        &mut self,
        tag: Tag,
        name: Text,
        out: &mut Vec<u8>,
    ) -> Result<(), AllocError>
        ensures ok { OnOk result (Answered (selects self.old tag name) out.old.items out.new.items self.new) }
        ensures err { OnErr result (self.new ≡ self.old) }
    {
        if !self.is_logged_in() {
            return say_out_of_place(tag, out);
        }
        say_closed(&self.condition, out)?;
        match self.place_of(name.as_slice()) {
            Some(place) => {
                say_opening(self.alloc, self.mailbox(place), &self.keywords, tag, out)?;
                self.enter(ConnectionState::Selected(name));
            }
            None => {
                say_no_with(tag, b"NONEXISTENT", b"no mailbox", out)?;
                self.enter(ConnectionState::Authenticated);
            }
        }
        Ok(())
    }
}

/// Reports that the mailbox that was selected is so no more.
fn say_closed(condition: &ConnectionState, out: &mut Vec<u8>) -> Result<(), AllocError>
    ensures { OnOk result (Wrote (closes (condition_of condition.now)) out.old.items out.new.items) }
{
    if let ConnectionState::Selected(_) = condition {
        say_note(word_code(b"CLOSED"), b"closed", out)?;
    }
    Ok(())
}

/// Reports what a mailbox that is selected has.
fn say_opening(
    alloc: Global,
    mailbox: &StoredMailbox,
    keywords: &Keywords,
    tag: Tag,
    out: &mut Vec<u8>,
) -> Result<(), AllocError>
    requires { IsServed (far_of mailbox.now) }
    ensures { OnOk result (Wrote (opening keywords.now (far_of mailbox.now) tag) out.old.items out.new.items) }
{
    let flags = FlagList::of(alloc, keywords.known(), keywords)?;
    say(&Reply::Flags(flags.names()), out)?;
    say(&Reply::Exists(count_of(mailbox)), out)?;
    say_listed(mailbox.name.as_str().as_bytes(), out)?;
    say_note(
        Code::PermanentFlags(flags.names().permanent()),
        b"flags",
        out,
    )?;
    say_note(Code::UidNext(number(mailbox.next)), b"next", out)?;
    say_note(
        Code::UidValidity(number(mailbox.validity)),
        b"validity",
        out,
    )?;
    say_done_with(tag, Code::ReadWrite, out)?;
    Ok(())
}

/// How many messages the mailbox has.
pub(crate) fn count_of(mailbox: &StoredMailbox) -> u32
    requires { IsServed (far_of mailbox.now) }
    ensures count { result ≡ length mailbox.now.messages }
    ensures below { result < mailbox.now.next }
{
    mailbox.messages.as_slice().len() as u32
}

/// A number that is not 0.
pub(crate) fn number(n: u32) -> NonZero
    requires { 0 < n }
    ensures { result ≡ n }
{
    match NonZero::new(n) {
        Some(number) => number,
        None => unreachable!(),
    }
}

/// Writes `* LIST () "/" "name"`. Where memory runs out, a part may be written.
pub(crate) fn say_listed(name: &[u8], out: &mut Vec<u8>) -> Result<(), AllocError>
    requires { is_mailbox_name name.now ≡ true }
    ensures { OnOk result (Wrote (listed name.now ∷ []) out.old.items out.new.items) }
{
    out.extend_from_slice(b"* LIST () \"/\" \"")?;
    out.extend_from_slice(name)?;
    out.extend_from_slice(b"\"\r\n")?;
    Ok(())
}

/// The UIDVALIDITY of the next mailbox, or none where none is left.
fn next_validity(mailboxes: &[StoredMailbox]) -> Option<u32>
    ensures some { IfSome result (λ v. v ≡ next_validity (all_of mailboxes.now)) }
    ensures none { IfNone result (4294967296 ≤ next_validity (all_of mailboxes.now)) }
{
    let greatest = mailboxes.iter().fold(0u32, |most, m| most.max(m.validity));
    greatest.checked_add(1)
}

/// A mailbox without messages.
fn empty_mailbox(alloc: Global, name: &[u8], validity: u32) -> Result<StoredMailbox, AllocError>
    requires name { is_mailbox_name name.now ≡ true }
    requires validity { 0 < validity }
    ensures new { IfOk result (λ m. far_of m ≡ empty_mailbox name.now validity) }
    ensures served { IfOk result (λ m. IsServed (far_of m)) }
{
    match MailboxName::from_bytes(alloc, name)? {
        Some(name) => Ok(StoredMailbox::new(alloc, name, validity, 1)),
        None => unreachable!(),
    }
}
