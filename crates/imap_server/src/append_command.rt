//! APPEND (RFC 9051, section 6.3.12).

ghost use Rattle.std.specs.Prelude.{◌≡◌, ◌<◌, ◌∷◌, [], ◌^◌, ◌+◌, length, OnOk, OnErr};
ghost use Rattle.mailcore.specs.Operations.{added};
ghost use Rattle.imap_replies.specs.declared.response.Code.TheVariants as codes_of;
ghost use Rattle.imap_session.specs.AppendCommand.{grown};
ghost use Rattle.imap_session.specs.Answering.{done_with};
ghost use Rattle.imap_session.specs.Boxes.{store_of, far_of};
ghost use Rattle.imap_server.specs.Services.{condition_of};
ghost use Rattle.imap_server.specs.Writing.{Wrote};

use crate::condition::ConnectionState;
use crate::mailbox_commands::{count_of, number};
use crate::service::{Service, same_name};
use crate::writing::{say, say_done_with, say_no, say_no_with, say_out_of_place};
use imap_commands::message::SentMessage as Sent;
use imap_replies::reply::Reply;
use imap_replies::response::Code;
use mailcore::flags::Flags;
use mailcore::mailbox::{Message, StoredMailbox};
use mailcore::octets::Octets;
use mailcore::uid::Uid;
use std::alloc::AllocError;
use wire_strings::text::Text;
use wire_tokens::flag_list::FlagList;
use wire_tokens::number::NonZero;
use wire_tokens::tag::Tag;

impl Service {
    ghost use Rattle.std.specs.Prelude.{◌≡◌, ◌<◌, Some, length, slice_get, OnOk, OnErr};
    ghost use Rattle.mailcore.specs.Operations.{added};
    ghost use Rattle.wire_strings.specs.Literals.{IsLiteral};
    ghost use Rattle.imap_session.specs.Mailboxes.{FarMailbox, mailbox_at};
    ghost use Rattle.imap_session.specs.AppendCommand.{Appends, AppendsAt};
    ghost use Rattle.imap_server.specs.Places.{IsPlace, changed_there};
    ghost use Rattle.imap_server.specs.Writing.{AnsweredBy};

    /// Answers APPEND.
    pub(crate) fn append(
        &mut self,
        tag: Tag,
        name: &Text,
        names: &FlagList,
        message: Sent,
        out: &mut Vec<u8>,
    ) -> Result<(), AllocError>
        ensures ok { OnOk result (AnsweredBy (Appends self.old tag name.now names.now message) out.old.items out.new.items self.new) }
        ensures err { OnErr result (self.new ≡ self.old) }
    {
        if !self.is_logged_in() {
            say_out_of_place(tag, out)?;
            return Ok(());
        }
        match self.place_of(name.as_slice()) {
            Some(place) => self.append_at(place, tag, name.as_slice(), names, message, out),
            None => {
                say_no_with(tag, b"TRYCREATE", b"no mailbox", out)?;
                Ok(())
            }
        }
    }

    /// The same, to the mailbox at this place.
    fn append_at(
        &mut self,
        place: usize,
        tag: Tag,
        name: &[u8],
        names: &FlagList,
        message: Sent,
        out: &mut Vec<u8>,
    ) -> Result<(), AllocError>
        requires { IsPlace name.now self.old.mailboxes place }
        ensures ok { OnOk result (AnsweredBy (AppendsAt (mailbox_at name.now self.old.mailboxes) self.old tag name.now names.now message)
            out.old.items out.new.items self.new) }
        ensures err { OnErr result (self.new ≡ self.old) }
    {
        let mailbox = self.mailbox(place);
        match Uid::new(mailbox.next) {
            Some(uid) => {
                let validity = number(mailbox.validity);
                let count = count_of(mailbox) + 1;
                say_grown(&self.condition, name, count, out)?;
                say_appended(tag, validity, uid, out)?;
                let flags = names.names().named(&self.keywords);
                self.add(place, uid, flags, message.into_vec())
            }
            None => {
                say_no(tag, b"uids", out)?;
                Ok(())
            }
        }
    }

    /// Adds the message to the mailbox at this place, under its next UID.
    pub(crate) fn add(
        &mut self,
        place: usize,
        uid: Uid,
        flags: Flags,
        message: Vec<u8>,
    ) -> Result<(), AllocError>
        requires within { place < length self.old.mailboxes }
        requires literal { IsLiteral message.items }
        requires next { (m : FarMailbox) → slice_get self.old.mailboxes place ≡ Some m → uid ≡ m.store.next }
        ensures ok { OnOk result (self.new ≡ record self.old { mailboxes = changed_there (added uid flags message.items) place self.old.mailboxes }) }
        ensures err { OnErr result (self.new ≡ self.old) }
    {
        // These calls show the prover that the values are in their ranges (docs/DECISIONS.md, "Forms").
        let _ = uid.get();
        let _ = flags.bits();
        add(&mut self.mailboxes[place], uid, flags, message)
    }
}

/// Reports how many messages the mailbox of this name has now, if it is the one that is selected.
fn say_grown(
    condition: &ConnectionState,
    name: &[u8],
    count: u32,
    out: &mut Vec<u8>,
) -> Result<(), AllocError>
    ensures { OnOk result (Wrote (grown (condition_of condition.now) name.now count) out.old.items out.new.items) }
{
    if let ConnectionState::Selected(selected) = condition {
        if same_name(selected.as_slice(), name) {
            say(&Reply::Exists(count), out)?;
        }
    }
    Ok(())
}

/// Writes `tag OK [APPENDUID validity uid] done`.
fn say_appended(tag: Tag, validity: NonZero, uid: Uid, out: &mut Vec<u8>) -> Result<(), AllocError>
    ensures { OnOk result (Wrote (done_with tag (codes_of.AppendUid validity uid) ∷ []) out.old.items out.new.items) }
{
    say_done_with(tag, Code::AppendUid(validity, NonZero::from(uid)), out)
}

/// Adds the message after the others, under the next UID.
fn add(
    mailbox: &mut StoredMailbox,
    uid: Uid,
    flags: Flags,
    message: Vec<u8>,
) -> Result<(), AllocError>
    requires { uid ≡ mailbox.old.next }
    ensures ok { OnOk result (far_of mailbox.new ≡ record (far_of mailbox.old) { store = added uid flags message.items (store_of mailbox.old) }) }
    ensures err { OnErr result (mailbox.new ≡ mailbox.old) }
{
    let next = mailbox.next;
    mailbox.next = uid.get() + 1;
    let message = Message {
        uid,
        flags,
        bytes: Octets::from_vec(message),
    };
    match mailbox.messages.push(message) {
        Ok(()) => Ok(()),
        Err(_) => {
            mailbox.next = next;
            Err(AllocError)
        }
    }
}
