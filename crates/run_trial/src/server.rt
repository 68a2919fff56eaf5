//! The far mailbox of a trial, as the INBOX of a server, and the links to it.

ghost use Rattle.std.specs.Prelude.{◌≡◌, IfOk, codes, map};
ghost use Rattle.std.specs.Option.{option_map};
ghost use Rattle.imap_client.specs.Seen.{HasMap, seen_message};
ghost use Rattle.imap_server.specs.Boxes.{AreServed};
ghost use Rattle.imap_session.specs.Boxes.{all_of, far_of};
ghost use Rattle.imap_session.specs.Mailboxes.{is_inbox, mailbox_at, same_name};
ghost use Rattle.run_trial.specs.Settings.{inbox_of};

use crate::contents::copy_of;
use crate::failure::TrialError;
use imap_link::link::Link;
use imap_server::served::are_served;
use imap_server::server::Server;
use link_face::face_link::FaceLink;
use mail_sides::account::Account;
use mailcore::keywords::Keywords;
use mailcore::mailbox::{Message, StoredMailbox};
use mailcore::mailbox_name::MailboxName;
use mailcore::others::Others;
use mem_link::acted_link::ActedLink;
use mem_link::loop_link::LoopLink;
use mem_link::mem_link::MemLink;
use mem_link::visited_link::VisitedLink;
use std::alloc::{AllocError, Global};
use std::net::Net;

/// The one user, the password, and the mailbox.
const USER: &[u8] = b"u";

const PASSWORD: &[u8] = b"p";

pub(crate) const MAILBOX: &[u8] = b"INBOX";

/// A server with this mailbox, as its INBOX, and with this map of keywords. `NoWorld`: it has a message that cannot be sent.
pub(crate) fn server_with(
    alloc: Global,
    far: StoredMailbox,
    keywords: Keywords,
) -> Result<Server, TrialError>
    ensures served { IfOk result (λ server. AreServed server.server.mailboxes) }
    ensures inbox { IfOk result (λ server. server.server.mailboxes ≡ inbox_of far) }
    ensures letters { IfOk result (λ server. HasMap keywords server.server) }
{
    let mut inbox = far;
    inbox.name = MailboxName::inbox(alloc)?;
    let mut mailboxes = Vec::new(alloc);
    mailboxes.push(inbox)?;
    if !are_served(&mailboxes) {
        return Err(TrialError::NoWorld);
    }
    let user = Vec::from_slice(alloc, USER)?;
    let password = Vec::from_slice(alloc, PASSWORD)?;
    Ok(Server::with_keywords(alloc, mailboxes, user, password, keywords))
}

/// Whose mailbox it is.
pub(crate) fn account_of(alloc: Global) -> Result<Account, AllocError>
    ensures { IfOk result (λ account. account.mailbox.items ≡ codes "INBOX") }
{
    let user = Vec::from_slice(alloc, USER)?;
    let password = Vec::from_slice(alloc, PASSWORD)?;
    Ok(Account::new(user, password, Vec::from_slice(alloc, MAILBOX)?))
}

/// The mailbox of this name, if there is one.
pub(crate) fn mailbox_named<'a>(
    mailboxes: &'a [StoredMailbox],
    name: &[u8],
) -> Option<&'a StoredMailbox>
    ensures { option_map (λ mailbox. far_of mailbox.now) result ≡ mailbox_at name.now (all_of mailboxes.now) }
{
    let mut rest = mailboxes;
    while let Some((mailbox, following)) = rest.split_first() {
        if same_name(mailbox.name.as_str().as_bytes(), name) {
            return Some(mailbox);
        }
        rest = following;
    }
    None
}

/// Whether two names are those of one mailbox: they compare by bytes, INBOX without case.
fn same_name(a: &[u8], b: &[u8]) -> bool
    ensures { result ≡ same_name a.now b.now }
{
    a == b || (is_inbox(a) && is_inbox(b))
}

fn is_inbox(name: &[u8]) -> bool
    ensures { result ≡ is_inbox name.now }
{
    name.eq_ignore_ascii_case(MAILBOX)
}

/// These messages as a client sees them by this map, which knows the names of their flags.
pub(crate) fn seen_messages(
    alloc: Global,
    messages: &[Message],
    keywords: &Keywords,
) -> Result<Vec<Message>, AllocError>
    ensures { IfOk result (λ seen. seen.items ≡ map (seen_message keywords.now) messages.now) }
{
    let mut seen = Vec::with_capacity(alloc, messages.len())?;
    for message in messages {
        seen.push(Message {
            uid: message.uid,
            flags: message.flags.kept(keywords),
            bytes: copy_of(alloc, &message.bytes)?,
        })?;
    }
    Ok(seen)
}

/// A link to a server in this process.
pub trait TrialLink: Link {
    /// How many calls have stopped.
    fn stops(&self) -> usize;

    /// The server.
    fn server(&self) -> &Server
        ensures { result.now.server.mailboxes ≡ (Self.line self.now).end.server.mailboxes };
}

impl TrialLink for MemLink {
    fn stops(&self) -> usize {
        self.stops()
    }

    fn server(&self) -> &Server {
        self.server()
    }
}

impl<O: Others> TrialLink for VisitedLink<O> {
    fn stops(&self) -> usize {
        self.stops()
    }

    fn server(&self) -> &Server {
        self.server()
    }
}

impl TrialLink for ActedLink {
    fn stops(&self) -> usize {
        self.stops()
    }

    fn server(&self) -> &Server {
        self.server()
    }
}

/// Through a face, as `mbsync` hears real servers. Over this server the face stops by itself nowhere.
impl<L: TrialLink> TrialLink for FaceLink<L> {
    fn stops(&self) -> usize {
        self.link().stops()
    }

    fn server(&self) -> &Server {
        self.link().server()
    }
}

impl<R: Net + AllocGlobal + Clone + Drop> TrialLink for LoopLink<R> {
    fn stops(&self) -> usize {
        self.stops()
    }

    fn server(&self) -> &Server {
        self.server()
    }
}
