//! The mailboxes of a server.

ghost use Rattle.std.specs.Prelude.{IfOk};
ghost use Rattle.imap_server.specs.Boxes.{AreServed};

use imap_server::served::are_served;
use imap_server::server::Server;
use mailcore::mailbox::StoredMailbox;
use std::alloc::Global;
use std::mem;
use test_scripts::failure::Failure;
use test_scripts::mail::{add_mailbox, add_message, print_mailbox};
use test_scripts::reported::Reported;
use test_scripts::words::Words;

/// `mailbox VALIDITY NEXT NAME` adds an empty mailbox, and `message UID FLAGS "BYTES"` a message to the last one.
pub fn add(alloc: Global, mailboxes: &mut Vec<StoredMailbox>, word: &str, line: &mut Words<'_>) {
    let added = if word == "mailbox" {
        add_mailbox(alloc, mailboxes, line)
    } else {
        add_message(alloc, mailboxes, line)
    };
    line.note(added);
}

/// A server that takes these mailboxes, for the user `u` with the password `p`. `Script`: it cannot serve them.
pub fn make_server(alloc: Global, mailboxes: &mut Vec<StoredMailbox>) -> Result<Server, Failure>
    ensures { IfOk result (λ server. AreServed server.server.mailboxes) }
{
    if !are_served(mailboxes) {
        return Err(Failure::Script);
    }
    let user = Vec::from_slice(alloc, b"u")?;
    let password = Vec::from_slice(alloc, b"p")?;
    let mailboxes = mem::replace(mailboxes, Vec::new(alloc));
    Ok(Server::new(alloc, mailboxes, user, password))
}

/// An answer for each mailbox of a server.
pub fn print_mailboxes(reported: &mut Reported, server: &Server) {
    for mailbox in server.mailboxes() {
        print_mailbox(reported, mailbox);
    }
}
