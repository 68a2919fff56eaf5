//! Mailboxes and their messages, as scripts say and show them.

use crate::failure::Failure;
use crate::reported::Reported;
use crate::words::Words;
use mailcore::flags::Flags;
use mailcore::listing::Item;
use mailcore::mailbox::{Message, StoredMailbox};
use mailcore::mailbox_name::MailboxName;
use mailcore::octets::Octets;
use mailcore::uid::Uid;
use std::alloc::Global;

/// `VALIDITY NEXT NAME`: an empty mailbox. `Script`: the name is outside the limits.
pub fn read_mailbox(alloc: Global, line: &mut Words<'_>) -> Result<StoredMailbox, Failure> {
    let validity = line.number();
    let next = line.number();
    let name = MailboxName::from_bytes(alloc, line.text().as_bytes())?.ok_or(Failure::Script)?;
    Ok(StoredMailbox::new(alloc, name, validity, next))
}

/// The same, which is added to others.
pub fn add_mailbox(
    alloc: Global,
    mailboxes: &mut Vec<StoredMailbox>,
    line: &mut Words<'_>,
) -> Result<(), Failure> {
    Ok(mailboxes.push(read_mailbox(alloc, line)?)?)
}

/// `UID FLAGS "BYTES"`: a message.
pub fn read_message(alloc: Global, line: &mut Words<'_>) -> Result<Message, Failure> {
    let uid = line.uid();
    let flags = line.flags();
    let bytes = line.bytes(alloc)?;
    Ok(Message {
        uid,
        flags,
        bytes: Octets::from_vec(bytes),
    })
}

/// The same, which is added to the last mailbox.
pub fn add_message(
    alloc: Global,
    mailboxes: &mut [StoredMailbox],
    line: &mut Words<'_>,
) -> Result<(), Failure> {
    push_message(mailboxes, read_message(alloc, line)?)
}

/// Adds a message to the last mailbox. `Script`: there is none, or the UID is not above the others and below the next one.
pub fn push_message(mailboxes: &mut [StoredMailbox], message: Message) -> Result<(), Failure> {
    match mailboxes.last_mut() {
        Some(mailbox) => Ok(mailbox.push(message)?),
        None => Err(Failure::Script),
    }
}

/// An answer for each line of what a server said. A line that does not end with CR LF is marked so.
pub fn print_replies(reported: &mut Reported, replies: &[u8]) {
    print_lines(reported, "", replies);
}

/// The same of any lines, after these words.
pub fn print_lines(reported: &mut Reported, words: &str, lines: &[u8]) {
    for line in lines.split_inclusive(|byte| *byte == b'\n') {
        reported.begin();
        reported.text(words);
        match line.strip_suffix(b"\r\n") {
            Some(text) => reported.bytes(text),
            None => {
                reported.bytes(line);
                reported.text(" (no CR LF)");
            }
        }
        reported.end();
    }
}

/// An answer for a mailbox: its name, its UIDVALIDITY and UIDNEXT, and its messages.
pub fn print_mailbox(reported: &mut Reported, mailbox: &StoredMailbox) {
    reported.begin();
    reported.bytes(mailbox.name.as_str().as_bytes());
    reported.text(": ");
    print_numbers(reported, mailbox.validity, mailbox.next);
    for message in mailbox.messages.as_slice() {
        reported.text("; ");
        print_message(reported, message);
    }
    reported.end();
}

/// A UIDVALIDITY and a UIDNEXT.
pub fn print_numbers(reported: &mut Reported, validity: u32, next: u32) {
    reported.text("validity ");
    reported.number(u64::from(validity));
    reported.text(", next ");
    reported.number(u64::from(next));
}

/// A UID and flags.
fn print_flagged(reported: &mut Reported, uid: Uid, flags: Flags) {
    reported.number(u64::from(uid.get()));
    reported.text(" ");
    reported.flags(flags);
}

/// A message of a listing: its UID and its flags, and `unfit` where it is not fit to be copied.
pub fn print_item(reported: &mut Reported, item: &Item) {
    print_flagged(reported, item.uid, item.flags);
    if !item.fit {
        reported.text(" unfit");
    }
}

/// A message: its UID, its flags and its bytes.
pub fn print_message(reported: &mut Reported, message: &Message) {
    print_flagged(reported, message.uid, message.flags);
    reported.text(" \"");
    reported.bytes(message.bytes.as_slice());
    reported.text("\"");
}
