//! Calls of a mailbox.

use crate::answers::{
    print_body, print_done, print_listing, print_not_made, print_uid, report_fault,
};
use imap_client::far_box::FarBox;
use imap_commands::message::SentMessage;
use imap_link::link::Link;
use mailcore::tuid::Tuid;
use std::alloc::Global;
use test_scripts::failure::Failure;
use test_scripts::reported::Reported;
use test_scripts::words::Words;

/// The most messages that may be removed in a call.
const MOST_REMOVED: usize = 5000;

/// Makes a call of a mailbox, and adds its answer.
pub fn ask_mailbox<L: Link>(
    alloc: Global,
    mailbox: &mut FarBox<L>,
    word: &str,
    line: &mut Words<'_>,
    reported: &mut Reported,
) {
    match word {
        "list" => list(mailbox, false, reported),
        "count" => list(mailbox, true, reported),
        "fetch" => print_body(reported, mailbox.fetch(line.uid())),
        "find_mark" => find_mark(mailbox, line, reported),
        "append" => append(alloc, mailbox, line, reported),
        "expunge" => expunge(alloc, mailbox, line, reported),
        "add_flags" => {
            let uid = line.uid();
            print_done(reported, mailbox.add_flags(uid, line.flags()));
        }
        "remove_flags" => {
            let uid = line.uid();
            print_done(reported, mailbox.remove_flags(uid, line.flags()));
        }
        _ => print_not_made(line, reported),
    }
}

/// What the mailbox lists, or how many messages that are.
fn list<L: Link>(mailbox: &mut FarBox<L>, is_counted: bool, reported: &mut Reported) {
    match mailbox.list() {
        Ok(listing) if is_counted => reported.number(listing.items.as_slice().len() as u64),
        Ok(listing) => print_listing(reported, &listing),
        Err(fault) => report_fault(reported, fault),
    }
}

/// The UID under which a mark stands.
fn find_mark<L: Link>(mailbox: &mut FarBox<L>, line: &mut Words<'_>, reported: &mut Reported) {
    let mark = Tuid::read(line.word().as_bytes());
    let from = line.number();
    match mark {
        Some(mark) => print_uid(reported, mailbox.find_mark(mark, from)),
        None => line.refuse(),
    }
}

fn append<L: Link>(
    alloc: Global,
    mailbox: &mut FarBox<L>,
    line: &mut Words<'_>,
    reported: &mut Reported,
) {
    let flags = line.flags();
    match SentMessage::new(line.said(alloc)) {
        Some(message) => print_uid(reported, mailbox.append(message.octets(), flags)),
        None => line.refuse(),
    }
}

fn expunge<L: Link>(
    alloc: Global,
    mailbox: &mut FarBox<L>,
    line: &mut Words<'_>,
    reported: &mut Reported,
) {
    let mut uids = Vec::new(alloc);
    for _ in 0..MOST_REMOVED {
        if line.is_over() {
            break;
        }
        if uids.push(line.uid()).is_err() {
            line.fail(Failure::NoMemory);
        }
    }
    if uids.len() <= MOST_REMOVED {
        print_done(reported, mailbox.expunge(&uids));
    }
}
