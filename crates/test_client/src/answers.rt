//! The answers of calls, as they are reported.

use imap_link::fault::FarFault;
use mailcore::listing::{Item, Listing};
use mailcore::uid::Uid;
use test_scripts::reported::Reported;
use test_scripts::words::Words;

/// Texts with more bytes are shown by their beginning.
const SHOWN_MAX: usize = 200;

/// How many bytes such a beginning has.
const BEGINNING: usize = 60;

/// A fault, by its name.
pub fn report_fault(reported: &mut Reported, fault: FarFault) {
    let name = match fault {
        FarFault::Stopped => "Stopped",
        FarFault::Refused => "Refused",
        FarFault::Protocol => "Protocol",
        FarFault::TooLong => "TooLong",
        FarFault::NoRev2 => "NoRev2",
        FarFault::ReadOnly => "ReadOnly",
        FarFault::NoMemory => "NoMemory",
    };
    reported.text(name);
}

/// The call cannot be made; the rest of its line is skipped.
pub fn print_not_made(line: &mut Words<'_>, reported: &mut Reported) {
    if !line.is_over() {
        let _ = line.rest();
    }
    reported.text("not made");
}

/// The answer of a call that gives nothing.
pub fn print_done(reported: &mut Reported, answered: Result<(), FarFault>) {
    match answered {
        Ok(()) => reported.text("done"),
        Err(fault) => report_fault(reported, fault),
    }
}

/// A UID, or `none`.
pub fn print_uid(reported: &mut Reported, answered: Result<Option<Uid>, FarFault>) {
    match answered {
        Ok(Some(uid)) => reported.number(u64::from(uid.get())),
        Ok(None) => reported.text("none"),
        Err(fault) => report_fault(reported, fault),
    }
}

/// The bytes of a message, or `none`.
pub fn print_body(reported: &mut Reported, answered: Result<Option<&[u8]>, FarFault>) {
    match answered {
        Ok(Some(bytes)) => print_bytes(reported, bytes),
        Ok(None) => reported.text("none"),
        Err(fault) => report_fault(reported, fault),
    }
}

/// The name of the mailbox at this place among others.
pub fn print_name(reported: &mut Reported, place: usize, name: &str) {
    if place > 0 {
        reported.text(" ");
    }
    print_bytes(reported, name.as_bytes());
}

/// Escaped bytes between quotes, or their beginning and how many they are.
fn print_bytes(reported: &mut Reported, bytes: &[u8]) {
    let length = bytes.len();
    if length <= SHOWN_MAX {
        reported.quoted(bytes);
    } else {
        reported.quoted(bytes.get(..BEGINNING).unwrap_or(bytes));
        reported.text(" .. (");
        reported.number(length as u64);
        reported.text(" bytes)");
    }
}

/// `validity V, next N`, and for each message `; UID FLAGS`, with `unfit` after it if the message is not fit to be copied.
pub fn print_listing(reported: &mut Reported, listing: &Listing) {
    reported.text("validity ");
    reported.number(u64::from(listing.validity));
    reported.text(", next ");
    reported.number(u64::from(listing.next));
    for item in listing.items.as_slice() {
        print_item(reported, item);
    }
}

fn print_item(reported: &mut Reported, item: &Item) {
    reported.text("; ");
    reported.number(u64::from(item.uid.get()));
    reported.text(" ");
    reported.flags(item.flags);
    if !item.fit {
        reported.text(" unfit");
    }
}
