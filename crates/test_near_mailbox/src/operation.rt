//! The operations of a mailbox, and their answers.

use crate::many::{append_copies, count, find_marks, many};
use device::DeviceFault;
use mailcore::copy_pieces::CopyPieces;
use mailcore::listing::Listing;
use mailcore::octets::Octets;
use mailcore::tuid::Tuid;
use mailcore::uid::Uid;
use maildir::folder::Folder;
use near_box::{NearBox, NearFault};
use std::alloc::Global;
use test_scripts::failure::Failure;
use test_scripts::mail::{print_item, print_numbers};
use test_scripts::reported::Reported;
use test_scripts::words::Words;
use texts::number::read_u32;

/// Does what a line with this first word asks of a mailbox, prints the answer or the fault, and gives the fault.
pub fn perform<F: Folder>(
    alloc: Global,
    near: &mut NearBox<F>,
    word: &str,
    line: &mut Words<'_>,
    reported: &mut Reported,
) -> Option<NearFault> {
    match word {
        "admit" => print_done(reported, near.admit()),
        "list" => print_listing(reported, near.list()),
        "count" => count(alloc, near, line, reported),
        "fetch" => print_bytes(reported, near.fetch(line.uid())),
        "find" => find(near, line, reported),
        "append" => append(alloc, near, line, reported),
        "add" => {
            let uid = line.uid();
            print_done(reported, near.add_flags(uid, line.flags()))
        }
        "remove" => {
            let uid = line.uid();
            print_done(reported, near.remove_flags(uid, line.flags()))
        }
        "expunge" => {
            let uids = read_uids(alloc, line);
            print_done(reported, near.expunge(&uids))
        }
        _ => refuse(line),
    }
}

/// The line is bad, whatever is printed of it.
fn refuse(line: &mut Words<'_>) -> Option<NearFault> {
    line.refuse();
    None
}

fn find<F: Folder>(
    near: &mut NearBox<F>,
    line: &mut Words<'_>,
    reported: &mut Reported,
) -> Option<NearFault> {
    if let Some(marks) = many(line, "marks") {
        return find_marks(near, marks, reported);
    }
    match Tuid::read(line.word().as_bytes()) {
        Some(mark) => print_uid(reported, near.find_mark(mark, line.number())),
        None => refuse(line),
    }
}

fn append<F: Folder>(
    alloc: Global,
    near: &mut NearBox<F>,
    line: &mut Words<'_>,
    reported: &mut Reported,
) -> Option<NearFault> {
    if let Some(copies) = many(line, "copies") {
        return append_copies(near, copies, reported);
    }
    let flags = line.flags();
    let bytes = line.said(alloc);
    match near.append_copy(CopyPieces::whole(&bytes), flags) {
        Ok(uid) => print_uid(reported, Ok(Some(uid))),
        Err(fault) => report_fault(reported, fault),
    }
}

/// UIDs with commas between, or none for `-`.
pub fn read_uids(alloc: Global, line: &mut Words<'_>) -> Vec<Uid> {
    let mut uids = Vec::new(alloc);
    let word = line.word();
    if word != "-" {
        for part in word.split(',') {
            push_uid(&mut uids, part, line);
        }
    }
    uids
}

fn push_uid(uids: &mut Vec<Uid>, text: &str, line: &mut Words<'_>) {
    match Uid::new(read_u32(text.as_bytes(), u32::MAX).unwrap_or_default()) {
        Some(uid) => {
            if uids.push(uid).is_err() {
                line.fail(Failure::NoMemory);
            }
        }
        None => line.refuse(),
    }
}

/// These bytes, which are kept.
pub fn octets_of(alloc: Global, bytes: &[u8], line: &mut Words<'_>) -> Octets {
    match Vec::from_slice(alloc, bytes) {
        Ok(bytes) => Octets::from_vec(bytes),
        Err(_) => {
            line.fail(Failure::NoMemory);
            Octets::from_vec(Vec::new(alloc))
        }
    }
}

/// Prints a fault, and gives it. Want of memory counts as a loss.
pub fn report_fault(reported: &mut Reported, fault: NearFault) -> Option<NearFault> {
    reported.shown(&fault);
    if matches!(fault, NearFault::NoMemory) {
        reported.lose();
    }
    Some(fault)
}

/// Prints `ok`, or the fault.
pub fn print_done(reported: &mut Reported, answer: Result<(), NearFault>) -> Option<NearFault> {
    match answer {
        Ok(()) => {
            reported.text("ok");
            None
        }
        Err(fault) => report_fault(reported, fault),
    }
}

/// The same of a call of a folder.
pub fn print_device(reported: &mut Reported, answer: Result<(), DeviceFault>) {
    match answer {
        Ok(()) => reported.text("ok"),
        Err(fault) => {
            report_fault(reported, NearFault::from(fault));
        }
    }
}

fn print_uid(reported: &mut Reported, answer: Result<Option<Uid>, NearFault>) -> Option<NearFault> {
    match answer {
        Ok(Some(uid)) => reported.number(u64::from(uid.get())),
        Ok(None) => reported.text("none"),
        Err(fault) => return report_fault(reported, fault),
    }
    None
}

fn print_bytes(
    reported: &mut Reported,
    answer: Result<Option<&[u8]>, NearFault>,
) -> Option<NearFault> {
    match answer {
        Ok(Some(bytes)) => reported.quoted(bytes),
        Ok(None) => reported.text("none"),
        Err(fault) => return report_fault(reported, fault),
    }
    None
}

fn print_listing(reported: &mut Reported, answer: Result<Listing, NearFault>) -> Option<NearFault> {
    match answer {
        Ok(listing) => {
            print_numbers(reported, listing.validity, listing.next);
            for item in listing.items.as_slice() {
                reported.text(", ");
                print_item(reported, item);
            }
            drop(listing);
            None
        }
        Err(fault) => report_fault(reported, fault),
    }
}
