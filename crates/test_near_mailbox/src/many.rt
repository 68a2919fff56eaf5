//! Operations on many messages, of which the answer is short.

use crate::operation::{print_done, read_uids, report_fault};
use device::whose::Whose;
use mailcore::copy_pieces::{CopyHead, CopyPieces};
use mailcore::flags::Flags;
use mailcore::side::LineEnd;
use mailcore::spared::Spared;
use mailcore::tuid::{TUID_LENGTH, Tuid};
use maildir::folder::Folder;
use near_box::{NearBox, NearFault};
use std::alloc::Global;
use test_scripts::failure::Failure;
use test_scripts::reported::Reported;
use test_scripts::words::Words;

/// What is copied.
const MESSAGE: &[u8] = b"Subject: a copy\r\n\r\ntext\r\n";

/// How many of these things a line asks for, where `N THINGS` stands next in it.
pub fn many(line: &mut Words<'_>, things: &str) -> Option<u32> {
    let mut ahead = *line;
    let number = ahead.number();
    if ahead.word() != things {
        return None;
    }
    *line = ahead;
    Some(number)
}

/// `above UID`, `above UID except UID,UID`, or nothing: how many messages a listing has.
pub fn count<F: Folder>(
    alloc: Global,
    near: &mut NearBox<F>,
    line: &mut Words<'_>,
    reported: &mut Reported,
) -> Option<NearFault> {
    let spared = read_spared(alloc, line);
    match near.list_sparing(&spared) {
        Ok(listing) => {
            reported.number(listing.items.as_slice().len() as u64);
            drop(listing);
            None
        }
        Err(fault) => report_fault(reported, fault),
    }
}

/// Which messages are not asked whether they are fit.
fn read_spared(alloc: Global, line: &mut Words<'_>) -> Spared {
    if line.is_over() {
        return Spared::none(alloc);
    }
    line.expect("above");
    let from = line.number();
    let mut others = Vec::new(alloc);
    if !line.is_over() {
        line.expect("except");
        for uid in read_uids(alloc, line).iter() {
            if others.push(uid.get()).is_err() {
                line.fail(Failure::NoMemory);
            }
        }
    }
    Spared::of(from, others)
}

/// Appends so many copies of a far message, under the mark `000000000000`, and syncs the names.
pub fn append_copies<F: Folder>(
    near: &mut NearBox<F>,
    copies: u32,
    reported: &mut Reported,
) -> Option<NearFault> {
    let Some(mark) = mark_of(0) else {
        return None;
    };
    let head = CopyHead::new(mark, LineEnd::Lf);
    for _ in 0..copies {
        let copy = CopyPieces::new(&head, MESSAGE);
        if let Err(fault) = near.append_copy(copy, Flags::none()) {
            return report_fault(reported, fault);
        }
    }
    print_done(reported, near.sync(Whose::All))
}

/// Prints how many of so many marks are found, as a pull that was stopped seeks its copies.
pub fn find_marks<F: Folder>(
    near: &mut NearBox<F>,
    marks: u32,
    reported: &mut Reported,
) -> Option<NearFault> {
    let mut found = 0u64;
    for number in 1..=marks {
        let Some(mark) = mark_of(number) else {
            continue;
        };
        match near.find_mark(mark, 1) {
            Ok(Some(_)) => found = found.saturating_add(1),
            Ok(None) => {}
            Err(fault) => return report_fault(reported, fault),
        }
    }
    reported.number(found);
    None
}

/// The mark that is a number with twelve digits.
fn mark_of(number: u32) -> Option<Tuid> {
    let mut digits = [b'0'; TUID_LENGTH];
    let mut rest = number;
    for digit in digits.iter_mut().rev() {
        *digit = b'0' + (rest % 10) as u8;
        rest /= 10;
    }
    Tuid::read(&digits)
}
