//! What lists of names and sets of UIDs name.

use crate::pieces::{push_pieces, read_pieces};
use crate::sets::print_set;
use imap_wire::UidSet;
use mailcore::uid::Uid;
use std::alloc::Global;
use test_scripts::failure::Failure;
use test_scripts::reported::Reported;
use test_scripts::words::Words;
use wire_reader::stop::ReadError;
use wire_tokens::flag_list::{FlagNames, read_flags};
use wire_tokens::names::read_names;
use wire_tokens::uid_set::uid_set;

/// `"NAME" names`, `"NAME" attributes` or `"NAME" no-attributes`, and bytes: whether the list at the front has the name.
pub fn read_has(alloc: Global, line: &mut Words<'_>) -> bool {
    let mut name = Vec::new(alloc);
    push_pieces(alloc, &mut name, line.word(), line);
    let list = line.word();
    let bytes = read_pieces(alloc, line);
    match has(list, &name, &bytes) {
        Some(has) => has,
        None => {
            line.refuse();
            false
        }
    }
}

/// Whether the list has the name, if the bytes begin with such a list.
fn has(list: &str, name: &[u8], bytes: &[u8]) -> Option<bool> {
    match list {
        "names" => Some(read_names(bytes).ok()?.0.contains(name)),
        "attributes" => Some(read_flags(bytes).ok()?.0.contains(name)),
        "no-attributes" => Some(FlagNames::none().contains(name)),
        _ => None,
    }
}

/// `UID greatest UID`, and `set` with bytes or `alone`: reports whether the set at the front names the first, where the second is the
/// greatest of the mailbox; `alone` is the set of the first.
pub fn print_named(alloc: Global, line: &mut Words<'_>, reported: &mut Reported) {
    let uid = line.uid();
    line.expect("greatest");
    let greatest = read_greatest(line);
    if let Some(set) = read_set(alloc, uid, line) {
        print_set(reported, "  ", &set);
        reported.text(if set.names(uid, greatest) {
            " names it"
        } else {
            " names it not"
        });
        reported.end();
        drop(set);
    }
}

/// A UID, or `-` for none.
fn read_greatest(line: &mut Words<'_>) -> Option<Uid> {
    let mut ahead = *line;
    if ahead.word() == "-" {
        *line = ahead;
        return None;
    }
    Some(line.uid())
}

/// `set` with bytes, or `alone` for the set of this UID. The line is bad if there is none.
fn read_set(alloc: Global, uid: Uid, line: &mut Words<'_>) -> Option<UidSet> {
    match line.word() {
        "set" => {
            let bytes = read_pieces(alloc, line);
            match uid_set(alloc, &bytes) {
                Ok((set, _)) => return Some(set),
                Err(ReadError::At(_)) => line.refuse(),
                Err(ReadError::Memory) => line.fail(Failure::NoMemory),
            }
        }
        "alone" => match UidSet::one(alloc, uid) {
            Ok(set) => return Some(set),
            Err(_) => line.fail(Failure::NoMemory),
        },
        _ => line.refuse(),
    }
    None
}
