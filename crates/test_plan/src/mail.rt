//! Words of mail: contents, copies and flags.

use crate::marks::print_mark;
use mailcore::content::{content, content_len, fit};
use mailcore::copies::{copy_len, copy_text, mark_of};
use mailcore::flags::{Flag, Flags};
use mailcore::keywords::Keywords;
use mailcore::side::{LineEnd, Side};
use mailcore::tuid::Tuid;
use std::alloc::{AllocError, Global};
use test_scripts::reported::Reported;
use test_scripts::words::Words;

/// `"BYTES"` after a question: prints the mark that they spell or bear, what they say, or the flags that they name.
pub fn print_of_message(
    alloc: Global,
    reported: &mut Reported,
    question: &str,
    line: &mut Words<'_>,
) {
    let bytes = line.said(alloc);
    match question {
        "mark" => print_mark(reported, Tuid::read(&bytes)),
        "mark_of" => print_mark(reported, mark_of(&bytes)),
        "content" => print_made(reported, content(alloc, &bytes)),
        "flags" => print_flags(reported, Flags::from_letters(&bytes)),
        "imap" => {
            reported.begin();
            reported.flags(Flags::from_imap(&bytes, &Keywords::new(alloc)));
            reported.end();
        }
        _ => line.refuse(),
    }
}

/// `SIDE "BYTES"`, or `SIDE MARK "BYTES"` for `copy`: prints how long what they say is on this side, their copy there and how
/// long it is, or whether they can be copied from there.
pub fn print_of_side(alloc: Global, reported: &mut Reported, question: &str, line: &mut Words<'_>) {
    let side = line.side();
    let end = match side {
        Side::Far => LineEnd::CrLf,
        Side::Near => LineEnd::Lf,
    };
    let word = if question == "copy" { line.word() } else { "" };
    let bytes = line.said(alloc);
    match question {
        "length" => print_length(reported, content_len(&bytes, end) as u64),
        "copy_len" => print_length(reported, copy_len(&bytes, end)),
        "copy" => match Tuid::read(word.as_bytes()) {
            Some(mark) => print_made(reported, copy_text(alloc, mark, &bytes, end)),
            None => line.refuse(),
        },
        _ => reported.answer(if fit(side, &bytes) { "fit" } else { "unfit" }),
    }
}

fn print_length(reported: &mut Reported, length: u64) {
    reported.begin();
    reported.number(length);
    reported.end();
}

fn print_made(reported: &mut Reported, made: Result<Vec<u8>, AllocError>) {
    match made {
        Ok(bytes) => {
            reported.begin();
            reported.quoted(&bytes);
            reported.end();
        }
        Err(_) => reported.lose(),
    }
}

/// Prints the letters of flags, and the names in IMAP of those that have one whatever the map of keywords.
fn print_flags(reported: &mut Reported, flags: Option<Flags>) {
    let Some(flags) = flags else {
        reported.answer("none");
        return;
    };
    reported.begin();
    reported.flags(flags);
    for flag in Flag::ALL {
        if flags.has(flag) {
            reported.text(" ");
            reported.quoted(flag.imap_name());
        }
    }
    reported.end();
}
