//! Calls of a link.

use crate::sent::push_line;
use imap_link::link::{Link, LinkFault};
use std::alloc::Global;
use test_scripts::mail::print_replies;
use test_scripts::reported::Reported;
use test_scripts::words::Words;

/// At most so many bytes are asked of a link at once.
const PIECE_BYTES: usize = 4096;

/// Makes the call that a line with this first word asks for, and answers what it gives.
pub fn call<L: Link>(
    alloc: Global,
    link: &mut L,
    word: &str,
    line: &mut Words<'_>,
    reported: &mut Reported,
) {
    match word {
        "reconnect" => report(reported, link.reconnect()),
        "receive" => receive(link, reported),
        "count" => count(link, reported),
        _ => send(alloc, link, word, line, reported),
    }
}

fn send<L: Link>(
    alloc: Global,
    link: &mut L,
    word: &str,
    line: &mut Words<'_>,
    reported: &mut Reported,
) {
    let mut sent = Vec::new(alloc);
    push_line(alloc, &mut sent, word, line);
    report(reported, link.send(&sent));
}

/// Receives once, and answers what came.
fn receive<L: Link>(link: &mut L, reported: &mut Reported) {
    let mut piece = [0; PIECE_BYTES];
    match link.recv(&mut piece) {
        Ok(count) => print_replies(reported, &piece[..count]),
        Err(fault) => report(reported, Err(fault)),
    }
}

/// Receives up to a short piece, and answers how many bytes came.
fn count<L: Link>(link: &mut L, reported: &mut Reported) {
    let mut piece = [0; PIECE_BYTES];
    let mut all = 0u64;
    for _ in 0..u64::MAX {
        match link.recv(&mut piece) {
            Ok(count) => {
                all = all.saturating_add(count as u64);
                if count < PIECE_BYTES {
                    break;
                }
            }
            Err(fault) => return report(reported, Err(fault)),
        }
    }
    reported.begin();
    reported.number(all);
    reported.text(" bytes");
    reported.end();
}

/// Answers `ok`, or that the call stopped. Want of memory counts as a loss.
fn report(reported: &mut Reported, answer: Result<(), LinkFault>) {
    match answer {
        Ok(()) => reported.answer("ok"),
        Err(LinkFault::Stopped) => reported.answer("stopped"),
        Err(LinkFault::NoMemory) => reported.lose(),
    }
}
