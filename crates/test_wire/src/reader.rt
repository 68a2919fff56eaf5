//! What the readers of lines answer, without the value that they read.

use imap_wire::{Read, Scanner, WireFault, read_command, read_reply};
use std::alloc::Global;
use test_scripts::reported::Reported;
use wire_reader::side::Speaker;

/// What each byte of an example is changed to.
const CHANGES: &[u8] = b"\x00\n\r \"(*0:[\\]{az\x7f\xe9";

/// How many bytes a scanner is fed at once.
const PIECE: usize = 3;

/// The reader of commands or that of replies.
#[derive(Clone, Copy)]
pub struct Reader {
    /// What makes its values.
    pub alloc: Global,
    /// Whose lines it reads.
    pub side: Speaker,
}

impl Reader {
    /// What it answers, without the value that it reads.
    pub fn read(self, bytes: &[u8]) -> Result<Read<()>, WireFault> {
        match self.side {
            Speaker::Commands => without_value(read_command(self.alloc, bytes)),
            Speaker::Replies => without_value(read_reply(self.alloc, bytes)),
        }
    }

    /// Reports the answer to the whole.
    pub fn answer_whole(self, reported: &mut Reported, bytes: &[u8]) {
        reported.begin();
        self.answer(reported, bytes);
        reported.end();
    }

    /// Reports the answers to the beginnings, the places, and for each byte the answers to the bytes with it changed.
    pub fn answer_parts(self, reported: &mut Reported, bytes: &mut [u8]) {
        self.answer_beginnings(reported, bytes);
        print_places(reported, bytes);
        for place in 0..bytes.len() {
            self.answer_changes(reported, bytes, place);
        }
    }

    fn answer_beginnings(self, reported: &mut Reported, bytes: &[u8]) {
        reported.begin();
        for length in 0..bytes.len() {
            reported.text(if length > 0 { ", " } else { "" });
            self.answer(reported, bytes.get(..length).unwrap_or_default());
        }
        reported.end();
    }

    /// Leaves the bytes as they were.
    fn answer_changes(self, reported: &mut Reported, bytes: &mut [u8], place: usize) {
        let kept = bytes.get(place).copied().unwrap_or_default();
        reported.begin();
        for (index, change) in CHANGES.iter().enumerate() {
            reported.text(if index > 0 { ", " } else { "" });
            put(bytes, place, *change);
            self.answer(reported, bytes);
        }
        reported.end();
        put(bytes, place, kept);
    }

    fn answer(self, reported: &mut Reported, bytes: &[u8]) {
        print_answer(reported, self.read(bytes));
    }
}

/// An answer without the value that was read.
pub fn without_value<T: Drop>(answer: Result<Read<T>, WireFault>) -> Result<Read<()>, WireFault> {
    match answer {
        Ok(Read::Whole(value, used)) => {
            drop(value);
            Ok(Read::Whole((), used))
        }
        Ok(Read::WantsLiteral(octets)) => Ok(Read::WantsLiteral(octets)),
        Ok(Read::Partial) => Ok(Read::Partial),
        Err(fault) => Err(fault),
    }
}

/// Adds the letter of an answer, and the number after it if it has one. Want of memory counts as a loss.
pub fn print_answer(reported: &mut Reported, answer: Result<Read<()>, WireFault>) {
    let (letter, number) = match answer {
        Ok(Read::Whole((), used)) => ("w ", Some(used)),
        Ok(Read::WantsLiteral(octets)) => ("a ", Some(octets as usize)),
        Ok(Read::Partial) => ("p", None),
        Err(WireFault::Syntax(at)) => ("s ", Some(at)),
        Err(WireFault::LiteralTooLong(at)) => ("t ", Some(at)),
        Err(WireFault::LineTooLong) => ("l", None),
        Err(WireFault::NoMemory) => {
            reported.lose();
            ("", None)
        }
    };
    reported.text(letter);
    if let Some(number) = number {
        reported.number(number as u64);
    }
}

fn put(bytes: &mut [u8], place: usize, byte: u8) {
    if let Some(there) = bytes.get_mut(place) {
        *there = byte;
    }
}

/// Reports the places of the bytes, found by a scanner that is fed in pieces: for each the number of bytes up to and with it.
fn print_places(reported: &mut Reported, bytes: &[u8]) {
    let mut scanner = Scanner::new();
    let mut rest = bytes;
    reported.begin();
    reported.text("places");
    for _ in 0..bytes.len() {
        let piece = rest.get(..PIECE).unwrap_or(rest);
        let place = scanner.advance(piece);
        rest = rest.get(place.unwrap_or(piece.len())..).unwrap_or_default();
        if place.is_some() {
            reported.text(" ");
            reported.number(bytes.len().saturating_sub(rest.len()) as u64);
        }
    }
    reported.end();
}
