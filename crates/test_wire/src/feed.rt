//! A connection's buffer, which is fed piece by piece and read at each place.

use crate::reader::Reader;
use imap_wire::{Read, Scanner, WireFault};
use std::alloc::Global;
use wire_reader::side::Speaker;

/// The bytes that came so far, and how far they are read.
#[derive(Drop)]
pub struct Buffer {
    reader: Reader,
    bytes: Vec<u8>,
    scanner: Scanner,
    scanned: usize,
    /// How many whole replies came.
    pub replies: usize,
    /// How many bytes they have.
    pub begin: usize,
    /// Whether a growth was refused.
    pub is_lost: bool,
}

impl Buffer {
    /// An empty one.
    pub fn new(alloc: Global) -> Buffer {
        Buffer {
            reader: Reader {
                alloc,
                side: Speaker::Replies,
            },
            bytes: Vec::new(alloc),
            scanner: Scanner::new(),
            scanned: 0,
            replies: 0,
            begin: 0,
            is_lost: false,
        }
    }

    /// Takes the next bytes, and reads the replies that become whole with them; room is made for octets that are to come.
    fn feed(&mut self, piece: &[u8]) {
        let mut is_lost = self.bytes.extend_from_slice(piece).is_err();
        for _ in 0..=piece.len() {
            if is_lost || !self.read_up_to_place() {
                break;
            }
            is_lost = self.bytes.reserve(self.scanner.owed() as usize).is_err();
        }
        self.is_lost |= is_lost;
    }

    /// Reads at the next place; returns whether there is one.
    fn read_up_to_place(&mut self) -> bool {
        let new = self.bytes.get(self.scanned..).unwrap_or_default();
        let Some(count) = self.scanner.advance(new) else {
            self.scanned = self.bytes.len();
            return false;
        };
        self.scanned = self.scanned.saturating_add(count);
        let line = self.bytes.get(self.begin..self.scanned).unwrap_or_default();
        match self.reader.read(line) {
            Ok(Read::Whole((), _)) => {
                self.replies = self.replies.saturating_add(1);
                self.begin = self.scanned;
                self.scanner = Scanner::new();
            }
            Err(WireFault::NoMemory) => self.is_lost = true,
            _ => {}
        }
        true
    }

    /// Feeds all bytes, in pieces of this size.
    pub fn feed_all(&mut self, bytes: &[u8], size: usize) {
        let mut rest = bytes;
        for _ in 0..=bytes.len() {
            let piece = rest.get(..size).unwrap_or(rest);
            if piece.is_empty() {
                break;
            }
            self.feed(piece);
            rest = rest.get(size..).unwrap_or_default();
        }
    }
}
