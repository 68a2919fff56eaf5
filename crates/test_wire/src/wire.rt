//! What plays a script of `wire`.

use crate::buffered::answer_buffered;
use crate::feed::Buffer;
use crate::made_replies::{body, listings};
use crate::reader::Reader;
use crate::reporting::print_count;
use imap_wire::{Read, WireFault};
use std::alloc::Global;
use test_scripts::failure::Failure;
use test_scripts::play::Player;
use test_scripts::reported::Reported;
use test_scripts::script::Script;
use test_scripts::words::Words;
use texts::cut::cut;
use texts::escape::unescape;
use wire_reader::side::Speaker;

/// The replies that were made last.
#[derive(Drop)]
pub struct Wire {
    alloc: Global,
    replies: Reported,
}

impl Wire {
    /// Without replies.
    pub fn new(alloc: Global) -> Wire {
        Wire {
            alloc,
            replies: Reported::new(alloc),
        }
    }

    /// The lines that ask what a reader answers.
    fn example(&self, letter: &str, bytes: &mut [u8], reported: &mut Reported) {
        let side = match letter {
            "C" | "c" => Speaker::Commands,
            _ => Speaker::Replies,
        };
        let alloc = self.alloc;
        let reader = Reader { alloc, side };
        reader.answer_whole(reported, bytes);
        if letter == "C" || letter == "R" {
            reader.answer_parts(reported, bytes);
        }
    }

    /// The lines whose bytes are read.
    fn read_bytes(&self, letter: &str, line: &mut Words<'_>, reported: &mut Reported) {
        match unescape(self.alloc, line.rest()) {
            Ok(mut bytes) => match letter {
                "b" => answer_buffered(self.alloc, reported, &bytes),
                "C" | "R" | "c" | "r" => self.example(letter, &mut bytes, reported),
                _ => line.refuse(),
            },
            Err(fault) => line.fail(Failure::from(fault)),
        }
    }

    fn make(&mut self, replies: Reported, reported: &mut Reported) {
        if replies.is_lost() {
            reported.lose();
        }
        print_count(reported, "", replies.as_str().len(), " bytes");
        self.replies = replies;
    }

    fn read_all(&self, reported: &mut Reported) {
        let reader = Reader {
            alloc: self.alloc,
            side: Speaker::Replies,
        };
        let mut rest = self.replies.as_str().as_bytes();
        let (mut replies, mut used) = (0usize, 0usize);
        for _ in 0..rest.len() {
            match reader.read(rest) {
                Ok(Read::Whole((), length)) => {
                    replies = replies.saturating_add(1);
                    used = used.saturating_add(length);
                    rest = rest.get(length..).unwrap_or_default();
                }
                Err(WireFault::NoMemory) => {
                    reported.lose();
                    break;
                }
                _ => break,
            }
        }
        print_replies(reported, replies, used);
    }

    fn feed(&self, line: &mut Words<'_>, reported: &mut Reported) {
        line.expect("in pieces of");
        let size = line.count();
        let mut buffer = Buffer::new(self.alloc);
        buffer.feed_all(self.replies.as_str().as_bytes(), size);
        if buffer.is_lost {
            reported.lose();
        }
        print_replies(reported, buffer.replies, buffer.begin);
    }
}

impl Player for Wire {
    fn begin(&mut self) -> Result<(), Failure> {
        Ok(())
    }

    fn play(&mut self, line: &mut Words<'_>, script: &mut Script<'_>) -> Result<(), Failure> {
        let reported = &mut script.reported;
        match line.word() {
            "listings" => self.make(listings(self.alloc, line.number()), reported),
            "body" => self.make(body(self.alloc, line.number()), reported),
            "read" => {
                line.expect("all");
                self.read_all(reported);
            }
            "feed" => self.feed(line, reported),
            "line" => {
                line.expect("feeds");
                let feeds = count_line_feeds(self.replies.as_str().as_bytes());
                print_count(reported, "", feeds, " line feeds");
            }
            letter => self.read_bytes(letter, line, reported),
        }
        Ok(())
    }
}

fn print_replies(reported: &mut Reported, replies: usize, used: usize) {
    reported.begin();
    reported.number(replies as u64);
    reported.text(" replies, ");
    reported.number(used as u64);
    reported.text(" bytes");
    reported.end();
}

fn count_line_feeds(bytes: &[u8]) -> usize {
    let mut rest = bytes;
    for lines in 0..bytes.len() {
        match cut(rest, b'\n') {
            Some((_, following)) => rest = following,
            None => return lines,
        }
    }
    bytes.len()
}
