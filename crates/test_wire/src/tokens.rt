//! What plays a script of `tokens`.

use crate::command::print_command;
use crate::made::{make, make_of_vec};
use crate::named::{print_named, read_has};
use crate::pieces::read_pieces;
use crate::reply::print_reply;
use crate::reporting::{print_count, print_line};
use crate::token::print_token;
use imap_wire::{Read, UidSet, WireFault, read_command, read_reply};
use std::alloc::{AllocError, Global};
use test_scripts::failure::Failure;
use test_scripts::play::Player;
use test_scripts::reported::Reported;
use test_scripts::script::Script;
use test_scripts::words::Words;
use wire_reader::stop::{Kind, ReadError, Stop};
use wire_strings::line_text::{all_text, write_line_text};

/// What stands before a text that is written, and has to stay there.
const BEFORE: &[u8] = b"before ";

/// Where values are written, and whether a growth was refused.
#[derive(Drop)]
pub struct Tokens {
    /// What makes the values of a line.
    pub alloc: Global,
    /// To which a value is written.
    pub out: Vec<u8>,
    is_lost: bool,
}

impl Tokens {
    /// Nothing is written yet.
    pub fn new(alloc: Global) -> Tokens {
        Tokens {
            alloc,
            out: Vec::new(alloc),
            is_lost: false,
        }
    }

    /// Notes whether a growth was refused.
    pub fn note(&mut self, done: Result<(), AllocError>) {
        if done.is_err() {
            self.is_lost = true;
        }
    }

    /// Makes all ready for the next value that is written.
    pub fn empty(&mut self) {
        self.out.clear();
        let done = self.out.extend_from_slice(BEFORE);
        self.note(done);
    }

    /// Reports what was written; what has no writer writes nothing.
    pub fn print_written(&mut self, reported: &mut Reported, done: Result<(), AllocError>) {
        self.note(done);
        match self.out.strip_prefix(BEFORE) {
            Some([]) => {}
            Some(written) => print_line(reported, "is written ", written),
            None => reported.answer("is written over what stood there"),
        }
    }

    /// The lines that have words of their own before their bytes.
    fn ask(&mut self, word: &str, line: &mut Words<'_>, reported: &mut Reported) {
        match word {
            "has" => {
                let has = read_has(self.alloc, line);
                reported.answer(if has { "has it" } else { "has it not" });
            }
            "uid" => print_named(self.alloc, line, reported),
            "empty-set" => {
                let set = UidSet::new(Vec::new(self.alloc));
                reported.answer(if set.is_some() { "a set" } else { "none" });
            }
            "make" => {
                let kind = line.word();
                let bytes = read_pieces(self.alloc, line);
                self.make(kind, bytes, line, reported);
            }
            "write" => {
                line.expect("line-text");
                let text = read_pieces(self.alloc, line);
                self.write_line_text(&text, reported);
            }
            _ => {
                let bytes = read_pieces(self.alloc, line);
                self.read(word, &bytes, line, reported);
            }
        }
    }

    fn make(&mut self, kind: &str, bytes: Vec<u8>, line: &mut Words<'_>, reported: &mut Reported) {
        let made = match kind {
            "text" | "pattern" | "message" => make_of_vec(self, kind, bytes, reported),
            _ => make(self, kind, &bytes, line, reported),
        };
        if made.is_none() {
            reported.answer("none");
        }
    }

    fn read(&mut self, word: &str, bytes: &[u8], line: &mut Words<'_>, reported: &mut Reported) {
        match word {
            "command" => {
                let read = read_command(self.alloc, bytes);
                if let Some(command) = self.whole(reported, read) {
                    print_command(self, reported, &command);
                    drop(command);
                }
            }
            "reply" => {
                let read = read_reply(self.alloc, bytes);
                if let Some(reply) = self.whole(reported, read) {
                    print_reply(self, reported, &reply);
                    drop(reply);
                }
            }
            _ => match print_token(self, word, bytes, line, reported) {
                Ok(()) => {}
                Err(ReadError::At(stop)) => print_stop(reported, stop, bytes.len()),
                Err(ReadError::Memory) => self.is_lost = true,
            },
        }
    }

    /// Reports how a text that ends a line is written from its bytes alone.
    fn write_line_text(&mut self, bytes: &[u8], reported: &mut Reported) {
        if all_text(bytes) {
            let done = write_line_text(bytes, &mut self.out);
            self.print_written(reported, done);
        } else {
            reported.answer("none");
        }
    }

    /// Reports what the reader of lines answers, and gives what it read.
    fn whole<T>(
        &mut self,
        reported: &mut Reported,
        answer: Result<Read<T>, WireFault>,
    ) -> Option<T> {
        match answer {
            Ok(Read::Whole(value, used)) => {
                print_count(reported, "whole, ", used, " bytes");
                return Some(value);
            }
            Ok(Read::WantsLiteral(octets)) => {
                print_count(reported, "waits for ", octets as usize, " octets");
            }
            Ok(Read::Partial) => reported.answer("partial"),
            Err(WireFault::Syntax(at)) => print_count(reported, "refused at byte ", at, ""),
            Err(WireFault::LiteralTooLong(at)) => {
                print_count(reported, "literal too long at byte ", at, "");
            }
            Err(WireFault::LineTooLong) => reported.answer("line too long"),
            Err(WireFault::NoMemory) => self.is_lost = true,
        }
        None
    }
}

impl Player for Tokens {
    fn begin(&mut self) -> Result<(), Failure> {
        Ok(())
    }

    fn play(&mut self, line: &mut Words<'_>, script: &mut Script<'_>) -> Result<(), Failure> {
        self.empty();
        let word = line.word();
        self.ask(word, line, &mut script.reported);
        if self.is_lost {
            line.fail(Failure::NoMemory);
        }
        Ok(())
    }
}

/// Reports where a reader of tokens stopped in so many bytes, in the words for lines.
fn print_stop(reported: &mut Reported, stop: Stop, length: usize) {
    match stop {
        Stop::Ends(None) => reported.answer("partial"),
        Stop::Ends(Some(octets)) => print_count(reported, "waits for ", octets as usize, " octets"),
        Stop::Fails(kind, left) => {
            let words = match kind {
                Kind::Syntax => "refused at byte ",
                Kind::TooLong => "literal too long at byte ",
            };
            print_count(reported, words, length.saturating_sub(left), "");
        }
    }
}
