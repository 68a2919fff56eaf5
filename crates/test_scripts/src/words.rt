//! The words of a line.

use crate::failure::Failure;
use device::schedule::Moment;
use mailcore::flags::Flags;
use mailcore::keywords::Keywords;
use mailcore::side::Side;
use mailcore::uid::Uid;
use std::alloc::Global;
use texts::cut::cut;
use texts::escape::unescape;
use texts::number::{read_number, read_u32};

/// The words of a line, with one space between, from the next one on.
///
/// A word that is missing or is not what it is read as is noted, and the line is bad then: so who reads words needs no exit, and
/// the line is refused at its end.
#[derive(Clone, Copy)]
pub struct Words<'a> {
    rest: Option<&'a [u8]>,
    failure: Option<Failure>,
}

impl<'a> Words<'a> {
    /// Those of this line.
    pub fn new(line: &'a [u8]) -> Words<'a> {
        Words {
            rest: Some(line),
            failure: None,
        }
    }

    /// Whether no word is left.
    pub fn is_over(&self) -> bool {
        self.rest.is_none()
    }

    /// Notes that the line is bad.
    pub fn refuse(&mut self) {
        self.fail(Failure::Script);
    }

    /// Notes why the script is not played on after the line.
    pub fn fail(&mut self, failure: Failure) {
        if self.failure.is_none() {
            self.failure = Some(failure);
        }
    }

    /// Notes why this failed, if it failed.
    pub fn note(&mut self, done: Result<(), Failure>) {
        if let Err(failure) = done {
            self.fail(failure);
        }
    }

    /// The next word; an empty one, and the line is bad, where there is none.
    pub fn word(&mut self) -> &'a str {
        let text = self.rest();
        let (word, rest) = match cut(text, b' ') {
            Some((word, rest)) => (word, Some(rest)),
            None => (text, None),
        };
        self.rest = rest;
        self.text_of(word)
    }

    /// Takes these words, which have to come next.
    pub fn expect(&mut self, words: &str) {
        for word in words.split(' ') {
            if self.word() != word {
                self.refuse();
            }
        }
    }

    /// All that is left of the line, as it stands.
    pub fn rest(&mut self) -> &'a [u8] {
        match self.rest.take() {
            Some(text) => text,
            None => {
                self.refuse();
                &[]
            }
        }
    }

    /// The same, which is text.
    pub fn text(&mut self) -> &'a str {
        let text = self.rest();
        self.text_of(text)
    }

    /// A number up to 4294967295; 0 where the word is none.
    pub fn number(&mut self) -> u32 {
        match read_u32(self.word().as_bytes(), u32::MAX) {
            Some(number) => number,
            None => {
                self.refuse();
                0
            }
        }
    }

    /// A UID; 1 where the word is none.
    pub fn uid(&mut self) -> Uid {
        let mut number = self.number();
        if number == 0 || number == u32::MAX {
            self.refuse();
            number = 1;
        }
        Uid::new(number).unwrap()
    }

    /// A number up to 18446744073709551615; 0 where the word is none.
    pub fn long_number(&mut self) -> u64 {
        match read_number(self.word().as_bytes(), u64::MAX) {
            Some(number) => number,
            None => {
                self.refuse();
                0
            }
        }
    }

    /// A number of bytes or of things.
    pub fn count(&mut self) -> usize {
        self.number() as usize
    }

    /// `far` or `near`; far where the word is neither.
    pub fn side(&mut self) -> Side {
        match Side::from_word(self.word().as_bytes()) {
            Some(side) => side,
            None => {
                self.refuse();
                Side::Far
            }
        }
    }

    /// `before`, `after`, or `following N` for a call that stops once N bytes are written; before where the word is none of these.
    pub fn moment(&mut self) -> Moment {
        match self.word() {
            "before" => Moment::Before,
            "after" => Moment::After,
            "behind" => Moment::Part(self.count()),
            _ => {
                self.refuse();
                Moment::Before
            }
        }
    }

    /// Takes a letter and a name, and adds them to a map. Refuses what is no keyword, and one that is given twice.
    pub fn keyword(&mut self, keywords: &mut Keywords) {
        let letter = self.word();
        let name = self.word();
        match letter.as_bytes() {
            [letter] if keywords.add(*letter, name.as_bytes()).is_ok() => {}
            _ => self.refuse(),
        }
    }

    /// Flags by their letters, or `-` for none.
    pub fn flags(&mut self) -> Flags {
        let word = self.word();
        if word == "-" {
            return Flags::none();
        }
        match Flags::from_letters(word.as_bytes()) {
            Some(flags) => flags,
            None => {
                self.refuse();
                Flags::none()
            }
        }
    }

    /// The bytes that stand escaped between quotes (docs/FORMATS.md, "Worlds") up to the end of the line.
    pub fn bytes(&mut self, alloc: Global) -> Result<Vec<u8>, Failure> {
        let text = self.rest();
        match text {
            [b'"', escaped @ .., b'"'] => Ok(unescape(alloc, escaped)?),
            _ => Err(Failure::Script),
        }
    }

    /// The same, where want of them is noted.
    pub fn said(&mut self, alloc: Global) -> Vec<u8> {
        match self.bytes(alloc) {
            Ok(bytes) => bytes,
            Err(failure) => {
                self.fail(failure);
                Vec::new(alloc)
            }
        }
    }

    /// What was noted. `Script`: a word was bad, or is left.
    pub fn end(&self) -> Result<(), Failure> {
        match self.failure {
            Some(failure) => Err(failure),
            None if self.rest.is_some() => Err(Failure::Script),
            None => Ok(()),
        }
    }

    fn text_of(&mut self, bytes: &'a [u8]) -> &'a str {
        match str::from_utf8(bytes) {
            Ok(text) => text,
            Err(_) => {
                self.refuse();
                ""
            }
        }
    }
}
