//! A script, and the transcript of what was played of it.

use crate::failure::Failure;
use crate::reported::Reported;
use std::alloc::Global;
use texts::cut::cut;

/// The word with which the line begins that says who plays the lines after it.
const HEAD: &[u8] = b"script ";

/// The word with which a line begins that begins a case.
pub const CASE: &[u8] = b"case ";

/// A script from its next line on. Lines that were taken stand in the transcript.
#[derive(Drop)]
pub struct Script<'a> {
    rest: &'a [u8],
    number: usize,
    /// Whether standard error gets how long each line takes.
    pub is_timed: bool,
    /// The transcript.
    pub reported: Reported,
}

impl<'a> Script<'a> {
    /// These bytes, of which nothing is played.
    pub fn new(alloc: Global, bytes: &'a [u8]) -> Script<'a> {
        Script {
            rest: bytes,
            number: 0,
            is_timed: false,
            reported: Reported::new(alloc),
        }
    }

    /// How many bytes are left.
    pub fn len(&self) -> usize {
        self.rest.len()
    }

    /// Whether no byte is left.
    pub fn is_empty(&self) -> bool {
        self.rest.is_empty()
    }

    /// The number of the line that was taken last, counted from 1.
    pub fn number(&self) -> usize {
        self.number
    }

    /// Takes the line that says who plays the lines after it, and gives the name.
    pub fn next_head(&mut self) -> Option<&'a [u8]> {
        if !self.rest.starts_with(HEAD) {
            return None;
        }
        self.take_line().strip_prefix(HEAD)
    }

    /// Takes the next line, or nothing where none is left before the end or the next line that says who plays.
    pub fn next_line(&mut self) -> Option<&'a [u8]> {
        if self.rest.is_empty() || self.rest.starts_with(HEAD) {
            return None;
        }
        Some(self.take_line())
    }

    /// The same within a case: nothing where the next line begins another one, or begins with this word.
    pub fn next_line_before(&mut self, word: &[u8]) -> Option<&'a [u8]> {
        if self.rest.starts_with(CASE) || self.rest.starts_with(word) {
            return None;
        }
        self.next_line()
    }

    /// Takes all lines up to one that is this one, and gives those before it, with their line ends. `Script`: there is none.
    pub fn block(&mut self, end: &[u8]) -> Result<&'a [u8], Failure> {
        let start = self.rest;
        for _ in 0..=start.len() {
            let before = start.len().saturating_sub(self.rest.len());
            match self.next_line() {
                Some(line) if line == end => return Ok(start.get(..before).unwrap_or_default()),
                Some(_) => {}
                None => break,
            }
        }
        Err(Failure::Script)
    }

    fn take_line(&mut self) -> &'a [u8] {
        let (line, rest) = match cut(self.rest, b'\n') {
            Some(parts) => parts,
            None => (self.rest, [].as_slice()),
        };
        self.rest = rest;
        self.number = self.number.saturating_add(1);
        self.reported
            .text(str::from_utf8(line).unwrap_or("(no text)"));
        self.reported.end();
        line
    }
}
