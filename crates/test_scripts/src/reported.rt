//! The transcript: the lines of a script, each followed by its answers.

use mailcore::flags::Flags;
use std::alloc::Global;
use std::fmt;
use texts::escape::push_escaped;

/// Longer lines are shown by their beginning.
const SHOWN_MAX: usize = 200;

/// How many bytes such a beginning has.
const BEGINNING: usize = 60;

/// A transcript that grows. A growth that is refused is noted, and no call says so: `is_lost` is asked once, at the end.
#[derive(Drop)]
pub struct Reported {
    text: String,
    is_lost: bool,
}

impl Reported {
    /// An empty one.
    pub fn new(alloc: Global) -> Reported {
        Reported {
            text: String::new(alloc),
            is_lost: false,
        }
    }

    /// The text so far.
    pub fn as_str(&self) -> &str {
        self.text.as_str()
    }

    /// Whether something was lost because memory ran out.
    pub fn is_lost(&self) -> bool {
        self.is_lost
    }

    /// Notes that something was lost because memory ran out.
    pub fn lose(&mut self) {
        self.is_lost = true;
    }

    /// Empties it. What was lost stays noted.
    pub fn clear(&mut self) {
        self.text.clear();
    }

    /// Adds what another one has, and notes what it has lost.
    pub fn add(&mut self, other: &Reported) {
        self.text(other.as_str());
        self.is_lost = self.is_lost || other.is_lost;
    }

    /// Adds a text as it stands.
    pub fn text(&mut self, text: &str) {
        if self.text.push_str(text).is_err() {
            self.lose();
        }
    }

    /// Adds a number in decimal digits.
    pub fn number(&mut self, number: u64) {
        self.shown(&number);
    }

    /// Adds a value as it shows itself.
    pub fn shown<T: fmt::Display>(&mut self, value: &T) {
        if write!(self.text, "{value}").is_err() {
            self.lose();
        }
    }

    /// Adds bytes between quotes, escaped as in worlds (docs/FORMATS.md).
    pub fn quoted(&mut self, bytes: &[u8]) {
        self.text("\"");
        if push_escaped(&mut self.text, bytes).is_err() {
            self.lose();
        }
        self.text("\"");
    }

    /// Adds the letters of flags, or `-` for none.
    pub fn flags(&mut self, flags: Flags) {
        if flags.is_empty() {
            self.text("-");
        }
        for letter in flags.letters() {
            self.byte(letter);
        }
    }

    /// Adds bytes as they stand, those outside 32 to 126 as `<0a>`; of more than 200 the beginning and their number.
    pub fn bytes(&mut self, bytes: &[u8]) {
        let length = bytes.len();
        let shown = if length <= SHOWN_MAX {
            length
        } else {
            BEGINNING
        };
        for &byte in bytes.iter().take(shown) {
            self.byte(byte);
        }
        if shown < length {
            self.text(" .. (");
            self.number(length as u64);
            self.text(" bytes)");
        }
    }

    /// Begins an answer.
    pub fn begin(&mut self) {
        self.text("  ");
    }

    /// Ends a line.
    pub fn end(&mut self) {
        self.text("\n");
    }

    /// Adds an answer that is this text.
    pub fn answer(&mut self, text: &str) {
        self.begin();
        self.text(text);
        self.end();
    }

    /// Adds an answer that is a value as it shows itself.
    pub fn say<T: fmt::Display>(&mut self, value: &T) {
        self.begin();
        self.shown(value);
        self.end();
    }

    /// Adds an answer for each line of a text.
    pub fn lines(&mut self, text: &str) {
        self.lines_after("", text.as_bytes());
    }

    /// The same, each after these words.
    pub fn lines_after(&mut self, words: &str, text: &[u8]) {
        for line in str::from_utf8(text).unwrap_or("(no text)").lines() {
            self.begin();
            self.text(words);
            self.text(line);
            self.end();
        }
    }

    fn byte(&mut self, byte: u8) {
        let added = match byte {
            b' '..=b'~' => self.text.push(byte as char),
            _ => write!(self.text, "<{byte:02x}>"),
        };
        if added.is_err() {
            self.lose();
        }
    }
}
