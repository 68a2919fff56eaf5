//! Lines for a person, each after a line end.

use std::alloc::{AllocError, Global};

/// The most bytes of a word of the file that are shown.
const WORD_MAX: usize = 40;

/// The lines so far. Each begins with a line end and two spaces.
#[derive(Drop)]
pub(crate) struct Page {
    alloc: Global,
    text: String,
}

impl Page {
    /// No line.
    pub(crate) fn new(alloc: Global) -> Self {
        Page {
            alloc,
            text: String::new(alloc),
        }
    }

    /// Begins a line about the line of this number in the file; the first one names the file.
    pub(crate) fn begin(&mut self, file: &str, number: usize) -> Result<(), AllocError> {
        let place = if self.text.is_empty() {
            format!(in self.alloc; "\n  {file}, line {number}: ")?
        } else {
            format!(in self.alloc; "\n  line {number}: ")?
        };
        self.add(place.as_str())
    }

    /// Adds a text.
    pub(crate) fn add(&mut self, text: &str) -> Result<(), AllocError> {
        self.text.push_str(text)
    }

    /// Adds a word of the file: its first bytes, with `?` for each that cannot be printed.
    pub(crate) fn add_word(&mut self, word: &[u8]) -> Result<(), AllocError> {
        for byte in word.iter().take(WORD_MAX) {
            self.text.push(char::from(shown(*byte)))?;
        }
        if word.len() > WORD_MAX {
            self.text.push_str("..")?;
        }
        Ok(())
    }

    /// Adds a line of its own.
    pub(crate) fn add_line(&mut self, text: &str) -> Result<(), AllocError> {
        self.text.push_str("\n  ")?;
        self.text.push_str(text)
    }

    /// The lines.
    pub(crate) fn into_text(self) -> String {
        self.text
    }
}

/// This byte, or `?` if it cannot be printed.
fn shown(byte: u8) -> u8 {
    if matches!(byte, b' '..=b'~') {
        byte
    } else {
        b'?'
    }
}
