//! The words of a line: a keyword, and arguments between spaces and tabs.

ghost use Rattle.std.specs.Prelude.{◌≡◌, ◌≤◌, ◌<◌, length, map, not, IfOk, IfSome, OnOk, string_bytes};
ghost use Rattle.config_words.specs.Splitters.{split_of};
ghost use Rattle.config_words.specs.Words.{IsLineKind, added, arguments_of, ended, first_gap, first_word, is_gap, is_plain};
ghost use Rattle.config_words.specs.Words.{no_split, split_end, split_on, split_plainly, turned};

use std::alloc::{AllocError, Global};

/// What a line is.
#[derive(Clone, Copy)]
pub enum LineKind<'a> {
    /// Spaces and tabs alone: it ends a section.
    Empty,
    /// It says nothing.
    Comment,
    /// A keyword, and the text of its arguments.
    Words(&'a [u8], &'a [u8]),
}

impl<'a> LineKind<'a> {
    /// What this line is.
    pub fn of(text: &'a [u8]) -> Self
        ensures { IsLineKind text.now result }
    {
        let Some(start) = first_word(text) else {
            return LineKind::Empty;
        };
        let text = &text[start..];
        if text.starts_with(b"#") {
            return LineKind::Comment;
        }
        let end = first_gap(text).unwrap_or(text.len());
        let (keyword, arguments) = text.split_at(end);
        LineKind::Words(keyword, arguments)
    }
}

/// Where the first word begins.
fn first_word(text: &[u8]) -> Option<usize>
    ensures place { result ≡ first_word text.now }
    ensures within { IfSome result (λ place. place < length text.now) }
{
    text.iter().position(|byte| !is_gap(*byte))
}

/// Where the first space or tab is.
fn first_gap(text: &[u8]) -> Option<usize>
    ensures place { result ≡ first_gap text.now }
    ensures within { IfSome result (λ place. place < length text.now) }
{
    text.iter().position(|byte| is_gap(*byte))
}

/// Whether a byte stands between words.
fn is_gap(byte: u8) -> bool
    ensures { result ≡ is_gap byte }
{
    byte == b' ' || byte == b'\t'
}

/// Whether all bytes may stand in a line of words.
pub fn is_plain(text: &[u8]) -> bool
    ensures { result ≡ is_plain text.now }
{
    text.iter().all(|byte| matches!(byte, b'\t' | b' '..=b'~'))
}

/// The arguments of a keyword.
#[derive(Drop)]
pub struct Arguments {
    /// Their texts, without quotes.
    pub list: Vec<String>,
    /// Whether each quote is closed.
    pub is_closed: bool,
}

impl Arguments {
    /// The arguments that stand in a text. A `"` begins and ends a part in which spaces and tabs stand for themselves;
    /// `\"` and `\\` are a quote and a backslash. A quote that is not closed ends with the text.
    pub fn read(alloc: Global, text: &[u8]) -> Result<Self, AllocError>
        ensures list { IfOk result (λ read. map string_bytes read.list.items ≡ (arguments_of text.now).list) }
        ensures closed { IfOk result (λ read. read.is_closed ≡ not (arguments_of text.now).quoted) }
    {
        let mut splitter = Splitter::new(alloc);
        for byte in text {
            splitter.take(*byte)?;
        }
        splitter.finish()
    }
}

/// Where a reader of arguments stands.
#[derive(Drop)]
struct Splitter {
    alloc: Global,
    list: Vec<String>,
    argument: Option<String>,
    is_quoted: bool,
    is_escaped: bool,
}

impl Splitter {
    fn new(alloc: Global) -> Self
        ensures { split_of result ≡ no_split }
    {
        Splitter {
            alloc,
            list: Vec::new(alloc),
            argument: None,
            is_quoted: false,
            is_escaped: false,
        }
    }

    /// Takes the next byte.
    fn take(&mut self, byte: u8) -> Result<(), AllocError>
        ensures { OnOk result (split_of self.new ≡ split_on (split_of self.old) byte) }
    {
        if !self.is_escaped {
            return self.take_plain(byte);
        }
        self.is_escaped = false;
        if byte == b'"' || byte == b'\\' {
            return self.add(byte);
        }
        // Before other bytes a backslash stands for itself.
        self.add(b'\\')?;
        self.take_plain(byte)
    }

    /// Takes a byte before which no backslash stands.
    fn take_plain(&mut self, byte: u8) -> Result<(), AllocError>
        ensures { OnOk result (split_of self.new ≡ split_plainly (split_of self.old) byte) }
    {
        match byte {
            b'\\' => self.is_escaped = true,
            b'"' => self.turn(),
            _ if is_gap(byte) && !self.is_quoted => self.end()?,
            _ => self.add(byte)?,
        }
        Ok(())
    }

    /// Begins or ends a quoted part, in the argument that is open or in a new one.
    fn turn(&mut self)
        ensures { split_of self.new ≡ turned (split_of self.old) }
    {
        self.is_quoted = !self.is_quoted;
        if self.argument.is_none() {
            self.argument = Some(String::new(self.alloc));
        }
    }

    fn add(&mut self, byte: u8) -> Result<(), AllocError>
        ensures { OnOk result (split_of self.new ≡ added (split_of self.old) byte) }
    {
        let mut argument = self.argument.take().unwrap_or(String::new(self.alloc));
        argument.push(char::from(byte))?;
        self.argument = Some(argument);
        Ok(())
    }

    /// Ends the argument that is open, if one is.
    fn end(&mut self) -> Result<(), AllocError>
        ensures { OnOk result (split_of self.new ≡ ended (split_of self.old)) }
    {
        if let Some(argument) = self.argument.take() {
            self.list.push(argument)?;
        }
        Ok(())
    }

    fn finish(mut self) -> Result<Arguments, AllocError>
        ensures list { IfOk result (λ read. map string_bytes read.list.items ≡ (split_end (split_of self)).list) }
        ensures closed { IfOk result (λ read. read.is_closed ≡ not (split_of self).quoted) }
    {
        if self.is_escaped {
            self.add(b'\\')?;
        }
        self.end()?;
        Ok(Arguments {
            list: self.list,
            is_closed: !self.is_quoted,
        })
    }
}
