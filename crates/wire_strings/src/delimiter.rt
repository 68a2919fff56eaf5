//! The quoted string of one character, as LIST replies have it (RFC 9051, section 9: mailbox-list).

ghost use Rattle.std.specs.Prelude.{◌≡◌, true, OnOk, OnErr};
ghost use Rattle.std.specs.Option.{SomeIff};
ghost use Rattle.wire_reader.specs.Given.{Gives};
ghost use Rattle.wire_strings.specs.Texts.{is_text};
ghost use Rattle.wire_strings.specs.Quotes.{is_special};
ghost use Rattle.wire_strings.specs.Delimiters.{Nothing, Slash, Got, DelimiterText, delimiter_rest, delimiter_at};
ghost use Rattle.wire_tokens.specs.Writing.{Appended};

use crate::line_text::is_text;
use crate::quoted::is_special;
use crate::string_writing::write_quoted;
use std::alloc::AllocError;
use std::marker::Model;
use wire_reader::punctuation::byte;
use wire_reader::stop::{Kind, Stop};

/// The character between the parts of mailbox names: a byte 32 to 255 except 127.
#[derive(Drop, PartialEq, Eq)]
pub struct Delimiter {
    byte: u8,
}

impl Model for Delimiter {
    ghost use Rattle.std.specs.Prelude.{ℕ, ◌≡◌, true};
    ghost use Rattle.wire_strings.specs.Texts.{is_text};

    ghost Value = { ℕ };

    ghost view = { λ d. d.byte };

    ghost invariant = { λ d. is_text d.byte ≡ true };

    ghost inverse = { λ b. record { byte = b } };
}

impl Delimiter {
    /// This byte, or none if it may not stand in a text.
    pub fn read(byte: u8) -> Option<Delimiter>
        ensures { SomeIff result (is_text byte ≡ true) byte }
    {
        if is_text(byte) {
            Some(Delimiter { byte })
        } else {
            None
        }
    }

    /// The byte.
    pub fn byte(&self) -> u8
        ensures same { result ≡ self.now }
        ensures text { is_text result ≡ true }
    {
        self.byte
    }

    /// Writes it as a quoted string.
    ///
    /// `AllocError`: memory ran out, and nothing is written.
    pub fn write(&self, out: &mut Vec<u8>) -> Result<(), AllocError>
        ensures ok { OnOk result (Appended (DelimiterText self.now) out.old.items out.new.items) }
        ensures err { OnErr result (out.new.items ≡ out.old.items) }
    {
        write_quoted(&[self.byte], out)
    }
}

/// Reads a quoted string of one character; gives the character and the bytes after it.
#[tactic(auto, unfolding(crate::specs::Delimiters::delimiter_at))]
pub fn read_delimiter(bytes: &[u8]) -> Result<(Delimiter, &[u8]), Stop>
    ensures { Gives (λ r. (r.0, r.1.now)) result (delimiter_at bytes.now) }
{
    let rest = byte(b'"', bytes)?;
    match rest {
        [] => Err(Stop::Ends(None)),
        [b'\\', following @ ..] => escaped(following),
        [c, following @ ..] => {
            if *c != b'"' && is_text(*c) {
                closed(*c, following)
            } else {
                Err(Stop::Fails(Kind::Syntax, rest.len()))
            }
        }
    }
}

/// The character after a backslash, and the quote.
fn escaped(bytes: &[u8]) -> Result<(Delimiter, &[u8]), Stop>
    ensures { Gives (λ r. (r.0, r.1.now)) result (delimiter_rest Slash bytes.now) }
{
    match bytes {
        [] => Err(Stop::Ends(None)),
        [c, following @ ..] => {
            if is_special(*c) {
                closed(*c, following)
            } else {
                Err(Stop::Fails(Kind::Syntax, bytes.len()))
            }
        }
    }
}

/// The quote after the character.
fn closed(c: u8, bytes: &[u8]) -> Result<(Delimiter, &[u8]), Stop>
    requires { is_text c ≡ true }
    ensures { Gives (λ r. (r.0, r.1.now)) result (delimiter_rest (Got c) bytes.now) }
{
    let rest = byte(b'"', bytes)?;
    Ok((Delimiter { byte: c }, rest))
}
