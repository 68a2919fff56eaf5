//! Texts that end lines (RFC 9051, section 9: text, resp-text).

ghost use Rattle.std.specs.Prelude.{◌≡◌, ◌++◌, true, length, take, OnOk, OnErr};
ghost use Rattle.std.specs.List.{list_all};
ghost use Rattle.std.specs.Option.{SomeIff};
ghost use Rattle.wire_reader.specs.Given.{Gives};
ghost use Rattle.wire_reader.specs.Spelling.{crlf};
ghost use Rattle.wire_strings.specs.Texts.{is_text, LastText, last_text_at};
ghost use Rattle.wire_tokens.specs.Writing.{Appended};

use crate::framed::write_framed;
use std::alloc::AllocError;
use std::marker::Model;
use wire_reader::punctuation::byte;
use wire_reader::stop::{Kind, Stop};

/// The text that ends a line, lent: bytes 32 to 255 except 127.
#[derive(Drop)]
pub struct LineText<'a> {
    text: &'a [u8],
}

impl<'a> Model for LineText<'a> {
    ghost use Rattle.std.specs.Prelude.{ℕ, List, ◌≡◌, true};
    ghost use Rattle.std.specs.List.{list_all};
    ghost use Rattle.wire_strings.specs.Texts.{is_text};

    ghost Value = { List ℕ };

    ghost view = { λ t. t.text.now };

    ghost invariant = { λ t. list_all is_text t.text.now ≡ true };
}

impl<'a> LineText<'a> {
    /// These bytes as a text, or none if they are none.
    pub fn read(bytes: &'a [u8]) -> Option<LineText<'a>>
        ensures { SomeIff result (list_all is_text bytes.now ≡ true) bytes.now }
    {
        if all_text(bytes) {
            Some(LineText { text: bytes })
        } else {
            None
        }
    }

    /// Writes it and a line end.
    ///
    /// `AllocError`: memory ran out, and nothing is written.
    pub fn write(&self, out: &mut Vec<u8>) -> Result<(), AllocError>
        ensures ok { OnOk result (Appended (LastText self.now) out.old.items out.new.items) }
        ensures err { OnErr result (out.new.items ≡ out.old.items) }
    {
        write_line_text(self.text, out)
    }

    /// Its bytes.
    pub fn bytes(&self) -> &'a [u8]
        ensures same { result.now ≡ self.now }
        ensures text { list_all is_text result.now ≡ true }
    {
        self.text
    }
}

/// Reads the text that ends a line, and its line end; gives the text and the bytes after the line.
pub fn read_line_text(bytes: &[u8]) -> Result<(LineText<'_>, &[u8]), Stop>
    ensures { Gives (λ r. (r.0, r.1.now)) result (last_text_at bytes.now) }
{
    for (i, b) in bytes.iter().enumerate() {
        if *b == b'\r' {
            let rest = byte(b'\n', &bytes[i + 1..])?;
            let text = &bytes[..i];
            return Ok((LineText { text }, rest));
        }
        if !is_text(*b) {
            return Err(Stop::Fails(Kind::Syntax, bytes.len() - i));
        }
    }
    Err(Stop::Ends(None))
}

/// Whether the byte may stand in a text: 32 to 255 except 127.
pub fn is_text(b: u8) -> bool
    ensures { result ≡ is_text b }
{
    32 <= b && b != 127
}

/// Whether each byte may stand in a text.
pub fn all_text(bytes: &[u8]) -> bool
    ensures { result ≡ list_all is_text bytes.now }
{
    bytes.iter().all(|&b| is_text(b))
}

/// Writes a text and a line end.
///
/// `AllocError`: memory ran out, and nothing is written.
pub fn write_line_text(text: &[u8], out: &mut Vec<u8>) -> Result<(), AllocError>
    requires { list_all is_text text.now ≡ true }
    ensures ok { OnOk result (Appended (LastText text.now) out.old.items out.new.items) }
    ensures err { OnErr result (out.new.items ≡ out.old.items) }
{
    write_framed(b"", text, b"\r\n", out)
}
