//! Texts that end lines and are no response code (RFC 9051, section 9: resp-text without resp-text-code).

ghost use Rattle.std.specs.Prelude.{◌≡◌, OnOk, OnErr};
ghost use Rattle.std.specs.Option.{SomeIff};
ghost use Rattle.wire_reader.specs.Given.{Gives};
ghost use Rattle.wire_strings.specs.Texts.{begins_with, IsPlain, PlainLine, plain_text_at};
ghost use Rattle.wire_tokens.specs.Writing.{Appended};

use crate::line_text::{all_text, read_line_text, write_line_text};
use std::alloc::AllocError;
use std::marker::Model;
use wire_reader::stop::{Kind, Stop};

/// The text that ends a line, lent, where it does not begin with `[`: bytes 32 to 255 except 127.
#[derive(Drop)]
pub struct PlainText<'a> {
    text: &'a [u8],
}

impl<'a> Model for PlainText<'a> {
    ghost use Rattle.std.specs.Prelude.{ℕ, List};
    ghost use Rattle.wire_strings.specs.Texts.{IsPlain};

    ghost Value = { List ℕ };

    ghost view = { λ t. t.text.now };

    ghost invariant = { λ t. IsPlain t.text.now };
}

impl<'a> PlainText<'a> {
    /// These bytes as such a text, or none if they are none.
    pub fn read(bytes: &'a [u8]) -> Option<PlainText<'a>>
        ensures { SomeIff result (IsPlain bytes.now) bytes.now }
    {
        if all_text(bytes) && !begins_with_bracket(bytes) {
            Some(PlainText { text: bytes })
        } else {
            None
        }
    }

    /// Its bytes.
    pub fn bytes(&self) -> &'a [u8]
        ensures same { result.now ≡ self.now }
        ensures plain { IsPlain result.now }
    {
        self.text
    }

    /// Writes it and a line end.
    ///
    /// `AllocError`: memory ran out, and nothing is written.
    pub fn write(&self, out: &mut Vec<u8>) -> Result<(), AllocError>
        ensures ok { OnOk result (Appended (PlainLine self.now) out.old.items out.new.items) }
        ensures err { OnErr result (out.new.items ≡ out.old.items) }
    {
        write_line_text(self.text, out)
    }
}

/// Reads the text that ends a line, if it does not begin with `[`, and its line end; gives the text and the bytes after the line.
pub fn read_plain_text(bytes: &[u8]) -> Result<(PlainText<'_>, &[u8]), Stop>
    ensures { Gives (λ r. (r.0, r.1.now)) result (plain_text_at bytes.now) }
{
    if begins_with_bracket(bytes) {
        return Err(Stop::Fails(Kind::Syntax, bytes.len()));
    }
    let (line, rest) = read_line_text(bytes)?;
    let text = line.bytes();
    Ok((PlainText { text }, rest))
}

fn begins_with_bracket(bytes: &[u8]) -> bool
    ensures { result ≡ begins_with 91 bytes.now }
{
    matches!(bytes, [b'[', ..])
}
