//! Texts in response codes (RFC 9051, section 9: resp-text-code).

ghost use Rattle.std.specs.Prelude.{◌≡◌, true, OnOk, OnErr};
ghost use Rattle.std.specs.List.{list_all};
ghost use Rattle.std.specs.Option.{SomeIff};
ghost use Rattle.wire_reader.specs.Given.{Gives};
ghost use Rattle.wire_strings.specs.Texts.{is_code_text, BracketText, code_text_at};
ghost use Rattle.wire_tokens.specs.Writing.{Appended};

use crate::framed::write_framed;
use crate::line_text::is_text;
use std::alloc::AllocError;
use std::marker::Model;
use wire_reader::stop::{Kind, Stop};

/// The text of a response code, lent: bytes 32 to 255 except 127 and `]`.
#[derive(Drop)]
pub struct CodeText<'a> {
    text: &'a [u8],
}

impl<'a> Model for CodeText<'a> {
    ghost use Rattle.std.specs.Prelude.{ℕ, List, ◌≡◌, true};
    ghost use Rattle.std.specs.List.{list_all};
    ghost use Rattle.wire_strings.specs.Texts.{is_code_text};

    ghost Value = { List ℕ };

    ghost view = { λ t. t.text.now };

    ghost invariant = { λ t. list_all is_code_text t.text.now ≡ true };
}

impl<'a> CodeText<'a> {
    /// These bytes as the text of a response code, or none if they are none.
    pub fn read(bytes: &'a [u8]) -> Option<CodeText<'a>>
        ensures { SomeIff result (list_all is_code_text bytes.now ≡ true) bytes.now }
    {
        if all_code_text(bytes) {
            Some(CodeText { text: bytes })
        } else {
            None
        }
    }

    /// Writes it and the `]` after it.
    ///
    /// `AllocError`: memory ran out, and nothing is written.
    pub fn write(&self, out: &mut Vec<u8>) -> Result<(), AllocError>
        ensures ok { OnOk result (Appended (BracketText self.now) out.old.items out.new.items) }
        ensures err { OnErr result (out.new.items ≡ out.old.items) }
    {
        write_framed(b"", self.text, b"]", out)
    }

    /// Its bytes.
    pub fn bytes(&self) -> &'a [u8]
        ensures same { result.now ≡ self.now }
        ensures text { list_all is_code_text result.now ≡ true }
    {
        self.text
    }
}

/// Reads a text up to and with the first `]`; gives the text and the bytes after the `]`.
pub fn read_code_text(bytes: &[u8]) -> Result<(CodeText<'_>, &[u8]), Stop>
    ensures { Gives (λ r. (r.0, r.1.now)) result (code_text_at bytes.now) }
{
    for (i, b) in bytes.iter().enumerate() {
        if *b == b']' {
            let text = &bytes[..i];
            return Ok((CodeText { text }, &bytes[i + 1..]));
        }
        if !is_text(*b) {
            return Err(Stop::Fails(Kind::Syntax, bytes.len() - i));
        }
    }
    Err(Stop::Ends(None))
}

fn all_code_text(bytes: &[u8]) -> bool
    ensures { result ≡ list_all is_code_text bytes.now }
{
    bytes.iter().all(|&b| is_code_text(b))
}

/// Whether the byte may stand in the text of a response code.
fn is_code_text(b: u8) -> bool
    ensures { result ≡ is_code_text b }
{
    is_text(b) && b != b']'
}
