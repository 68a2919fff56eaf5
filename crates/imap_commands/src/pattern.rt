//! The patterns of LIST commands (RFC 9051, section 6.3.9.1; in the profile a pattern is a quoted string).

ghost use Rattle.std.specs.Prelude.{◌≡◌, SomeIff, OnOk, OnErr};
ghost use Rattle.wire_reader.specs.Given.{GivesOr};
ghost use Rattle.wire_strings.specs.Quotes.{QuotedText, quoted_at};
ghost use Rattle.wire_tokens.specs.Writing.{Appended};
ghost use Rattle.imap_commands.specs.Patterns.{IsPattern};

use std::alloc::{AllocError, Global};
use std::marker::Model;
use wire_reader::stop::ReadError;
use wire_strings::line_text::all_text;
use wire_strings::quoted::read_quoted;
use wire_strings::string_writing::write_quoted;

/// A pattern for names of mailboxes: bytes from 32 to 255 except 127.
#[derive(Drop)]
pub struct ListPattern {
    bytes: Vec<u8>,
}

impl Model for ListPattern {
    ghost use Rattle.std.specs.Prelude.{ℕ, List};
    ghost use Rattle.imap_commands.specs.Patterns.{IsPattern};

    ghost Value = { List ℕ };

    ghost view = { λ p. p.bytes.items };

    ghost invariant = { λ p. IsPattern p.bytes.items };
}

impl ListPattern {
    /// The pattern of these bytes, or none where one of them cannot stand in it.
    pub fn new(bytes: Vec<u8>) -> Option<ListPattern>
        ensures { SomeIff result (IsPattern bytes.items) bytes.items }
    {
        if all_text(&bytes) {
            Some(ListPattern { bytes })
        } else {
            None
        }
    }

    /// Its bytes.
    pub fn bytes(&self) -> &[u8]
        ensures same { result.now ≡ self.now }
        ensures pattern { IsPattern result.now }
    {
        &self.bytes
    }

    /// Writes it at the end, quoted.
    ///
    /// `AllocError`: memory ran out, and nothing is written.
    pub fn write(&self, out: &mut Vec<u8>) -> Result<(), AllocError>
        ensures ok { OnOk result (Appended (QuotedText self.now) out.old.items out.new.items) }
        ensures err { OnErr result (out.new.items ≡ out.old.items) }
    {
        write_quoted(self.bytes(), out)
    }
}

/// Reads a pattern, a quoted string; gives it and the bytes after it.
pub(crate) fn read_pattern(alloc: Global, bytes: &[u8]) -> Result<(ListPattern, &[u8]), ReadError>
    ensures { GivesOr (λ r. (r.0, r.1.now)) result (quoted_at bytes.now) }
{
    let (quoted, rest) = read_quoted(bytes)?;
    let bytes = quoted.value(alloc)?;
    Ok((ListPattern { bytes }, rest))
}
