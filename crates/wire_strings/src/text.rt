//! The bytes for which atoms and strings stand (RFC 9051, section 9: astring).

ghost use Rattle.std.specs.Prelude.{◌≡◌, IfOk, OnOk, OnErr};
ghost use Rattle.std.specs.Option.{SomeIff};
ghost use Rattle.wire_reader.specs.Given.{GivesOr};
ghost use Rattle.wire_strings.specs.Literals.{IsValue};
ghost use Rattle.wire_strings.specs.Strings.{WrittenString, value_of, value_at};
ghost use Rattle.wire_tokens.specs.Writing.{Appended};

use crate::astring::{AString, read_astring};
use crate::line_text::all_text;
use crate::octets::LentOctets;
use crate::string_writing::{write_literal, write_quoted};
use std::alloc::{AllocError, Global};
use std::marker::Model;
use wire_reader::side::Speaker;
use wire_reader::stop::ReadError;

/// Bytes for which a quoted string or a literal stands: all of them are 32 to 255 except 127, or they are at most
/// 16777238 and none is 0.
#[derive(Drop)]
pub struct Text {
    bytes: Vec<u8>,
}

impl Model for Text {
    ghost use Rattle.std.specs.Prelude.{ℕ, List};
    ghost use Rattle.wire_strings.specs.Literals.{IsValue};

    ghost Value = { List ℕ };

    ghost view = { λ t. t.bytes.items };

    ghost invariant = { λ t. IsValue t.bytes.items };
}

impl Text {
    /// These bytes, without taking memory, or none if no string stands for them.
    pub fn from_vec(bytes: Vec<u8>) -> Option<Text>
        ensures { SomeIff result (IsValue bytes.items) bytes.items }
    {
        if all_text(&bytes) || LentOctets::read(&bytes).is_some() {
            Some(Text { bytes })
        } else {
            None
        }
    }

    /// The bytes for which an atom or a string stands.
    ///
    /// `AllocError`: memory ran out.
    pub fn of(alloc: Global, string: &AString<'_>) -> Result<Text, AllocError>
        ensures { IfOk result (λ text. text ≡ value_of string.now) }
    {
        let bytes = match string {
            AString::Atom(atom) => Vec::from_slice(alloc, atom.text())?,
            AString::Quoted(quoted) => quoted.value(alloc)?,
            AString::Literal(octets) => Vec::from_slice(alloc, octets.bytes())?,
        };
        Ok(Text { bytes })
    }

    /// The bytes.
    pub fn as_slice(&self) -> &[u8]
        ensures same { result.now ≡ self.now }
        ensures value { IsValue result.now }
    {
        &self.bytes
    }

    /// Writes a string that stands for the bytes: quoted where it can be, else a literal.
    ///
    /// `AllocError`: memory ran out, and nothing is written.
    pub fn write(&self, out: &mut Vec<u8>) -> Result<(), AllocError>
        ensures ok { OnOk result (Appended (WrittenString self.now) out.old.items out.new.items) }
        ensures err { OnErr result (out.new.items ≡ out.old.items) }
    {
        if all_text(&self.bytes) {
            return write_quoted(&self.bytes, out);
        }
        match LentOctets::read(&self.bytes) {
            Some(octets) => write_literal(&octets, out),
            None => unreachable!(),
        }
    }
}

/// Reads an atom or a string; a byte that is no byte of an atom is required after it. Gives the bytes for which it stands.
pub fn read_text(alloc: Global, side: Speaker, bytes: &[u8]) -> Result<(Text, &[u8]), ReadError>
    ensures { GivesOr (λ r. (r.0, r.1.now)) result (value_at side bytes.now) }
{
    let (string, rest) = read_astring(side, bytes)?;
    let text = Text::of(alloc, &string)?;
    Ok((text, rest))
}
