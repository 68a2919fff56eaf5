//! Atoms or strings (RFC 9051, section 9: astring).

ghost use Rattle.std.specs.Prelude.{◌≡◌, OnOk, OnErr};
ghost use Rattle.wire_reader.specs.Given.{Gives};
ghost use Rattle.wire_strings.specs.Strings.{OnEitherSide, AStringText, astring_at};
ghost use Rattle.wire_tokens.specs.Writing.{Appended};

use crate::octets::LentOctets;
use crate::quoted::Quoted;
use crate::string::{lent_literal, lent_quoted};
use crate::string_writing::write_literal;
use std::alloc::AllocError;
use wire_reader::side::Speaker;
use wire_reader::stop::Stop;
use wire_tokens::atom::{Atom, read_atom};

/// An atom or a string, lent.
#[derive(Drop)]
pub enum AString<'a> {
    /// An atom.
    Atom(Atom<'a>),
    /// A quoted string.
    Quoted(Quoted<'a>),
    /// A literal.
    Literal(LentOctets<'a>),
}

impl<'a> AString<'a> {
    /// Writes it: an atom or what is quoted as it is, other octets as a literal `{n}`, without `+`.
    ///
    /// `AllocError`: memory ran out, and nothing is written.
    pub fn write(&self, out: &mut Vec<u8>) -> Result<(), AllocError>
        ensures ok { OnOk result (Appended (OnEitherSide (λ side. AStringText side self.now)) out.old.items out.new.items) }
        ensures err { OnErr result (out.new.items ≡ out.old.items) }
    {
        match self {
            AString::Atom(atom) => out.extend_from_slice(atom.text()),
            AString::Quoted(quoted) => quoted.write(out),
            AString::Literal(octets) => write_literal(octets, out),
        }
    }
}

/// Reads an atom or a string; a byte that is no byte of an atom is required after it.
pub fn read_astring(side: Speaker, bytes: &[u8]) -> Result<(AString<'_>, &[u8]), Stop>
    ensures { Gives (λ r. (r.0, r.1.now)) result (astring_at side bytes.now) }
{
    match bytes {
        [] => Err(Stop::Ends(None)),
        [b'"', ..] => {
            let (quoted, rest) = lent_quoted(bytes)?;
            Ok((AString::Quoted(quoted), rest))
        }
        [b'{', ..] => {
            let (octets, rest) = lent_literal(side, bytes)?;
            Ok((AString::Literal(octets), rest))
        }
        _ => {
            let (atom, rest) = read_atom(bytes)?;
            Ok((AString::Atom(atom), rest))
        }
    }
}
