//! Strings (RFC 9051, section 9: string, nstring).

ghost use Rattle.std.specs.Prelude.{◌≡◌, OnOk, OnErr};
ghost use Rattle.wire_reader.specs.Given.{Gives};
ghost use Rattle.wire_strings.specs.Strings.{OnEitherSide, StringText, lent_quoted_at, lent_literal_at, nil_at, string_at, nstring_at};
ghost use Rattle.wire_tokens.specs.Writing.{Appended};

use crate::octets::{LentOctets, read_octets};
use crate::quoted::{Quoted, read_quoted};
use crate::string_writing::write_literal;
use crate::token_end::ended;
use std::alloc::AllocError;
use wire_reader::keyword::word;
use wire_reader::side::Speaker;
use wire_reader::stop::Stop;

/// A string, lent.
#[derive(Drop)]
pub enum WireString<'a> {
    /// A quoted string.
    Quoted(Quoted<'a>),
    /// A literal.
    Literal(LentOctets<'a>),
}

impl<'a> WireString<'a> {
    /// Writes it: what is quoted as it is, other octets as a literal `{n}`, without `+`.
    ///
    /// `AllocError`: memory ran out, and nothing is written.
    pub fn write(&self, out: &mut Vec<u8>) -> Result<(), AllocError>
        ensures ok { OnOk result (Appended (OnEitherSide (λ side. StringText side self.now)) out.old.items out.new.items) }
        ensures err { OnErr result (out.new.items ≡ out.old.items) }
    {
        match self {
            WireString::Quoted(quoted) => quoted.write(out),
            WireString::Literal(octets) => write_literal(octets, out),
        }
    }
}

/// Reads a string; a byte that is no byte of an atom is required after it.
pub fn read_string(side: Speaker, bytes: &[u8]) -> Result<(WireString<'_>, &[u8]), Stop>
    ensures { Gives (λ r. (r.0, r.1.now)) result (string_at side bytes.now) }
{
    match bytes {
        [] => Err(Stop::Ends(None)),
        [b'"', ..] => {
            let (quoted, rest) = lent_quoted(bytes)?;
            Ok((WireString::Quoted(quoted), rest))
        }
        _ => {
            let (octets, rest) = lent_literal(side, bytes)?;
            Ok((WireString::Literal(octets), rest))
        }
    }
}

/// Reads a string, or NIL in any case, which is none; a byte that is no byte of an atom is required after it.
pub fn read_nstring(side: Speaker, bytes: &[u8]) -> Result<(Option<WireString<'_>>, &[u8]), Stop>
    ensures { Gives (λ r. (r.0, r.1.now)) result (nstring_at side bytes.now) }
{
    match bytes {
        [] => Err(Stop::Ends(None)),
        [b'"' | b'{', ..] => {
            let (string, rest) = read_string(side, bytes)?;
            Ok((Some(string), rest))
        }
        _ => {
            let ((), rest) = nil(bytes)?;
            Ok((None, rest))
        }
    }
}

/// A quoted string, ended as an atom is.
pub(crate) fn lent_quoted(bytes: &[u8]) -> Result<(Quoted<'_>, &[u8]), Stop>
    ensures { Gives (λ r. (r.0, r.1.now)) result (lent_quoted_at bytes.now) }
{
    let (quoted, rest) = read_quoted(bytes)?;
    ended(quoted, rest)
}

/// A literal, ended as an atom is.
pub(crate) fn lent_literal(side: Speaker, bytes: &[u8]) -> Result<(LentOctets<'_>, &[u8]), Stop>
    ensures { Gives (λ r. (r.0, r.1.now)) result (lent_literal_at side bytes.now) }
{
    let (octets, rest) = read_octets(side, bytes)?;
    ended(octets, rest)
}

/// NIL in any case, ended as an atom is.
fn nil(bytes: &[u8]) -> Result<((), &[u8]), Stop>
    ensures { Gives (λ r. (r.0, r.1.now)) result (nil_at bytes.now) }
{
    ended((), word(b"NIL", bytes)?)
}
