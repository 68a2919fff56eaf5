//! Quoted strings (RFC 9051, section 9: quoted).

ghost use Rattle.std.specs.Prelude.{◌≡◌, ◌==◌, IfOk, OnOk, OnErr};
ghost use Rattle.std.specs.List.{list_any};
ghost use Rattle.wire_reader.specs.Given.{Gives};
ghost use Rattle.wire_strings.specs.Quotes.{is_special, IsRaw, RawOf, RawText, unescaped, raw_rest, raw_at};
ghost use Rattle.wire_tokens.specs.Writing.{Appended};

use crate::framed::write_framed;
use crate::line_text::is_text;
use std::alloc::{AllocError, Global};
use std::marker::Model;
use wire_reader::punctuation::byte;
use wire_reader::stop::{Kind, Stop};

/// What stands between the quotes of a quoted string, lent: `"` and `\` still follow a `\` there.
#[derive(Drop)]
pub struct Quoted<'a> {
    raw: &'a [u8],
}

impl<'a> Model for Quoted<'a> {
    ghost use Rattle.std.specs.Prelude.{ℕ, List};
    ghost use Rattle.wire_strings.specs.Quotes.{IsRaw};

    ghost Value = { List ℕ };

    ghost view = { λ q. q.raw.now };

    ghost invariant = { λ q. IsRaw q.raw.now };
}

impl<'a> Quoted<'a> {
    /// The bytes between the quotes, with their backslashes.
    pub fn raw(&self) -> &'a [u8]
        ensures same { result.now ≡ self.now }
        ensures raw { IsRaw result.now }
    {
        self.raw
    }

    /// Writes it between its quotes, as it is.
    ///
    /// `AllocError`: memory ran out, and nothing is written.
    pub fn write(&self, out: &mut Vec<u8>) -> Result<(), AllocError>
        ensures ok { OnOk result (Appended (RawText self.now) out.old.items out.new.items) }
        ensures err { OnErr result (out.new.items ≡ out.old.items) }
    {
        write_framed(b"\"", self.raw, b"\"", out)
    }

    /// Whether a backslash stands there: if none does, the bytes are the value.
    pub fn has_escapes(&self) -> bool
        ensures { result ≡ list_any (λ b. b == 92) self.now }
    {
        self.raw.contains(&b'\\')
    }

    /// The value: the bytes without the backslashes before `"` and `\`.
    ///
    /// `AllocError`: memory ran out.
    pub fn value(&self, alloc: Global) -> Result<Vec<u8>, AllocError>
        ensures same { IfOk result (λ v. v.items ≡ unescaped self.now) }
        ensures value { IfOk result (λ v. RawOf v.items self.now) }
    {
        unescaped(alloc, self.raw)
    }
}

/// Reads a quoted string; gives what stands between its quotes and the bytes after it.
#[tactic(auto, unfolding(crate::specs::Quotes::raw_at))]
pub fn read_quoted(bytes: &[u8]) -> Result<(Quoted<'_>, &[u8]), Stop>
    ensures { Gives (λ r. (r.0, r.1.now)) result (raw_at bytes.now) }
{
    raw_rest(byte(b'"', bytes)?)
}

/// The bytes after the first quote, up to and with the last.
fn raw_rest(bytes: &[u8]) -> Result<(Quoted<'_>, &[u8]), Stop>
    ensures { Gives (λ r. (r.0, r.1.now)) result (raw_rest bytes.now) }
{
    let mut after_slash = false;
    for (i, b) in bytes.iter().enumerate() {
        let b = *b;
        if after_slash {
            if !is_special(b) {
                return Err(Stop::Fails(Kind::Syntax, bytes.len() - i));
            }
            after_slash = false;
        } else if b == b'"' {
            let raw = &bytes[..i];
            return Ok((Quoted { raw }, &bytes[i + 1..]));
        } else if b == b'\\' {
            after_slash = true;
        } else if !is_text(b) {
            return Err(Stop::Fails(Kind::Syntax, bytes.len() - i));
        }
    }
    Err(Stop::Ends(None))
}

/// Whether the byte follows a backslash between quotes.
pub(crate) fn is_special(b: u8) -> bool
    ensures { result ≡ is_special b }
{
    b == b'"' || b == b'\\'
}

/// The bytes without the backslashes before `"` and `\`.
fn unescaped(alloc: Global, raw: &[u8]) -> Result<Vec<u8>, AllocError>
    ensures { IfOk result (λ v. v.items ≡ unescaped raw.now) }
{
    let mut value = Vec::with_capacity(alloc, raw.len())?;
    let mut after_slash = false;
    for b in raw {
        if !after_slash && *b == b'\\' {
            after_slash = true;
        } else {
            value.push(*b)?;
            after_slash = false;
        }
    }
    Ok(value)
}
