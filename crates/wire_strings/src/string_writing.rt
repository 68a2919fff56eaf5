//! Writing of strings (RFC 9051, section 9: quoted, literal).

ghost use Rattle.std.specs.Prelude.{◌≡◌, ◌++◌, ◌∷◌, [], true, length, take, OnOk, OnErr};
ghost use Rattle.std.specs.List.{list_all, flat_map};
ghost use Rattle.wire_reader.specs.Literal.{Literal};
ghost use Rattle.wire_strings.specs.Texts.{is_text};
ghost use Rattle.wire_strings.specs.Quotes.{escaped, QuotedText};
ghost use Rattle.wire_strings.specs.Literals.{IsLiteral};
ghost use Rattle.wire_strings.specs.Strings.{OnEitherSide};
ghost use Rattle.wire_tokens.specs.Writing.{Appended, Extended};

use crate::octets::LentOctets;
use crate::quoted::is_special;
use std::alloc::AllocError;
use wire_tokens::number::write_number;

/// Writes bytes as a quoted string.
///
/// `AllocError`: memory ran out, and nothing is written.
pub fn write_quoted(bytes: &[u8], out: &mut Vec<u8>) -> Result<(), AllocError>
    requires { list_all is_text bytes.now ≡ true }
    ensures ok { OnOk result (Appended (QuotedText bytes.now) out.old.items out.new.items) }
    ensures err { OnErr result (out.new.items ≡ out.old.items) }
{
    let start = out.len();
    let written = append_quoted(bytes, out);
    if written.is_err() {
        out.truncate(start);
    }
    written
}

/// The same; where memory runs out, a part may be written.
fn append_quoted(bytes: &[u8], out: &mut Vec<u8>) -> Result<(), AllocError>
    ensures ok { OnOk result (out.new.items ≡ out.old.items ++ 34 ∷ flat_map escaped bytes.now ++ 34 ∷ []) }
    ensures kept { OnErr result (take (length out.old.items) out.new.items ≡ out.old.items) }
{
    out.extend_from_slice(b"\"")?;
    for b in bytes {
        append_escaped(*b, out)?;
    }
    out.extend_from_slice(b"\"")?;
    Ok(())
}

/// Writes a byte as it stands between quotes.
fn append_escaped(b: u8, out: &mut Vec<u8>) -> Result<(), AllocError>
    ensures ok { OnOk result (out.new.items ≡ out.old.items ++ escaped b) }
    ensures err { OnErr result (out.new.items ≡ out.old.items) }
{
    if is_special(b) {
        out.extend_from_slice(&[b'\\', b])
    } else {
        out.extend_from_slice(&[b])
    }
}

/// Writes octets as a literal `{n}`, without `+`.
///
/// `AllocError`: memory ran out, and nothing is written.
pub fn write_literal(octets: &LentOctets<'_>, out: &mut Vec<u8>) -> Result<(), AllocError>
    ensures ok { OnOk result (Appended (OnEitherSide (λ side. Literal side octets.now)) out.old.items out.new.items) }
    ensures err { OnErr result (out.new.items ≡ out.old.items) }
{
    let start = out.len();
    let written = append_literal(octets.bytes(), out);
    if written.is_err() {
        out.truncate(start);
    }
    written
}

/// The same; where memory runs out, a part may be written.
fn append_literal(octets: &[u8], out: &mut Vec<u8>) -> Result<(), AllocError>
    requires { IsLiteral octets.now }
    ensures ok { OnOk result (Appended (OnEitherSide (λ side. Literal side octets.now)) out.old.items out.new.items) }
    ensures kept { OnErr result (take (length out.old.items) out.new.items ≡ out.old.items) }
{
    out.extend_from_slice(b"{")?;
    write_number(octets.len() as u32, out)?;
    out.extend_from_slice(b"}\r\n")?;
    out.extend_from_slice(octets)?;
    Ok(())
}
