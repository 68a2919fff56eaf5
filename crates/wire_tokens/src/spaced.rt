//! Names with one space between them.

ghost use Rattle.std.specs.Prelude.{◌≡◌, IfOk};
ghost use Rattle.wire_reader.specs.Given.{Gives};
ghost use Rattle.wire_tokens.specs.Names.{flag_at, star_or_atom_at, permanent_flag_at, name_at, spaced_at, passed};
ghost use Rattle.wire_tokens.specs.Names.{names_passed, end_passed, names_of, IsSpaced, has_name};

use crate::atom::{is_atom_byte, read_atom};
use wire_reader::punctuation::separator;
use wire_reader::stop::{Kind, Stop};

/// What the names of a list are.
#[derive(Clone, Copy, PartialEq, Eq)]
pub enum NameKind {
    /// Atoms.
    Atom,
    /// Flags: an atom, or `\` and an atom.
    Flag,
    /// Flags or `\*`.
    PermanentFlag,
}

/// Reads one or more names; gives the text of all, and the bytes after it.
pub(crate) fn read_spaced(kind: NameKind, bytes: &[u8]) -> Result<(&[u8], &[u8]), Stop>
    ensures gives { Gives (λ r. (names_of r.0.now, r.1.now)) result (spaced_at kind bytes.now) }
    ensures spaced { IfOk result (λ r. IsSpaced kind r.0.now) }
{
    let rest = pass_names(kind, bytes)?;
    let text = &bytes[..bytes.len().saturating_sub(rest.len())];
    Ok((text, rest))
}

/// The bytes after one or more names.
fn pass_names(kind: NameKind, bytes: &[u8]) -> Result<&[u8], Stop>
    ensures { Gives (λ r. (tt, r.now)) result (names_passed kind bytes.now) }
{
    let mut rest = bytes;
    for _ in 0..=bytes.len() {
        let after = pass_name(kind, rest)?;
        match separator(b' ', after)? {
            Some(next) => rest = next,
            None => return Ok(after),
        }
    }
    Err(Stop::Ends(None))
}

/// The bytes after a name.
fn pass_name(kind: NameKind, bytes: &[u8]) -> Result<&[u8], Stop>
    ensures { Gives (λ r. (tt, r.now)) result (passed (name_at kind) bytes.now) }
{
    match kind {
        NameKind::Atom => {
            let (_, rest) = read_atom(bytes)?;
            Ok(rest)
        }
        NameKind::Flag => pass_flag(bytes),
        NameKind::PermanentFlag => pass_permanent_flag(bytes),
    }
}

fn pass_flag(bytes: &[u8]) -> Result<&[u8], Stop>
    ensures { Gives (λ r. (tt, r.now)) result (passed flag_at bytes.now) }
{
    match bytes {
        [] => Err(Stop::Ends(None)),
        [b'\\', name @ ..] => {
            let (_, rest) = read_atom(name)?;
            Ok(rest)
        }
        _ => {
            let (_, rest) = read_atom(bytes)?;
            Ok(rest)
        }
    }
}

fn pass_permanent_flag(bytes: &[u8]) -> Result<&[u8], Stop>
    ensures { Gives (λ r. (tt, r.now)) result (passed permanent_flag_at bytes.now) }
{
    match bytes {
        [] => Err(Stop::Ends(None)),
        [b'\\', name @ ..] => pass_star_or_atom(name),
        _ => {
            let (_, rest) = read_atom(bytes)?;
            Ok(rest)
        }
    }
}

/// The bytes after `*` or an atom.
fn pass_star_or_atom(bytes: &[u8]) -> Result<&[u8], Stop>
    ensures { Gives (λ r. (tt, r.now)) result (passed star_or_atom_at bytes.now) }
{
    match bytes {
        [] => Err(Stop::Ends(None)),
        [b'*', rest @ ..] => pass_end(rest),
        _ => {
            let (_, rest) = read_atom(bytes)?;
            Ok(rest)
        }
    }
}

/// The same bytes, unless an atom goes on there.
fn pass_end(bytes: &[u8]) -> Result<&[u8], Stop>
    ensures { Gives (λ r. (tt, r.now)) result (end_passed bytes.now) }
{
    match bytes {
        [] => Err(Stop::Ends(None)),
        [b, ..] => {
            if is_atom_byte(*b) {
                Err(Stop::Fails(Kind::Syntax, bytes.len()))
            } else {
                Ok(bytes)
            }
        }
    }
}

/// Whether one of the names is this one, without case.
pub(crate) fn has_name(text: &[u8], name: &[u8]) -> bool
    ensures { result ≡ has_name name.now (names_of text.now) }
{
    text.split(|b| *b == b' ')
        .any(|one| one.eq_ignore_ascii_case(name))
}
