//! Replies of names, of flags and of numbers alone, written anew (RFC 9051, sections 7.2, 7.3.5 and 7.4).

ghost use Rattle.std.specs.Prelude.{◌≡◌, ◌++◌, ◌∷◌, codes, IfOk, IfSome, OnOk};
ghost use Rattle.link_face.specs.Heads.{BeginsWith};

use crate::flag_words::append_flags;
use crate::head::after_space;
use crate::token::read_list;
use std::alloc::{AllocError, Global};
use wire_tokens::appending::append;
use wire_tokens::atom::Atom;

/// CAPABILITY or ENABLED with those of the names that are atoms.
///
/// `AllocError`: memory ran out.
#[tactic(auto, using(crate::proofs::Extending::begins_just, crate::proofs::Extending::begins_more, crate::proofs::Extending::begins_ended))]
pub(crate) fn names_line(alloc: Global, word: &[u8], rest: &[u8]) -> Result<Vec<u8>, AllocError>
    ensures { IfOk result (λ out. BeginsWith (codes "* " ++ word.now) out.items) }
{
    let mut out = Vec::from_slice(alloc, b"* ")?;
    out.extend_from_slice(word)?;
    for name in rest.split(|b| *b <= b' ') {
        if Atom::read(name).is_some() {
            append_name(name, &mut out)?;
        }
    }
    append(b"\r\n", &mut out)?;
    Ok(out)
}

/// Appends a space and a name.
fn append_name(name: &[u8], out: &mut Vec<u8>) -> Result<(), AllocError>
    ensures { OnOk result (out.new.items ≡ out.old.items ++ 32 ∷ name.now) }
{
    out.extend_from_slice(b" ")?;
    out.extend_from_slice(name)
}

/// FLAGS with those of the words that are flags; none where no list stands there.
///
/// `AllocError`: memory ran out.
#[tactic(auto, using(crate::proofs::Extending::flags_begun))]
pub(crate) fn flags_line(alloc: Global, rest: &[u8]) -> Result<Option<Vec<u8>>, AllocError>
    ensures { IfOk result (λ found. IfSome found (λ out. BeginsWith (codes "* FLAGS") out.items)) }
{
    let Some((words, _)) = read_list(after_space(rest)) else {
        return Ok(None);
    };
    let mut out = Vec::from_slice(alloc, b"* FLAGS ")?;
    append_flags(words, &mut out)?;
    append(b"\r\n", &mut out)?;
    Ok(Some(out))
}

/// EXISTS or EXPUNGE without spaces after it; none for another event, or if more follows it.
///
/// `AllocError`: memory ran out.
#[tactic(auto, using(crate::proofs::Extending::counted_begun))]
pub(crate) fn counted(
    alloc: Global,
    number: &[u8],
    event: &[u8],
    rest: &[u8],
) -> Result<Option<Vec<u8>>, AllocError>
    ensures { IfOk result (λ found. IfSome found (λ out. BeginsWith (codes "* " ++ (number.now ++ 32 ∷ event.now)) out.items)) }
{
    if !rest.trim_ascii().is_empty() || !is_count(event) {
        return Ok(None);
    }
    let mut out = Vec::from_slice(alloc, b"* ")?;
    out.extend_from_slice(number)?;
    out.extend_from_slice(b" ")?;
    out.extend_from_slice(event)?;
    out.extend_from_slice(b"\r\n")?;
    Ok(Some(out))
}

/// Whether a number and this word are a reply.
fn is_count(event: &[u8]) -> bool {
    event.eq_ignore_ascii_case(b"EXISTS") || event.eq_ignore_ascii_case(b"EXPUNGE")
}
