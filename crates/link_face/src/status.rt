//! Status responses (RFC 9051, section 7.1), written anew.

ghost use Rattle.std.specs.Prelude.{◌≡◌, ◌++◌, ◌∷◌, [], IfOk, OnOk};
ghost use Rattle.wire_tokens.specs.Writing.{Extended};
ghost use Rattle.link_face.specs.Heads.{BeginsWith};

use crate::flag_words::append_permanent_flags;
use crate::head::{StatusLine, after_space};
use crate::token::read_list;
use memchr::memchr;
use std::alloc::{AllocError, Global};
use wire_strings::line_text::is_text;
use wire_tokens::appending::append;

/// A response code with its brackets, and the text after it.
#[derive(Clone, Copy)]
struct Coded<'a> {
    code: &'a [u8],
    text: &'a [u8],
}

impl<'a> StatusLine<'a> {
    /// The response with its code, if it has one, and a text of bytes that may stand there.
    ///
    /// `AllocError`: memory ran out.
    #[tactic(auto, using(crate::proofs::Extending::begun_text))]
    pub(crate) fn with_code(&self, alloc: Global) -> Result<Vec<u8>, AllocError>
        ensures { IfOk result (λ out. BeginsWith (self.now.tag.now ++ 32 ∷ self.now.word.now) out.items) }
    {
        let mut out = self.begun(alloc)?;
        append_coded(self.text, &mut out)?;
        Ok(out)
    }

    /// The response without its code.
    ///
    /// `AllocError`: memory ran out.
    #[tactic(auto, using(crate::proofs::Extending::begun_text))]
    pub(crate) fn without_code(&self, alloc: Global) -> Result<Vec<u8>, AllocError>
        ensures { IfOk result (λ out. BeginsWith (self.now.tag.now ++ 32 ∷ self.now.word.now) out.items) }
    {
        let mut out = self.begun(alloc)?;
        let text = match split_code(self.text.trim_ascii_start()) {
            Some(coded) => coded.text,
            None => self.text,
        };
        append_plain(text, &mut out)?;
        Ok(out)
    }

    /// The tag and the word, and the space after each.
    fn begun(&self, alloc: Global) -> Result<Vec<u8>, AllocError>
        ensures { IfOk result (λ out. out.items ≡ self.now.tag.now ++ 32 ∷ (self.now.word.now ++ 32 ∷ [])) }
    {
        let mut out = Vec::from_slice(alloc, self.tag)?;
        out.extend_from_slice(b" ")?;
        out.extend_from_slice(self.word)?;
        out.extend_from_slice(b" ")?;
        Ok(out)
    }
}

/// The response code at the front, and what follows it.
fn split_code(text: &[u8]) -> Option<Coded<'_>> {
    let rest = match permanent_flags(text) {
        Some((_, rest)) => rest,
        None => text.strip_prefix(b"[").map(|_| text)?,
    };
    let close = memchr(b']', rest)?;
    let before = text.len().saturating_sub(rest.len());
    let end = before.saturating_add(close).saturating_add(1);
    let (code, text) = text.split_at_checked(end)?;
    Some(Coded { code, text })
}

/// The words in brackets of the code PERMANENTFLAGS, among which atoms with `]` may stand, and what follows them.
fn permanent_flags(text: &[u8]) -> Option<(&[u8], &[u8])> {
    let (word, rest) = text.split_at_checked(b"[PERMANENTFLAGS".len())?;
    if word.eq_ignore_ascii_case(b"[PERMANENTFLAGS") {
        read_list(after_space(rest))
    } else {
        None
    }
}

/// Appends a text with its code, if it has one, and the line end.
#[tactic(auto, using(crate::proofs::Extending::then_extended_if))]
fn append_coded(text: &[u8], out: &mut Vec<u8>) -> Result<(), AllocError>
    ensures { OnOk result (Extended out.old.items out.new.items) }
{
    match split_code(text.trim_ascii_start()) {
        Some(coded) => {
            append_code(coded.code, out)?;
            append_text(coded.text, out)
        }
        None => append_plain(text, out),
    }
}

/// Appends a code and a space: of PERMANENTFLAGS those words that are flags, and `\*`.
#[tactic(auto, using(crate::proofs::Extending::is_extends, crate::proofs::Extending::then_is, crate::proofs::Extending::then_is_if))]
fn append_code(code: &[u8], out: &mut Vec<u8>) -> Result<(), AllocError>
    ensures { OnOk result (Extended out.old.items out.new.items) }
{
    match permanent_flags(code) {
        Some((words, _)) => {
            append(b"[PERMANENTFLAGS ", out)?;
            append_permanent_flags(words, out)?;
            append(b"] ", out)
        }
        None => {
            append(code, out)?;
            append(b" ", out)
        }
    }
}

/// Appends a text that begins with no `[`, and the line end.
fn append_plain(text: &[u8], out: &mut Vec<u8>) -> Result<(), AllocError>
    ensures { OnOk result (Extended out.old.items out.new.items) }
{
    match text.iter().position(|b| *b > b' ' && *b != b'[') {
        Some(begin) => append_text(text.get(begin..).unwrap_or(b""), out),
        None => append_text(b"", out),
    }
}

/// Appends a text, with a space for each byte that may not stand there, or `-` for none, and the line end.
#[tactic(auto, using(crate::proofs::Extending::is_extends_if, crate::proofs::Extending::then_is_if))]
fn append_text(text: &[u8], out: &mut Vec<u8>) -> Result<(), AllocError>
    ensures { OnOk result (Extended out.old.items out.new.items) }
{
    let text = text.trim_ascii();
    if text.is_empty() {
        return append(b"-\r\n", out);
    }
    append_shown(text, out)?;
    append(b"\r\n", out)
}

/// Appends bytes, with a space for each that may not stand in a text.
#[tactic(auto, using(crate::proofs::Extending::unextended, crate::proofs::Extending::pushed_extends))]
fn append_shown(text: &[u8], out: &mut Vec<u8>) -> Result<(), AllocError>
    ensures { OnOk result (Extended out.old.items out.new.items) }
{
    for b in text {
        out.push(if is_text(*b) { *b } else { b' ' })?;
    }
    Ok(())
}
