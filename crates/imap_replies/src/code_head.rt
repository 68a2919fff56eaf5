//! The word of a response code (RFC 9051, section 9: resp-text-code).

ghost use Rattle.std.specs.Prelude.{◌≡◌};
ghost use Rattle.wire_reader.specs.Given.{Gives};
ghost use Rattle.wire_tokens.specs.Atoms.{IsAtom};
ghost use Rattle.imap_replies.specs.Words.{find_code_word};
ghost use Rattle.imap_replies.specs.Heads.{code_by, code_head_at};

use crate::other::OtherCode;
use crate::word::{CodeWord, find_code_word};
use wire_reader::stop::Stop;
use wire_tokens::atom::read_atom;

/// What follows `[`.
#[derive(Drop)]
pub(crate) enum CodeHead<'a> {
    /// A word with a form of its own.
    Known(CodeWord),
    /// Another atom.
    Other(OtherCode<'a>),
}

/// Reads it; gives it and the bytes after it, of which at least one is required.
pub(crate) fn read_code_head(bytes: &[u8]) -> Result<(CodeHead<'_>, &[u8]), Stop>
    ensures { Gives (λ r. (r.0, r.1.now)) result (code_head_at bytes.now) }
{
    let (atom, rest) = read_atom(bytes)?;
    Ok((code_of(atom.text()), rest))
}

fn code_of(text: &[u8]) -> CodeHead<'_>
    requires { IsAtom text.now }
    ensures { result ≡ code_by text.now (find_code_word text.now) }
{
    match find_code_word(text) {
        Some(word) => CodeHead::Known(word),
        None => CodeHead::Other(OtherCode::of(text)),
    }
}
