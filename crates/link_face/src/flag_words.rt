//! Flags by their names (RFC 9051, section 2.3.2), written anew.

ghost use Rattle.std.specs.Prelude.{◌≡◌, true, false, OnOk};
ghost use Rattle.wire_reader.specs.Spelling.{Is};
ghost use Rattle.wire_tokens.specs.Writing.{Appended};
ghost use Rattle.link_face.specs.FlagWords.{is_flag, is_kept, is_star, listed_flags, without_backslash};

use mailcore::atom::are_atom_bytes;
use std::alloc::AllocError;
use wire_tokens::appending::append;
use wire_tokens::atom::ATOM_MAX;

/// Appends those of these words that are flags, in brackets, each as it stands.
pub(crate) fn append_flags(words: &[u8], out: &mut Vec<u8>) -> Result<(), AllocError>
    ensures { OnOk result (Appended (Is (listed_flags false words.now)) out.old.items out.new.items) }
{
    append_some(words, false, out)
}

/// Appends those of these words that are flags, and `\*` where it is one of them, in brackets, each as it stands.
pub(crate) fn append_permanent_flags(words: &[u8], out: &mut Vec<u8>) -> Result<(), AllocError>
    ensures { OnOk result (Appended (Is (listed_flags true words.now)) out.old.items out.new.items) }
{
    append_some(words, true, out)
}

fn append_some(words: &[u8], takes_star: bool, out: &mut Vec<u8>) -> Result<(), AllocError>
    ensures { OnOk result (Appended (Is (listed_flags takes_star words.now)) out.old.items out.new.items) }
{
    append(b"(", out)?;
    let mut space: &[u8] = b"";
    for word in words.split(|b| *b == b' ') {
        if is_kept(takes_star, word) {
            append(space, out)?;
            append(word, out)?;
            space = b" ";
        }
    }
    append(b")", out)
}

/// Whether a word is handed out.
fn is_kept(takes_star: bool, word: &[u8]) -> bool
    ensures { result ≡ is_kept takes_star word.now }
{
    is_flag(word) || (takes_star && is_star(word))
}

/// Whether a word is an atom, or `\` and an atom.
fn is_flag(word: &[u8]) -> bool
    ensures { result ≡ is_flag word.now }
{
    let atom = without_backslash(word);
    !atom.is_empty() && atom.len() <= ATOM_MAX && are_atom_bytes(atom)
}

/// The bytes after a backslash, if one stands at the front.
fn without_backslash(word: &[u8]) -> &[u8]
    ensures { result.now ≡ without_backslash word.now }
{
    word.strip_prefix(b"\\").unwrap_or(word)
}

/// Whether a word says that other flags may be made.
fn is_star(word: &[u8]) -> bool
    ensures { result ≡ is_star word.now }
{
    word == b"\\*".as_slice()
}
