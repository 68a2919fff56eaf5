//! Commands that name a mailbox (RFC 9051, sections 6.3.2, 6.3.4 and 6.3.12), as they are sent.

ghost use Rattle.std.specs.Prelude.{◌≡◌, ◌++◌, ◌∷◌, ℕ, List, true, IfOk, MatchOption};
ghost use Rattle.std.specs.List.{list_all};
ghost use Rattle.wire_strings.specs.Texts.{is_text};
ghost use Rattle.wire_strings.specs.Quotes.{QuotedText};
ghost use Rattle.link_face.specs.Commands.{is_naming, is_plain, NamesMailbox, IsRenamed, GoesAsItIs};

use crate::names::to_far;
use std::alloc::{AllocError, Global};
use texts::cut::cut;
use wire_strings::string_writing::write_quoted;

/// The command with the name of its mailbox in UTF-8. None: it goes as it is.
///
/// `AllocError`: memory ran out.
pub(crate) fn with_far_name(alloc: Global, command: &[u8]) -> Result<Option<Vec<u8>>, AllocError>
    ensures { IfOk result (λ found. MatchOption found (GoesAsItIs command.now) (λ turned. IsRenamed command.now turned.items)) }
{
    let Some(named) = Named::read(command) else {
        return Ok(None);
    };
    let Some(far) = to_far(alloc, named.name)? else {
        return Ok(None);
    };
    if far.as_slice() == named.name {
        return Ok(None);
    }
    Ok(Some(named.with_name(alloc, &far)?))
}

/// A command that names a mailbox in quotes, without a backslash.
#[derive(Clone, Copy)]
struct Named<'c> {
    tag: &'c [u8],
    /// Its word, and the space after it.
    word: &'c [u8],
    name: &'c [u8],
    /// What follows the name.
    following: &'c [u8],
}

impl<'c> Named<'c> {
    /// The parts of a command. None: it names no mailbox so.
    fn read(command: &'c [u8]) -> Option<Named<'c>>
        ensures { MatchOption result ((tag word name following : List ℕ) → ¬ (NamesMailbox command.now tag word name following))
            (λ n. NamesMailbox command.now n.tag.now n.word.now n.name.now n.following.now) }
    {
        let (tag, rest) = cut(command, b' ')?;
        let (word, rest) = cut(rest, b'"')?;
        let (name, following) = cut(rest, b'"')?;
        if !is_naming(word) {
            return None;
        }
        if !is_plain(name) {
            return None;
        }
        Some(Named {
            tag,
            word,
            name,
            following,
        })
    }

    /// The command with this name.
    fn with_name(&self, alloc: Global, name: &[u8]) -> Result<Vec<u8>, AllocError>
        requires { list_all is_text name.now ≡ true }
        ensures { IfOk result (λ out. (quoted : List ℕ) × QuotedText name.now quoted
            × (out.items ≡ self.now.tag.now ++ 32 ∷ (self.now.word.now ++ (quoted ++ self.now.following.now)))) }
    {
        let mut out = Vec::from_slice(alloc, self.tag)?;
        out.extend_from_slice(b" ")?;
        out.extend_from_slice(self.word)?;
        write_quoted(name, &mut out)?;
        out.extend_from_slice(self.following)?;
        Ok(out)
    }
}

/// Whether a name has no backslash.
fn is_plain(name: &[u8]) -> bool
    ensures { result ≡ is_plain name.now }
{
    name.iter().all(|b| *b != b'\\')
}

/// Whether a command of this word names a mailbox.
fn is_naming(word: &[u8]) -> bool
    ensures { result ≡ is_naming word.now }
{
    word == b"SELECT ".as_slice() || word == b"CREATE ".as_slice() || word == b"APPEND ".as_slice()
}
