//! The word or the number after `* ` (RFC 9051, section 9: response-data, message-data).

ghost use Rattle.std.specs.Prelude.{◌≡◌};
ghost use Rattle.wire_reader.specs.Given.{Gives};
ghost use Rattle.wire_tokens.specs.Atoms.{is_atom_byte};
ghost use Rattle.imap_replies.specs.Words.{find_reply_word};
ghost use Rattle.imap_replies.specs.Others.{IsWord};
ghost use Rattle.imap_replies.specs.Heads.{head_fits, is_digits, word_head, head_at};

use crate::other::{OtherWord, all_digits};
use crate::word::{ReplyWord, find_reply_word};
use wire_reader::stop::{Kind, Stop};
use wire_tokens::atom::{ATOM_MAX, is_atom_byte};
use wire_tokens::number::number;

/// What follows `* `.
#[derive(Drop)]
pub(crate) enum Head<'a> {
    /// A number.
    Number(u32),
    /// A word with a line of its own.
    Known(ReplyWord),
    /// Another atom.
    Other(OtherWord<'a>),
}

/// Reads it; gives it and the bytes after it, of which at least one is required.
pub(crate) fn read_head(bytes: &[u8]) -> Result<(Head<'_>, &[u8]), Stop>
    ensures { Gives (λ r. (r.0, r.1.now)) result (head_at bytes.now) }
{
    for (i, b) in bytes.iter().enumerate() {
        if is_atom_byte(*b) {
            if !head_fits(&bytes[..=i]) {
                return Err(Stop::Fails(Kind::Syntax, bytes.len() - i));
            }
        } else if i == 0 {
            return Err(Stop::Fails(Kind::Syntax, bytes.len()));
        } else {
            let (text, rest) = bytes.split_at(i);
            if is_digits(text) {
                return match number(bytes) {
                    Ok((n, _)) => Ok((Head::Number(n), rest)),
                    Err(_) => Err(Stop::Fails(Kind::Syntax, rest.len())),
                };
            }
            return Ok((word_head(text), rest));
        }
    }
    Err(Stop::Ends(None))
}

/// What a text is that is not digits alone.
fn word_head(text: &[u8]) -> Head<'_>
    requires { IsWord text.now }
    ensures { result ≡ word_head text.now (find_reply_word text.now) }
{
    match find_reply_word(text) {
        Some(word) => Head::Known(word),
        None => Head::Other(OtherWord::of(text)),
    }
}

/// Whether the bytes may begin a head: 255 digits are neither a number nor another atom.
fn head_fits(text: &[u8]) -> bool
    ensures { result ≡ head_fits text.now }
{
    text.len() < ATOM_MAX || (text.len() == ATOM_MAX && !all_digits(text))
}

/// Whether the bytes are digits alone, of which a number has fewer than 255.
fn is_digits(text: &[u8]) -> bool
    ensures { result ≡ is_digits text.now }
{
    text.len() < ATOM_MAX && all_digits(text)
}
