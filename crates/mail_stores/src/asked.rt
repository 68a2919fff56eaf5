//! Which server was asked last, and what it said.

ghost use Rattle.std.specs.Prelude.{◌≡◌, ◌++◌, IfOk, OnOk};
ghost use Rattle.mail_stores.specs.Passwords.{sent};
ghost use Rattle.wire_strings.specs.Quotes.{escaped as quoted};

use config::config::ImapStore;
use link_face::words::Words;
use std::alloc::{AllocError, Global};
use texts::escape::push_escaped;

/// The store whose server was asked last.
#[derive(Drop)]
pub(crate) struct Asked {
    /// Its name.
    pub(crate) store: String,
    /// The password that it was sent, which is never printed.
    password: String,
    /// The same as it was sent: `"` and `\` each after a `\` (RFC 9051, section 9: quoted).
    sent: Vec<u8>,
}

impl Asked {
    /// This store.
    pub(crate) fn new(alloc: Global, store: &ImapStore) -> Result<Self, AllocError> {
        Ok(Asked {
            store: String::from_str(alloc, store.name.as_str())?,
            password: String::from_str(alloc, store.pass.as_str())?,
            sent: sent(alloc, store.pass.as_bytes())?,
        })
    }

    /// What its server said last, or the front of what it sent where that is no answer. None where it repeats the password.
    pub(crate) fn words(&self, alloc: Global, words: &Words) -> Option<String> {
        let said = words.take_last();
        let unread = words.take_unread();
        let text = said.or(unread)?;
        self.shown(alloc, &text)
    }

    /// A text of its server as it is printed. None where it repeats the password, or is empty, or memory ran out.
    pub(crate) fn shown(&self, alloc: Global, text: &[u8]) -> Option<String> {
        if text.is_empty() || self.is_repeated_in(text) {
            return None;
        }
        escaped(alloc, text).ok()
    }

    /// Whether a text repeats the password, as it is or as it was sent.
    fn is_repeated_in(&self, text: &[u8]) -> bool {
        has_word(text, self.password.as_bytes()) || has_word(text, &self.sent)
    }
}

/// These bytes, of which those that are no plain character stand as a backslash and two digits.
pub(crate) fn escaped(alloc: Global, bytes: &[u8]) -> Result<String, AllocError> {
    let mut text = String::new(alloc);
    push_escaped(&mut text, bytes)?;
    Ok(text)
}

/// A password as it is sent between quotes.
fn sent(alloc: Global, password: &[u8]) -> Result<Vec<u8>, AllocError>
    ensures { IfOk result (λ spelled. spelled.items ≡ sent password.now) }
{
    let mut spelled = Vec::new(alloc);
    for b in password {
        push_sent(*b, &mut spelled)?;
    }
    Ok(spelled)
}

/// Adds a byte as it is sent.
fn push_sent(b: u8, spelled: &mut Vec<u8>) -> Result<(), AllocError>
    ensures { OnOk result (spelled.new.items ≡ spelled.old.items ++ quoted b) }
{
    if b == b'"' || b == b'\\' {
        spelled.push(b'\\')?;
    }
    spelled.push(b)?;
    Ok(())
}

/// Whether a word stands somewhere in a text, with no letter and no digit before or after it.
fn has_word(text: &[u8], word: &[u8]) -> bool {
    !word.is_empty() && (0..text.len()).any(|start| stands_at(text, start, word))
}

/// Whether it stands there.
fn stands_at(text: &[u8], start: usize, word: &[u8]) -> bool {
    let (before, rest) = text.split_at_checked(start).unwrap_or((text, b""));
    match rest.strip_prefix(word) {
        Some(following) => !ends_inside(before.last()) && !ends_inside(following.first()),
        None => false,
    }
}

/// Whether the byte beside a word belongs to a longer one.
fn ends_inside(beside: Option<&u8>) -> bool {
    beside.is_some_and(|b| b.is_ascii_alphanumeric())
}
