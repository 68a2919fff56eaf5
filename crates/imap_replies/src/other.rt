//! Atoms that have no line of their own where they stand.

ghost use Rattle.std.specs.Prelude.{◌≡◌};
ghost use Rattle.std.specs.List.{list_all};
ghost use Rattle.std.specs.Option.{SomeIff};
ghost use Rattle.wire_reader.specs.Spelling.{is_digit};
ghost use Rattle.imap_replies.specs.Others.{IsOtherWord, IsOtherEvent, IsOtherCode};

use crate::word::{find_code_word, find_event_word, find_reply_word};
use std::marker::Model;
use wire_tokens::atom::Atom;

/// An atom after `* ` that is none of the words with a line of their own, and not digits alone; lent.
#[derive(Drop)]
pub struct OtherWord<'a> {
    text: &'a [u8],
}

impl<'a> Model for OtherWord<'a> {
    ghost use Rattle.std.specs.Prelude.{ℕ, List};
    ghost use Rattle.imap_replies.specs.Others.{IsOtherWord};

    ghost Value = { List ℕ };

    ghost view = { λ w. w.text.now };

    ghost invariant = { λ w. IsOtherWord w.text.now };
}

impl<'a> OtherWord<'a> {
    /// The word that these bytes are, or none if they are none.
    pub fn read(bytes: &'a [u8]) -> Option<OtherWord<'a>>
        ensures { SomeIff result (IsOtherWord bytes.now) bytes.now }
    {
        let atom = Atom::read(bytes)?;
        if all_digits(bytes) {
            return None;
        }
        match find_reply_word(bytes) {
            Some(_) => None,
            None => Some(OtherWord { text: atom.text() }),
        }
    }

    /// The word of these bytes.
    pub(crate) fn of(text: &'a [u8]) -> OtherWord<'a>
        requires { IsOtherWord text.now }
        ensures { result ≡ text.now }
    {
        OtherWord { text }
    }

    /// Its bytes.
    pub fn text(&self) -> &'a [u8]
        ensures same { result.now ≡ self.now }
        ensures word { IsOtherWord result.now }
    {
        self.text
    }
}

/// An atom after a number that is none of EXISTS, EXPUNGE and FETCH; lent.
#[derive(Drop)]
pub struct OtherEvent<'a> {
    text: &'a [u8],
}

impl<'a> Model for OtherEvent<'a> {
    ghost use Rattle.std.specs.Prelude.{ℕ, List};
    ghost use Rattle.imap_replies.specs.Others.{IsOtherEvent};

    ghost Value = { List ℕ };

    ghost view = { λ e. e.text.now };

    ghost invariant = { λ e. IsOtherEvent e.text.now };
}

impl<'a> OtherEvent<'a> {
    /// The event that these bytes are, or none if they are none.
    pub fn read(bytes: &'a [u8]) -> Option<OtherEvent<'a>>
        ensures { SomeIff result (IsOtherEvent bytes.now) bytes.now }
    {
        let atom = Atom::read(bytes)?;
        match find_event_word(bytes) {
            Some(_) => None,
            None => Some(OtherEvent { text: atom.text() }),
        }
    }

    /// The event of these bytes.
    pub(crate) fn of(text: &'a [u8]) -> OtherEvent<'a>
        requires { IsOtherEvent text.now }
        ensures { result ≡ text.now }
    {
        OtherEvent { text }
    }

    /// Its bytes.
    pub fn text(&self) -> &'a [u8]
        ensures same { result.now ≡ self.now }
        ensures event { IsOtherEvent result.now }
    {
        self.text
    }
}

/// An atom after `[` that is none of the codes with a form of their own; lent.
#[derive(Drop)]
pub struct OtherCode<'a> {
    text: &'a [u8],
}

impl<'a> Model for OtherCode<'a> {
    ghost use Rattle.std.specs.Prelude.{ℕ, List};
    ghost use Rattle.imap_replies.specs.Others.{IsOtherCode};

    ghost Value = { List ℕ };

    ghost view = { λ c. c.text.now };

    ghost invariant = { λ c. IsOtherCode c.text.now };
}

impl<'a> OtherCode<'a> {
    /// The code that these bytes are, or none if they are none.
    pub fn read(bytes: &'a [u8]) -> Option<OtherCode<'a>>
        ensures { SomeIff result (IsOtherCode bytes.now) bytes.now }
    {
        let atom = Atom::read(bytes)?;
        match find_code_word(bytes) {
            Some(_) => None,
            None => Some(OtherCode { text: atom.text() }),
        }
    }

    /// The code of these bytes.
    pub(crate) fn of(text: &'a [u8]) -> OtherCode<'a>
        requires { IsOtherCode text.now }
        ensures { result ≡ text.now }
    {
        OtherCode { text }
    }

    /// Its bytes.
    pub fn text(&self) -> &'a [u8]
        ensures same { result.now ≡ self.now }
        ensures code { IsOtherCode result.now }
    {
        self.text
    }
}

/// Whether the bytes are digits alone.
pub(crate) fn all_digits(bytes: &[u8]) -> bool
    ensures { result ≡ list_all is_digit bytes.now }
{
    bytes.iter().all(|b| b.is_ascii_digit())
}
