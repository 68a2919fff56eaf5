//! The event after `* ` and a number (RFC 9051, section 9: message-data, mailbox-data).

ghost use Rattle.std.specs.Prelude.{◌≡◌};
ghost use Rattle.wire_reader.specs.Given.{Gives};
ghost use Rattle.wire_tokens.specs.Atoms.{IsAtom};
ghost use Rattle.imap_replies.specs.Words.{find_event_word};
ghost use Rattle.imap_replies.specs.Heads.{event_by, event_at};

use crate::other::OtherEvent;
use crate::word::{EventWord, find_event_word};
use wire_reader::stop::{Kind, Stop};
use wire_tokens::atom::read_atom;
use wire_tokens::number::NonZero;

/// What follows `* ` and a number.
#[derive(Drop)]
pub(crate) enum Event<'a> {
    Exists,
    Expunge(NonZero),
    Fetch(NonZero),
    /// Another atom.
    Other(OtherEvent<'a>),
}

/// Reads the event after this number; gives it and the bytes after it, of which at least one is required.
pub(crate) fn read_event(number: u32, bytes: &[u8]) -> Result<(Event<'_>, &[u8]), Stop>
    ensures { Gives (λ r. (r.0, r.1.now)) result (event_at number bytes.now) }
{
    let (atom, rest) = read_atom(bytes)?;
    match event_of(number, atom.text()) {
        Some(event) => Ok((event, rest)),
        None => Err(Stop::Fails(Kind::Syntax, rest.len())),
    }
}

/// The event of this atom; no message has the number 0.
fn event_of(number: u32, text: &[u8]) -> Option<Event<'_>>
    requires { IsAtom text.now }
    ensures { result ≡ event_by number text.now (find_event_word text.now) }
{
    match find_event_word(text) {
        Some(EventWord::Exists) => Some(Event::Exists),
        Some(EventWord::Expunge) => match NonZero::new(number) {
            Some(number) => Some(Event::Expunge(number)),
            None => None,
        },
        Some(EventWord::Fetch) => match NonZero::new(number) {
            Some(number) => Some(Event::Fetch(number)),
            None => None,
        },
        None => Some(Event::Other(OtherEvent::of(text))),
    }
}
