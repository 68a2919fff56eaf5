//! Which replies to a command its call keeps.

ghost use Rattle.std.specs.Prelude.{◌≡◌};
ghost use Rattle.imap_link.specs.UsedReplies.{answer_alone, uses_of, is_of_opening, is_used};

use imap_commands::command::{FetchItems, Request};
use imap_replies::reply::Reply;
use imap_replies::response::{Code, ResponseText};
use imap_replies::word::NoticeKind;

/// The kinds of untagged replies that a call keeps until it reads them, after the tagged one. A reply of another kind is dropped as soon as
/// it was heard.
#[derive(Clone, Copy)]
pub struct Uses {
    /// CAPABILITY: what the server can do.
    pub abilities: bool,
    /// LIST: the names of mailboxes.
    pub names: bool,
    /// `* OK` with a code that says something of the mailbox that is selected.
    pub opening: bool,
    /// FETCH: what is reported about messages, where their octets are lent. A listing is taken as it is heard (`ReplySink`).
    pub messages: bool,
}

impl Uses {
    /// The tagged reply alone.
    pub fn answer_alone() -> Uses
        ensures { result ≡ answer_alone }
    {
        Uses {
            abilities: false,
            names: false,
            opening: false,
            messages: false,
        }
    }

    /// What the call that asks for this keeps.
    pub fn of(request: &Request) -> Uses
        ensures { result ≡ uses_of request.now }
    {
        let none = Uses::answer_alone();
        match request {
            Request::Capability => Uses {
                abilities: true,
                ..none
            },
            Request::List(_) => Uses {
                names: true,
                ..none
            },
            Request::Select(_) => Uses {
                opening: true,
                ..none
            },
            Request::Fetch(_, FetchItems::Body) => Uses {
                messages: true,
                ..none
            },
            _ => none,
        }
    }

    /// Whether the call keeps this reply. It keeps `+` and the tagged one in any case.
    pub(crate) fn takes(self, reply: &Reply<'_>) -> bool
        ensures { result ≡ is_used self reply.now }
    {
        match reply {
            Reply::Continue(_) | Reply::Tagged(..) => true,
            Reply::Notice(NoticeKind::Ok, ResponseText::Coded(code, _)) => {
                self.opening && is_of_opening(code)
            }
            Reply::Capability(_) => self.abilities,
            Reply::List(..) => self.names,
            Reply::Fetch(..) => self.messages,
            _ => false,
        }
    }
}

/// Whether a code says something of the mailbox that is selected (RFC 9051, section 7.1).
fn is_of_opening(code: &Code<'_>) -> bool
    ensures { result ≡ is_of_opening code.now }
{
    matches!(
        code,
        Code::UidNext(_) | Code::UidValidity(_) | Code::PermanentFlags(..) | Code::ReadOnly
    )
}
