//! What a reply is to who has sent a command.

ghost use Rattle.std.specs.Prelude.{◌≡◌};
ghost use Rattle.imap_link.specs.ReplyKinds.{kind_of};

use imap_replies::reply::Reply;
use imap_replies::word::{NoticeKind, Status};
use wire_tokens::tag::Tag;

/// What a reply is to who has sent a command.
#[derive(Clone, Copy, PartialEq, Eq)]
pub enum ReplyKind {
    /// `* OK`, with which a server greets, and which may stand before the tagged reply.
    Hello,
    /// `* BYE`: the server ends the connection.
    Bye,
    /// Another reply that may stand before the tagged one.
    Passed,
    /// `+`: the server asks for the literal of the command.
    Go,
    /// The tagged reply to the command.
    Mine(Status),
    /// A reply that may not stand there: a tagged one to another command, or `* PREAUTH`.
    Stray,
}

/// What the reply is to who has sent the command of this tag.
pub(crate) fn kind_of(reply: &Reply<'_>, tag: &Tag) -> ReplyKind
    ensures { result ≡ kind_of tag.now reply.now }
{
    match reply {
        Reply::Continue(_) => ReplyKind::Go,
        Reply::Tagged(other, status, _) => {
            if other.text() == tag.text() {
                ReplyKind::Mine(*status)
            } else {
                ReplyKind::Stray
            }
        }
        Reply::Notice(NoticeKind::Ok, _) => ReplyKind::Hello,
        Reply::Notice(NoticeKind::Bye, _) => ReplyKind::Bye,
        Reply::Notice(NoticeKind::Preauth, _) => ReplyKind::Stray,
        _ => ReplyKind::Passed,
    }
}
