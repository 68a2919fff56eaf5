//! Lines that are no command.

ghost use Rattle.std.specs.Prelude.{◌≡◌, ◌∷◌, [], OnOk};
ghost use Rattle.imap_session.specs.Portions.{TagIs};
ghost use Rattle.imap_session.specs.Serving.{fault_reply};
ghost use Rattle.imap_server.specs.Unreads.{fault_of};
ghost use Rattle.imap_server.specs.Writing.{Wrote};

use crate::words::plain;
use crate::writing::{say, say_bad};
use imap_replies::reply::Reply;
use imap_replies::word::NoticeKind;
use std::alloc::AllocError;
use wire_reader::stop::Stop;
use wire_tokens::tag::{Tag, read_tag};

/// Why a line is no command.
#[derive(Drop)]
pub(crate) enum LineFault {
    /// No command goes on with one of its bytes. The tag, where one and a space stand before that byte.
    Syntax(Option<Tag>),
    /// One of its bytes puts a literal's length over its limit.
    LiteralTooLong(Tag),
}

/// Answers a line with this fault.
pub(crate) fn say_fault(fault: LineFault, out: &mut Vec<u8>) -> Result<(), AllocError>
    ensures { OnOk result (Wrote (fault_reply (fault_of fault) ∷ []) out.old.items out.new.items) }
{
    match fault {
        LineFault::Syntax(None) => say(&Reply::Notice(NoticeKind::Bad, plain(b"syntax")), out),
        LineFault::Syntax(Some(tag)) => say_bad(tag, b"syntax", out),
        LineFault::LiteralTooLong(tag) => say_bad(tag, b"literal", out),
    }
}

/// The tag at the front of these bytes, if a space follows it.
pub(crate) fn tag_before(front: &[u8]) -> Option<Tag>
    ensures { TagIs front.now result }
{
    match read_tag(front) {
        Ok((tag, rest)) => {
            if rest.first().copied() == Some(b' ') {
                Some(tag)
            } else {
                None
            }
        }
        Err(Stop::Ends(_)) => None,
        Err(Stop::Fails(_, _)) => None,
    }
}
