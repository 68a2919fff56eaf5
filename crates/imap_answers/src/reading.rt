//! Replies in the buffer, read one after another.

ghost use Rattle.std.specs.Prelude.{◌≡◌, ◌<◌, ◌≤◌, IfOk, IfErr, List, length};
ghost use Rattle.imap_replies.specs.declared.reply.Reply.{Reply};
ghost use Rattle.imap_session.specs.Heard.{AreReplies};
ghost use Rattle.imap_answers.specs.Spoken.{Speaks, IsFirst};

use imap_link::fault::FarFault;
use imap_replies::reading::read_reply;
use imap_replies::reply::Reply;
use std::alloc::Global;
use wire_reader::answer::Read;

/// The replies in these bytes, whose texts are lent from them.
///
/// `NoMemory`: memory ran out.
pub fn read_replies(alloc: Global, bytes: &[u8]) -> Result<Vec<Reply<'_>>, FarFault>
    requires { Speaks bytes.now }
    ensures replies { IfOk result (λ v. (rs : List Reply) → AreReplies rs bytes.now → v.items ≡ rs) }
    ensures err { IfErr result (λ fault. fault ≡ FarFault.NoMemory) }
{
    let mut replies = Vec::new(alloc);
    let mut rest = bytes;
    for _ in 0..=bytes.len() {
        if rest.is_empty() {
            return Ok(replies);
        }
        let (reply, len) = first_reply(alloc, rest)?;
        replies.push(reply)?;
        rest = &rest[len..];
    }
    Err(FarFault::NoMemory)
}

/// The first of the replies in these bytes, and its length.
///
/// `NoMemory`: memory ran out.
pub(crate) fn first_reply(alloc: Global, bytes: &[u8]) -> Result<(Reply<'_>, usize), FarFault>
    requires some { 0 < length bytes.now }
    requires speaks { Speaks bytes.now }
    ensures within { IfOk result (λ r. r.1 ≤ length bytes.now) }
    ensures first { IfOk result (λ r. (rs : List Reply) → AreReplies rs bytes.now → IsFirst r.0 r.1 bytes.now rs) }
    ensures err { IfErr result (λ fault. fault ≡ FarFault.NoMemory) }
{
    match read_reply(alloc, bytes) {
        Ok(Read::Whole(reply, len)) => Ok((reply, len)),
        Ok(Read::WantsLiteral(_)) => Err(FarFault::Protocol),
        Ok(Read::Partial) => Err(FarFault::Protocol),
        Err(fault) => Err(FarFault::from(fault)),
    }
}
