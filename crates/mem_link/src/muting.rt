//! Replies without APPENDUID, as a server sends them that does not report UIDs (RFC 9051, section 6.3.12, leaves that to the server).

ghost use Rattle.std.specs.Prelude.{◌≡◌, ◌<◌, ◌≤◌, true, IfOk, IfSome, IsNone, OnOk, List, length, map, take};
ghost use Rattle.std.specs.List.{list_all};
ghost use Rattle.std.specs.Option.{SomeIff};
ghost use Rattle.wire_strings.specs.Texts.{is_text};
ghost use Rattle.wire_tokens.specs.Writing.{Appended};
ghost use Rattle.imap_replies.specs.declared.response.ResponseText.TheVariants as responses;
ghost use Rattle.imap_replies.specs.declared.reply.Reply.{Reply};
ghost use Rattle.imap_replies.specs.declared.reply.Reply.TheVariants as replies;
ghost use Rattle.imap_session.specs.Heard.{AreReplies};
ghost use Rattle.imap_session.specs.Short.{is_short};
ghost use Rattle.imap_answers.specs.Spoken.{IsFirst};
ghost use Rattle.mem_link.specs.Muting.{IsFitting, stands_alone, without_uid};

use imap_replies::reading::read_reply;
use imap_replies::reply::Reply;
use imap_replies::response::{Code, ResponseText};
use imap_replies::word::Status;
use imap_replies::writing::write_reply;
use std::alloc::{AllocError, Global};
use wire_reader::answer::Read;
use wire_strings::plain_text::PlainText;
use wire_tokens::tag::Tag;

/// The longest text that a reply without a code is given, in bytes. The server of this process has none so long.
const LONGEST: usize = 1024;

/// The same replies, where each tagged OK comes without APPENDUID. The text after the code stays. One that begins with `[` cannot stand
/// without a code, and one of more than 1024 bytes is none of a server in this process: such a reply stays as it is.
///
/// `AllocError`: memory ran out. (So it is where the bytes are no replies, too, which no server of this process says.)
#[tactic(auto, using(crate::proofs::MutingLemmas::begin_muting))]
pub(crate) fn muted(alloc: Global, answer: &[u8]) -> Result<Vec<u8>, AllocError>
    ensures { IfOk result (λ out. (said : List Reply) → AreReplies said answer.now → AreReplies (map without_uid said) out.items) }
{
    let mut out = Vec::new(alloc);
    let mut rest = answer;
    for _ in 0..=answer.len() {
        if rest.is_empty() {
            return Ok(out);
        }
        let (reply, len) = first_reply(alloc, rest)?;
        push_muted(&reply, &rest[..len], &mut out)?;
        rest = &rest[len..];
    }
    Err(AllocError)
}

/// The first of the replies in these bytes, and its length. `AllocError`: memory ran out, or there is none.
fn first_reply(alloc: Global, bytes: &[u8]) -> Result<(Reply<'_>, usize), AllocError>
    requires { 0 < length bytes.now }
    ensures within { IfOk result (λ r. r.1 ≤ length bytes.now) }
    ensures fits { IfOk result (λ r. IsFitting r.0 (take r.1 bytes.now)) }
    ensures first { IfOk result (λ r. (said : List Reply) → AreReplies said bytes.now → IsFirst r.0 r.1 bytes.now said) }
{
    match read_reply(alloc, bytes) {
        Ok(Read::Whole(reply, len)) => Ok((reply, len)),
        _ => Err(AllocError),
    }
}

/// Adds a reply, in these bytes, without APPENDUID.
#[tactic(auto, using(crate::proofs::MutingLemmas::written_fits, crate::proofs::MutingLemmas::stays_fits))]
fn push_muted(reply: &Reply<'_>, bytes: &[u8], out: &mut Vec<u8>) -> Result<(), AllocError>
    requires { IsFitting reply.now bytes.now }
    ensures { OnOk result (Appended (IsFitting (without_uid reply.now)) out.old.items out.new.items) }
{
    match without_uid(reply) {
        Some(reply) => write_reply(&reply, out),
        None => out.extend_from_slice(bytes),
    }
}

/// A reply without APPENDUID, or none where it stays as it is.
fn without_uid<'a>(reply: &Reply<'a>) -> Option<Reply<'a>>
    ensures muted { IfSome result (λ r. (r ≡ without_uid reply.now) × (is_short r ≡ true)) }
    ensures stays { IsNone result → without_uid reply.now ≡ reply.now }
{
    match reply {
        Reply::Tagged(tag, Status::Ok, ResponseText::Coded(Code::AppendUid(_, _), text)) => {
            plain_ok(tag, text.bytes())
        }
        _ => None,
    }
}

/// A tagged OK without a code, or none where its text cannot stand without one, or is long.
fn plain_ok<'a>(tag: &Tag, text: &'a [u8]) -> Option<Reply<'a>>
    requires { list_all is_text text.now ≡ true }
    ensures { SomeIff result (stands_alone text.now ≡ true) (replies.Tagged tag.now Status.Ok (responses.Plain text.now)) }
{
    let tag = Tag::read(tag.text())?;
    let text = alone(text)?;
    Some(Reply::Tagged(tag, Status::Ok, ResponseText::Plain(text)))
}

/// This text where it can stand without a code, and is short.
fn alone(text: &[u8]) -> Option<PlainText<'_>>
    requires { list_all is_text text.now ≡ true }
    ensures { SomeIff result (stands_alone text.now ≡ true) text.now }
{
    if text.len() > LONGEST {
        return None;
    }
    PlainText::read(text)
}
