//! What a client hears of a reply.

ghost use Rattle.std.specs.Prelude.{◌≡◌, ◌≢◌, ◌++◌, ◌∷◌, List, codes, true, None, Some, IfOk, IfSome, IsErr};
ghost use Rattle.imap_replies.specs.declared.reply.Reply.{Reply};
ghost use Rattle.imap_replies.specs.Replies.{ReplyText};
ghost use Rattle.link_face.specs.declared.turning.Turn.TheVariants.{Keep};
ghost use Rattle.link_face.specs.Faces.{FitsLine, IsSpelled, Turns, IsHeard};
ghost use Rattle.wire_reader.specs.declared.answer.WireFault.TheVariants.{NoMemory};
ghost use Rattle.link_face.specs.Heads.{after_event, second_word, BeginsWith, GivesSome, HasEvent, HasFront, IsTagged, KeepsWords, SameWord};
ghost use Rattle.link_face.specs.Rows.{IsFetch, IsRowOf, Item, KeepsRow, GivesRow};
ghost use Rattle.link_face.specs.Hearing.{IsPassed, whole_in};

use crate::head::{ReplyHead, StatusLine, head_of};
use crate::heard::is_heard;
use crate::listed::Listed;
use crate::plain::{counted, flags_line, names_line};
use crate::row::FetchRow;
use imap_replies::reading::read_reply;
use imap_replies::reply::Reply;
use std::alloc::{AllocError, Global};
use wire_reader::answer::{Read, WireFault};

/// What a client hears of a reply.
#[derive(Drop)]
pub enum Turn {
    /// The reply, byte for byte.
    Keep,
    /// This one in its place.
    Replace(Vec<u8>),
    /// Nothing.
    Omit,
    /// Nothing, and the connection is given up: the reply is about a message and cannot be read, or is no reply.
    Stop,
}

/// What a client hears of this reply. It is a reply of the profile, whatever the server sent. One that the server of the profile
/// says passes byte for byte (`laws::the_profile_is_heard`). Another begins with the words of what the server sent: the tag, the word of
/// a status, so that a NO is never an OK, a number and its event. A tagged reply is never left out. A row of a message has the UID, the
/// flags and the size of what the server sent, and is left out only where it lacks one of them.
///
/// `AllocError`: memory ran out.
pub fn turned(alloc: Global, raw: &[u8]) -> Result<Turn, AllocError>
    ensures turns { IfOk result (λ turn. Turns raw.now turn) }
    ensures passes { IsPassed raw.now → IfOk result (λ turn. turn ≡ Keep) }
    ensures word { IfOk result (KeepsWords raw.now) }
    ensures tagged { IsTagged raw.now → IfOk result (λ turn. turn ≢ Turn.Omit) }
    ensures row { IsFetch raw.now → IfOk result (KeepsRow (after_event raw.now) (second_word raw.now)) }
{
    if is_kept(alloc, raw)? {
        Ok(Turn::Keep)
    } else {
        rewritten(alloc, raw)
    }
}

/// Whether a client hears this reply as it came.
fn is_kept(alloc: Global, raw: &[u8]) -> Result<bool, AllocError>
    ensures spelled { IfOk result (λ is. is ≡ true → IsSpelled raw.now) }
    ensures passes { IsPassed raw.now → IfOk result (λ is. is ≡ true) }
{
    match reply_of(alloc, raw)? {
        Some(reply) => Ok(is_heard(&reply)),
        None => Ok(false),
    }
}

/// The reply that these bytes are, if they are one.
#[tactic(auto, using(crate::proofs::TakenLemmas::found_whole, crate::proofs::TakenLemmas::spelled_whole, crate::proofs::TakenLemmas::memory_alone))]
pub(crate) fn reply_of(alloc: Global, bytes: &[u8]) -> Result<Option<Reply<'_>>, AllocError>
    ensures spelled { IfOk result (λ found. IfSome found (λ _. IsSpelled bytes.now)) }
    ensures found { (reply : Reply) → ReplyText reply bytes.now → FitsLine bytes.now → IfOk result (λ found. found ≡ Some reply) }
{
    match read_reply(alloc, bytes) {
        Ok(read) => Ok(whole(read, bytes.len())),
        Err(fault) => no_reply(fault),
    }
}

/// The reply that was read, if it has so many bytes.
fn whole(read: Read<Reply<'_>>, len: usize) -> Option<Reply<'_>>
    ensures { result ≡ whole_in read.entry len }
{
    match read {
        Read::Whole(reply, used) if used == len => Some(reply),
        _ => None,
    }
}

/// No reply, where bytes are none or memory ran out.
fn no_reply<'a>(fault: WireFault) -> Result<Option<Reply<'a>>, AllocError>
    ensures none { IfOk result (λ found. found ≡ None) }
    ensures memory { fault ≡ NoMemory → IsErr result }
{
    match fault {
        WireFault::NoMemory => Err(AllocError),
        _ => Ok(None),
    }
}

/// What a client hears instead of this reply.
#[tactic(auto, using(crate::proofs::TurnLemmas::asking_kept, crate::proofs::TurnLemmas::status_kept, crate::proofs::TurnLemmas::untagged_kept, crate::proofs::TurnLemmas::numbered_kept, crate::proofs::TurnLemmas::no_star, crate::proofs::TurnLemmas::no_other, crate::proofs::RowLemmas::asking_no_row, crate::proofs::RowLemmas::status_no_row, crate::proofs::RowLemmas::untagged_no_row, crate::proofs::RowLemmas::numbered_row))]
fn rewritten(alloc: Global, raw: &[u8]) -> Result<Turn, AllocError>
    ensures heard { IfOk result IsHeard }
    ensures word { IfOk result (KeepsWords raw.now) }
    ensures tagged { IsTagged raw.now → IfOk result (λ turn. turn ≢ Turn.Omit) }
    ensures row { IsFetch raw.now → IfOk result (KeepsRow (after_event raw.now) (second_word raw.now)) }
{
    match head_of(raw) {
        ReplyHead::Continue => reported(alloc, Vec::from_slice(alloc, b"+ go\r\n")?),
        ReplyHead::Status(status) => with_status(alloc, status),
        ReplyHead::Names(word, rest) => replaced(alloc, Some(names_line(alloc, word, rest)?)),
        ReplyHead::List(rest) => replaced(alloc, list_line(alloc, rest)?),
        ReplyHead::Flags(rest) => replaced(alloc, flags_line(alloc, rest)?),
        ReplyHead::Numbered(number, event, rest) => numbered(alloc, number, event, rest),
        ReplyHead::Other => Ok(Turn::Omit),
        ReplyHead::NoReply => Ok(Turn::Stop),
    }
}

/// What a client hears of a status response: with its code, if that can be. It is never left out.
#[tactic(auto, using(crate::proofs::TurnLemmas::bytes_given_if))]
fn with_status(alloc: Global, status: StatusLine<'_>) -> Result<Turn, AllocError>
    ensures heard { IfOk result IsHeard }
    ensures word { IfOk result (HasFront (status.entry.tag.now ++ 32 ∷ status.entry.word.now)) }
    ensures never { IfOk result (λ turn. turn ≢ Turn.Omit) }
{
    match reported(alloc, status.with_code(alloc)?)? {
        Turn::Replace(bytes) => Ok(Turn::Replace(bytes)),
        _ => reported(alloc, status.without_code(alloc)?),
    }
}

/// What a client hears of a LIST reply.
fn list_line(alloc: Global, rest: &[u8]) -> Result<Option<Vec<u8>>, AllocError>
    ensures { IfOk result (λ found. IfSome found (λ out. BeginsWith (codes "* LIST") out.items)) }
{
    match Listed::read(rest) {
        Some(listed) => listed.written(alloc),
        None => Ok(None),
    }
}

/// What a client hears of a reply with a number.
#[tactic(auto, using(crate::proofs::TurnLemmas::event_given))]
fn numbered(alloc: Global, number: &[u8], event: &[u8], rest: &[u8]) -> Result<Turn, AllocError>
    ensures heard { IfOk result IsHeard }
    ensures word { IfOk result (HasEvent number.now event.now) }
    ensures row { SameWord event.now (codes "FETCH") → IfOk result (KeepsRow rest.now number.now) }
{
    if !event.eq_ignore_ascii_case(b"FETCH") {
        return replaced(alloc, counted(alloc, number, event, rest)?);
    }
    let Some(row) = FetchRow::read(rest) else {
        return Ok(Turn::Stop);
    };
    if row.has_all_items() {
        whole_row(alloc, number, row)
    } else {
        Ok(Turn::Omit)
    }
}

/// What a client hears of a row with all items of one of its commands. It is never left out: where one of their values cannot be read, the
/// connection is given up.
#[tactic(auto, using(crate::proofs::RowLemmas::gives_row_if))]
pub(crate) fn whole_row(alloc: Global, number: &[u8], row: FetchRow<'_>) -> Result<Turn, AllocError>
    ensures heard { IfOk result IsHeard }
    ensures row { (items : List Item) → IsRowOf items row.entry → IfOk result (GivesRow number.now items) }
{
    match row.written(alloc, number)? {
        Some(bytes) => reported(alloc, bytes),
        None => Ok(Turn::Stop),
    }
}

/// What a client hears of this text, which is about a message or a command. If it is no reply, the connection is given up.
fn reported(alloc: Global, bytes: Vec<u8>) -> Result<Turn, AllocError>
    ensures heard { IfOk result IsHeard }
    ensures same { IfOk result (GivesSome (Some bytes)) }
    ensures never { IfOk result (λ turn. turn ≢ Turn.Omit) }
{
    if is_reply(alloc, &bytes)? {
        Ok(Turn::Replace(bytes))
    } else {
        Ok(Turn::Stop)
    }
}

/// This text as what a client hears, if it is a reply.
fn replaced(alloc: Global, text: Option<Vec<u8>>) -> Result<Turn, AllocError>
    ensures heard { IfOk result IsHeard }
    ensures same { IfOk result (GivesSome text) }
{
    let Some(bytes) = text else {
        return Ok(Turn::Omit);
    };
    if is_reply(alloc, &bytes)? {
        Ok(Turn::Replace(bytes))
    } else {
        Ok(Turn::Omit)
    }
}

/// Whether these bytes are a reply.
fn is_reply(alloc: Global, bytes: &[u8]) -> Result<bool, AllocError>
    ensures { IfOk result (λ is. is ≡ true → IsSpelled bytes.now) }
{
    match reply_of(alloc, bytes)? {
        Some(_) => Ok(true),
        None => Ok(false),
    }
}
