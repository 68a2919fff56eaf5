//! Reading of replies.

ghost use Rattle.wire_reader.specs.Reading.{mapped};
ghost use Rattle.wire_reader.specs.Given.{Gives, GivesOr};
ghost use Rattle.wire_reader.specs.Answers.{Answers, TakesEach, WaitsForMore, NoneBeginsAnother};
ghost use Rattle.wire_reader.specs.declared.side.Speaker.TheVariants.{Replies};
ghost use Rattle.imap_replies.specs.Replies.{seen, ReplyText};
ghost use Rattle.imap_replies.specs.ReplyReading.{flags, flags_line_at, continue_at, status_at, tagged_at, notice_at};
ghost use Rattle.imap_replies.specs.ReplyReading.{known_at, event_line_at, numbered_at, untagged_at, reply_at};

use crate::event::{Event, read_event};
use crate::fetch::read_fetch;
use crate::head::{Head, read_head};
use crate::lines::{read_names_line, read_rest};
use crate::listing::list;
use crate::reply::Reply;
use crate::response::read_response;
use crate::word::{NoticeKind, ReplyWord, Status};
use std::alloc::Global;
use wire_reader::answer::{Read, WireFault, answered, kept, within};
use wire_reader::keyword::{either, keyed};
use wire_reader::punctuation::{byte, crlf};
use wire_reader::stop::{ReadError, Stop};
use wire_strings::line_text::read_line_text;
use wire_tokens::flag_list::read_flags;
use wire_tokens::tag::read_tag;

/// Reads a reply, if one stands at the front of the bytes; at most 65536 of its bytes may stand outside literals.
///
/// `Whole` has the reply and the number of its bytes; `Partial` means that the bytes begin one. `WireFault`: no reply begins so, at which
/// byte, or memory ran out.
pub fn read_reply(alloc: Global, bytes: &[u8]) -> Result<Read<Reply<'_>>, WireFault>
    ensures answers { Answers Replies seen ReplyText bytes.now result }
    ensures takes { TakesEach seen ReplyText bytes.now result }
    ensures waits { WaitsForMore ReplyText bytes.now result }
{
    match kept(answered(read_unlimited(alloc, bytes), bytes.len()), bytes) {
        Ok(answer) => answer,
        Err(end) => within(answered(read_unlimited(alloc, &bytes[..end]), end), end),
    }
}

/// No spelling of a reply begins another one.
pub fn none_begins_another()
    ensures { NoneBeginsAnother ReplyText }
{}

/// Reads a reply, without the limit on the bytes of a line.
#[tactic(auto, unfolding(crate::specs::ReplyReading::reply_at))]
pub(crate) fn read_unlimited(alloc: Global, bytes: &[u8]) -> Result<(Reply<'_>, &[u8]), ReadError>
    ensures { GivesOr (λ r. (r.0, r.1.now)) result (reply_at bytes.now) }
{
    match bytes {
        [] => Err(ReadError::At(Stop::Ends(None))),
        [b'+', ..] => Ok(continued(bytes)?),
        [b'*', ..] => untagged(alloc, bytes),
        _ => Ok(tagged(bytes)?),
    }
}

/// `+ text`
#[tactic(auto, unfolding(crate::specs::ReplyReading::continue_at))]
fn continued(bytes: &[u8]) -> Result<(Reply<'_>, &[u8]), Stop>
    ensures { Gives (λ r. (r.0, r.1.now)) result (continue_at bytes.now) }
{
    let rest = byte(b' ', byte(b'+', bytes)?)?;
    let (text, rest) = read_line_text(rest)?;
    Ok((Reply::Continue(text), rest))
}

/// A tag, and how its command ended.
#[tactic(auto, unfolding(crate::specs::ReplyReading::tagged_at))]
fn tagged(bytes: &[u8]) -> Result<(Reply<'_>, &[u8]), Stop>
    ensures { Gives (λ r. (r.0, r.1.now)) result (tagged_at bytes.now) }
{
    let (tag, rest) = match read_tag(bytes) {
        Ok(read) => read,
        Err(stop) => return Err(stop),
    };
    let (status, rest) = read_status(byte(b' ', rest)?)?;
    let (text, rest) = read_response(byte(b' ', rest)?)?;
    Ok((Reply::Tagged(tag, status, text), rest))
}

fn read_status(bytes: &[u8]) -> Result<(Status, &[u8]), Stop>
    ensures { Gives (λ r. (r.0, r.1.now)) result (status_at bytes.now) }
{
    either(
        keyed(Status::Ok, b"OK", bytes),
        either(
            keyed(Status::No, b"NO", bytes),
            keyed(Status::Bad, b"BAD", bytes),
        ),
    )
}

/// What follows `* `, by its word or number.
#[tactic(auto, unfolding(crate::specs::ReplyReading::untagged_at))]
fn untagged(alloc: Global, bytes: &[u8]) -> Result<(Reply<'_>, &[u8]), ReadError>
    ensures { GivesOr (λ r. (r.0, r.1.now)) result (untagged_at bytes.now) }
{
    let rest = byte(b' ', byte(b'*', bytes)?)?;
    let (head, rest) = read_head(rest)?;
    match head {
        Head::Number(number) => numbered(alloc, number, rest),
        Head::Known(word) => Ok(known(word, rest)?),
        Head::Other(word) => {
            let (text, rest) = read_rest(rest)?;
            Ok((Reply::Other(word, text), rest))
        }
    }
}

/// What follows a number.
#[tactic(auto, unfolding(crate::specs::ReplyReading::numbered_at))]
fn numbered(alloc: Global, number: u32, bytes: &[u8]) -> Result<(Reply<'_>, &[u8]), ReadError>
    ensures { GivesOr (λ r. (r.0, r.1.now)) result (numbered_at number bytes.now) }
{
    let (event, rest) = read_event(number, byte(b' ', bytes)?)?;
    event_line(alloc, number, event, rest)
}

/// What follows a number and an event.
#[tactic(auto, unfolding(crate::specs::ReplyReading::event_line_at))]
fn event_line<'a>(
    alloc: Global,
    number: u32,
    event: Event<'a>,
    bytes: &'a [u8],
) -> Result<(Reply<'a>, &'a [u8]), ReadError>
    ensures { GivesOr (λ r. (r.0, r.1.now)) result (event_line_at number event.entry bytes.now) }
{
    match event {
        Event::Exists => Ok((Reply::Exists(number), crlf(bytes)?)),
        Event::Expunge(message) => Ok((Reply::Expunge(message), crlf(bytes)?)),
        Event::Fetch(message) => {
            let (items, rest) = read_fetch(alloc, bytes)?;
            Ok((Reply::Fetch(message, items), rest))
        }
        Event::Other(event) => {
            let (text, rest) = read_rest(bytes)?;
            Ok((Reply::OtherNumbered(number, event, text), rest))
        }
    }
}

/// What follows a word with a line of its own.
#[tactic(auto, unfolding(crate::specs::ReplyReading::known_at))]
fn known(word: ReplyWord, bytes: &[u8]) -> Result<(Reply<'_>, &[u8]), Stop>
    ensures { Gives (λ r. (r.0, r.1.now)) result (known_at word bytes.now) }
{
    match word {
        ReplyWord::Ok => notice(NoticeKind::Ok, bytes),
        ReplyWord::No => notice(NoticeKind::No, bytes),
        ReplyWord::Bad => notice(NoticeKind::Bad, bytes),
        ReplyWord::Bye => notice(NoticeKind::Bye, bytes),
        ReplyWord::Preauth => notice(NoticeKind::Preauth, bytes),
        ReplyWord::Capability => {
            let (names, rest) = read_names_line(bytes)?;
            Ok((Reply::Capability(names), rest))
        }
        ReplyWord::Enabled => {
            let (names, rest) = read_names_line(bytes)?;
            Ok((Reply::Enabled(names), rest))
        }
        ReplyWord::List => list(bytes),
        ReplyWord::Flags => flags_line(bytes),
    }
}

fn notice(kind: NoticeKind, bytes: &[u8]) -> Result<(Reply<'_>, &[u8]), Stop>
    ensures { Gives (λ r. (r.0, r.1.now)) result (notice_at kind bytes.now) }
{
    let (text, rest) = read_response(byte(b' ', bytes)?)?;
    Ok((Reply::Notice(kind, text), rest))
}

/// What follows FLAGS.
#[tactic(auto, unfolding(crate::specs::ReplyReading::flags_line_at))]
fn flags_line(bytes: &[u8]) -> Result<(Reply<'_>, &[u8]), Stop>
    ensures { Gives (λ r. (r.0, r.1.now)) result (mapped flags flags_line_at bytes.now) }
{
    let (flags, rest) = read_flags(byte(b' ', bytes)?)?;
    Ok((Reply::Flags(flags), crlf(rest)?))
}
