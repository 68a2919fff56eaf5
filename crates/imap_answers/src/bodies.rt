//! The bytes of one message, as replies to UID FETCH report them (RFC 9051, section 7.5.2).

ghost use Rattle.std.specs.Prelude.{◌≡◌, ◌≤◌, ◌+◌, List, None, Some, length, take, drop, IfOk, IfErr, IfSome};
ghost use Rattle.std.specs.Option.{option_map};
ghost use Rattle.imap_replies.specs.declared.reply.Reply.{Reply};
ghost use Rattle.imap_session.specs.Heard.{AreReplies};
ghost use Rattle.imap_answers.specs.Bodies.{bodies_more, body_at, body_bytes, body_in, body_reported, found_at, is_reported};
ghost use Rattle.imap_answers.specs.Fetching.{uid_of};
ghost use Rattle.imap_answers.specs.Readings.{ReadsAs, IsReadFault};
ghost use Rattle.imap_answers.specs.Spoken.{Speaks};

use crate::reading::first_reply;
use crate::reported::uid_of;
use imap_link::fault::FarFault;
use imap_replies::fetch::FetchItem;
use imap_replies::reply::Reply;
use mailcore::uid::Uid;
use std::alloc::{AllocError, Global};
use wire_reader::scanner::Scanner;
use wire_strings::string::WireString;

/// The bytes of a message that replies report.
#[derive(Drop)]
pub enum FoundBody {
    /// They stand among the bytes of the replies.
    At {
        /// Where they begin.
        from: usize,
        /// How many they are.
        len: usize,
    },
    /// A copy: they were reported between quotes.
    Copied(Vec<u8>),
}

impl FoundBody {
    /// The bytes themselves, where these are the bytes of the replies.
    pub fn lent<'a>(&'a self, bytes: &'a [u8]) -> &'a [u8]
        ensures { result.now ≡ body_at self.now bytes.now }
    {
        match self {
            FoundBody::At { from, len } => {
                let following = &bytes[(*from).min(bytes.len())..];
                &following[..(*len).min(following.len())]
            }
            FoundBody::Copied(copy) => copy.as_slice(),
        }
    }
}

/// Where the bytes of the message with this UID are, or none if the replies in these bytes do not report them. Of two replies the later
/// counts.
///
/// `Protocol`: they are reported as NIL, or quoted with a backslash. `NoMemory`.
pub fn body_reported(alloc: Global, bytes: &[u8], uid: Uid) -> Result<Option<FoundBody>, FarFault>
    requires { Speaks bytes.now }
    ensures reported { (rs : List Reply) → AreReplies rs bytes.now → ReadsAs (found_at bytes.now) result (body_reported uid rs) }
    ensures err { IfErr result IsReadFault }
{
    let mut found = None;
    let mut done = 0;
    for _ in 0..=bytes.len() {
        if done == bytes.len() {
            return Ok(found);
        }
        let (reply, len) = first_reply(alloc, &bytes[done..])?;
        if let Some(octets) = body_of(&reply, uid)? {
            found = Some(found_in(alloc, bytes, done, len, octets)?);
        }
        done += len;
    }
    Err(FarFault::NoMemory)
}

/// Where these octets are in the bytes. The reply at a place reports them as a literal or between quotes.
///
/// `AllocError`: memory ran out.
fn found_in(
    alloc: Global,
    bytes: &[u8],
    start: usize,
    len: usize,
    octets: &[u8],
) -> Result<FoundBody, AllocError>
    requires { start + len ≤ length bytes.now }
    ensures { IfOk result (λ found. body_at found bytes.now ≡ octets.now) }
{
    match place_of(&bytes[start..start + len], octets) {
        Some(place) => Ok(FoundBody::At {
            from: start + place,
            len: octets.len(),
        }),
        None => Ok(FoundBody::Copied(Vec::from_slice(alloc, octets)?)),
    }
}

/// Where these octets stand in the text of a reply as a literal.
fn place_of(text: &[u8], octets: &[u8]) -> Option<usize>
    ensures { IfSome result (λ place. (place ≤ length text.now) × (take (length octets.now) (drop place text.now) ≡ octets.now)) }
{
    let mut scanner = Scanner::new();
    let mut done = 0;
    for _ in 0..=text.len() {
        done = next_place(&mut scanner, text, done)?;
        if scanner.owed() as usize == octets.len() && text[done..].starts_with(octets) {
            return Some(done);
        }
    }
    None
}

/// The end of the text up to and with the next place of the scanner, which has scanned so much of it.
fn next_place(scanner: &mut Scanner, text: &[u8], done: usize) -> Option<usize>
    requires { done ≤ length text.now }
    ensures { IfSome result (λ place. place ≤ length text.now) }
{
    let count = scanner.advance(&text[done..])?;
    Some(done + count)
}

/// The bytes that a reply reports of the message with this UID, if it reports them.
///
/// `Protocol`: it reports them as NIL, or quoted with a backslash.
fn body_of<'a>(reply: &'a Reply<'_>, uid: Uid) -> Result<Option<&'a [u8]>, FarFault>
    ensures reported { ReadsAs (option_map (λ b. b.now)) result (bodies_more uid (Some None) reply.now) }
{
    match reply {
        Reply::Fetch(_, items) if is_reported(items.items(), uid) => body_in(items.items()),
        _ => Ok(None),
    }
}

/// Whether these items are about the message with this UID.
fn is_reported(items: &[FetchItem<'_>], uid: Uid) -> bool
    ensures { result ≡ is_reported uid (uid_of items.now) }
{
    match uid_of(items) {
        Some(reported) => reported == uid.get(),
        None => false,
    }
}

/// The bytes that these items report, if they report them.
fn body_in<'a>(items: &'a [FetchItem<'_>]) -> Result<Option<&'a [u8]>, FarFault>
    ensures reported { ReadsAs (option_map (λ b. b.now)) result (body_in (Some None) items.now) }
{
    let mut body = None;
    for item in items {
        if let FetchItem::Body(string) = item {
            let Some(bytes) = body_bytes(string) else {
                return Err(FarFault::Protocol);
            };
            body = Some(bytes);
        }
    }
    Ok(body)
}

/// The bytes of a body, or none where it is NIL or quoted with a backslash.
fn body_bytes<'a>(body: &Option<WireString<'a>>) -> Option<&'a [u8]>
    ensures { option_map (λ b. b.now) result ≡ body_bytes body.now }
{
    match body {
        Some(WireString::Literal(octets)) => Some(octets.bytes()),
        Some(WireString::Quoted(quoted)) => {
            if quoted.has_escapes() {
                None
            } else {
                Some(quoted.raw())
            }
        }
        None => None,
    }
}
