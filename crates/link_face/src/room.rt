//! How much a server may send in answer to one command.

ghost use Rattle.std.specs.Prelude.{◌≡◌, ◌+◌, ◌<◌, true, false, IfOk};
ghost use Rattle.imap_link.specs.UsedReplies.{is_of_opening, is_used};
ghost use Rattle.link_face.specs.Rooms.{whole_room, every_use, is_numbered, part_of, Counts, CountsReply};

use crate::head::{ReplyHead, head_of};
use crate::row::FetchRow;
use crate::turning::reply_of;
use imap_replies::reply::Reply;
use imap_replies::response::{Code, ResponseText};
use imap_replies::word::NoticeKind;
use memchr::memchr;
use std::alloc::{AllocError, Global};

/// The most bytes of LIST replies: those of some hundred thousand mailboxes.
const NAMES_MAX: usize = 16_777_216;

/// The most bytes of FETCH replies with a whole message: two of the longest.
const MESSAGES_MAX: usize = 33_685_548;

/// The most bytes of other replies that a call may keep, as CAPABILITY and what a status response says of the selected mailbox.
const OTHERS_MAX: usize = 1_048_576;

/// How many bytes may still come of those replies to a command that a client may keep until the tagged one. Rows of a listing are none
/// of them, nor are notices, however many there are.
#[derive(Clone, Copy)]
pub(crate) struct Room {
    /// Of LIST replies.
    pub(crate) names: usize,
    /// Of FETCH replies with a whole message.
    pub(crate) messages: usize,
    /// Of other replies that a call may keep.
    pub(crate) others: usize,
}

impl Room {
    /// That of a command to which no reply has come.
    pub(crate) fn whole() -> Room
        ensures { result ≡ whole_room }
    {
        Room {
            names: NAMES_MAX,
            messages: MESSAGES_MAX,
            others: OTHERS_MAX,
        }
    }

    /// Counts a reply that is handed out; false where there is no room for it.
    ///
    /// `AllocError`: memory ran out.
    pub(crate) fn take(&mut self, alloc: Global, bytes: &[u8]) -> Result<bool, AllocError>
        ensures { IfOk result (CountsReply bytes.now self.old self.new) }
    {
        if is_numbered(bytes) {
            return Ok(!has_message(bytes) || spend(&mut self.messages, bytes.len()));
        }
        match reply_of(alloc, bytes)? {
            Some(reply) => Ok(self.take_reply(&reply, bytes.len())),
            None => Ok(true),
        }
    }

    /// Counts a reply of so many bytes and without a number; false where there is no room for it.
    fn take_reply(&mut self, reply: &Reply<'_>, len: usize) -> bool
        ensures { Counts (is_used every_use reply.now) (part_of reply.now) len self.old self.new result }
    {
        if !may_be_kept(reply) {
            return true;
        }
        match reply {
            Reply::List(..) => spend(&mut self.names, len),
            _ => spend(&mut self.others, len),
        }
    }
}

/// Takes so many of the bytes that are left; false, and none are taken, where there are fewer.
fn spend(left: &mut usize, len: usize) -> bool
    ensures enough { result ≡ true → left.new + len ≡ left.old }
    ensures none { result ≡ false → left.old < len }
{
    match left.checked_sub(len) {
        Some(rest) => {
            *left = rest;
            true
        }
        None => false,
    }
}

/// Whether one of the calls keeps this reply until it has read the tagged one (`imap_link::uses`).
fn may_be_kept(reply: &Reply<'_>) -> bool
    ensures { result ≡ is_used every_use reply.now }
{
    match reply {
        Reply::Continue(_) | Reply::Tagged(..) => true,
        Reply::Capability(_) | Reply::List(..) | Reply::Fetch(..) => true,
        Reply::Notice(NoticeKind::Ok, ResponseText::Coded(code, _)) => is_of_opening(code),
        _ => false,
    }
}

/// Whether a code says something of the mailbox that is selected (RFC 9051, section 7.1).
fn is_of_opening(code: &Code<'_>) -> bool
    ensures { result ≡ is_of_opening code.now }
{
    matches!(
        code,
        Code::UidNext(_) | Code::UidValidity(_) | Code::PermanentFlags(..) | Code::ReadOnly
    )
}

/// Whether a number follows the star and the space.
fn is_numbered(raw: &[u8]) -> bool
    ensures { result ≡ is_numbered raw.now }
{
    match raw {
        [_, _, b, ..] => b.is_ascii_digit(),
        _ => false,
    }
}

/// Whether a reply with a number is a FETCH reply with a whole message. The name of that item ends with a bracket, so a row of a listing,
/// which has none, is not read here.
fn has_message(raw: &[u8]) -> bool {
    if memchr(b']', raw).is_none() {
        return false;
    }
    match head_of(raw) {
        ReplyHead::Numbered(_, event, rest) if event.eq_ignore_ascii_case(b"FETCH") => {
            FetchRow::read(rest).is_some_and(|row| row.has_message())
        }
        _ => false,
    }
}
