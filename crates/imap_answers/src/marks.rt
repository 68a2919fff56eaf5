//! Where replies to UID FETCH show a mark: the mark of a message is in its first 22 octets (RFC 9051, section 6.4.5).

ghost use Rattle.std.specs.Prelude.{◌≡◌, ◌<◌, ◌≤◌, ℕ, List, length, All, IfErr, OnOk};
ghost use Rattle.std.specs.List.{list_any};
ghost use Rattle.mailcore.specs.declared.mailbox.Message.{Message};
ghost use Rattle.mailcore.specs.Content.{mark_of};
ghost use Rattle.mailcore.specs.Passed.{ArePassed, IsOneOf};
ghost use Rattle.imap_replies.specs.declared.reply.Reply.{Reply};
ghost use Rattle.wire_strings.specs.Quotes.{unescaped};
ghost use Rattle.imap_answers.specs.Markings.{is_long, is_long_head, has_long_head, bears, marked_uid, lesser, uid_found, mark_found, new_search, Sought};
ghost use Rattle.imap_answers.specs.Readings.{ReadsAs, IsReadFault};
ghost use Rattle.imap_answers.specs.Showing.{reach};

use crate::reported::uid_of;
use crate::shown::{ShownMarks, mark_shown};
use imap_link::fault::FarFault;
use imap_link::sink::ReplySink;
use imap_replies::fetch::FetchItem;
use imap_replies::reply::Reply;
use mailcore::passed_marks::PassedMarks;
use mailcore::tuid::Tuid;
use mailcore::uid::Uid;
use std::alloc::{AllocError, Global};
use wire_strings::string::WireString;

/// How many octets of each message are asked for.
const HEAD_SIZE: usize = 22;

/// The search for the least UID of at least `from` under which a reply shows the mark. It is given the replies as they are heard, and keeps
/// none: of all marks that are shown it keeps 12 bytes each.
#[derive(Drop)]
pub struct MarkSearch {
    mark: Tuid,
    from: u32,
    // A reply showed more octets of a message than were asked for.
    is_long: bool,
    // The least UID so far.
    least: Option<u32>,
    shown: ShownMarks,
}

impl MarkSearch {
    /// One that was given no reply.
    pub fn new(alloc: Global, mark: Tuid, from: u32) -> MarkSearch
        ensures { result ≡ new_search mark from }
    {
        MarkSearch {
            mark,
            from,
            is_long: false,
            least: None,
            shown: ShownMarks::new(alloc),
        }
    }

    /// The UID that was found. The search went past all messages from `from` on up to the greatest UID that was shown, and `passed` notes
    /// them. It stays below `next`, the next UID of the mailbox as far as it is known.
    ///
    /// `Protocol`: a reply shows more octets than were asked for, or the UID is 4294967295.
    pub fn end(&self, passed: &mut PassedMarks, next: u32) -> Result<Option<Uid>, FarFault>
        ensures reported { (mark : List ℕ) (from : ℕ) (rs : List Reply) → Sought mark from rs self.now → ReadsAs (λ uid. uid) result (mark_found mark from rs) }
        ensures err { IfErr result IsReadFault }
        ensures passed { (known : ℕ) (messages : List Message) → next ≤ known → ArePassed known messages passed.old
            → All (λ m. passed.old.below ≤ m.uid → m.uid < reach next self.now.shown.top → IsOneOf self.now.shown.marks (mark_of m.bytes)) messages
            → OnOk result (ArePassed known messages passed.new) }
    {
        let found = self.found()?;
        self.shown.pass(passed, next)?;
        Ok(found)
    }

    // The UID that was found.
    fn found(&self) -> Result<Option<Uid>, FarFault>
        ensures reported { (mark : List ℕ) (from : ℕ) (rs : List Reply) → Sought mark from rs self.now → ReadsAs (λ uid. uid) result (mark_found mark from rs) }
        ensures err { IfErr result IsReadFault }
    {
        if self.is_long {
            return Err(FarFault::Protocol);
        }
        uid_found(self.least)
    }
}

impl ReplySink for MarkSearch {
    ghost use Rattle.imap_answers.specs.Markings.{TookHeads};
    ghost use Rattle.std.specs.Prelude.{refl};

    ghost took = { TookHeads };

    ghost none = { λ _. refl };

    fn take(&mut self, reply: &Reply<'_>) -> Result<(), AllocError> {
        self.is_long = self.is_long || has_long_head(reply);
        self.least = lesser(self.least, marked_uid(reply, self.mark, self.from));
        self.shown.add(reply, self.from)
    }
}

/// Whether a reply shows more octets of a message than were asked for.
fn has_long_head(reply: &Reply<'_>) -> bool
    ensures { result ≡ has_long_head reply.now }
{
    match reply {
        Reply::Fetch(_, items) => any_long_head(items.items()),
        _ => false,
    }
}

fn any_long_head(items: &[FetchItem<'_>]) -> bool
    ensures { result ≡ list_any is_long_head items.now }
{
    items.iter().any(|item| is_long_head(item))
}

/// Whether an item is the beginning of a message, with more octets than were asked for.
fn is_long_head(item: &FetchItem<'_>) -> bool
    ensures { result ≡ is_long_head item.now }
{
    match item {
        FetchItem::Head(head) => is_long(head),
        _ => false,
    }
}

/// Whether a string has more octets than were asked for.
fn is_long(string: &Option<WireString<'_>>) -> bool
    ensures { result ≡ is_long string.now }
{
    match string {
        Some(WireString::Literal(octets)) => octets.bytes().len() > HEAD_SIZE,
        Some(WireString::Quoted(quoted)) => value_len(quoted.raw()) > HEAD_SIZE,
        None => false,
    }
}

/// How many octets a quoted string has: the backslashes before `"` and `\` do not count (RFC 9051, section 4.3).
fn value_len(raw: &[u8]) -> usize
    ensures { result ≡ length (unescaped raw.now) }
{
    let mut count = 0;
    let mut after_slash = false;
    for b in raw {
        if !after_slash && *b == b'\\' {
            after_slash = true;
        } else {
            count += 1;
            after_slash = false;
        }
    }
    count
}

fn lesser(a: Option<u32>, b: Option<u32>) -> Option<u32>
    ensures { result ≡ lesser a b }
{
    match (a, b) {
        (Some(a), Some(b)) => Some(a.min(b)),
        (None, b) => b,
        (a, None) => a,
    }
}

/// The UID of a reply that shows the mark, if it is at least `from`.
fn marked_uid(reply: &Reply<'_>, mark: Tuid, from: u32) -> Option<u32>
    ensures { result ≡ marked_uid mark from reply.now }
{
    let Reply::Fetch(_, items) = reply else {
        return None;
    };
    let uid = uid_of(items.items())?;
    if uid >= from && any_bears(items.items(), mark) {
        Some(uid)
    } else {
        None
    }
}

fn any_bears(items: &[FetchItem<'_>], mark: Tuid) -> bool
    ensures { result ≡ list_any (bears mark) items.now }
{
    items.iter().any(|item| bears(item, mark))
}

/// Whether an item is the beginning of a message with this mark.
fn bears(item: &FetchItem<'_>, mark: Tuid) -> bool
    ensures { result ≡ bears mark item.now }
{
    mark_shown(item) == Some(mark)
}

/// The UID that was found. `Protocol`: it is 4294967295.
fn uid_found(found: Option<u32>) -> Result<Option<Uid>, FarFault>
    ensures { ReadsAs (λ uid. uid) result (uid_found found) }
{
    match found {
        None => Ok(None),
        Some(number) => match Uid::new(number) {
            Some(uid) => Ok(Some(uid)),
            None => Err(FarFault::Protocol),
        },
    }
}
