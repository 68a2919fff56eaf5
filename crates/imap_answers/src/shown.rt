//! Of which messages replies to UID FETCH show the beginning, and which marks stand there.

ghost use Rattle.std.specs.Prelude.{◌≡◌, ◌<◌, ◌≤◌, ℕ, List, All, OnOk};
ghost use Rattle.std.specs.List.{fold, list_any};
ghost use Rattle.mailcore.specs.declared.mailbox.Message.{Message};
ghost use Rattle.mailcore.specs.Content.{mark_of};
ghost use Rattle.mailcore.specs.Passed.{ArePassed, IsOneOf};
ghost use Rattle.imap_answers.specs.Showing.{greater, is_head, mark_shown, mark_reported, marks_more, nothing_shown, reach, shown_more, uid_shown};

use crate::reported::uid_of;
use imap_replies::fetch::FetchItem;
use imap_replies::reply::Reply;
use mailcore::copies::mark_of;
use mailcore::passed_marks::PassedMarks;
use mailcore::tuid::Tuid;
use std::alloc::{AllocError, Global};
use std::marker::Model;
use wire_strings::string::WireString;

/// What the replies to a search for a mark show: 12 bytes for each mark.
#[derive(Drop)]
pub struct ShownMarks {
    // The greatest UID from where the search began whose message was shown.
    top: Option<u32>,
    // The marks of all messages.
    marks: Vec<Tuid>,
}

impl Model for ShownMarks {
    ghost use Rattle.imap_answers.specs.Showing.{Shown};

    ghost Value = { Shown };

    ghost view = { λ shown. record { top = shown.top; marks = shown.marks.items } };
}

impl ShownMarks {
    /// Nothing.
    pub fn new(alloc: Global) -> ShownMarks
        ensures { result ≡ nothing_shown }
    {
        ShownMarks {
            top: None,
            marks: Vec::new(alloc),
        }
    }

    /// Adds what a reply shows. The UID counts if it is at least `from`.
    ///
    /// `AllocError`: memory ran out.
    pub fn add(&mut self, reply: &Reply<'_>, from: u32) -> Result<(), AllocError>
        ensures { OnOk result (self.new ≡ shown_more from self.old reply.now) }
    {
        let Reply::Fetch(_, items) = reply else {
            return Ok(());
        };
        self.top = greater(self.top, uid_shown(items.items(), from));
        add_marks(&mut self.marks, items.items())
    }

    /// A search went past the messages that were shown, up to the greatest UID of at least where it began, and below `next`.
    ///
    /// `AllocError`: memory ran out.
    pub fn pass(&self, passed: &mut PassedMarks, next: u32) -> Result<(), AllocError>
        ensures { (known : ℕ) (messages : List Message) → next ≤ known → ArePassed known messages passed.old
            → All (λ m. passed.old.below ≤ m.uid → m.uid < reach next self.now.top → IsOneOf self.now.marks (mark_of m.bytes)) messages
            → OnOk result (ArePassed known messages passed.new) }
    {
        passed.pass_all(self.marks.as_slice(), reach(self.top, next))
    }
}

/// The UID after those that were shown, at most the next one.
fn reach(top: Option<u32>, next: u32) -> u32
    ensures { result ≡ reach next top }
{
    match top {
        Some(top) if top < next => top + 1,
        Some(_) => next,
        None => 0,
    }
}

fn greater(a: Option<u32>, b: Option<u32>) -> Option<u32>
    ensures { result ≡ greater a b }
{
    match (a, b) {
        (Some(a), Some(b)) => Some(a.max(b)),
        (None, b) => b,
        (a, None) => a,
    }
}

/// The UID of the message whose beginning these items show, if it is at least `from`.
fn uid_shown(items: &[FetchItem<'_>], from: u32) -> Option<u32>
    ensures { result ≡ uid_shown from items.now }
{
    let uid = uid_of(items)?;
    if uid >= from && any_head(items) {
        Some(uid)
    } else {
        None
    }
}

fn any_head(items: &[FetchItem<'_>]) -> bool
    ensures { result ≡ list_any is_head items.now }
{
    items.iter().any(|item| is_head(item))
}

/// Whether an item is the beginning of a message.
fn is_head(item: &FetchItem<'_>) -> bool
    ensures { result ≡ is_head item.now }
{
    matches!(item, FetchItem::Head(_))
}

/// Adds the marks that these items show.
fn add_marks(marks: &mut Vec<Tuid>, items: &[FetchItem<'_>]) -> Result<(), AllocError>
    ensures { OnOk result (marks.new.items ≡ fold marks_more marks.old.items items.now) }
{
    for item in items {
        if let Some(mark) = mark_shown(item) {
            marks.push(mark)?;
        }
    }
    Ok(())
}

/// The mark that an item shows.
pub(crate) fn mark_shown(item: &FetchItem<'_>) -> Option<Tuid>
    ensures { result ≡ mark_shown item.now }
{
    match item {
        FetchItem::Head(head) => mark_reported(head),
        _ => None,
    }
}

/// The mark that the beginning of a message bears.
fn mark_reported(head: &Option<WireString<'_>>) -> Option<Tuid>
    ensures { result ≡ mark_reported head.now }
{
    match head {
        Some(WireString::Literal(octets)) => mark_of(octets.bytes()),
        Some(WireString::Quoted(quoted)) => mark_of(quoted.raw()),
        None => None,
    }
}
