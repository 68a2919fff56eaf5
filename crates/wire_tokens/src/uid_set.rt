//! Sets of UIDs (RFC 9051, section 9: sequence-set).

ghost use Rattle.std.specs.Prelude.{◌≡◌, ◌<◌, ◌∷◌, [], length, IsTrue, ◌↔◌, None, Some, OnOk, OnErr, IfOk, SomeIff};
ghost use Rattle.wire_reader.specs.Given.{Gives, GivesOr};
ghost use Rattle.wire_reader.specs.Listing.{ended_by};
ghost use Rattle.wire_reader.specs.Spelling.{is_digit};
ghost use Rattle.wire_tokens.specs.Writing.{Appended, Extended};
ghost use Rattle.wire_tokens.specs.Sets.{EndText, ItemText, SetText, end_of, ItemNames, Names, item_names};
ghost use Rattle.wire_tokens.specs.Sets.{names, NamesAreTested, end_at, second_at, item_at, set_at};

use crate::number::{NonZero, nz};
use mailcore::uid::Uid;
use std::alloc::{AllocError, Global};
use std::marker::Model;
use wire_reader::punctuation::{byte, separator};
use wire_reader::stop::{Kind, ReadError, Stop};

/// One end of a range, or a UID alone.
#[derive(Drop, PartialEq, Eq)]
pub enum SetEnd {
    /// This number.
    Number(NonZero),
    /// `*`: the greatest UID of the mailbox.
    Greatest,
}

/// A part of a set.
#[derive(Drop, PartialEq, Eq)]
pub enum SetItem {
    /// One UID.
    One(SetEnd),
    /// The UIDs from one end to the other, of which either may be the lower.
    Range(SetEnd, SetEnd),
}

/// A set of UIDs: one or more items.
#[derive(Drop)]
pub struct UidSet {
    items: Vec<SetItem>,
}

impl Model for UidSet {
    ghost use Rattle.std.specs.Prelude.{List, ◌<◌, length};
    ghost use Rattle.wire_tokens.specs.declared.uid_set.SetItem.{SetItem};

    ghost Value = { List SetItem };

    ghost view = { λ set. set.items.items };

    ghost invariant = { λ set. 0 < length set.items.items };
}

impl UidSet {
    /// The set of these items, or none where there is none.
    pub fn new(items: Vec<SetItem>) -> Option<UidSet>
        ensures { SomeIff result (0 < length items.items) items.items }
    {
        if items.is_empty() {
            None
        } else {
            Some(UidSet { items })
        }
    }

    /// The set of this UID alone. `AllocError`: memory ran out.
    pub fn one(alloc: Global, uid: Uid) -> Result<UidSet, AllocError>
        ensures { IfOk result (λ set. set ≡ SetItem.One (SetEnd.Number uid) ∷ []) }
    {
        let mut items = Vec::new(alloc);
        items.push(SetItem::One(SetEnd::Number(NonZero::from(uid))))?;
        Ok(UidSet { items })
    }

    /// The items of the set, of which there is at least one.
    pub fn items(&self) -> &[SetItem]
        ensures items { result.now ≡ self.now }
        ensures some { 0 < length result.now }
    {
        self.items.as_slice()
    }

    /// Whether the set names this UID, where `greatest` is the greatest UID of the mailbox. In an empty mailbox, where
    /// there is none, it names nothing.
    pub fn names(&self, uid: Uid, greatest: Option<Uid>) -> bool
        ensures named { IsTrue result ↔ Names greatest self.now uid }
        // The same, as a test that computes.
        ensures test { result ≡ names greatest self.now uid }
    {
        match greatest {
            None => false,
            Some(greatest) => self
                .items
                .iter()
                .any(|item| item.names(uid.get(), greatest.get())),
        }
    }

    /// Appends the set. `AllocError`: memory ran out, and nothing was appended.
    pub fn write(&self, out: &mut Vec<u8>) -> Result<(), AllocError>
        ensures ok { OnOk result (Appended (SetText self.now) out.old.items out.new.items) }
        ensures err { OnErr result (out.new.items ≡ out.old.items) }
    {
        let start = out.len();
        let written = write_items(&self.items, out);
        if written.is_err() {
            out.truncate(start);
        }
        written
    }
}

impl SetItem {
    fn names(&self, uid: u32, greatest: u32) -> bool
        ensures named { IsTrue result ↔ ItemNames greatest uid self.now }
        ensures test { result ≡ item_names greatest uid self.now }
    {
        match self {
            SetItem::One(end) => uid == end.number(greatest),
            SetItem::Range(first, second) => {
                let (first, second) = (first.number(greatest), second.number(greatest));
                (first <= uid && uid <= second) || (second <= uid && uid <= first)
            }
        }
    }

    fn write(&self, out: &mut Vec<u8>) -> Result<(), AllocError>
        ensures ok { OnOk result (Appended (ItemText self.now) out.old.items out.new.items) }
        ensures err { OnErr result (Extended out.old.items out.new.items) }
    {
        match self {
            SetItem::One(end) => end.write(out),
            SetItem::Range(first, second) => {
                first.write(out)?;
                out.extend_from_slice(b":")?;
                second.write(out)
            }
        }
    }
}

impl SetEnd {
    fn number(&self, greatest: u32) -> u32
        ensures { result ≡ end_of greatest self.now }
    {
        match self {
            SetEnd::Number(number) => number.get(),
            SetEnd::Greatest => greatest,
        }
    }

    fn write(&self, out: &mut Vec<u8>) -> Result<(), AllocError>
        ensures ok { OnOk result (Appended (EndText self.now) out.old.items out.new.items) }
        ensures err { OnErr result (out.new.items ≡ out.old.items) }
    {
        match self {
            SetEnd::Number(number) => number.write(out),
            SetEnd::Greatest => out.extend_from_slice(b"*"),
        }
    }
}

/// The test of what a set names says what the set names.
pub fn names_are_tested()
    ensures { NamesAreTested }
{}

/// Appends items with `,` between. Where memory runs out, a part of them may have been appended.
fn write_items(items: &[SetItem], out: &mut Vec<u8>) -> Result<(), AllocError>
    requires { 0 < length items.now }
    ensures ok { OnOk result (Appended (SetText items.now) out.old.items out.new.items) }
    ensures err { OnErr result (Extended out.old.items out.new.items) }
{
    for (i, item) in items.iter().enumerate() {
        if i > 0 {
            out.extend_from_slice(b",")?;
        }
        item.write(out)?;
    }
    Ok(())
}

/// Reads a set of UIDs; gives it and the bytes after it, of which the first is no digit, `:` or `,`.
pub fn uid_set(alloc: Global, bytes: &[u8]) -> Result<(UidSet, &[u8]), ReadError>
    ensures { GivesOr (λ r. (r.0, r.1.now)) result (set_at bytes.now) }
{
    let mut items = Vec::new(alloc);
    let mut rest = bytes;
    for _ in 0..=bytes.len() {
        let (item, after) = item(rest)?;
        items.push(item)?;
        match separator(b',', after)? {
            Some(next) => rest = next,
            None => return Ok((UidSet { items }, after)),
        }
    }
    Err(ReadError::At(Stop::Ends(None)))
}

/// An item of a set.
#[tactic(auto, unfolding(crate::specs::Sets::item_at))]
fn item(bytes: &[u8]) -> Result<(SetItem, &[u8]), Stop>
    ensures { Gives (λ r. (r.0, r.1.now)) result (item_at bytes.now) }
{
    let (first, rest) = end(bytes)?;
    match separator(b':', rest)? {
        Some(rest) => {
            let (second, rest) = second_end(rest)?;
            Ok((SetItem::Range(first, second), rest))
        }
        None => Ok((SetItem::One(first), rest)),
    }
}

/// The second end of a range, after which no `:` stands.
#[tactic(auto, unfolding(crate::specs::Sets::second_at))]
fn second_end(bytes: &[u8]) -> Result<(SetEnd, &[u8]), Stop>
    ensures { Gives (λ r. (r.0, r.1.now)) result (second_at bytes.now) }
{
    let (end, rest) = end(bytes)?;
    match rest {
        [] => Err(Stop::Ends(None)),
        [b':', ..] => Err(Stop::Fails(Kind::Syntax, rest.len())),
        _ => Ok((end, rest)),
    }
}

/// A number or `*`, after which no digit stands.
#[tactic(auto, unfolding(crate::specs::Sets::end_at))]
fn end(bytes: &[u8]) -> Result<(SetEnd, &[u8]), Stop>
    ensures { Gives (λ r. (r.0, r.1.now)) result (end_at bytes.now) }
{
    match bytes {
        [] => Err(Stop::Ends(None)),
        [b'*', rest @ ..] => after_star(rest),
        _ => {
            let (number, rest) = nz(bytes)?;
            Ok((SetEnd::Number(number), rest))
        }
    }
}

/// The end `*`, where these bytes follow it.
fn after_star(bytes: &[u8]) -> Result<(SetEnd, &[u8]), Stop>
    ensures { Gives (λ r. (r.0, r.1.now)) result (ended_by is_digit SetEnd.Greatest bytes.now) }
{
    match bytes {
        [] => Err(Stop::Ends(None)),
        [b, ..] => {
            if b.is_ascii_digit() {
                Err(Stop::Fails(Kind::Syntax, bytes.len()))
            } else {
                Ok((SetEnd::Greatest, bytes))
            }
        }
    }
}
