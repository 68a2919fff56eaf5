//! What a message has (RFC 9051, section 9: msg-att).

ghost use Rattle.std.specs.Prelude.{◌≡◌, ◌<◌, ◌∷◌, [], length};
ghost use Rattle.std.specs.Option.{SomeIff};
ghost use Rattle.wire_reader.specs.Given.{Gives, GivesOr};
ghost use Rattle.wire_reader.specs.Listing.{ended_by};
ghost use Rattle.wire_tokens.specs.Atoms.{is_atom_byte};
ghost use Rattle.wire_reader.specs.Words.{keys_at};
ghost use Rattle.imap_replies.specs.Words.{item_word};
ghost use Rattle.imap_replies.specs.Fetches.{item_word_at, item_value_at, item_at, item_list_at, fetch_at};

use crate::word::ItemWord;
use std::alloc::Global;
use std::marker::Model;
use wire_reader::keyword::{either, keyed};
use wire_reader::punctuation::{byte, crlf, separator};
use wire_reader::side::Speaker;
use wire_reader::stop::{Kind, ReadError, Stop};
use wire_strings::string::{WireString, read_nstring};
use wire_tokens::atom::is_atom_byte;
use wire_tokens::flag_list::{FlagNames, read_flags};
use wire_tokens::number::{NonZero, number, nz};

/// An item of a FETCH reply.
#[derive(Drop)]
pub enum FetchItem<'a> {
    /// `UID`
    Uid(NonZero),
    /// `FLAGS`
    Flags(FlagNames<'a>),
    /// `RFC822.SIZE`, in octets.
    Size(u32),
    /// `BODY[]`, the message; none where the server says NIL.
    Body(Option<WireString<'a>>),
    /// `BODY[]<0>`, the beginning of the message.
    Head(Option<WireString<'a>>),
}

/// The items of a FETCH reply, of which there is at least one.
#[derive(Drop)]
pub struct FetchList<'a> {
    items: Vec<FetchItem<'a>>,
}

impl<'a> Model for FetchList<'a> {
    ghost use Rattle.std.specs.Prelude.{List, ◌<◌, length};
    ghost use Rattle.imap_replies.specs.declared.fetch.FetchItem.{FetchItem};

    ghost Value = { List FetchItem };

    ghost view = { λ list. list.items.items };

    ghost invariant = { λ list. 0 < length list.items.items };
}

impl<'a> FetchList<'a> {
    /// The list of these items, or none where there is none.
    pub fn new(items: Vec<FetchItem<'a>>) -> Option<FetchList<'a>>
        ensures { SomeIff result (0 < length items.entry.items) items.entry.items }
    {
        if items.is_empty() {
            None
        } else {
            Some(FetchList { items })
        }
    }

    /// The items, of which there is at least one.
    pub fn items(&self) -> &[FetchItem<'a>]
        ensures items { result.now ≡ self.now }
        ensures some { 0 < length result.now }
    {
        &self.items
    }
}

/// Reads what follows FETCH, with the line end.
#[tactic(auto, unfolding(crate::specs::Fetches::fetch_at))]
pub(crate) fn read_fetch(alloc: Global, bytes: &[u8]) -> Result<(FetchList<'_>, &[u8]), ReadError>
    ensures { GivesOr (λ r. (r.0, r.1.now)) result (fetch_at bytes.now) }
{
    let rest = byte(b'(', byte(b' ', bytes)?)?;
    let (items, rest) = read_items(alloc, rest)?;
    let rest = crlf(byte(b')', rest)?)?;
    Ok((items, rest))
}

/// The items, with spaces between.
fn read_items(alloc: Global, bytes: &[u8]) -> Result<(FetchList<'_>, &[u8]), ReadError>
    ensures { GivesOr (λ r. (r.0, r.1.now)) result (item_list_at bytes.now) }
{
    let mut items = Vec::new(alloc);
    let mut rest = bytes;
    for _ in 0..=bytes.len() {
        let (item, after) = read_item(rest)?;
        items.push(item)?;
        match separator(b' ', after)? {
            Some(next) => rest = next,
            None => return Ok((FetchList { items }, after)),
        }
    }
    Err(ReadError::At(Stop::Ends(None)))
}

/// An item that no byte of an atom follows.
#[tactic(auto, unfolding(crate::specs::Fetches::item_at))]
fn read_item(bytes: &[u8]) -> Result<(FetchItem<'_>, &[u8]), Stop>
    ensures { Gives (λ r. (r.0, r.1.now)) result (item_at bytes.now) }
{
    let (word, rest) = item_word(bytes)?;
    item_value(word, rest)
}

/// The word of an item, with the space after it.
fn item_word(bytes: &[u8]) -> Result<(ItemWord, &[u8]), Stop>
    ensures { Gives (λ r. (r.0, r.1.now)) result (item_word_at bytes.now) }
{
    match keyed(ItemWord::Uid, b"UID ", bytes) {
        Ok(read) => Ok(read),
        stop => either(stop, later_word(bytes)),
    }
}

/// The same, of the words after UID.
fn later_word(bytes: &[u8]) -> Result<(ItemWord, &[u8]), Stop>
    ensures { Gives (λ r. (r.0, r.1.now)) result (keys_at item_word ItemWord.Flags (ItemWord.Size ∷ ItemWord.Body ∷ ItemWord.Head ∷ []) bytes.now) }
{
    match keyed(ItemWord::Flags, b"FLAGS ", bytes) {
        Ok(read) => Ok(read),
        stop => either(stop, size_or_body(bytes)),
    }
}

/// The same, of the words after FLAGS.
fn size_or_body(bytes: &[u8]) -> Result<(ItemWord, &[u8]), Stop>
    ensures { Gives (λ r. (r.0, r.1.now)) result (keys_at item_word ItemWord.Size (ItemWord.Body ∷ ItemWord.Head ∷ []) bytes.now) }
{
    match keyed(ItemWord::Size, b"RFC822.SIZE ", bytes) {
        Ok(read) => Ok(read),
        stop => either(
            stop,
            either(
                keyed(ItemWord::Body, b"BODY[] ", bytes),
                keyed(ItemWord::Head, b"BODY[]<0> ", bytes),
            ),
        ),
    }
}

/// What follows the word of an item.
#[tactic(auto, unfolding(crate::specs::Fetches::item_value_at))]
fn item_value(word: ItemWord, bytes: &[u8]) -> Result<(FetchItem<'_>, &[u8]), Stop>
    ensures { Gives (λ r. (r.0, r.1.now)) result (item_value_at word bytes.now) }
{
    match word {
        ItemWord::Uid => {
            let (uid, rest) = nz(bytes)?;
            ended(FetchItem::Uid(uid), rest)
        }
        ItemWord::Flags => {
            let (flags, rest) = read_flags(bytes)?;
            ended(FetchItem::Flags(flags), rest)
        }
        ItemWord::Size => {
            let (size, rest) = number(bytes)?;
            ended(FetchItem::Size(size), rest)
        }
        ItemWord::Body => {
            let (body, rest) = read_nstring(Speaker::Replies, bytes)?;
            Ok((FetchItem::Body(body), rest))
        }
        ItemWord::Head => {
            let (head, rest) = read_nstring(Speaker::Replies, bytes)?;
            Ok((FetchItem::Head(head), rest))
        }
    }
}

/// The item, unless a byte of an atom follows it; at least one byte is required.
fn ended<'a>(item: FetchItem<'a>, bytes: &'a [u8]) -> Result<(FetchItem<'a>, &'a [u8]), Stop>
    ensures { Gives (λ r. (r.0, r.1.now)) result (ended_by is_atom_byte item.entry bytes.now) }
{
    match bytes {
        [] => Err(Stop::Ends(None)),
        [b, ..] => {
            if is_atom_byte(*b) {
                Err(Stop::Fails(Kind::Syntax, bytes.len()))
            } else {
                Ok((item, bytes))
            }
        }
    }
}
