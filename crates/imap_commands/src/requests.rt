//! Reading what follows the word of a command.

ghost use Rattle.std.specs.Prelude.{◌≡◌};
ghost use Rattle.wire_reader.specs.Given.{Gives, GivesOr, viewed};
ghost use Rattle.wire_reader.specs.Reading.{mapped};
ghost use Rattle.wire_reader.specs.Words.{word_at};
ghost use Rattle.imap_commands.specs.Requests.{items_word, mode_word};
ghost use Rattle.imap_commands.specs.RequestReaders.{items_at, mode_at, login_at, enable_at, list_at, create_at, select_at};
ghost use Rattle.imap_commands.specs.RequestReaders.{append_at, fetch_at, store_at, expunge_at, request_at};

use crate::command::{FetchItems, Request, StoreMode};
use crate::message::read_message;
use crate::pattern::read_pattern;
use crate::verb::Verb;
use std::alloc::Global;
use wire_reader::keyword::{either, keyed};
use wire_reader::punctuation::{byte, crlf};
use wire_reader::side::Speaker;
use wire_reader::stop::{ReadError, Stop};
use wire_strings::text::read_text;
use wire_tokens::flag_list::{FlagList, read_flags};
use wire_tokens::names::{NameList, read_names};
use wire_tokens::uid_set::uid_set;

/// Reads what follows this word, up to and with the line end.
pub(crate) fn read_request(
    alloc: Global,
    verb: Verb,
    bytes: &[u8],
) -> Result<(Request, &[u8]), ReadError>
    ensures { GivesOr (λ r. (r.0, r.1.now)) result (request_at verb bytes.now) }
{
    match verb {
        Verb::Capability => Ok((Request::Capability, crlf(bytes)?)),
        Verb::Noop => Ok((Request::Noop, crlf(bytes)?)),
        Verb::Logout => Ok((Request::Logout, crlf(bytes)?)),
        Verb::Login => login(alloc, bytes),
        Verb::Enable => enable(alloc, bytes),
        Verb::List => list(alloc, bytes),
        Verb::Create => create(alloc, bytes),
        Verb::Select => select(alloc, bytes),
        Verb::Append => append(alloc, bytes),
        Verb::Fetch => fetch(alloc, bytes),
        Verb::Store => store(alloc, bytes),
        Verb::Expunge => expunge(alloc, bytes),
    }
}

#[tactic(auto, unfolding(crate::specs::RequestReaders::login_at))]
fn login(alloc: Global, bytes: &[u8]) -> Result<(Request, &[u8]), ReadError>
    ensures { GivesOr (λ r. (r.0, r.1.now)) result (login_at bytes.now) }
{
    let (user, rest) = read_text(alloc, Speaker::Commands, bytes)?;
    let rest = byte(b' ', rest)?;
    let (password, rest) = read_text(alloc, Speaker::Commands, rest)?;
    let rest = crlf(rest)?;
    Ok((Request::Login(user, password), rest))
}

#[tactic(auto, unfolding(crate::specs::RequestReaders::enable_at))]
fn enable(alloc: Global, bytes: &[u8]) -> Result<(Request, &[u8]), ReadError>
    ensures { GivesOr (λ r. (r.0, r.1.now)) result (enable_at bytes.now) }
{
    let (names, rest) = read_names(bytes)?;
    let rest = crlf(rest)?;
    let names = NameList::copy_of(alloc, &names)?;
    Ok((Request::Enable(names), rest))
}

#[tactic(auto, unfolding(crate::specs::RequestReaders::list_at))]
fn list(alloc: Global, bytes: &[u8]) -> Result<(Request, &[u8]), ReadError>
    ensures { GivesOr (λ r. (r.0, r.1.now)) result (list_at bytes.now) }
{
    let (pattern, rest) = read_pattern(alloc, bytes)?;
    let rest = crlf(rest)?;
    Ok((Request::List(pattern), rest))
}

#[tactic(auto, unfolding(crate::specs::RequestReaders::create_at))]
fn create(alloc: Global, bytes: &[u8]) -> Result<(Request, &[u8]), ReadError>
    ensures { GivesOr (λ r. (r.0, r.1.now)) result (create_at bytes.now) }
{
    let (mailbox, rest) = read_text(alloc, Speaker::Commands, bytes)?;
    let rest = crlf(rest)?;
    Ok((Request::Create(mailbox), rest))
}

#[tactic(auto, unfolding(crate::specs::RequestReaders::select_at))]
fn select(alloc: Global, bytes: &[u8]) -> Result<(Request, &[u8]), ReadError>
    ensures { GivesOr (λ r. (r.0, r.1.now)) result (select_at bytes.now) }
{
    let (mailbox, rest) = read_text(alloc, Speaker::Commands, bytes)?;
    let rest = crlf(rest)?;
    Ok((Request::Select(mailbox), rest))
}

#[tactic(auto, unfolding(crate::specs::RequestReaders::append_at))]
fn append(alloc: Global, bytes: &[u8]) -> Result<(Request, &[u8]), ReadError>
    ensures { GivesOr (λ r. (r.0, r.1.now)) result (append_at bytes.now) }
{
    let (mailbox, rest) = read_text(alloc, Speaker::Commands, bytes)?;
    let rest = byte(b' ', rest)?;
    let (flags, rest) = read_flags(rest)?;
    let rest = byte(b' ', rest)?;
    let (message, rest) = read_message(alloc, rest)?;
    let rest = crlf(rest)?;
    let flags = FlagList::copy_of(alloc, &flags)?;
    Ok((Request::Append(mailbox, flags, message), rest))
}

#[tactic(auto, unfolding(crate::specs::RequestReaders::fetch_at))]
fn fetch(alloc: Global, bytes: &[u8]) -> Result<(Request, &[u8]), ReadError>
    ensures { GivesOr (λ r. (r.0, r.1.now)) result (fetch_at bytes.now) }
{
    let (set, rest) = uid_set(alloc, bytes)?;
    let rest = byte(b' ', rest)?;
    let (items, rest) = fetch_items(rest)?;
    let rest = crlf(rest)?;
    Ok((Request::Fetch(set, items), rest))
}

/// Reads which items are asked for.
fn fetch_items(bytes: &[u8]) -> Result<(FetchItems, &[u8]), Stop>
    ensures { viewed (λ r. (r.0, r.1.now)) result ≡ items_at bytes.now }
{
    let head = these_items(FetchItems::Head, bytes);
    let body = either(these_items(FetchItems::Body, bytes), head);
    either(these_items(FetchItems::Listing, bytes), body)
}

fn these_items(items: FetchItems, bytes: &[u8]) -> Result<(FetchItems, &[u8]), Stop>
    ensures { Gives (λ r. (r.0, r.1.now)) result (mapped (λ _. items) (word_at (items_word items)) bytes.now) }
{
    keyed(items, items.word(), bytes)
}

#[tactic(auto, unfolding(crate::specs::RequestReaders::store_at))]
fn store(alloc: Global, bytes: &[u8]) -> Result<(Request, &[u8]), ReadError>
    ensures { GivesOr (λ r. (r.0, r.1.now)) result (store_at bytes.now) }
{
    let (set, rest) = uid_set(alloc, bytes)?;
    let rest = byte(b' ', rest)?;
    let (mode, rest) = store_mode(rest)?;
    let (flags, rest) = read_flags(rest)?;
    let rest = crlf(rest)?;
    let flags = FlagList::copy_of(alloc, &flags)?;
    Ok((Request::Store(set, mode, flags), rest))
}

/// Reads what is to be done with flags.
fn store_mode(bytes: &[u8]) -> Result<(StoreMode, &[u8]), Stop>
    ensures { viewed (λ r. (r.0, r.1.now)) result ≡ mode_at bytes.now }
{
    let remove = this_mode(StoreMode::Remove, bytes);
    either(this_mode(StoreMode::Add, bytes), remove)
}

fn this_mode(mode: StoreMode, bytes: &[u8]) -> Result<(StoreMode, &[u8]), Stop>
    ensures { Gives (λ r. (r.0, r.1.now)) result (mapped (λ _. mode) (word_at (mode_word mode)) bytes.now) }
{
    keyed(mode, mode.word(), bytes)
}

#[tactic(auto, unfolding(crate::specs::RequestReaders::expunge_at))]
fn expunge(alloc: Global, bytes: &[u8]) -> Result<(Request, &[u8]), ReadError>
    ensures { GivesOr (λ r. (r.0, r.1.now)) result (expunge_at bytes.now) }
{
    let (set, rest) = uid_set(alloc, bytes)?;
    let rest = crlf(rest)?;
    Ok((Request::Expunge(set), rest))
}
