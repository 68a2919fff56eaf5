//! What FETCH replies report about messages (RFC 9051, section 7.5.2).

ghost use Rattle.std.specs.Prelude.{◌≡◌, OnOk};
ghost use Rattle.imap_answers.specs.Fetching.{no_rows, nothing_reported, rows_more, reported_more, reported_of, uid_more, uid_of, with_row};

use imap_link::sink::ReplySink;
use imap_replies::fetch::FetchItem;
use imap_replies::reply::Reply;
use mailcore::content::MESSAGE_MAX;
use mailcore::flags::Flags;
use mailcore::keywords::Keywords;
use std::alloc::{AllocError, Global};
use std::collections::BTreeMap;
use std::marker::Model;

/// What a FETCH reply reports about a message. Of two items of a kind the later counts.
#[derive(Clone, Copy)]
pub struct FetchReport {
    /// Its UID.
    pub uid: Option<u32>,
    /// Its flags.
    pub flags: Option<Flags>,
    /// Its size in octets.
    pub size: Option<u32>,
}

impl FetchReport {
    /// What these items report, where flags have the names of this map.
    pub fn of(items: &[FetchItem<'_>], keywords: &Keywords) -> FetchReport
        ensures { result ≡ reported_of keywords.now items.now }
    {
        let mut reported = FetchReport::nothing();
        for item in items {
            reported = reported.with(item, keywords);
        }
        reported
    }

    fn nothing() -> FetchReport
        ensures { result ≡ nothing_reported }
    {
        FetchReport {
            uid: None,
            flags: None,
            size: None,
        }
    }

    /// The same with one item more.
    fn with(self, item: &FetchItem<'_>, keywords: &Keywords) -> FetchReport
        ensures { result ≡ reported_more keywords.now self item.now }
    {
        match item {
            FetchItem::Uid(uid) => FetchReport {
                uid: Some(uid.get()),
                ..self
            },
            FetchItem::Flags(names) => FetchReport {
                flags: Some(names.named(keywords)),
                ..self
            },
            FetchItem::Size(size) => FetchReport {
                size: Some(*size),
                ..self
            },
            FetchItem::Body(_) | FetchItem::Head(_) => self,
        }
    }
}

/// The UID that these items report. Of two the later counts.
pub(crate) fn uid_of(items: &[FetchItem<'_>]) -> Option<u32>
    ensures { result ≡ uid_of items.now }
{
    items
        .iter()
        .fold(None, |reported, item| uid_more(reported, item))
}

/// The same with one item more.
fn uid_more(reported: Option<u32>, item: &FetchItem<'_>) -> Option<u32>
    ensures { result ≡ uid_more reported item.now }
{
    match item {
        FetchItem::Uid(uid) => Some(uid.get()),
        _ => reported,
    }
}

/// What is kept of a message beside its UID: 12 bytes, since a mailbox has many.
#[derive(Clone, Copy)]
pub struct Row {
    /// Its flags.
    pub flags: Option<Flags>,
    /// Whether its size is within the limit, so that it may be copied to the other side.
    pub fit: Option<bool>,
}

/// What replies report about messages, by their UIDs. Of two replies with one UID the later counts; one without UID is skipped.
///
/// It is given the replies as they are heard, and holds no more than about 40 bytes a message.
#[derive(Drop)]
pub struct Rows<'a> {
    // By it the names of flags are read.
    keywords: &'a Keywords,
    pub(crate) by_uid: BTreeMap<u32, Row>,
}

impl<'a> Model for Rows<'a> {
    ghost use Rattle.imap_answers.specs.Fetching.{MappedRows};

    ghost Value = { MappedRows };

    ghost view = { λ rows. record { keywords = rows.keywords.now; rows = rows.by_uid.entries } };
}

impl<'a> Rows<'a> {
    /// Of no message. Flags have the names of this map.
    pub fn new(alloc: Global, keywords: &'a Keywords) -> Rows<'a>
        ensures { result ≡ no_rows keywords.now }
    {
        Rows {
            keywords,
            by_uid: BTreeMap::new(alloc),
        }
    }

    /// Adds what a reply reports about a message.
    fn add(&mut self, reply: &Reply<'_>) -> Result<(), AllocError>
        ensures { OnOk result (self.new ≡ record self.old { rows = rows_more self.old.keywords self.old.rows reply.now }) }
    {
        match reply {
            Reply::Fetch(_, items) => add_row(
                &mut self.by_uid,
                FetchReport::of(items.items(), self.keywords),
            ),
            _ => Ok(()),
        }
    }
}

impl<'a> ReplySink for Rows<'a> {
    ghost use Rattle.imap_answers.specs.Fetching.{TookRows};
    ghost use Rattle.std.specs.Prelude.{refl};

    ghost took = { TookRows };

    ghost none = { λ _. refl };

    fn take(&mut self, reply: &Reply<'_>) -> Result<(), AllocError> {
        self.add(reply)
    }
}

/// Adds what is reported about a message, if its UID is.
fn add_row(rows: &mut BTreeMap<u32, Row>, reported: FetchReport) -> Result<(), AllocError>
    ensures { OnOk result (rows.new.entries ≡ with_row rows.old.entries reported.uid reported) }
{
    let FetchReport { uid, flags, size } = reported;
    if let Some(uid) = uid {
        let fit = size.map(|size| size as usize <= MESSAGE_MAX);
        rows.insert(uid, Row { flags, fit })?;
    }
    Ok(())
}
