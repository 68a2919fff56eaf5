//! What a client hears over a face.

use crate::bytes_link::BytesLink;
use imap_link::link::{Link, LinkFault};
use link_face::face_link::FaceLink;
use link_face::words::Words;
use std::alloc::Global;
use std::rc::Rc;
use test_scripts::failure::Failure;

/// How many bytes a client asks for at once.
const ASKED: usize = 16;

/// What a client hears.
#[derive(Drop)]
pub struct Hearing {
    /// The bytes that were handed out.
    pub bytes: Vec<u8>,
    /// Whether the link gave up before the end.
    pub gave_up: bool,
    /// What the server said to people last.
    pub last: Option<Vec<u8>>,
    /// Its alerts.
    pub alerts: Vec<Vec<u8>>,
    /// The names of mailboxes that are not synchronised.
    pub skipped: Vec<Vec<u8>>,
    /// The front of the reply over which the link gave up.
    pub unread: Option<Vec<u8>>,
}

impl Hearing {
    /// What a client hears where these bytes come in pieces of so many.
    pub fn of(alloc: Global, bytes: &[u8], piece: usize) -> Result<Hearing, Failure> {
        let words = Rc::new(alloc, Words::new(alloc))?;
        let mut link = FaceLink::new(alloc, BytesLink::new(bytes, piece), words.clone()?);
        let mut heard = Vec::new(alloc);
        let gave_up = hear_all(&mut link, &mut heard)?;
        Ok(Hearing {
            bytes: heard,
            gave_up,
            last: words.take_last(),
            alerts: words.take_alerts(),
            skipped: words.take_skipped(),
            unread: words.take_unread(),
        })
    }
}

/// Adds what is handed out of a new connection up to the end, and returns whether the link gave up.
fn hear_all(link: &mut FaceLink<BytesLink<'_>>, heard: &mut Vec<u8>) -> Result<bool, Failure> {
    link.reconnect().map_err(|_| Failure::NoMemory)?;
    let mut piece = [0u8; ASKED];
    for _ in 0..u64::MAX {
        match link.recv(&mut piece) {
            Ok(0) => return Ok(false),
            Ok(count) => heard.extend_from_slice(piece.get(..count).unwrap_or_default())?,
            Err(LinkFault::Stopped) => return Ok(true),
            Err(LinkFault::NoMemory) => return Err(Failure::NoMemory),
        }
    }
    Ok(true)
}
