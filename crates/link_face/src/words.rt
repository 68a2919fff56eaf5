//! What a server says to people (RFC 9051, sections 7.1.2 to 7.1.5, and the code ALERT of section 7.1).

use crate::head::{ReplyHead, StatusLine, head_of};
use crate::listed::Listed;
use std::alloc::{AllocError, Global};
use std::cell::Cell;

/// The most bytes that are kept of a text.
const TEXT_MAX: usize = 200;

/// The most alerts that are kept.
const ALERTS_MAX: usize = 16;

/// The most names of mailboxes that are kept.
const SKIPPED_MAX: usize = 100;

/// What a server said to people. A link notes it, and who holds the link asks for it. It is as the server sent it, with any bytes:
/// escape it before it is printed.
#[derive(Drop)]
pub struct Words {
    alloc: Global,
    last: Cell<Option<Vec<u8>>>,
    alerts: Cell<Vec<Vec<u8>>>,
    skipped: Cell<Vec<Vec<u8>>>,
    unread: Cell<Option<Vec<u8>>>,
    lacks: Cell<bool>,
}

impl Words {
    /// Nothing was said.
    pub fn new(alloc: Global) -> Self {
        Words {
            alloc,
            last: Cell::new(None),
            alerts: Cell::new(Vec::new(alloc)),
            skipped: Cell::new(Vec::new(alloc)),
            unread: Cell::new(None),
            lacks: Cell::new(false),
        }
    }

    /// Takes out the text of the last NO, BAD or BYE, of at most 200 bytes. None: nothing was said since it was taken out last, or memory
    /// ran out when it was noted.
    pub fn take_last(&self) -> Option<Vec<u8>> {
        self.last.take()
    }

    /// Takes out the texts with the code ALERT, of at most 200 bytes each, in the order in which they came. After 16 of them no
    /// others are noted until they are taken out.
    pub fn take_alerts(&self) -> Vec<Vec<u8>> {
        self.alerts.replace(Vec::new(self.alloc))
    }

    /// Takes out the names of mailboxes that the server listed, that can be selected, and that are not synchronised: their names
    /// are beyond the limits of the names of mailboxes (1 to 255 printable ASCII characters in modified UTF-7, without `*`, `%`,
    /// `"` and `\`, and between slashes neither nothing nor `.` nor `..`). They stand as the server wrote them, of at most 255 bytes
    /// each, each once, in the order in which they came. After 100 of them no others are noted until they are taken out.
    pub fn take_skipped(&self) -> Vec<Vec<u8>> {
        self.skipped.replace(Vec::new(self.alloc))
    }

    /// Takes out the front of the last reply over which a connection was given up, up to the end of its first line, of at most 200 bytes.
    /// None: none was given up since it was taken out last, or memory ran out when it was noted.
    pub fn take_unread(&self) -> Option<Vec<u8>> {
        self.unread.take()
    }

    /// Whether the reply over which a connection was given up last is the end of a list of messages that lacks some. What is missing is
    /// said in place of its front.
    pub fn lacks_messages(&self) -> bool {
        self.lacks.get()
    }

    /// Whether a connection was given up over a reply since that was taken out last.
    pub fn is_unread(&self) -> bool {
        let unread = self.unread.take();
        let is_unread = unread.is_some();
        self.unread.set(unread);
        is_unread
    }

    /// Notes what a reply says to people, if it does. If memory runs out, it is not noted.
    pub(crate) fn note(&self, raw: &[u8]) {
        if let [b'*', b' ', b'0'..=b'9', ..] = raw {
            return;
        }
        let _ = match head_of(raw) {
            ReplyHead::Status(status) => self.note_status(status),
            ReplyHead::List(rest) => self.note_listed(rest),
            _ => Ok(()),
        };
    }

    /// Notes the front of a reply over which the connection is given up. If memory runs out, it is not noted.
    pub(crate) fn note_unread(&self, raw: &[u8]) {
        self.lacks.set(false);
        let line = raw.split(|b| *b == b'\n').next().unwrap_or(raw);
        if let Ok(text) = Vec::from_slice(self.alloc, front(line.trim_ascii_end())) {
            self.unread.set(Some(text));
        }
    }

    /// Notes what is missing in a list of messages over which the connection is given up. If memory runs out, it is not noted.
    pub(crate) fn note_lacking(&self, text: &[u8]) {
        self.note_unread(text);
        self.lacks.set(true);
    }

    fn note_listed(&self, rest: &[u8]) -> Result<(), AllocError> {
        let Some(listed) = Listed::read(rest) else {
            return Ok(());
        };
        match listed.skipped_name(self.alloc)? {
            Some(name) => self.note_skipped(name),
            None => Ok(()),
        }
    }

    fn note_skipped(&self, name: Vec<u8>) -> Result<(), AllocError> {
        let mut skipped = self.take_skipped();
        let is_new = !skipped.iter().any(|noted| *noted == name);
        let noted = if is_new && skipped.len() < SKIPPED_MAX {
            skipped.push(name).map_err(AllocError::from)
        } else {
            Ok(())
        };
        self.skipped.set(skipped);
        noted
    }

    fn note_status(&self, status: StatusLine<'_>) -> Result<(), AllocError> {
        let text = status.text.trim_ascii();
        if let Some(alert) = alert_in(text) {
            self.note_alert(Vec::from_slice(self.alloc, front(alert.trim_ascii()))?)?;
        }
        if !is_good(status.word) {
            let text = Vec::from_slice(self.alloc, front(text))?;
            self.last.set(Some(text));
        }
        Ok(())
    }

    fn note_alert(&self, text: Vec<u8>) -> Result<(), AllocError> {
        let mut alerts = self.take_alerts();
        let noted = if alerts.len() < ALERTS_MAX {
            alerts.push(text).map_err(AllocError::from)
        } else {
            Ok(())
        };
        self.alerts.set(alerts);
        noted
    }
}

/// The text after the code ALERT.
fn alert_in(text: &[u8]) -> Option<&[u8]> {
    let (code, rest) = text.split_at_checked(b"[ALERT]".len())?;
    if code.eq_ignore_ascii_case(b"[ALERT]") {
        Some(rest)
    } else {
        None
    }
}

/// Whether a status of this word is no complaint.
fn is_good(word: &[u8]) -> bool {
    word.eq_ignore_ascii_case(b"OK") || word.eq_ignore_ascii_case(b"PREAUTH")
}

/// The first bytes of a text, as many as are kept.
fn front(text: &[u8]) -> &[u8] {
    text.get(..TEXT_MAX).unwrap_or(text)
}
