//! What is noted of servers while they are asked, to be reported later.

use crate::server::AskFault;
use channels::store_fault::ConnectFault;
use imap_client::noted_link::{LinkEnd, NotedEnd};
use imap_client::tcp_link::Unreached;
use imap_link::fault::FarFault;
use link_face::words::Words;
use std::alloc::{AllocError, Global};
use std::cell::Cell;
use std::rc::Rc;

/// What is noted of servers while they are asked. What is asked notes it, and the stores report it.
#[derive(Drop)]
pub struct ServerNotes {
    /// How the connection came to its end.
    pub(crate) end: NotedEnd,
    /// What a server says to people.
    pub(crate) words: Rc<Words>,
    /// What the system said when a server could not be reached.
    pub(crate) unreached: Unreached,
}

impl ServerNotes {
    /// Nothing was asked.
    pub fn new(alloc: Global) -> Result<Self, AllocError> {
        Ok(ServerNotes {
            end: Rc::new(alloc, Cell::new(None))?,
            words: Rc::new(alloc, Words::new(alloc))?,
            unreached: Rc::new(alloc, Cell::new(None))?,
        })
    }

    /// Something else is asked: what was noted of faults before is forgotten.
    pub(crate) fn renew(&self) {
        self.end.set(None);
        let _ = self.words.take_last();
        let _ = self.words.take_unread();
        self.unreached.set(None);
    }

    /// Why a server does not do what it is asked. None: memory ran out.
    pub(crate) fn server_fault(&self, fault: AskFault) -> Option<ConnectFault> {
        match fault {
            AskFault::Unsendable => Some(ConnectFault::Unsendable),
            AskFault::LoginRefused => Some(ConnectFault::LoginRefused),
            AskFault::Far(FarFault::Stopped) => Some(self.take_end()),
            AskFault::Far(FarFault::Refused | FarFault::ReadOnly) => Some(ConnectFault::Refused),
            AskFault::Far(FarFault::Protocol | FarFault::TooLong) => Some(ConnectFault::NoAnswer),
            AskFault::Far(FarFault::NoRev2) => Some(ConnectFault::NoRev2),
            AskFault::Far(FarFault::NoMemory) => None,
        }
    }

    /// Takes out how the connection came to its end. Where nothing was noted, the server ended the session.
    pub(crate) fn take_end(&self) -> ConnectFault {
        match self.end.take() {
            Some(LinkEnd::Unreached) => ConnectFault::Unreached(self.unreached.take()),
            _ if self.words.is_unread() => ConnectFault::NoAnswer,
            Some(LinkEnd::Ended) => ConnectFault::Ended,
            None => ConnectFault::Dismissed,
        }
    }
}
