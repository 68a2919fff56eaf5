//! A server with one connection at a time.

ghost use Rattle.std.specs.Prelude.{◌≡◌};

use crate::condition::ConnectionState;
use crate::line::LineBuf;
use crate::service::Service;
use crate::unread::Unread;
use mailcore::flags::Flags;
use mailcore::keywords::Keywords;
use mailcore::mailbox::StoredMailbox;
use mailcore::uid::Uid;
use std::alloc::{AllocError, Global};
use std::marker::Model;
use thiserror::Error;

/// Why bytes were not read and answered.
#[derive(Clone, Copy, Debug, PartialEq, Eq, Error)]
pub enum ServerFault {
    /// Memory ran out, and the connection is closed. The mailboxes are those after the commands that were answered before.
    #[error("no memory")]
    NoMemory,
    /// There is no connection: none was made yet, or it was hung up, or memory ran out. (`Server::arrive`: memory ran out.)
    #[error("closed")]
    Closed,
}

/// An IMAP server (RFC 9051, in the profile of docs/SESSION.md): an account, its mailboxes, and one connection at a time.
#[derive(Drop)]
pub struct Server {
    service: Service,
    // what is read and not answered yet, where there is a connection
    unread: Option<Unread>,
    // memory ran out since the last connection began
    is_lost: bool,
}

impl Model for Server {
    ghost use Rattle.std.specs.Option.{option_map};
    ghost use Rattle.imap_server.specs.Unreads.{kept_of};
    ghost use Rattle.imap_server.specs.Taking.{Host, IsServing};

    ghost Value = { Host };

    ghost view = { λ s. record { server = s.service; connection = option_map kept_of s.unread; is_lost = s.is_lost } };

    ghost invariant = { λ s. IsServing s.service s.unread };
}

impl Server {
    ghost use Rattle.std.specs.Prelude.{◌≡◌, true, false, None, Some, [], IfOk, IsErrOf, OnErr, OnOk};
    ghost use Rattle.imap_session.specs.Servers.{NotAuthenticated, is_over};
    ghost use Rattle.imap_session.specs.Unread.{Whole};
    ghost use Rattle.imap_session.specs.Heard.{AreReplies};
    ghost use Rattle.imap_session.specs.Lines.{greeting};
    ghost use Rattle.imap_session.specs.Arrivals.{Arrived};
    ghost use Rattle.imap_session.specs.Boxes.{all_of, AreServed};
    ghost use Rattle.imap_server.specs.Taking.{Host, Fed, Lost};
    ghost use Rattle.imap_server.specs.Bounds.{IsBounded};
    ghost use Rattle.imap_server.specs.Acts.{flagged_by_others, removed_by_others};

    /// A server with these mailboxes, for one user with a password, whose flags are the six that IMAP names. There is no connection.
    ///
    /// The mailboxes keep to the limits of docs/SESSION.md; of two with one name only the first is ever found.
    pub fn new(
        alloc: Global,
        mailboxes: Vec<StoredMailbox>,
        user: Vec<u8>,
        password: Vec<u8>,
    ) -> Server
        requires { AreServed (all_of mailboxes.items) }
        ensures { result ≡ record {
          server = record { user = user.items; password = password.items; mailboxes = all_of mailboxes.items; keywords = []; condition = NotAuthenticated; has_news = false };
          connection = None;
          is_lost = false;
        } }
    {
        Server::with_keywords(alloc, mailboxes, user, password, Keywords::new(alloc))
    }

    /// The same, whose flags are the six and these keywords.
    pub fn with_keywords(
        alloc: Global,
        mailboxes: Vec<StoredMailbox>,
        user: Vec<u8>,
        password: Vec<u8>,
        keywords: Keywords,
    ) -> Server
        requires { AreServed (all_of mailboxes.items) }
        ensures { result ≡ record {
          server = record { user = user.items; password = password.items; mailboxes = all_of mailboxes.items; keywords = keywords; condition = NotAuthenticated; has_news = false };
          connection = None;
          is_lost = false;
        } }
    {
        let service = Service {
            alloc,
            user,
            password,
            mailboxes,
            keywords,
            condition: ConnectionState::NotAuthenticated,
            has_news: false,
        };
        Server {
            service,
            unread: None,
            is_lost: false,
        }
    }

    /// Begins a connection, and hangs up an earlier one. The answer is the greeting, `* OK ready` (RFC 9051, section 7.1.1).
    pub fn connect(&mut self) -> &'static [u8]
        ensures greeting { AreReplies greeting result.now }
        ensures new { self.new ≡ record {
          server = record self.old.server { condition = NotAuthenticated; has_news = false };
          connection = Some (Whole []);
          is_lost = false;
        } }
    {
        self.service.enter(ConnectionState::NotAuthenticated);
        self.service.set_news(false);
        self.is_lost = false;
        self.unread = Some(Unread::Line(LineBuf::new(self.service.alloc)));
        b"* OK ready\r\n"
    }

    /// Reads bytes that come over the connection, in any pieces, and answers what they complete: the replies as bytes.
    /// After LOGOUT, and where the connection ended otherwise, nothing is answered.
    pub fn feed(&mut self, piece: &[u8]) -> Result<Vec<u8>, ServerFault>
        // The replies so far and the mailboxes are those of what was sent so far.
        ensures ok { IfOk result (λ out. Fed self.old piece.now out.items self.new) }
        // Some of it was answered, and the connection is no more.
        ensures no_memory { IsErrOf result ServerFault.NoMemory → Lost self.old piece.now self.new }
        ensures closed { IsErrOf result ServerFault.Closed → (self.old.connection ≡ None) × (self.new ≡ self.old) }
        // Its mailboxes keep to the limits.
        ensures served { AreServed self.new.server.mailboxes }
        // What waits to be answered keeps within the limits of one command.
        ensures bounded { IsBounded self.new.connection }
    {
        let Some(unread) = self.unread.take() else {
            return Err(ServerFault::Closed);
        };
        let mut out = Vec::new(self.service.alloc);
        match self.service.read(unread, piece, &mut out) {
            Ok(after) => {
                self.service.is_served();
                self.unread = Some(after);
                Ok(out)
            }
            Err(AllocError) => {
                self.service.is_served();
                self.is_lost = true;
                Err(ServerFault::NoMemory)
            }
        }
    }

    /// Adds a message that comes from elsewhere to the mailbox of this name (as other programs add some), under its next UID, with those of
    /// the flags that have a name, and returns this UID. It is taken in any condition of the connection. If the mailbox is selected, the
    /// replies to the next command begin with `* n EXISTS`.
    ///
    /// None, with nothing changed: no mailbox has the name (names compare as in commands), or the message has a byte 0 or more
    /// than 16777238 bytes, or no UID is left.
    pub fn arrive(
        &mut self,
        name: &[u8],
        flags: Flags,
        message: &[u8],
    ) -> Result<Option<Uid>, ServerFault>
        ensures ok { IfOk result (λ uid. (self.old.is_lost ≡ false) × Arrived name.now flags message.now uid self.old.server self.new.server
            × (self.new ≡ record self.old { server = self.new.server })) }
        ensures no_memory { IsErrOf result ServerFault.NoMemory → (self.old.is_lost ≡ false)
            × (self.new ≡ record self.old { connection = None; is_lost = true }) }
        ensures closed { IsErrOf result ServerFault.Closed → (self.old.is_lost ≡ true) × (self.new ≡ self.old) }
        // Its mailboxes keep to the limits.
        ensures served { AreServed self.new.server.mailboxes }
    {
        if self.is_lost {
            self.service.is_served();
            return Err(ServerFault::Closed);
        }
        match self.service.arrive(name, flags, message) {
            Ok(uid) => {
                self.service.is_served();
                Ok(uid)
            }
            Err(AllocError) => {
                self.service.is_served();
                self.hang_up();
                self.is_lost = true;
                Err(ServerFault::NoMemory)
            }
        }
    }

    /// Sets flags of the message with this UID in the mailbox of this name, and then clears others, as another session does: of both those
    /// that have a name. Nothing of it is reported to the connection. Where there is no such message, nothing changes.
    pub fn flag(
        &mut self,
        name: &[u8],
        uid: Uid,
        set: Flags,
        clear: Flags,
    ) -> Result<(), AllocError>
        ensures ok { OnOk result (self.new ≡ record self.old { server = flagged_by_others name.now uid set clear self.old.server }) }
        ensures err { OnErr result (self.new ≡ self.old) }
        // Its mailboxes keep to the limits.
        ensures served { AreServed self.new.server.mailboxes }
    {
        let done = self.service.flag(name, uid, set, clear);
        self.service.is_served();
        done
    }

    /// Removes the message with this UID from the mailbox of this name, as another session does. Nothing of it is reported to the connection.
    /// Where there is no such message, nothing changes.
    pub fn remove(&mut self, name: &[u8], uid: Uid) -> Result<(), AllocError>
        ensures ok { OnOk result (self.new ≡ record self.old { server = removed_by_others name.now uid self.old.server }) }
        ensures err { OnErr result (self.new ≡ self.old) }
        // Its mailboxes keep to the limits.
        ensures served { AreServed self.new.server.mailboxes }
    {
        let done = self.service.remove(name, uid);
        self.service.is_served();
        done
    }

    /// Ends the connection. What is unread is dropped; the mailboxes stay.
    pub fn hang_up(&mut self)
        ensures { self.new ≡ record self.old { connection = None } }
    {
        self.unread = None;
    }

    /// Whether nothing more is read: LOGOUT was answered, or what came last could not be read to its end. It stays so until
    /// `connect`.
    pub fn is_over(&self) -> bool
        ensures { result ≡ is_over self.now.server.condition }
    {
        self.service.is_over()
    }

    /// The mailboxes as they stand.
    pub fn mailboxes(&self) -> &[StoredMailbox]
        ensures { all_of result.now ≡ self.now.server.mailboxes }
    {
        self.service.mailboxes.as_slice()
    }
}
