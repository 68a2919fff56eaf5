//! The server of an IMAP store: how it is reached, and who logs in.

ghost use Rattle.std.specs.Prelude.{◌≡◌, ◌↔◌, IfOk, IsTrue, string_bytes};
ghost use Rattle.imap_client.specs.Requests.{IsWord};
ghost use Rattle.mail_stores.specs.Addresses.{address_of};

use crate::address::address_of;
use crate::notes::ServerNotes;
use crate::store_link::{LinkOver, StoreLink};
use config::config::ImapStore;
use imap_client::noted_link::NotedLink;
use imap_client::tcp_link::TcpLink;
use imap_client::waits::Waits;
use imap_link::fault::FarFault;
use link_face::face_link::FaceLink;
use mail_sides::logged_in::LoggedIn;
use mailcore::keywords::Keywords;
use std::alloc::{AllocError, Global};
use std::net::Net;
use wire_strings::line_text::all_text;

/// The greatest number of bytes of a user, a password or the name of a mailbox.
const WORD_MAX: usize = 1024;

/// Why the server of a store does not do what it is asked.
#[derive(Clone, Copy, PartialEq, Eq)]
pub(crate) enum AskFault {
    /// User or password cannot be sent.
    Unsendable,
    /// It does not let the user in: it says no to the user and the password.
    LoginRefused,
    /// Another fault.
    Far(FarFault),
}

/// A link to a server over TCP, from which a client hears only replies that it reads. How a connection came to its end is noted, and what
/// mbsync waits for is shown before it waits. Its server is seen by one map of keywords.
pub type RealLink<R, W> = NotedLink<FaceLink<TcpLink<R>>, W>;

impl<R: Net + AllocGlobal + Clone + Drop, W: Waits> StoreLink for RealLink<R, W> {
    ghost use Rattle.std.specs.Prelude.{string_bytes};

    ghost address = { λ noted. string_bytes noted.link.link.address };

    ghost map = { λ noted. noted.keywords };

    ghost seen = { λ noted kept. kept.1 };

    fn address(&self) -> &str {
        self.link().link().address()
    }

    fn keywords(&self) -> &Keywords {
        NotedLink::keywords(self)
    }
}

impl<R: Net + AllocGlobal + Clone + Drop, W: Waits + Copy> LinkOver<R, W> for RealLink<R, W> {
    fn over(
        rt: &R,
        address: &str,
        notes: &ServerNotes,
        waits: W,
        keywords: &Keywords,
    ) -> Result<Self, AllocError> {
        let alloc = rt.alloc();
        let (words, end) = (notes.words.clone()?, notes.end.clone()?);
        let link = TcpLink::noting(rt.clone()?, address, notes.unreached.clone()?)?;
        let link = FaceLink::new(alloc, link, words);
        Ok(NotedLink::new(link, end, waits, keywords.try_clone(alloc)?))
    }
}

/// A link to the server of a store, which is seen by this map of keywords. It is not connected yet.
pub(crate) fn link_to<R: AllocGlobal, W: Copy, L: LinkOver<R, W>>(
    rt: &R,
    store: &ImapStore,
    notes: &ServerNotes,
    waits: W,
    keywords: &Keywords,
) -> Result<L, AllocError>
    ensures keywords { IfOk result (λ link. L.map link ≡ keywords.now) }
    ensures address { IfOk result (λ link. L.address link ≡ address_of store.now) }
{
    let address = address_of(rt.alloc(), store)?;
    L::over(rt, address.as_str(), notes, waits, keywords)
}

/// A session with the server of a store, which is seen by this map of keywords. Its user has logged in.
pub(crate) fn log_in<R: AllocGlobal, W: Copy, L: LinkOver<R, W> + Drop>(
    rt: &R,
    store: &ImapStore,
    notes: &ServerNotes,
    waits: W,
    keywords: &Keywords,
) -> Result<LoggedIn<L>, AskFault> {
    let (user, password) = (store.user.as_bytes(), store.pass.as_bytes());
    if !is_word(user) || !is_word(password) {
        return Err(AskFault::Unsendable);
    }
    let Ok(link) = link_to(rt, store, notes, waits, keywords) else {
        return Err(AskFault::Far(FarFault::NoMemory));
    };
    match LoggedIn::open(rt.alloc(), link, user, password) {
        Ok(session) => Ok(session),
        Err(FarFault::Refused) => Err(AskFault::LoginRefused),
        Err(fault) => Err(AskFault::Far(fault)),
    }
}

/// Whether these bytes can be sent as a word.
pub(crate) fn is_word(bytes: &[u8]) -> bool
    ensures { IsTrue result ↔ IsWord bytes.now }
{
    bytes.len() <= WORD_MAX && all_text(bytes)
}
