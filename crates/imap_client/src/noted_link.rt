//! A link to a server, of which it is known how a connection came to its end, and by which map of keywords its server is seen.

ghost use Rattle.std.specs.Prelude.{◌≡◌, ◌<◌, true, false};
ghost use Rattle.imap_client.specs.Standing.{Stands};
ghost use Rattle.std.proofs.Props.{props};

use crate::waits::{Wait, Waits};
use device::stop_count::StopCount;
use imap_link::link::{Link, LinkFault};
use mailcore::copy_pieces::CopyPieces;
use mailcore::keywords::Keywords;
use std::alloc::Global;
use std::cell::Cell;
use std::rc::Rc;

/// How a connection came to its end.
#[derive(Clone, Copy, PartialEq, Eq)]
pub enum LinkEnd {
    /// It was not made: the server cannot be reached.
    Unreached,
    /// It broke, or the server closed it.
    Ended,
}

/// Where it is noted how the last connection came to its end. None: it stands, or none was asked for.
pub type NotedEnd = Rc<Cell<Option<LinkEnd>>>;

/// A link that passes each call on, and notes how its connection came to its end. A new connection is noted anew. Before it waits for the
/// server, it reports what for.
///
/// It is honest as long as the link below is, and the flags at the server have the letters of its map of keywords. No call changes that:
/// after one that failed nothing is sent until `reconnect`, so that whatever is sent comes to a server of which it is known what it has
/// read.
#[derive(Drop)]
pub struct NotedLink<L: Link, W> {
    link: L,
    end: NotedEnd,
    waits: W,
    /// By this map the server is seen.
    keywords: Keywords,
    /// Whether a connection was made, and no call over it has failed.
    stands: bool,
    /// How often something was not sent, since none stands.
    unsent: StopCount,
    pub ghost standing: { stands ≡ true → L.honest link → ∥ Stands (L.line link) ∥₁ } by { Prim.hlevel props },
}

impl<L: Link, W: Waits> NotedLink<L, W> {
    /// This link, whose server is seen by this map of keywords. It notes there how its connection came to its end, and reports to this one
    /// what it waits for.
    pub fn new(link: L, end: NotedEnd, waits: W, keywords: Keywords) -> Self
        ensures link { result.link ≡ link }
        ensures keywords { result.keywords ≡ keywords }
    {
        NotedLink {
            link,
            end,
            waits,
            keywords,
            stands: false,
            unsent: StopCount::new(),
        }
    }

    /// The map of keywords by which its server is seen.
    pub fn keywords(&self) -> &Keywords
        ensures { result.now ≡ self.now.keywords }
    {
        &self.keywords
    }

    /// The link below.
    pub fn link(&self) -> &L
        ensures { result.now ≡ self.now.link }
    {
        &self.link
    }

    // Nothing is sent, since no connection stands.
    fn refuse(&mut self) -> LinkFault
        requires { self.old.stands ≡ false }
        ensures fault { result ≡ LinkFault.Stopped }
        ensures link { self.new.link ≡ self.old.link }
        ensures keywords { self.new.keywords ≡ self.old.keywords }
        ensures counted { self.old.unsent < self.new.unsent }
    {
        self.unsent.push();
        self.end.set(Some(LinkEnd::Ended));
        LinkFault::Stopped
    }
}

impl<L: Link, W: Waits> Link for NotedLink<L, W> {
    ghost use Rattle.std.specs.Prelude.{◌+◌};
    ghost use Rattle.imap_client.specs.Seen.{HasMap};

    ghost honest = { λ noted. L.honest noted.link × HasMap noted.keywords (L.line noted.link).end.server };

    ghost line = { λ noted. L.line noted.link };

    ghost stops = { λ noted. L.stops noted.link + noted.unsent };

    ghost visitors = { L.visitors };

    ghost sound = { λ noted kept. L.sound noted.link kept.0 };

    fn send(&mut self, bytes: &[u8]) -> Result<(), LinkFault> {
        if !self.stands {
            return Err(self.refuse());
        }
        if let Some(wait) = Wait::following(bytes) {
            self.waits.wait(wait);
        }
        self.stands = false;
        let answer = self.link.send(bytes);
        self.stands = answer.is_ok();
        if answer == Err(LinkFault::Stopped) {
            self.end.set(Some(LinkEnd::Ended));
        }
        answer
    }

    fn send_copy(&mut self, alloc: Global, copy: CopyPieces<'_>) -> Result<(), LinkFault> {
        if !self.stands {
            return Err(self.refuse());
        }
        self.stands = false;
        let answer = self.link.send_copy(alloc, copy);
        self.stands = answer.is_ok();
        if answer == Err(LinkFault::Stopped) {
            self.end.set(Some(LinkEnd::Ended));
        }
        answer
    }

    fn recv(&mut self, piece: &mut [u8]) -> Result<usize, LinkFault> {
        let stood = self.stands;
        self.stands = false;
        let answer = self.link.recv(piece);
        self.stands = stood && answer.is_ok();
        if matches!(answer, Ok(0) | Err(LinkFault::Stopped)) {
            self.end.set(Some(LinkEnd::Ended));
        }
        answer
    }

    fn reconnect(&mut self) -> Result<(), LinkFault> {
        self.stands = false;
        self.waits.wait(Wait::Connection);
        let answer = self.link.reconnect();
        self.stands = answer.is_ok();
        if answer == Err(LinkFault::Stopped) {
            self.end.set(Some(LinkEnd::Unreached));
        } else {
            self.waits.wait(Wait::Greeting);
            self.end.set(None);
        }
        answer
    }
}
