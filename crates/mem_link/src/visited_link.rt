//! A link to a server in memory to which others add messages.

ghost use Rattle.std.specs.Prelude.{◌≡◌, ◌<◌, ◌^◌};
ghost use Rattle.mem_link.specs.MemLinks.{line_of, stops_of};
ghost use Rattle.mem_link.specs.Others.{AreForeign, AreForeign-prop};
ghost use Rattle.mailcore.specs.Visitors.{others_but};

use crate::arrivals::Arrivals;
use crate::mem_link::MemLink;
use imap_link::link::{Link, LinkFault};
use imap_server::server::Server;
use mailcore::others::Others;
use std::marker::PhantomData;

/// A link to a server in memory, which stops where its schedule says, and to a mailbox of which others add messages.
#[derive(Drop)]
pub struct VisitedLink<O: Others> {
    link: MemLink,
    arrivals: Arrivals,
    others: PhantomData<O>,
    pub ghost said: { AreForeign O.ours arrivals.list.items } by { AreForeign-prop O.ours arrivals.list.items },
}

impl<O: Others> VisitedLink<O> {
    /// This link, and what others add.
    pub fn new(link: MemLink, arrivals: Arrivals) -> Self
        requires said { AreForeign O.ours arrivals.list.items }
        ensures link { result.link ≡ link }
        ensures arrivals { result.arrivals ≡ arrivals }
    {
        VisitedLink {
            link,
            arrivals,
            others: PhantomData,
        }
    }

    /// How many calls have stopped, up to the top of its type.
    pub fn stops(&self) -> usize
        ensures { stops_of self.now.link < 2 ^ 64 → result ≡ stops_of self.now.link }
    {
        self.link.stops()
    }

    /// The server, with its mailboxes as they stand.
    pub fn server(&self) -> &Server
        ensures { result.now.server ≡ (line_of self.now.link).end.server }
    {
        self.link.server()
    }
}

impl<O: Others> Link for VisitedLink<O> {
    ghost use Rattle.mem_link.specs.Served.{served_are_sound};

    ghost honest = { λ _. Unit {0} };

    ghost line = { λ v. line_of v.link };

    ghost stops = { λ v. stops_of v.link };

    ghost visitors = { others_but O.ours };

    ghost sound = { λ v _. served_are_sound v.link.server.server.mailboxes v.link.served };

    fn send(&mut self, bytes: &[u8]) -> Result<(), LinkFault> {
        self.arrivals.come(&mut self.link, bytes)?;
        self.link.send(bytes)
    }

    fn recv(&mut self, piece: &mut [u8]) -> Result<usize, LinkFault> {
        self.link.recv(piece)
    }

    fn reconnect(&mut self) -> Result<(), LinkFault> {
        self.link.reconnect()
    }
}
