//! A link to a server in memory, where other clients add, change and remove messages.

ghost use Rattle.std.specs.Prelude.{◌≡◌, ◌<◌, ◌^◌};
ghost use Rattle.mem_link.specs.MemLinks.{line_of, stops_of};

use crate::acts::MailboxActs;
use crate::arrivals::Arrivals;
use crate::mem_link::MemLink;
use imap_link::link::{Link, LinkFault};
use imap_server::server::Server;

/// A link to a server in memory, which stops where its schedule says, and to a mailbox whose messages other clients add, change and remove.
///
/// It is not honest in the sense of `Link`, whose law speaks of others who only add.
#[derive(Drop)]
pub struct ActedLink {
    link: MemLink,
    arrivals: Arrivals,
    acts: MailboxActs,
}

impl ActedLink {
    /// This link, what others add, and what they do. Of all before one command, messages come first.
    pub fn new(link: MemLink, arrivals: Arrivals, acts: MailboxActs) -> Self
        ensures link { result.link ≡ link }
        ensures arrivals { result.arrivals ≡ arrivals }
        ensures acts { result.acts ≡ acts }
    {
        ActedLink {
            link,
            arrivals,
            acts,
        }
    }

    /// How many calls have stopped, up to the top of its type.
    pub fn stops(&self) -> usize
        ensures { stops_of self.now.link < 2 ^ 64 → result ≡ stops_of self.now.link }
    {
        self.link.stops()
    }

    /// The server, with its mailboxes as they stand.
    pub fn server(&self) -> &Server
        ensures { result.now.server ≡ (line_of self.now.link).end.server }
    {
        self.link.server()
    }
}

impl Link for ActedLink {
    ghost use Rattle.imap_link.specs.Sending.{anybody};

    ghost honest = { λ _. ⊥ };

    ghost line = { λ a. line_of a.link };

    ghost stops = { λ a. stops_of a.link };

    ghost visitors = { anybody };

    ghost sound = { λ _ kept. absurd kept };

    fn send(&mut self, bytes: &[u8]) -> Result<(), LinkFault> {
        self.arrivals.come(&mut self.link, bytes)?;
        self.acts.happen(&mut self.link, bytes)?;
        self.link.send(bytes)
    }

    fn recv(&mut self, piece: &mut [u8]) -> Result<usize, LinkFault> {
        self.link.recv(piece)
    }

    fn reconnect(&mut self) -> Result<(), LinkFault> {
        self.link.reconnect()
    }
}
