//! A link to a server over a loopback connection.

ghost use Rattle.std.specs.Prelude.{◌≡◌, ◌^◌, ◌<◌, ◌≤◌, OnOk, Err};
ghost use Rattle.imap_server.specs.Boxes.{AreServed};

use crate::acts::MailboxActs;
use crate::arrivals::Arrivals;
use crate::mem_link::{MemLink, PIECE_BYTES};
use crate::schedule::Schedule;
use imap_link::link::{Link, LinkFault};
use imap_server::server::Server;
use std::io;
use std::io::{Read, Write};
use std::net::{Net, OpenListener, OpenStream, TcpListener, TcpStream};

/// A link to a server in this process over a TCP connection on the loopback address, both ends of which this process has. It
/// stops where its schedule says, as `MemLink` does.
///
/// The ends take turns: at most 4096 bytes are written to one and read at the other before more are written, so that neither
/// waits for the other. It is not honest in the sense of `Link`: no contract says that a socket gives what was written to it.
#[derive(Drop)]
pub struct LoopLink<R: Net + AllocGlobal + Clone + Drop> {
    rt: R,
    /// The server, and what it has said that was not written to its end yet.
    far: MemLink,
    ends: Option<Ends<R::Stream>>,
    arrivals: Arrivals,
    acts: MailboxActs,
}

/// Both ends of a connection.
#[derive(Drop)]
struct Ends<S: Drop> {
    client: S,
    server: S,
}

impl<S: Read + Write + Drop> Ends<S> {
    /// Writes a piece to the client's end, and reads as many bytes at the server's.
    fn carry_there(&mut self, piece: &[u8], came: &mut [u8]) -> io::Result<()> {
        self.client.write_all(piece)?;
        self.client.flush()?;
        self.server.read_exact(came)
    }

    /// Writes a piece to the server's end, and reads it at the client's.
    fn carry_back(&mut self, piece: &mut [u8]) -> io::Result<()> {
        self.server.write_all(piece)?;
        self.server.flush()?;
        self.client.read_exact(piece)
    }
}

/// Both ends of a new connection.
fn connected<R: Net>(rt: &R) -> io::Result<Ends<R::Stream>> {
    let listener = TcpListener::bind(rt, "127.0.0.1:0")?;
    let client = TcpStream::connect(rt, listener.local_addr()?)?;
    let (server, _address) = listener.accept()?;
    // Else a short piece waits until the one before is acknowledged.
    client.set_nodelay(true)?;
    server.set_nodelay(true)?;
    Ok(Ends { client, server })
}

impl<R: Net + AllocGlobal + Clone + Drop> LoopLink<R> {
    ghost use Rattle.mem_link.specs.MemLinks.{line_of, stops_of};

    /// A link to this server, with these stops. Nothing is connected before `reconnect`.
    pub fn new(rt: R, server: Server, schedule: Schedule) -> Self
        requires { AreServed server.server.mailboxes }
        ensures server { (line_of result.far).end.server ≡ server.server }
        ensures stops { stops_of result.far ≡ 0 }
    {
        let alloc = rt.alloc();
        LoopLink {
            rt,
            far: MemLink::new(alloc, server, schedule),
            ends: None,
            arrivals: Arrivals::none(alloc),
            acts: MailboxActs::none(alloc),
        }
    }

    /// The same link to a server to which others add these messages.
    pub fn among(self, arrivals: Arrivals) -> Self
        ensures far { result.far ≡ self.far }
    {
        let mut link = self;
        link.arrivals = arrivals;
        link
    }

    /// The same link to a server of which other clients do this to messages, after what comes before the same command.
    pub fn acting(self, acts: MailboxActs) -> Self
        ensures far { result.far ≡ self.far }
        ensures acts { result.acts ≡ acts }
    {
        let mut link = self;
        link.acts = acts;
        link
    }

    /// How many calls have stopped, up to the top of its type.
    pub fn stops(&self) -> usize
        ensures { stops_of self.now.far < 2 ^ 64 → result ≡ stops_of self.now.far }
    {
        self.far.stops()
    }

    /// The server, with its mailboxes as they stand.
    pub fn server(&self) -> &Server
        ensures { result.now.server ≡ (line_of self.now.far).end.server }
    {
        self.far.server()
    }

    /// The server, which nothing links to any more.
    pub fn into_server(self) -> Server
        ensures { result.server ≡ (line_of self.far).end.server }
    {
        let LoopLink { far, .. } = self;
        far.into_server()
    }

    /// The link stops. Gives what the call answers.
    fn stop(&mut self) -> LinkFault
        ensures counted { result ≡ LinkFault.Stopped → self.old.far.stops < self.new.far.stops }
        ensures no_less { self.old.far.stops ≤ self.new.far.stops }
    {
        self.ends = None;
        self.far.stop()
    }

    /// Brings a piece to the server, which answers it.
    fn bring(&mut self, piece: &[u8]) -> Result<(), LinkFault>
        ensures steady { OnOk result (self.new.far.stops ≡ self.old.far.stops) }
        ensures counted { result ≡ Err LinkFault.Stopped → self.old.far.stops < self.new.far.stops }
        ensures no_less { self.old.far.stops ≤ self.new.far.stops }
    {
        let mut buffer = [0; PIECE_BYTES];
        let came = &mut buffer[..piece.len().min(PIECE_BYTES)];
        let is_there = match &mut self.ends {
            Some(ends) => ends.carry_there(piece, came).is_ok(),
            None => false,
        };
        if is_there {
            self.far.give(came)
        } else {
            Err(self.stop())
        }
    }
}

impl<R: Net + AllocGlobal + Clone + Drop> Link for LoopLink<R> {
    ghost use Rattle.mem_link.specs.MemLinks.{line_of, stops_of};
    ghost use Rattle.imap_link.specs.Sending.{anybody};

    ghost honest = { λ _. ⊥ };

    ghost line = { λ l. line_of l.far };

    ghost stops = { λ l. stops_of l.far };

    ghost visitors = { anybody };

    ghost sound = { λ _ kept. absurd kept };

    fn send(&mut self, bytes: &[u8]) -> Result<(), LinkFault> {
        self.arrivals.come(&mut self.far, bytes)?;
        self.acts.happen(&mut self.far, bytes)?;
        let (front, stops) = match self.far.begin(bytes) {
            None => (bytes, false),
            Some(front) => (&bytes[..front], true),
        };
        for piece in front.chunks(PIECE_BYTES) {
            self.bring(piece)?;
        }
        if stops { Err(self.stop()) } else { Ok(()) }
    }

    fn recv(&mut self, piece: &mut [u8]) -> Result<usize, LinkFault> {
        let count = self.far.recv(piece)?;
        let is_back = match &mut self.ends {
            Some(ends) => ends.carry_back(&mut piece[..count]).is_ok(),
            None => false,
        };
        if is_back { Ok(count) } else { Err(self.stop()) }
    }

    fn reconnect(&mut self) -> Result<(), LinkFault> {
        self.ends = None;
        match connected(&self.rt) {
            Ok(ends) => {
                self.ends = Some(ends);
                self.far.reconnect()
            }
            Err(_) => Err(self.stop()),
        }
    }
}
