//! A client over a link to a server in memory.

ghost use Rattle.std.specs.Prelude.{IfOk};
ghost use Rattle.imap_server.specs.Boxes.{AreServed};

use crate::client::Client;
use crate::tape::PIECE;
use imap_server::served::are_served;
use imap_server::server::Server;
use mailcore::flags::Flags;
use mailcore::mailbox::{Message, StoredMailbox};
use mailcore::octets::Octets;
use mailcore::uid::Uid;
use mem_link::mem_link::MemLink;
use mem_link::schedule::{LinkStop, Schedule};
use std::alloc::Global;
use std::mem;
use test_scripts::failure::Failure;
use test_scripts::mail::{add_mailbox, add_message, push_message};
use test_scripts::play::Player;
use test_scripts::reported::Reported;
use test_scripts::script::Script;
use test_scripts::words::Words;

/// The mailboxes of a server, and a client over a link to it.
#[derive(Drop)]
pub struct Memory {
    alloc: Global,
    /// The mailboxes, up to the first call.
    pub mailboxes: Vec<StoredMailbox>,
    piece: usize,
    // where the link stops
    stop: Option<LinkStop>,
    // from the first call on
    client: Option<Client<MemLink>>,
}

impl Memory {
    /// A server without mailboxes, to which a link is that stops there.
    pub fn new(alloc: Global, stop: Option<LinkStop>) -> Memory {
        Memory {
            alloc,
            mailboxes: Vec::new(alloc),
            piece: PIECE,
            stop,
            client: None,
        }
    }

    /// Plays a line: one of the server, or a call, whose answer is reported.
    pub fn play_line(&mut self, line: &mut Words<'_>, reported: &mut Reported) {
        match line.word() {
            "mailbox" => {
                let added = add_mailbox(self.alloc, &mut self.mailboxes, line);
                line.note(added);
            }
            "message" => {
                let added = add_message(self.alloc, &mut self.mailboxes, line);
                line.note(added);
            }
            "messages" => self.fill(line),
            "body" => self.push_body(line),
            "pieces" => self.piece = line.count(),
            word => self.call(word, line, reported),
        }
    }

    /// The link, over which nothing more is sent; none where no call was made.
    pub fn take_link(&mut self) -> Option<MemLink> {
        match self.client.take() {
            Some(client) => client.into_link(),
            None => None,
        }
    }

    fn fill(&mut self, line: &mut Words<'_>) {
        for before in 0..line.number() {
            let number = before.saturating_add(1);
            match format!(in self.alloc; "X-TUID: {number:012}\r\n\r\ntext\r\n") {
                Ok(text) => self.push_plain(number, text.into_bytes(), line),
                Err(_) => line.fail(Failure::NoMemory),
            }
        }
    }

    fn push_body(&mut self, line: &mut Words<'_>) {
        match vec![in self.alloc; b'x'; line.count()] {
            Ok(bytes) => self.push_plain(1, bytes, line),
            Err(_) => line.fail(Failure::NoMemory),
        }
    }

    /// Adds a message without flags.
    fn push_plain(&mut self, number: u32, bytes: Vec<u8>, line: &mut Words<'_>) {
        match Uid::new(number) {
            Some(uid) => {
                let message = Message {
                    uid,
                    flags: Flags::none(),
                    bytes: Octets::from_vec(bytes),
                };
                line.note(push_message(&mut self.mailboxes, message));
            }
            None => line.refuse(),
        }
    }

    fn call(&mut self, word: &str, line: &mut Words<'_>, reported: &mut Reported) {
        if self.client.is_none() {
            self.connect(line);
        }
        if let Some(client) = &mut self.client {
            reported.begin();
            client.make(self.alloc, word, line, reported);
            reported.end();
        }
    }

    /// Makes a client that has a link to a server with these mailboxes. The line is bad where it cannot serve them.
    fn connect(&mut self, line: &mut Words<'_>) {
        match server_of(self.alloc, &mut self.mailboxes) {
            Ok(server) => {
                let schedule = Schedule::new(self.stops(line));
                let link = MemLink::new(self.alloc, server, schedule);
                let client = Client::Link(link.in_pieces(self.piece));
                drop(self.client.replace(client));
            }
            Err(failure) => line.fail(failure),
        }
    }

    fn stops(&self, line: &mut Words<'_>) -> Vec<LinkStop> {
        let mut stops = Vec::new(self.alloc);
        if let Some(stop) = self.stop {
            if stops.push(stop).is_err() {
                line.fail(Failure::NoMemory);
            }
        }
        stops
    }
}

impl Player for Memory {
    fn begin(&mut self) -> Result<(), Failure> {
        Ok(())
    }

    fn play(&mut self, line: &mut Words<'_>, script: &mut Script<'_>) -> Result<(), Failure> {
        self.play_line(line, &mut script.reported);
        Ok(())
    }
}

/// A server that takes these mailboxes, for the user `u` with the password `p`. `Script`: it cannot serve them.
fn server_of(alloc: Global, mailboxes: &mut Vec<StoredMailbox>) -> Result<Server, Failure>
    ensures { IfOk result (λ server. AreServed server.server.mailboxes) }
{
    if !are_served(mailboxes) {
        return Err(Failure::Script);
    }
    let user = Vec::from_slice(alloc, b"u")?;
    let password = Vec::from_slice(alloc, b"p")?;
    let mailboxes = mem::replace(mailboxes, Vec::new(alloc));
    Ok(Server::new(alloc, mailboxes, user, password))
}
