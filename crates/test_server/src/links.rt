//! Links to a server, in memory or over loopback.

use crate::calls::call;
use crate::mailboxes::{add, make_server, print_mailboxes};
use crate::stops::read_stop;
use imap_server::server::Server;
use mailcore::mailbox::StoredMailbox;
use mem_link::loop_link::LoopLink;
use mem_link::mem_link::MemLink;
use mem_link::schedule::{LinkStop, Schedule};
use std::mem;
use test_scripts::failure::Failure;
use test_scripts::play::Player;
use test_scripts::reported::Reported;
use test_scripts::script::Script;
use test_scripts::words::Words;

/// The mailboxes of the next server, the stops of the link to it, and a link.
#[derive(Drop)]
pub struct Links {
    rt: HostRuntime,
    mailboxes: Vec<StoredMailbox>,
    stops: Vec<LinkStop>,
    link: Option<AnyLink>,
}

/// A link of either kind.
#[derive(Drop)]
enum AnyLink {
    Memory(MemLink),
    Loopback(LoopLink<HostRuntime>),
}

impl Links {
    /// No link.
    pub fn new(rt: &HostRuntime) -> Links {
        Links {
            rt: *rt,
            mailboxes: Vec::new(rt.alloc()),
            stops: Vec::new(rt.alloc()),
            link: None,
        }
    }

    /// `memory`, `memory N` or `loopback`: a link replaces the last one.
    fn set_link(&mut self, line: &mut Words<'_>) {
        match make_server(self.rt.alloc(), &mut self.mailboxes) {
            Ok(server) => {
                let link = self.link_to(server, line);
                drop(self.link.replace(link));
            }
            Err(failure) => line.fail(failure),
        }
    }

    fn link_to(&mut self, server: Server, line: &mut Words<'_>) -> AnyLink {
        let alloc = self.rt.alloc();
        let schedule = Schedule::new(mem::replace(&mut self.stops, Vec::new(alloc)));
        let word = line.word();
        if word == "loopback" {
            return AnyLink::Loopback(LoopLink::new(self.rt, server, schedule));
        }
        if word != "memory" {
            line.refuse();
        }
        let piece = if line.is_over() { 4096 } else { line.count() };
        AnyLink::Memory(MemLink::new(alloc, server, schedule).in_pieces(piece))
    }

    /// Answers how many calls of the link have stopped, or what stands on its server.
    fn look(&self, word: &str, line: &mut Words<'_>, reported: &mut Reported) {
        match &self.link {
            Some(AnyLink::Memory(link)) => print_link(word, reported, link.stops(), link.server()),
            Some(AnyLink::Loopback(link)) => {
                print_link(word, reported, link.stops(), link.server());
            }
            None => line.refuse(),
        }
    }

    /// Makes a call of the link, and answers what it gives.
    fn call(&mut self, word: &str, line: &mut Words<'_>, reported: &mut Reported) {
        let alloc = self.rt.alloc();
        match &mut self.link {
            Some(AnyLink::Memory(link)) => call(alloc, link, word, line, reported),
            Some(AnyLink::Loopback(link)) => call(alloc, link, word, line, reported),
            None => line.refuse(),
        }
    }

    fn add_stop(&mut self, line: &mut Words<'_>) {
        if self.stops.push(read_stop(line)).is_err() {
            line.fail(Failure::NoMemory);
        }
    }
}

impl Player for Links {
    fn begin(&mut self) -> Result<(), Failure> {
        let anew = Links::new(&self.rt);
        drop(mem::replace(self, anew));
        Ok(())
    }

    fn play(&mut self, line: &mut Words<'_>, script: &mut Script<'_>) -> Result<(), Failure> {
        let word = line.word();
        match word {
            "mailbox" | "message" => add(self.rt.alloc(), &mut self.mailboxes, word, line),
            "stop" => self.add_stop(line),
            "link" => self.set_link(line),
            "stops" | "mailboxes" => self.look(word, line, &mut script.reported),
            _ => self.call(word, line, &mut script.reported),
        }
        Ok(())
    }
}

/// Answers how many calls have stopped, or what stands on a server.
fn print_link(word: &str, reported: &mut Reported, stops: usize, server: &Server) {
    if word == "stops" {
        reported.begin();
        reported.number(stops as u64);
        reported.end();
    } else {
        print_mailboxes(reported, server);
    }
}
