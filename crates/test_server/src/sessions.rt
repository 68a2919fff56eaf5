//! Sessions with a server.

ghost use Rattle.std.specs.Prelude.{◌<◌};

use crate::arriving::arrive;
use crate::mailboxes::{add, make_server, print_mailboxes};
use crate::sent::{push_line, push_lines};
use crate::serving::{serve_loopback, serve_memory};
use imap_server::server::Server;
use mailcore::mailbox::StoredMailbox;
use std::mem;
use test_scripts::failure::Failure;
use test_scripts::mail::print_replies;
use test_scripts::play::Player;
use test_scripts::reported::Reported;
use test_scripts::script::Script;
use test_scripts::words::Words;

/// The mailboxes of the next server, a server, and of how many bytes the pieces are that are fed to it.
#[derive(Drop)]
pub struct Sessions {
    rt: HostRuntime,
    mailboxes: Vec<StoredMailbox>,
    server: Option<Server>,
    piece: usize,
}

impl Sessions {
    /// No server.
    pub fn new(rt: &HostRuntime) -> Sessions {
        Sessions {
            rt: *rt,
            mailboxes: Vec::new(rt.alloc()),
            server: None,
            piece: 4096,
        }
    }

    /// Plays a line that asks for a server.
    fn ask(&mut self, word: &str, line: &mut Words<'_>, script: &mut Script<'_>) {
        let Some(server) = &mut self.server else {
            line.refuse();
            return;
        };
        match word {
            "connect" => print_replies(&mut script.reported, server.connect()),
            "mailboxes" => print_mailboxes(&mut script.reported, server),
            "hang" => {
                line.expect("up");
                server.hang_up();
            }
            "arrive" => arrive(self.rt.alloc(), server, line, &mut script.reported),
            _ => self.send(word, line, script),
        }
    }

    /// Sends what this line says, or those up to a line `end`.
    fn send(&mut self, word: &str, line: &mut Words<'_>, script: &mut Script<'_>) {
        let alloc = self.rt.alloc();
        let mut sent = Vec::new(alloc);
        match word {
            "together" | "loopback" | "stream" => push_lines(alloc, &mut sent, line, script),
            _ => push_line(alloc, &mut sent, word, line),
        }
        self.bring(word, line, &sent, &mut script.reported);
    }

    /// Brings these bytes to the server by the way that the line says.
    fn bring(&mut self, word: &str, line: &mut Words<'_>, sent: &[u8], reported: &mut Reported) {
        let Some(server) = &mut self.server else {
            line.refuse();
            return;
        };
        match word {
            "loopback" => {
                if let Err(fault) = serve_loopback(&self.rt, server, sent, reported) {
                    line.fail(Failure::from(fault));
                }
            }
            "stream" => serve_memory(self.rt.alloc(), server, sent, line, reported),
            _ => feed(server, sent, self.piece.max(1), reported),
        }
    }

    /// A server with the mailboxes so far replaces the last one.
    fn set_server(&mut self, line: &mut Words<'_>) {
        match make_server(self.rt.alloc(), &mut self.mailboxes) {
            Ok(server) => drop(self.server.replace(server)),
            Err(failure) => line.fail(failure),
        }
    }
}

impl Player for Sessions {
    fn begin(&mut self) -> Result<(), Failure> {
        let anew = Sessions::new(&self.rt);
        drop(mem::replace(self, anew));
        Ok(())
    }

    fn play(&mut self, line: &mut Words<'_>, script: &mut Script<'_>) -> Result<(), Failure> {
        let word = line.word();
        match word {
            "mailbox" | "message" => add(self.rt.alloc(), &mut self.mailboxes, word, line),
            "server" => self.set_server(line),
            "pieces" => {
                self.piece = line.count();
                if self.piece == 0 {
                    line.refuse();
                }
            }
            _ => self.ask(word, line, script),
        }
        Ok(())
    }
}

/// Feeds bytes in pieces, and answers the replies. After a fault nothing more is fed.
fn feed(server: &mut Server, sent: &[u8], piece: usize, reported: &mut Reported)
    requires { 0 < piece }
{
    for bytes in sent.chunks(piece) {
        match server.feed(bytes) {
            Ok(replies) => print_replies(reported, &replies),
            Err(fault) => {
                reported.say(&fault);
                break;
            }
        }
    }
}
