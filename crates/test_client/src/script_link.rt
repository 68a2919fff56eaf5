//! A link whose other end says what a script says.

ghost use Rattle.std.specs.Prelude.{◌≡◌, ◌<◌, ◌≤◌, length};

use crate::tape::Tape;
use device::stop_count::StopCount;
use imap_link::link::{Link, LinkFault};
use std::cell::RefCell;

/// A link whose other end says what a script says, true or not. So it is never honest in the sense of `Link`.
#[derive(Drop)]
pub struct ScriptLink<'t> {
    tape: &'t RefCell<Tape>,
    stops: StopCount,
}

impl<'t> ScriptLink<'t> {
    /// A link over this tape.
    pub fn new(tape: &'t RefCell<Tape>) -> ScriptLink<'t> {
        ScriptLink {
            tape,
            stops: StopCount::new(),
        }
    }

    // Counts a stop.
    fn stopped(&mut self) -> LinkFault
        ensures fault { result ≡ LinkFault.Stopped }
        ensures counted { self.old.stops < self.new.stops }
    {
        self.stops.push();
        LinkFault::Stopped
    }

    // Writes the next bytes to the front of the piece, and returns how many; none at their end.
    fn take(&self, piece: &mut [u8]) -> usize
        ensures { result ≤ length piece.new }
    {
        match self.tape.try_borrow_mut() {
            Ok(mut tape) => tape.receive(piece),
            Err(_) => 0,
        }
    }
}

impl Link for ScriptLink<'_> {
    ghost use Rattle.imap_client.specs.Nowhere.{no_line};
    ghost use Rattle.imap_link.specs.Sending.{anybody};

    ghost honest = { λ _. ⊥ };

    ghost line = { λ _. no_line };

    ghost stops = { λ l. l.stops };

    ghost visitors = { anybody };

    ghost sound = { λ l kept. absurd kept };

    fn send(&mut self, bytes: &[u8]) -> Result<(), LinkFault> {
        let is_sent = match self.tape.try_borrow_mut() {
            Ok(mut tape) => tape.send(bytes),
            Err(_) => false,
        };
        if is_sent { Ok(()) } else { Err(self.stopped()) }
    }

    fn recv(&mut self, piece: &mut [u8]) -> Result<usize, LinkFault> {
        let count = self.take(piece);
        if count == 0 {
            match self.stopped() {
                LinkFault::Stopped => Ok(0),
                LinkFault::NoMemory => Err(LinkFault::NoMemory),
            }
        } else {
            Ok(count)
        }
    }

    fn reconnect(&mut self) -> Result<(), LinkFault> {
        let is_connected = match self.tape.try_borrow_mut() {
            Ok(mut tape) => tape.connect(),
            Err(_) => false,
        };
        if is_connected {
            Ok(())
        } else {
            Err(self.stopped())
        }
    }
}
