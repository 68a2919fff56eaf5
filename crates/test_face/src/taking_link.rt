//! A link that keeps what is sent.

ghost use Rattle.std.specs.Prelude.{◌≡◌, ◌<◌, ◌≤◌};

use device::stop_count::StopCount;
use imap_link::link::{Link, LinkFault};
use std::alloc::Global;
use std::cell::Cell;
use std::rc::Rc;

/// What was sent over a link, and not taken yet.
pub type Taken = Rc<Cell<Vec<u8>>>;

/// A link that keeps what is sent, and over which nothing comes. So it is never honest in the sense of `Link`.
#[derive(Drop)]
pub struct TakingLink {
    alloc: Global,
    taken: Taken,
    stops: StopCount,
}

impl TakingLink {
    /// A link that keeps there what is sent.
    pub fn new(alloc: Global, taken: Taken) -> TakingLink {
        TakingLink {
            alloc,
            taken,
            stops: StopCount::new(),
        }
    }
}

impl Link for TakingLink {
    ghost use Rattle.imap_client.specs.Nowhere.{no_line};
    ghost use Rattle.imap_link.specs.Sending.{anybody};

    ghost honest = { λ _. ⊥ };

    ghost line = { λ _. no_line };

    ghost stops = { λ l. l.stops };

    ghost visitors = { anybody };

    ghost sound = { λ l kept. absurd kept };

    fn send(&mut self, bytes: &[u8]) -> Result<(), LinkFault> {
        let mut taken = self.taken.replace(Vec::new(self.alloc));
        let added = taken.extend_from_slice(bytes);
        self.taken.set(taken);
        added.map_err(|_| LinkFault::NoMemory)
    }

    fn recv(&mut self, _piece: &mut [u8]) -> Result<usize, LinkFault> {
        self.stops.push();
        Ok(0)
    }

    fn reconnect(&mut self) -> Result<(), LinkFault> {
        Ok(())
    }
}
