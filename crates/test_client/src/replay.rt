//! Calls that are made over a link to a server in memory that stops somewhere.

use crate::held::Held;
use crate::memory::Memory;
use mem_link::schedule::LinkStop;
use std::alloc::Global;
use test_scripts::failure::Failure;
use test_scripts::reported::Reported;
use test_scripts::words::Words;

/// What came of calls.
#[derive(Drop)]
pub struct Came {
    /// The answers of the calls before the last one.
    pub earlier: Reported,
    /// The answer of the last one.
    pub last: Reported,
    /// The answers of those that look what stands then.
    pub look: Reported,
    /// What the server holds after them.
    pub held: Held,
    /// How many calls of the link have stopped.
    pub stops: usize,
    /// Why the lines could not be played.
    pub failure: Option<Failure>,
}

/// What comes of the lines of a case, of its last call and of those that look, over a new link that stops there.
pub fn replay(alloc: Global, lines: &str, call: &str, look: &str, stop: Option<LinkStop>) -> Came {
    let mut came = Came {
        earlier: Reported::new(alloc),
        last: Reported::new(alloc),
        look: Reported::new(alloc),
        held: Held::new(alloc),
        stops: 0,
        failure: None,
    };
    let mut memory = Memory::new(alloc, stop);
    if let Err(failure) = came.play(&mut memory, lines, call, look) {
        came.failure = Some(failure);
    }
    came.hold(alloc, &mut memory);
    drop(memory);
    came
}

impl Came {
    fn play(
        &mut self,
        memory: &mut Memory,
        lines: &str,
        call: &str,
        look: &str,
    ) -> Result<(), Failure> {
        play_lines(memory, lines, &mut self.earlier)?;
        play_lines(memory, call, &mut self.last)?;
        play_lines(memory, look, &mut self.look)
    }

    /// Looks what the server holds.
    fn hold(&mut self, alloc: Global, memory: &mut Memory) {
        match memory.take_link() {
            Some(link) => {
                self.stops = link.stops();
                self.held.report(alloc, link.server().mailboxes());
                drop(link);
            }
            None => self.held.report(alloc, &memory.mailboxes),
        }
        if self.is_lost() {
            self.failure = Some(Failure::NoMemory);
        }
    }

    fn is_lost(&self) -> bool {
        self.earlier.is_lost() || self.last.is_lost() || self.look.is_lost() || self.held.is_lost()
    }
}

fn play_lines(memory: &mut Memory, lines: &str, reported: &mut Reported) -> Result<(), Failure> {
    for line in lines.lines() {
        let mut words = Words::new(line.as_bytes());
        memory.play_line(&mut words, reported);
        words.end()?;
    }
    Ok(())
}
