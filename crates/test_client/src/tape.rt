//! What goes over a link whose other end says what a script says.

ghost use Rattle.std.specs.Prelude.{◌≤◌, length};

use std::alloc::Global;
use std::mem;
use test_scripts::failure::Failure;
use test_scripts::mail::print_lines;
use test_scripts::reported::Reported;
use test_scripts::words::Words;

/// The most bytes of a piece where a script does not say it.
pub const PIECE: usize = 4096;

/// What the server says after what it waits for.
#[derive(Drop)]
struct Turn {
    awaited: Vec<u8>,
    said: Vec<u8>,
}

/// What the server is to say in the next call, and what went over the link in it.
#[derive(Drop)]
pub struct Tape {
    alloc: Global,
    // what it says in this call, and how many turns of it have come
    turns: Vec<Turn>,
    came: usize,
    // what was sent since it has spoken last
    sent: Vec<u8>,
    has_sent: bool,
    // how many bytes can be sent in this call, and whether it can be reached
    sendable: usize,
    is_reachable: bool,
    // what it has said, and how much of that was received
    said: Vec<u8>,
    received: usize,
    // how many bytes it has said in all, and how many it may say until its bytes end
    spoken: usize,
    room: usize,
    // the most bytes of a piece
    piece: usize,
    // whether memory was wanted
    is_lost: bool,
}

impl Tape {
    /// One for a server that says so many bytes at most.
    pub fn new(alloc: Global, room: usize) -> Tape {
        Tape {
            alloc,
            turns: Vec::new(alloc),
            came: 0,
            sent: Vec::new(alloc),
            has_sent: false,
            sendable: usize::MAX,
            is_reachable: true,
            said: Vec::new(alloc),
            received: 0,
            spoken: 0,
            room,
            piece: PIECE,
            is_lost: false,
        }
    }

    /// A tape over which nothing went, and that has no end.
    pub fn begin_anew(&mut self) {
        drop(mem::replace(self, Tape::new(self.alloc, usize::MAX)));
    }

    /// Takes a line of what goes over the link in the next call; returns whether it is one. `Script`: it is bad.
    pub fn talk(&mut self, word: &str, line: &mut Words<'_>) -> Result<bool, Failure> {
        let is_talk = self.take(word, line);
        if is_talk {
            line.end()?;
        }
        Ok(is_talk)
    }

    /// The same, where it is noted that the line is bad.
    pub fn take(&mut self, word: &str, line: &mut Words<'_>) -> bool {
        match word {
            "S:" => self.add(true, line.rest(), b"\r\n"),
            "C:" => self.add(false, line.rest(), b"\r\n"),
            "says" => self.repeat(true, 1, line),
            "sends" => self.repeat(false, 1, line),
            "repeats" => self.repeat(true, line.number(), line),
            "pieces" => self.piece = line.count().max(1),
            "breaks" => self.sendable = line.count(),
            "unreachable" => self.is_reachable = false,
            _ => return false,
        }
        true
    }

    fn repeat(&mut self, is_said: bool, times: u32, line: &mut Words<'_>) {
        let bytes = line.said(self.alloc);
        for _ in 0..times {
            self.add(is_said, &bytes, b"");
        }
    }

    /// Adds to what the server says, or waits for. What it waits for after what it says begins a turn.
    fn add(&mut self, is_said: bool, bytes: &[u8], end: &[u8]) {
        let begins = match self.turns.last() {
            Some(turn) => !is_said && !turn.said.is_empty(),
            None => true,
        };
        if begins {
            self.begin_turn();
        }
        if let Some(turn) = self.turns.last_mut() {
            let text = if is_said {
                &mut turn.said
            } else {
                &mut turn.awaited
            };
            if text.extend_from_slice(bytes).is_err() || text.extend_from_slice(end).is_err() {
                self.is_lost = true;
            }
        }
    }

    fn begin_turn(&mut self) {
        let turn = Turn {
            awaited: Vec::new(self.alloc),
            said: Vec::new(self.alloc),
        };
        if self.turns.push(turn).is_err() {
            self.is_lost = true;
        }
    }

    /// Begins a new connection; what was said on an earlier one is lost. Returns whether the server can be reached.
    pub fn connect(&mut self) -> bool {
        self.said.clear();
        self.received = 0;
        self.sent.clear();
        self.is_reachable
    }

    /// Sends these bytes; returns whether all of them went.
    pub fn send(&mut self, bytes: &[u8]) -> bool {
        self.answer();
        self.has_sent = true;
        let count = bytes.len().min(self.sendable);
        self.sendable -= count;
        if self.sent.extend_from_slice(&bytes[..count]).is_err() {
            self.is_lost = true;
        }
        self.answer();
        count == bytes.len()
    }

    /// What was sent is answered, if it is what the server waits for, as far as its bytes go.
    fn answer(&mut self) {
        let Some(turn) = self.turns.get(self.came) else {
            return;
        };
        if turn.awaited.as_slice() == self.sent.as_slice() {
            let count = turn.said.len().min(self.room);
            self.room -= count;
            self.spoken = self.spoken.saturating_add(count);
            if self.said.extend_from_slice(&turn.said[..count]).is_err() {
                self.is_lost = true;
            }
            self.sent.clear();
            self.came = self.came.saturating_add(1);
        }
    }

    /// Writes the next bytes to the front of the piece, and returns how many; none at their end.
    pub fn receive(&mut self, piece: &mut [u8]) -> usize
        ensures { result ≤ length piece.new }
    {
        self.answer();
        let left = self.said.get(self.received..).unwrap_or(&[]);
        let count = left.len().min(self.piece).min(piece.len());
        piece[..count].copy_from_slice(&left[..count]);
        self.received = self.received.saturating_add(count);
        count
    }

    /// The call has ended. Reports what was sent in it though the server does not wait for it, and what was not, though it does. Returns
    /// whether anything was sent.
    pub fn end_call(&mut self, reported: &mut Reported) -> bool {
        print_lines(reported, "sent ", &self.sent);
        for turn in self.turns.iter().skip(self.came) {
            print_lines(reported, "did not send ", &turn.awaited);
        }
        self.turns.clear();
        self.came = 0;
        self.sent.clear();
        self.sendable = usize::MAX;
        self.is_reachable = true;
        if self.is_lost {
            reported.lose();
        }
        mem::replace(&mut self.has_sent, false)
    }

    /// How many bytes the server has said in all.
    pub fn spoken(&self) -> usize {
        self.spoken
    }

    /// Whether something did not go over the link since memory ran out.
    pub fn is_lost(&self) -> bool {
        self.is_lost
    }
}
