//! The calls of a system, and the one that is interrupted.

ghost use Rattle.std.specs.Prelude.{◌≡◌, ◌≤◌, Ok, IfOk, length};

use std::cell::Cell;
use std::io;
use std::io::ErrorKind;

/// The call at which a program is interrupted, counted from 1: no later one has an effect.
#[derive(Clone, Copy)]
pub enum Stop {
    /// It has no effect.
    Before(u32),
    /// If it writes, the first half of its bytes is written. Any other has no effect.
    Within(u32),
    /// It has its effect.
    After(u32),
}

impl Stop {
    /// The number of the call.
    pub fn number(self) -> u32 {
        match self {
            Stop::Before(number) | Stop::Within(number) | Stop::After(number) => number,
        }
    }

    /// Whether the call has its effect.
    fn is_after(self) -> bool {
        matches!(self, Stop::After(_))
    }

    /// Whether the call has a part of its effect.
    pub fn is_within(self) -> bool {
        matches!(self, Stop::Within(_))
    }
}

/// How many calls were made, and which one is interrupted.
#[derive(Drop)]
pub struct Calls {
    count: Cell<u32>,
    changes: Cell<u32>,
    stop: Cell<Option<Stop>>,
    is_write: Cell<bool>,
}

impl Calls {
    /// None was made, and none is interrupted.
    pub fn new() -> Calls {
        Calls {
            count: Cell::new(0),
            changes: Cell::new(0),
            stop: Cell::new(None),
            is_write: Cell::new(false),
        }
    }

    /// None was made from here on, and this one is interrupted.
    pub fn restart(&self, stop: Option<Stop>) {
        self.count.set(0);
        self.changes.set(0);
        self.stop.set(stop);
        self.is_write.set(false);
    }

    /// How many were made.
    pub fn count(&self) -> u32 {
        self.count.get()
    }

    /// How many had an effect that outlasts the program.
    pub fn changes(&self) -> u32 {
        self.changes.get()
    }

    /// Whether the one that was interrupted writes.
    pub fn is_write(&self) -> bool {
        self.is_write.get()
    }

    /// Counts a call that leaves all as it is. An error: it is not made.
    pub fn begin(&self) -> io::Result<()> {
        let number = self.count.get().saturating_add(1);
        self.count.set(number);
        match self.stop.get() {
            Some(stop) if number > stop.number() => Err(interrupted()),
            Some(stop) if number == stop.number() && !stop.is_after() => Err(interrupted()),
            _ => Ok(()),
        }
    }

    /// Counts a call that changes something. An error: it has no effect.
    pub fn begin_change(&self) -> io::Result<()> {
        self.begin()?;
        self.changes.set(self.changes.get().saturating_add(1));
        Ok(())
    }

    /// Counts a call that writes these bytes, and gives those that it writes. An error: it has no effect.
    pub fn begin_write<'a>(&self, bytes: &'a [u8]) -> io::Result<&'a [u8]>
        ensures { IfOk result (λ part. length part.now ≤ length bytes.now) }
    {
        let begun = self.begin_change();
        match self.stop.get() {
            Some(stop) if self.count.get() == stop.number() => {
                self.is_write.set(true);
                if stop.is_within() {
                    return Ok(first_half(bytes));
                }
            }
            _ => {}
        }
        begun?;
        Ok(bytes)
    }

    /// What the call that was counted last answers, where the system answered this.
    pub fn end<T: Drop>(&self, answer: io::Result<T>) -> io::Result<T>
        ensures { IfOk result (λ value. answer ≡ Ok value) }
    {
        match self.stop.get() {
            Some(stop) if self.count.get() >= stop.number() => Err(interrupted()),
            _ => answer,
        }
    }
}

fn first_half(bytes: &[u8]) -> &[u8]
    ensures { length result.now ≤ length bytes.now }
{
    let (half, _) = bytes.split_at(bytes.len() / 2);
    half
}

fn interrupted() -> io::Error {
    io::Error::from(ErrorKind::Other)
}
