//! What a run of `mbplan` reads and writes, in memory. It may fail where the script says so.

use run_plan::run::PlanArguments;
use std::io;
use std::io::{ErrorKind, Read, Write};
use test_scripts::words::Words;

/// What a run is given.
#[derive(Clone, Copy)]
pub struct Devices {
    /// Whether it is given arguments.
    pub arguments: PlanArguments,
    /// Whether standard input gives one byte at a time and then fails.
    pub reader_fails: bool,
    /// How many bytes standard output takes before it fails.
    pub out: usize,
    /// Whether standard output can be flushed.
    pub is_flushed: bool,
    /// How many bytes standard error takes before it fails.
    pub err: usize,
}

/// No arguments, and nothing that fails.
pub const SOUND: Devices = Devices {
    arguments: PlanArguments::Absent,
    reader_fails: false,
    out: usize::MAX,
    is_flushed: true,
    err: usize::MAX,
};

/// The devices of a run that is disturbed as a line with this first word says.
pub fn read_devices(word: &str, line: &mut Words<'_>) -> Devices {
    let mut devices = SOUND;
    match word {
        "reader" => {
            line.expect("fails");
            devices.reader_fails = true;
        }
        "error" => {
            line.expect("writer takes");
            devices.err = line.count();
            line.expect("bytes");
        }
        "argument" => {
            line.expect("given");
            devices.arguments = PlanArguments::Given;
        }
        _ => match line.word() {
            "takes" => {
                devices.out = line.count();
                line.expect("bytes");
            }
            "cannot" => {
                line.expect("be flushed");
                devices.is_flushed = false;
            }
            _ => line.refuse(),
        },
    }
    devices
}

/// A reader over bytes.
#[derive(Drop)]
pub struct Source<'a> {
    /// The bytes that are not read yet.
    pub rest: &'a [u8],
    /// Whether they come one at a time, with a fault after them.
    pub fails: bool,
}

impl Read for Source<'_> {
    fn read(&mut self, buf: &mut [u8]) -> io::Result<usize> {
        if self.fails && self.rest.is_empty() {
            return Err(io::Error::from(ErrorKind::TimedOut));
        }
        let most = if self.fails { 1 } else { buf.len() };
        let count = most.min(self.rest.len()).min(buf.len());
        let (given, rest) = self.rest.split_at(count);
        buf[..count].copy_from_slice(given);
        self.rest = rest;
        Ok(count)
    }
}

/// A writer into memory.
#[derive(Drop)]
pub struct Sink {
    /// What it has taken.
    pub bytes: Vec<u8>,
    /// Whether a growth was refused.
    pub wants_memory: bool,
    /// How many bytes it takes before it fails.
    pub most: usize,
    /// Whether it can be flushed.
    pub is_flushed: bool,
}

impl Write for Sink {
    fn write(&mut self, buf: &[u8]) -> io::Result<usize> {
        let left = self.most.saturating_sub(self.bytes.len());
        let count = left.min(buf.len());
        if count == 0 && !buf.is_empty() {
            return Err(io::Error::from(ErrorKind::TimedOut));
        }
        if self.bytes.extend_from_slice(&buf[..count]).is_err() {
            self.wants_memory = true;
            return Err(io::Error::from(ErrorKind::OutOfMemory));
        }
        Ok(count)
    }

    fn flush(&mut self) -> io::Result<()> {
        if self.is_flushed {
            Ok(())
        } else {
            Err(io::Error::from(ErrorKind::TimedOut))
        }
    }
}
