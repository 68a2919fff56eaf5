//! The content of a file in memory.

ghost use Rattle.std.specs.Io.{ReadsAtMost};

use std::alloc::Global;
use std::cell::{Cell, RefCell};
use std::io;
use std::io::{ErrorKind, Read};

/// What a file has. It is there as long as a path leads to it, or the file is open.
#[derive(Drop)]
pub struct Content {
    bytes: RefCell<Vec<u8>>,
    is_locked: Cell<bool>,
}

impl Content {
    /// That of an empty file.
    pub fn new(alloc: Global) -> Content {
        Content {
            bytes: RefCell::new(Vec::new(alloc)),
            is_locked: Cell::new(false),
        }
    }

    /// How many bytes there are.
    pub fn len(&self) -> io::Result<usize> {
        match self.bytes.try_borrow() {
            Ok(bytes) => Ok(bytes.len()),
            Err(_) => Err(busy()),
        }
    }

    /// Reads bytes from this place on. How many: none at the end.
    pub fn read_at(&self, place: usize, buf: &mut [u8]) -> io::Result<usize>
        ensures { ReadsAtMost result buf.new }
    {
        match self.bytes.try_borrow() {
            Ok(bytes) => {
                let mut rest = bytes.get(place..).unwrap_or_default();
                rest.read(buf)
            }
            Err(_) => Err(busy()),
        }
    }

    /// Writes these bytes from this place on. A gap before them is filled with zeros.
    pub fn write_at(&self, place: usize, bytes: &[u8]) -> io::Result<()> {
        match self.bytes.try_borrow_mut() {
            Ok(mut old) => put(&mut old, place, bytes),
            Err(_) => Err(busy()),
        }
    }

    /// Leaves so many bytes, with zeros after those that were there.
    pub fn set_len(&self, len: usize) -> io::Result<()> {
        match self.bytes.try_borrow_mut() {
            Ok(mut bytes) => Ok(bytes.resize(len, 0)?),
            Err(_) => Err(busy()),
        }
    }

    /// Locks the file. Whether it was not locked.
    pub fn lock(&self) -> bool {
        !self.is_locked.replace(true)
    }

    /// Ends the lock.
    pub fn unlock(&self) {
        self.is_locked.set(false);
    }
}

fn put(old: &mut Vec<u8>, place: usize, bytes: &[u8]) -> io::Result<()> {
    let end = place.saturating_add(bytes.len());
    let tail = match old.get(end..) {
        Some(tail) => Vec::from_slice(*old.allocator(), tail)?,
        None => Vec::new(*old.allocator()),
    };
    old.resize(place, 0)?;
    old.extend_from_slice(bytes)?;
    Ok(old.extend_from_slice(&tail)?)
}

fn busy() -> io::Error {
    io::Error::from(ErrorKind::ResourceBusy)
}
