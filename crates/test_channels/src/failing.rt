//! A stream that keeps what is written, and fails after a count of bytes.

use std::alloc::Global;
use std::io;
use std::io::{ErrorKind, Write};

/// A stream that takes so many bytes, and then fails.
#[derive(Drop)]
pub(crate) struct Failing {
    /// What was written.
    pub(crate) written: Vec<u8>,
    room: usize,
}

impl Failing {
    /// A stream with room for so many bytes.
    pub(crate) fn with_room(alloc: Global, room: usize) -> Self {
        Failing {
            written: Vec::new(alloc),
            room,
        }
    }
}

impl Write for Failing {
    fn write(&mut self, buf: &[u8]) -> io::Result<usize> {
        let taken = buf.len().min(self.room);
        if taken == 0 && !buf.is_empty() {
            return Err(io::Error::from(ErrorKind::StorageFull));
        }
        self.written.extend_from_slice(&buf[..taken])?;
        self.room -= taken;
        Ok(taken)
    }

    fn flush(&mut self) -> io::Result<()> {
        Ok(())
    }
}
