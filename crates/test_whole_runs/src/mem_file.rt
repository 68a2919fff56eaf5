//! An open file of a disk in memory.

use crate::mem_tree::Node;
use std::cell::Cell;
use std::fs::{Metadata, OpenFile, OpenOptions, TryLockError};
use std::io;
use std::io::{ErrorKind, Read, Seek, SeekFrom, Write};

/// An open file, or an open folder, which can only be synced and asked for its metadata. A file keeps its content whatever becomes of its
/// path.
pub struct MemFile {
    node: Node,
    place: usize,
    can_read: bool,
    can_write: bool,
    appends: bool,
    has_lock: Cell<bool>,
}

impl Drop for MemFile {
    fn drop(self) {
        let MemFile {
            node,
            place: _,
            can_read: _,
            can_write: _,
            appends: _,
            has_lock,
        } = self;
        match node {
            Node::File(content) if has_lock.get() => content.unlock(),
            _ => {}
        }
    }
}

impl MemFile {
    /// What stands at a path, opened so.
    pub fn new(node: Node, how: &OpenOptions) -> MemFile {
        MemFile {
            node,
            place: 0,
            can_read: how.asks_read(),
            can_write: how.asks_write() || how.asks_append(),
            appends: how.asks_append(),
            has_lock: Cell::new(false),
        }
    }

    /// Locks the file until this is dropped. `WouldBlock`: it is open elsewhere too, and locked there.
    pub fn try_lock(&self) -> Result<(), TryLockError> {
        let Node::File(content) = &self.node else {
            return Err(TryLockError::Error(io::Error::from(ErrorKind::IsADirectory)));
        };
        if !self.has_lock.get() && !content.lock() {
            return Err(TryLockError::WouldBlock);
        }
        self.has_lock.set(true);
        Ok(())
    }
}

impl Read for MemFile {
    fn read(&mut self, buf: &mut [u8]) -> io::Result<usize> {
        if !self.can_read {
            return Err(io::Error::from(ErrorKind::PermissionDenied));
        }
        let count = self.node.content()?.read_at(self.place, buf)?;
        self.place = self.place.saturating_add(count);
        Ok(count)
    }
}

impl Write for MemFile {
    fn write(&mut self, buf: &[u8]) -> io::Result<usize> {
        if !self.can_write {
            return Err(io::Error::from(ErrorKind::PermissionDenied));
        }
        let content = self.node.content()?;
        let place = if self.appends {
            content.len()?
        } else {
            self.place
        };
        content.write_at(place, buf)?;
        self.place = place.saturating_add(buf.len());
        Ok(buf.len())
    }

    fn flush(&mut self) -> io::Result<()> {
        Ok(())
    }
}

impl Seek for MemFile {
    fn seek(&mut self, to: SeekFrom) -> io::Result<u64> {
        let place = match to {
            SeekFrom::Start(place) => Some(place),
            SeekFrom::End(offset) => (self.node.content()?.len()? as u64).checked_add_signed(
                offset,
            ),
            SeekFrom::Current(offset) => (self.place as u64).checked_add_signed(offset),
        };
        let Some(place) = place else {
            return Err(io::Error::from(ErrorKind::InvalidInput));
        };
        self.place = room(place)?;
        Ok(place)
    }
}

impl OpenFile for MemFile {
    fn metadata(&self) -> io::Result<Metadata> {
        self.node.metadata()
    }

    fn set_len(&self, size: u64) -> io::Result<()> {
        self.node.content()?.set_len(room(size)?)
    }

    fn sync_all(&self) -> io::Result<()> {
        Ok(())
    }

    fn sync_data(&self) -> io::Result<()> {
        Ok(())
    }
}

/// A number of bytes, if so many can be in memory.
fn room(bytes: u64) -> io::Result<usize> {
    match usize::try_from(bytes) {
        Ok(bytes) => Ok(bytes),
        Err(_) => Err(io::Error::from(ErrorKind::FileTooLarge)),
    }
}
