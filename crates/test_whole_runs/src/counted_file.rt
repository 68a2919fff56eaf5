//! What is open on the machine: each call on it is counted, and may be interrupted.

use crate::calls::Calls;
use crate::mem_dir::MemDir;
use crate::mem_file::MemFile;
use std::fs::{Metadata, OpenFile, TryLockError};
use std::io;
use std::io::{Read, Seek, SeekFrom, Write};

/// An open file.
#[derive(Drop)]
pub struct CountedFile<'a> {
    calls: &'a Calls,
    file: MemFile,
}

impl<'a> CountedFile<'a> {
    /// This file, whose calls are counted there.
    pub fn new(calls: &'a Calls, file: MemFile) -> Self {
        CountedFile { calls, file }
    }

    /// Locks the file until this is dropped. `WouldBlock`: it is open elsewhere too, and locked there.
    pub fn try_lock(&self) -> Result<(), TryLockError> {
        if let Err(error) = self.calls.begin() {
            return Err(TryLockError::Error(error));
        }
        let answer = self.file.try_lock();
        match self.calls.end(Ok(())) {
            Ok(()) => answer,
            Err(error) => Err(TryLockError::Error(error)),
        }
    }
}

impl Read for CountedFile<'_> {
    fn read(&mut self, buf: &mut [u8]) -> io::Result<usize> {
        self.calls.begin()?;
        let count = self.file.read(buf);
        self.calls.end(count)
    }
}

impl Write for CountedFile<'_> {
    fn write(&mut self, buf: &[u8]) -> io::Result<usize> {
        let part = self.calls.begin_write(buf)?;
        let count = self.file.write(part);
        self.calls.end(count)
    }

    fn flush(&mut self) -> io::Result<()> {
        Ok(())
    }
}

impl Seek for CountedFile<'_> {
    fn seek(&mut self, to: SeekFrom) -> io::Result<u64> {
        self.calls.begin()?;
        let place = self.file.seek(to);
        self.calls.end(place)
    }
}

impl OpenFile for CountedFile<'_> {
    fn metadata(&self) -> io::Result<Metadata> {
        self.calls.begin()?;
        self.calls.end(OpenFile::metadata(&self.file))
    }

    fn set_len(&self, size: u64) -> io::Result<()> {
        self.calls.begin_change()?;
        self.calls.end(OpenFile::set_len(&self.file, size))
    }

    fn sync_all(&self) -> io::Result<()> {
        self.calls.begin()?;
        self.calls.end(OpenFile::sync_all(&self.file))
    }

    fn sync_data(&self) -> io::Result<()> {
        self.calls.begin()?;
        self.calls.end(OpenFile::sync_data(&self.file))
    }
}

/// An open folder, whose names are read.
#[derive(Drop)]
pub struct CountedDir<'a> {
    calls: &'a Calls,
    dir: MemDir,
}

impl<'a> CountedDir<'a> {
    /// This folder, whose calls are counted there.
    pub fn new(calls: &'a Calls, dir: MemDir) -> Self {
        CountedDir { calls, dir }
    }
}

impl Read for CountedDir<'_> {
    fn read(&mut self, buf: &mut [u8]) -> io::Result<usize> {
        self.calls.begin()?;
        let count = self.dir.read(buf);
        self.calls.end(count)
    }
}
