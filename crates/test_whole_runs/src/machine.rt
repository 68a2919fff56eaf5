//! The machine on which a program runs.

use crate::calls::Calls;
use crate::connection::{Connection, NoListener};
use crate::counted_file::{CountedDir, CountedFile};
use crate::home::HOME;
use crate::mem_disk::MemDisk;
use imap_server::server::Server;
use near_places::lock::LockFiles;
use std::alloc::{Allocator, Global};
use std::cell::RefCell;
use std::env::{Env, FillError};
use std::fs::{Metadata, OpenOptions, TryLockError};
use std::io;
use std::io::ErrorKind;
use std::net::{Net, SocketAddr};
use std::rt::{Clock, Files};
use std::time::Duration;

/// The seconds since 1970 at which its clock stands: in 2100, later than all times of folders.
const NOW: u64 = 4_102_444_800;

/// What a machine has: a disk, and the server at all addresses. Its calls are counted, and may be interrupted.
#[derive(Drop)]
pub struct Host {
    /// The disk.
    pub disk: MemDisk,
    /// The calls of the system.
    pub calls: Calls,
    /// The server.
    pub server: RefCell<Server>,
}

/// The machine, as a program runs on it.
#[derive(Clone, Copy)]
pub struct Machine<'a> {
    /// The system that has the memory.
    pub rt: HostRuntime,
    /// The rest.
    pub host: &'a Host,
}

impl Alloc for Machine<'_> {
    type A = Global;

    fn alloc(&self) -> Global {
        self.rt.alloc()
    }
}

impl Clock for Machine<'_> {
    fn monotonic(&self) -> io::Result<Duration> {
        self.rt.monotonic()
    }

    fn since_1970(&self) -> io::Result<Duration> {
        Ok(Duration::from_secs(NOW))
    }
}

impl Env for Machine<'_> {
    fn arg(&self, _i: usize, _buf: &mut [u8]) -> Result<usize, FillError> {
        Err(FillError::NotPresent)
    }

    fn var(&self, name: &str, buf: &mut [u8]) -> Result<usize, FillError> {
        if name != "HOME" {
            return Err(FillError::NotPresent);
        }
        let home = HOME.as_bytes();
        if home.len() > buf.len() {
            return Err(FillError::TooLong);
        }
        buf[..home.len()].copy_from_slice(home);
        Ok(home.len())
    }

    fn var_at(&self, _i: usize, _buf: &mut [u8]) -> Result<usize, FillError> {
        Err(FillError::NotPresent)
    }
}

impl<'a> Files for Machine<'a> {
    type File = CountedFile<'a>;

    type Dir = CountedDir<'a>;

    fn open_file(&self, how: &OpenOptions, path: &str) -> io::Result<CountedFile<'a>> {
        let Host { calls, disk, .. } = self.host;
        if how.asks_create() || how.asks_create_new() || how.asks_truncate() {
            calls.begin_change()?;
        } else {
            calls.begin()?;
        }
        let file = calls.end(disk.open_file(how, path))?;
        Ok(CountedFile::new(calls, file))
    }

    fn open_dir(&self, path: &str) -> io::Result<CountedDir<'a>> {
        let Host { calls, disk, .. } = self.host;
        calls.begin()?;
        let dir = calls.end(disk.open_dir(path))?;
        Ok(CountedDir::new(calls, dir))
    }

    fn metadata(&self, path: &str) -> io::Result<Metadata> {
        self.host.calls.begin()?;
        self.host.calls.end(self.host.disk.metadata(path))
    }

    fn symlink_metadata(&self, path: &str) -> io::Result<Metadata> {
        self.host.calls.begin()?;
        self.host.calls.end(self.host.disk.symlink_metadata(path))
    }

    fn copy(&self, _from: &str, _to: &str) -> io::Result<u64> {
        Err(io::Error::from(ErrorKind::Unsupported))
    }

    fn rename(&self, from: &str, to: &str) -> io::Result<()> {
        self.host.calls.begin_change()?;
        self.host.calls.end(self.host.disk.rename(from, to))
    }

    fn remove_file(&self, path: &str) -> io::Result<()> {
        self.host.calls.begin_change()?;
        self.host.calls.end(self.host.disk.remove_file(path))
    }

    fn create_dir(&self, path: &str) -> io::Result<()> {
        self.host.calls.begin_change()?;
        self.host.calls.end(self.host.disk.create_dir(path))
    }

    fn create_dir_with_mode(&self, path: &str, mode: u32) -> io::Result<()> {
        self.host.calls.begin_change()?;
        self.host
            .calls
            .end(self.host.disk.create_dir_with_mode(path, mode))
    }

    fn remove_dir(&self, _path: &str) -> io::Result<()> {
        Err(io::Error::from(ErrorKind::Unsupported))
    }

    fn remove_dir_all<B: Allocator>(&self, _alloc: B, _path: &str) -> io::Result<()> {
        Err(io::Error::from(ErrorKind::Unsupported))
    }
}

impl<'a> LockFiles for Machine<'a> {
    fn try_lock(&self, file: &CountedFile<'a>) -> Result<(), TryLockError> {
        file.try_lock()
    }
}

impl<'a> Net for Machine<'a> {
    type Stream = Connection<'a>;

    type Listener = NoListener<'a>;

    fn bind(&self, _addr: SocketAddr) -> io::Result<NoListener<'a>> {
        Err(io::Error::from(ErrorKind::Unsupported))
    }

    fn connect(&self, _addr: SocketAddr) -> io::Result<Connection<'a>> {
        self.host.calls.begin_change()?;
        let connection = Connection::open(self.alloc(), self.host);
        self.host.calls.end(connection)
    }
}
