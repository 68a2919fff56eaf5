//! A connection to a server in memory.

ghost use Rattle.std.specs.Prelude.{◌≡◌, length, IfOk};

use crate::machine::Host;
use std::alloc::Global;
use std::collections::VecDeque;
use std::io;
use std::io::{ErrorKind, Read, Write};
use std::net::{OpenListener, OpenStream, SocketAddr};
use std::os::fd::{AsRawFd, RawFd};

/// A connection to a server in memory: what is written is read and answered at once.
#[derive(Drop)]
pub struct Connection<'a> {
    host: &'a Host,
    replies: VecDeque<u8>,
}

impl<'a> Connection<'a> {
    /// Begins one, in which the greeting is the first thing to be read.
    pub fn open(alloc: Global, host: &'a Host) -> io::Result<Connection<'a>> {
        let mut replies = VecDeque::new(alloc);
        match host.server.try_borrow_mut() {
            Ok(mut server) => replies.write_all(server.connect())?,
            Err(_) => return Err(refused()),
        }
        Ok(Connection { host, replies })
    }

    fn feed(&mut self, bytes: &[u8]) -> io::Result<usize>
        ensures { IfOk result (λ count. count ≡ length bytes.now) }
    {
        let Ok(mut server) = self.host.server.try_borrow_mut() else {
            return Err(refused());
        };
        match server.feed(bytes) {
            Ok(replies) => {
                self.replies.write_all(&replies)?;
                Ok(bytes.len())
            }
            Err(_) => Err(refused()),
        }
    }
}

impl Read for Connection<'_> {
    fn read(&mut self, buf: &mut [u8]) -> io::Result<usize> {
        self.host.calls.begin()?;
        let count = self.replies.read(buf);
        self.host.calls.end(count)
    }
}

impl Write for Connection<'_> {
    fn write(&mut self, buf: &[u8]) -> io::Result<usize> {
        let part = self.host.calls.begin_write(buf)?;
        let count = self.feed(part);
        self.host.calls.end(count)
    }

    fn flush(&mut self) -> io::Result<()> {
        Ok(())
    }
}

impl OpenStream for Connection<'_> {}

impl AsRawFd for Connection<'_> {
    fn as_raw_fd(&self) -> RawFd {
        -1
    }
}

/// A listener, of which the machine has none.
#[derive(Drop)]
pub struct NoListener<'a> {
    _host: &'a Host,
}

impl<'a> OpenListener for NoListener<'a> {
    type Stream = Connection<'a>;

    fn accept(&self) -> io::Result<(Connection<'a>, SocketAddr)> {
        Err(refused())
    }
}

impl AsRawFd for NoListener<'_> {
    fn as_raw_fd(&self) -> RawFd {
        -1
    }
}

fn refused() -> io::Error {
    io::Error::from(ErrorKind::ConnectionRefused)
}
