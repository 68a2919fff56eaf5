//! Connections that are served to their end: over loopback, and in memory, where calls may fail.

use imap_server::server::Server;
use serve::fault::ServeFault;
use serve::stream::serve_stream;
use std::alloc::Global;
use std::io;
use std::io::{ErrorKind, Read, Write};
use std::net::{Shutdown, TcpListener, TcpStream};
use test_scripts::mail::print_replies;
use test_scripts::reported::Reported;
use test_scripts::words::Words;

/// Serves what a client sends over a loopback connection, both of whose ends this process has.
pub fn serve_loopback(
    rt: &HostRuntime,
    server: &mut Server,
    sent: &[u8],
    reported: &mut Reported,
) -> io::Result<()> {
    let listener = TcpListener::bind(rt, "127.0.0.1:0")?;
    let ends = connect(rt, &listener);
    drop(listener);
    let (stream, client) = ends?;
    let mut got = Vec::new(rt.alloc());
    let ended = talk(server, &stream, &client, sent, &mut got);
    drop(client);
    drop(stream);
    print_served(reported, &got, ended?);
    Ok(())
}

/// Both ends of a connection.
fn connect(rt: &HostRuntime, listener: &TcpListener) -> io::Result<(TcpStream, TcpStream)> {
    let client = TcpStream::connect(rt, listener.local_addr()?)?;
    match listener.accept() {
        Ok((stream, _address)) => Ok((stream, client)),
        Err(fault) => {
            drop(client);
            Err(fault)
        }
    }
}

/// Writes what a client sends in full, serves it, and gives what the client reads then, and how serving ended.
fn talk(
    server: &mut Server,
    stream: &TcpStream,
    client: &TcpStream,
    sent: &[u8],
    got: &mut Vec<u8>,
) -> io::Result<Result<(), ServeFault>> {
    let mut client = client;
    client.write_all(sent)?;
    client.shutdown(Shutdown::Write)?;
    let ended = serve_stream(server, &mut &*stream, &mut &*stream);
    stream.shutdown(Shutdown::Write)?;
    client.read_to_end(got)?;
    Ok(ended)
}

/// The bytes that a client sends, and how many readings don't fail.
#[derive(Drop)]
struct Input<'a> {
    bytes: &'a [u8],
    calls: u32,
}

/// The bytes that it gets, and how many writings don't fail.
#[derive(Drop)]
struct Output {
    bytes: Vec<u8>,
    calls: u32,
}

impl Read for Input<'_> {
    fn read(&mut self, buf: &mut [u8]) -> io::Result<usize> {
        if self.calls == 0 {
            return Err(io::Error::from(ErrorKind::ConnectionReset));
        }
        self.calls -= 1;
        self.bytes.read(buf)
    }
}

impl Write for Output {
    fn write(&mut self, buf: &[u8]) -> io::Result<usize> {
        if self.calls == 0 {
            return Err(io::Error::from(ErrorKind::BrokenPipe));
        }
        self.calls -= 1;
        self.bytes.write(buf)
    }

    fn flush(&mut self) -> io::Result<()> {
        Ok(())
    }
}

/// Serves what a client sends from memory. `until read K` or `until write K`: the K-th call fails, and each after it.
pub fn serve_memory(
    alloc: Global,
    server: &mut Server,
    sent: &[u8],
    line: &mut Words<'_>,
    reported: &mut Reported,
) {
    let mut input = Input {
        bytes: sent,
        calls: u32::MAX,
    };
    let mut output = Output {
        bytes: Vec::new(alloc),
        calls: u32::MAX,
    };
    if !line.is_over() {
        let (until, call) = (line.word(), line.word());
        let calls = line.number().saturating_sub(1);
        match (until, call) {
            ("until", "read") => input.calls = calls,
            ("until", "write") => output.calls = calls,
            _ => line.refuse(),
        }
    }
    let ended = serve_stream(server, &mut input, &mut output);
    print_served(reported, &output.bytes, ended);
}

/// Answers what came back, and how serving ended.
fn print_served(reported: &mut Reported, got: &[u8], ended: Result<(), ServeFault>) {
    print_replies(reported, got);
    match ended {
        Ok(()) => reported.answer("served"),
        Err(fault) => reported.say(&fault),
    }
}
