//! Connections to the server of a world's far mailbox.

use crate::arguments::Task;
use crate::failure::ServeFailure;
use crate::notes::TerminalNotes;
use imap_server::served::are_served;
use imap_server::server::Server;
use serve::fault::ServeFault;
use serve::stream::serve_stream;
use std::fs;
use std::net::{Shutdown, TcpListener, TcpStream};
use worlds::read::read_world;
use worlds::world::Waiting;

/// The one user, and the password.
const USER: &[u8] = b"u";

const PASSWORD: &[u8] = b"p";

/// Serves so many connections, one after another.
pub fn serve(rt: &HostRuntime, task: Task) -> Result<(), ServeFailure> {
    let mut server = open_server(rt, &task.file)?;
    let address = task.address.as_str();
    let listener = match TcpListener::bind(rt, address) {
        Ok(listener) => listener,
        Err(fault) => return Err(ServeFailure::of_opening(&fault, address, rt.alloc())),
    };
    let notes = TerminalNotes::new(rt);
    notes.listening(address);
    serve_all(&mut server, &listener, task.count, &notes)
}

/// A server with the far mailbox and the keywords of the world in this file.
fn open_server(rt: &HostRuntime, file: &str) -> Result<Server, ServeFailure> {
    let alloc = rt.alloc();
    let text = match fs::read(rt, file) {
        Ok(text) => text,
        Err(fault) => return Err(ServeFailure::of_opening(&fault, file, alloc)),
    };
    let world = read_world(alloc, &text, Waiting::Kept)?;
    let mut mailboxes = Vec::new(alloc);
    mailboxes.push(world.far)?;
    // A server can serve each far mailbox that a world describes.
    if !are_served(&mailboxes) {
        return Err(ServeFailure::cannot_open(file, alloc));
    }
    let user = Vec::from_slice(alloc, USER)?;
    let password = Vec::from_slice(alloc, PASSWORD)?;
    let keywords = world.options.keywords;
    Ok(Server::with_keywords(alloc, mailboxes, user, password, keywords))
}

/// Serves the next connections, so many. One that cannot be taken, or that fails, counts too.
fn serve_all(
    server: &mut Server,
    listener: &TcpListener,
    count: u32,
    notes: &TerminalNotes<'_>,
) -> Result<(), ServeFailure> {
    for number in 0..count {
        let ended = match listener.accept() {
            Ok((stream, _address)) => serve_one(server, &stream),
            Err(_) => Err(ServeFault::Connection),
        };
        notes.served(number + 1, ended);
        if ended == Err(ServeFault::NoMemory) {
            return Err(ServeFailure::NoMemory);
        }
    }
    Ok(())
}

/// Serves a connection, and then ends its output, so that the client knows that no more comes.
fn serve_one(server: &mut Server, stream: &TcpStream) -> Result<(), ServeFault> {
    let mut input = stream;
    let mut output = stream;
    let ended = serve_stream(server, &mut input, &mut output);
    let _ = stream.shutdown(Shutdown::Write);
    ended
}
