//! The program's arguments.

use crate::failure::ServeFailure;
use std::io::ErrorKind;
use std::{env, io};
use texts::number::read_u32;

/// What the program's arguments are.
pub const USAGE: &str = "trial-imapd ADDR FILE COUNT";

/// What is asked for.
#[derive(Drop)]
pub enum ServeRequest {
    /// The usage is printed.
    Help,
    /// Connections are served.
    Serve(Task),
}

/// What is served, and where.
#[derive(Drop)]
pub struct Task {
    /// A host and a port, with `:` between.
    pub address: String,
    /// The name of the file with the world.
    pub file: String,
    /// How many connections, 1 to 65535.
    pub count: u32,
}

/// Reads the program's arguments. `Usage`: they are others.
pub fn read_arguments(rt: &HostRuntime) -> Result<ServeRequest, ServeFailure> {
    let mut words = env::args(rt).map_err(of_arguments)?;
    // The first is the program's name.
    let _program = words.next();
    let first = words.next().ok_or(ServeFailure::Usage)?;
    let Some(file) = words.next() else {
        return read_help(&first);
    };
    let count = words.next().ok_or(ServeFailure::Usage)?;
    if words.next().is_some() {
        return Err(ServeFailure::Usage);
    }
    Ok(ServeRequest::Serve(Task {
        address: first,
        file,
        count: read_count(&count).ok_or(ServeFailure::Usage)?,
    }))
}

fn read_help(word: &str) -> Result<ServeRequest, ServeFailure> {
    if word == "-h" {
        Ok(ServeRequest::Help)
    } else {
        Err(ServeFailure::Usage)
    }
}

fn read_count(word: &str) -> Option<u32> {
    match read_u32(word.as_bytes(), 65535) {
        Some(0) => None,
        count => count,
    }
}

fn of_arguments(fault: io::Error) -> ServeFailure {
    match fault.kind() {
        ErrorKind::OutOfMemory => ServeFailure::NoMemory,
        _ => ServeFailure::Usage,
    }
}
