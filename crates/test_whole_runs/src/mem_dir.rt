//! An open folder of a disk in memory, whose names are read.

use std::io;
use std::io::{ErrorKind, Read};

/// The names in a folder as they were when it was opened, each ended by a NUL. No read ends inside a name.
#[derive(Drop)]
pub struct MemDir {
    names: Vec<u8>,
    place: usize,
}

impl MemDir {
    /// A folder with these names, each ended by a NUL.
    pub fn new(names: Vec<u8>) -> MemDir {
        MemDir { names, place: 0 }
    }
}

impl Read for MemDir {
    fn read(&mut self, buf: &mut [u8]) -> io::Result<usize> {
        let rest = self.names.get(self.place..).unwrap_or_default();
        let mut whole = whole_names(rest, buf.len());
        if whole.is_empty() && !rest.is_empty() {
            return Err(io::Error::from(ErrorKind::InvalidInput));
        }
        let count = whole.read(buf)?;
        self.place = self.place.saturating_add(count);
        Ok(count)
    }
}

/// As many of the names as there is room for.
fn whole_names(names: &[u8], room: usize) -> &[u8] {
    let part = names.get(..room).unwrap_or(names);
    match part.iter().rposition(|byte| *byte == 0) {
        Some(last) => part.get(..=last).unwrap_or_default(),
        None => &[],
    }
}
