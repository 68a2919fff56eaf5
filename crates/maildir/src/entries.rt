//! What stands in a folder of a disk: the names of its entries, whatever bytes they have.

use mailcore::octets::Octets;
use std::alloc::Global;
use std::io;
use std::io::Read;
use std::rt::Files;

/// How many bytes of names are asked for at once. A name has at most 255.
const PIECE: usize = 32768;

/// The names of all that stands in the folder at this path, which ends with a slash: so a link to a folder is followed.
pub(crate) fn entries_in<R: Files + AllocGlobal>(rt: &R, path: &str) -> io::Result<Vec<Octets>> {
    let mut names = Vec::new(rt.alloc());
    let mut folder = rt.open_dir(path)?;
    let mut piece = vec![in rt.alloc(); 0; PIECE]?;
    for _ in 0..u64::MAX {
        let count = folder.read(&mut piece)?;
        if count == 0 {
            break;
        }
        let read = piece.get(..count).unwrap_or_default();
        add_entries(rt.alloc(), read, &mut names)?;
    }
    Ok(names)
}

/// Adds the names of a piece, each followed by a NUL, but for `.` and `..`.
fn add_entries(alloc: Global, piece: &[u8], names: &mut Vec<Octets>) -> io::Result<()> {
    for name in piece.split(|byte| *byte == 0) {
        if !name.is_empty() && !is_dot(name) {
            names.push(Octets::from_vec(Vec::from_slice(alloc, name)?))?;
        }
    }
    Ok(())
}

/// Whether a name is that of the folder itself, or of the one above it.
fn is_dot(name: &[u8]) -> bool {
    name == b".".as_slice() || name == b"..".as_slice()
}
