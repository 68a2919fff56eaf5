//! The folder in which a script keeps a shelf on a disk: `shelf`, where the program runs.

use book::mem_shelf::MemShelf;
use book::shelf::ShelfFile;
use std::io::ErrorKind;
use std::os::unix::fs::{PermissionsExt, symlink};
use std::{fs, io};
use test_scripts::words::Words;

/// Its path.
pub const PATH: &str = "shelf";

/// The path of the state. The names of the files are those that docs/FORMATS.md gives them.
pub const STATE: &str = "shelf/.mbsyncstate";

/// The path of the journal.
pub const JOURNAL: &str = "shelf/.mbsyncstate.journal";

/// The path under which a file is written before it takes the place of another.
const NEXT: &str = "shelf/.mbsyncstate.new";

/// `state`, `journal` or `next`: the path of that file.
fn read_path(line: &mut Words<'_>) -> &'static str {
    match line.word() {
        "state" => STATE,
        "journal" => JOURNAL,
        "next" => NEXT,
        _ => {
            line.refuse();
            NEXT
        }
    }
}

/// `at NAME`, `away NAME`, `link NAME`, `symlink NAME` or `removed`: does this to the folder.
pub fn change(rt: &HostRuntime, line: &mut Words<'_>) -> io::Result<()> {
    match line.word() {
        "at" => fs::create_dir(rt, read_path(line)),
        "away" => fs::remove_dir(rt, read_path(line)),
        "link" => fs::hard_link(rt, read_path(line), NEXT),
        "symlink" => {
            let path = read_path(line);
            symlink(rt, path.strip_prefix("shelf/").unwrap_or(path), NEXT)
        }
        "removed" => clear(rt),
        _ => {
            line.refuse();
            Ok(())
        }
    }
}

/// The permissions of a file.
pub fn mode_of(rt: &HostRuntime, line: &mut Words<'_>) -> io::Result<u32> {
    let found = fs::metadata(rt, read_path(line))?;
    Ok(found.permissions().mode() & 0o777)
}

/// Takes the folder away, if it is there.
pub fn clear(rt: &HostRuntime) -> io::Result<()> {
    match fs::remove_dir_all(rt, PATH) {
        Err(error) if error.kind() != ErrorKind::NotFound => Err(error),
        _ => Ok(()),
    }
}

/// Makes the folder anew, with these files.
pub fn fill(rt: &HostRuntime, files: &MemShelf) -> io::Result<()> {
    clear(rt)?;
    fs::create_dir(rt, PATH)?;
    for (file, path) in [(ShelfFile::State, STATE), (ShelfFile::Journal, JOURNAL)] {
        if let Some(bytes) = files.bytes(file) {
            fs::write(rt, path, bytes)?;
        }
    }
    Ok(())
}

/// The bytes of the file at this path, if it is there.
pub fn read(rt: &HostRuntime, path: &str) -> io::Result<Option<Vec<u8>>> {
    match fs::read(rt, path) {
        Ok(bytes) => Ok(Some(bytes)),
        Err(error) if error.kind() == ErrorKind::NotFound => Ok(None),
        Err(error) => Err(error),
    }
}
