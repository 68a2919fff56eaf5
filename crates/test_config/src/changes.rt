//! Lines that say what stands in the folder.

use std::os::unix::fs::symlink;
use std::{fs, io};
use test_scripts::words::Words;

/// Does what a line with this first word says of the folder, or nothing if it says nothing of it.
pub fn change(rt: &HostRuntime, word: &str, line: &mut Words<'_>) -> Option<io::Result<()>> {
    match word {
        "mailbox" => Some(make_mailbox(rt, line.text())),
        "folder" => Some(fs::create_dir_all(rt, line.text())),
        "file" => Some(fs::write(rt, line.text(), b"")),
        "remove" => Some(remove(rt, line.text())),
        "symlink" => {
            let path = line.word();
            Some(symlink(rt, line.text(), path))
        }
        _ => None,
    }
}

fn make_mailbox(rt: &HostRuntime, path: &str) -> io::Result<()> {
    for part in ["cur", "new", "tmp"].iter() {
        let part = format!(in rt.alloc(); "{path}/{part}")?;
        fs::create_dir_all(rt, part.as_str())?;
    }
    Ok(())
}

/// Takes away a file, or a folder and what stands in it.
fn remove(rt: &HostRuntime, path: &str) -> io::Result<()> {
    if fs::symlink_metadata(rt, path)?.is_dir() {
        fs::remove_dir_all(rt, path)
    } else {
        fs::remove_file(rt, path)
    }
}
