//! What kind of thing stands at a path of a disk.

use std::fs::Metadata;
use std::io::ErrorKind;
use std::path::Path;
use std::rt::Files;
use std::{fs, io};

/// Whether a file or a symlink to a file stands there. A symlink that leads nowhere is no file.
pub(crate) fn is_file(rt: &impl Files, path: Path<'_>) -> io::Result<bool> {
    Ok(file_size(rt, path)?.is_some())
}

/// How many bytes the file has that stands there, or to which a symlink leads that does. None: there is no file.
pub(crate) fn file_size(rt: &impl Files, path: Path<'_>) -> io::Result<Option<u64>> {
    match found(fs::metadata(rt, path))? {
        Some(found) if found.is_file() => Ok(Some(found.len())),
        _ => Ok(None),
    }
}

/// Whether anything stands there, a symlink that leads nowhere among it.
pub(crate) fn is_something(rt: &impl Files, path: Path<'_>) -> io::Result<bool> {
    Ok(found(fs::symlink_metadata(rt, path))?.is_some())
}

/// None in place of the errors that nothing is there.
fn found(answer: io::Result<Metadata>) -> io::Result<Option<Metadata>> {
    match answer {
        Ok(found) => Ok(Some(found)),
        Err(error)
            if error.kind() == ErrorKind::NotFound || error.kind() == ErrorKind::FilesystemLoop => {
            Ok(None)
        }
        Err(error) => Err(error),
    }
}
