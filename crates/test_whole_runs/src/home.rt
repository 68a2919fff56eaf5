//! The home folder of the user.

use crate::mem_disk::MemDisk;
use std::alloc::{AllocError, Global};
use std::{fs, io};

/// The path of the home folder.
pub const HOME: &str = "/home/u";

/// The path of what stands below the home folder.
pub fn at_home(alloc: Global, path: &str) -> Result<String, AllocError> {
    format!(in alloc; "{HOME}/{path}")
}

/// A disk with an empty home folder. Whatever is read as random bytes is the same each time.
pub fn new_disk(rt: &HostRuntime) -> io::Result<MemDisk> {
    let disk = MemDisk::new(rt)?;
    fs::create_dir_all(&disk, HOME)?;
    fs::create_dir(&disk, "/dev")?;
    fs::write(&disk, "/dev/urandom", &[7; 32])?;
    Ok(disk)
}
