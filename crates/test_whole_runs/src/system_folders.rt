//! Folders of the system whose metadata stand for those of folders in memory.
//!
//! Metadata that a disk makes itself has neither times nor the numbers by which one folder is known from another. mbsync asks for both: for
//! the times at which the names in `cur` and `new` changed, and whether two paths lead to the same folder. So a folder in memory has the
//! metadata that a folder of the system had when the former was made. Its times stand still, and are earlier than the clock of the tests.

use std::fs::Metadata;
use std::io::ErrorKind;
use std::{fs, io};

/// The root of the system.
const ROOT: &str = "/";

/// Other folders, of which most systems have each.
const OTHERS: [&str; 21] = [
    "/usr",
    "/etc",
    "/var",
    "/dev",
    "/proc",
    "/sys",
    "/tmp",
    "/run",
    "/home",
    "/root",
    "/opt",
    "/mnt",
    "/media",
    "/srv",
    "/boot",
    "/usr/bin",
    "/usr/lib",
    "/usr/share",
    "/usr/local",
    "/var/lib",
    "/var/log",
];

/// The folders of the system, of which each is taken once.
#[derive(Drop)]
pub struct SystemFolders {
    rt: HostRuntime,
    next: usize,
}

impl SystemFolders {
    /// None of them is taken.
    pub fn new(rt: &HostRuntime) -> SystemFolders {
        SystemFolders { rt: *rt, next: 0 }
    }

    /// The metadata of the root.
    pub fn root(&self) -> io::Result<Metadata> {
        fs::metadata(&self.rt, ROOT)
    }

    /// The metadata for a folder of this name: of one that no other has. `QuotaExceeded`: there is none left.
    ///
    /// The folders of a mailbox all have those of the root. They are known by their names alone.
    pub fn of_name(&mut self, name: &str) -> io::Result<Metadata> {
        match name {
            "cur" | "new" | "tmp" => self.root(),
            _ => self.another(),
        }
    }

    fn another(&mut self) -> io::Result<Metadata> {
        for path in OTHERS.iter().skip(self.next) {
            self.next = self.next.saturating_add(1);
            match fs::metadata(&self.rt, *path) {
                Ok(metadata) if metadata.is_dir() => return Ok(metadata),
                _ => {}
            }
        }
        Err(io::Error::from(ErrorKind::QuotaExceeded))
    }
}
