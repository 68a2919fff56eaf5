//! What the system said where a call on a disk stopped, as far as a person can do something about it.

use std::io::ErrorKind;

/// What the system said where a call on a disk stopped.
#[derive(Clone, Copy, PartialEq, Eq)]
pub enum Trouble {
    /// This process may not do so.
    NoPermission,
    /// The disk is full, or the quota used up.
    DiskFull,
    /// The file system can be read only.
    ReadOnly,
    /// A name is too long, or no UTF-8.
    BadName,
    /// What stands there is no file.
    NoFile,
    /// Nothing stands there any more.
    Missing,
    /// Other programs gave files new names in each reading of the names.
    Renamed,
    /// Something else.
    Other,
}

impl Trouble {
    /// What an error of this kind means.
    pub fn of(kind: ErrorKind) -> Self {
        match kind {
            ErrorKind::PermissionDenied => Trouble::NoPermission,
            ErrorKind::StorageFull | ErrorKind::QuotaExceeded => Trouble::DiskFull,
            ErrorKind::ReadOnlyFilesystem => Trouble::ReadOnly,
            ErrorKind::InvalidFilename => Trouble::BadName,
            ErrorKind::IsADirectory | ErrorKind::InvalidInput => Trouble::NoFile,
            ErrorKind::NotFound => Trouble::Missing,
            ErrorKind::ResourceBusy => Trouble::Renamed,
            _ => Trouble::Other,
        }
    }
}
