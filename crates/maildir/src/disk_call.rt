//! A call of the system on the folder of a mailbox, as a record of calls notes it.

use crate::folder::Place;

/// What a call of the system on the folder of a mailbox did, or was to do.
#[derive(Clone, Copy, PartialEq, Eq)]
pub enum DiskDeed {
    /// A file was asked for: what this came to is noted by itself.
    Asked,
    /// `cur`, `new` and `tmp` are there.
    Found,
    /// One of them is not.
    Absent,
    /// The names of the messages and waiting files in one of the folders were read.
    Listed(Place),
    /// The bytes of a file in one of them were read.
    Read(Place),
    /// No file has that name there.
    Missing(Place),
    /// The copy in `tmp` was made, without bytes.
    CopyMade,
    /// Bytes were handed on that follow those of the copy.
    CopyGrown,
    /// All bytes of the copy were written and synced.
    CopySynced,
    /// The copy got a name in one of the folders.
    Placed(Place),
    /// A file got another name, in the same folder or the other one.
    Renamed(Place, Place),
    /// A file was removed.
    Removed(Place),
    /// The bytes of the meta file were read.
    MetaRead,
    /// There is no meta file.
    MetaMissing,
    /// The next meta file was made, without bytes.
    NextMade,
    /// Bytes were written to it.
    NextGrown,
    /// It was synced.
    NextSynced,
    /// It took the place of the meta file.
    MetaReplaced,
    /// Names were synced.
    Synced(NameSync),
}

/// Whose names were synced.
#[derive(Clone, Copy, PartialEq, Eq)]
pub enum NameSync {
    /// Those in `new` or `cur`.
    In(Place),
    /// Those in the folder itself.
    Whole,
}

/// A call of the system on the folder of a mailbox.
#[derive(Clone, Copy)]
pub struct DiskCall {
    /// What it did, or was to do.
    pub deed: DiskDeed,
    /// Whether the system answered that it is done. Else nobody knows whether it was, or how much of it.
    pub is_ok: bool,
}
