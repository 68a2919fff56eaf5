//! A call of the system on a file, as a record of calls notes it.

/// What a call of the system on a file did, or was to do.
#[derive(Clone, Copy, PartialEq, Eq)]
pub enum Deed {
    /// Its bytes were read.
    Read,
    /// It was found missing.
    Missing,
    /// It was made, without bytes.
    Made,
    /// Bytes were appended to it.
    Grown,
    /// It got another name, and what had that name is no more.
    Renamed,
    /// It was removed.
    Removed,
    /// It was synced, or the names in the folder.
    Synced,
}

/// A call of the system on a file.
#[derive(Clone, Copy)]
pub struct FileCall {
    /// What it did, or was to do.
    pub deed: Deed,
    /// Whether the system answered that it is done. Else nobody knows whether it was, or how much of it.
    pub is_ok: bool,
}
