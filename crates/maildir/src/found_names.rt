//! What one reading of the names in `new` and `cur` found: messages, files that wait for a UID, and files that can get none.

ghost use Rattle.std.specs.Prelude.{◌≡◌, ◌++◌, ℕ, List, None, is_some, IfOk};
ghost use Rattle.std.specs.Option.{option_map};
ghost use Rattle.maildir.specs.Names.{is_waiting, name_of, parts_of, uid_in};

use crate::entries::entries_in;
use crate::folder::{FileName, Place};
use crate::kinds::is_file;
use crate::name::{Name, read_name};
use device::disk::Disk;
use std::alloc::Global;
use std::path::Path;
use std::rt::Files;
use std::{io, str};

/// The most bytes that the name of a waiting file may have: with a UID of ten digits (`,U=..`), and six flags after `:2,`, these are 255.
const WAITING_MAX: usize = 233;

/// What one reading of the names found.
#[derive(Drop)]
pub(crate) struct FoundNames {
    /// The names of messages and of files that wait for a UID.
    pub(crate) names: Vec<FileName>,
    /// The names of files that wait for a UID and can get none: they are no UTF-8, or too long with one.
    pub(crate) left_out: Vec<FileName>,
    /// The names of files that are no Maildir names, but for those that begin with a dot.
    pub(crate) unspelled: Vec<FileName>,
    /// A message whose name is no UTF-8, so that it is out of reach.
    pub(crate) unreached: Option<FileName>,
}

/// How a name is taken.
#[derive(Clone, Copy)]
enum TakenName {
    /// As that of a message, or of a file that waits for a UID.
    Listed,
    /// As that of a file that waits for a UID, and can get none.
    LeftOut,
    /// As that of a file whose name is no Maildir name.
    Unspelled,
    /// As that of a message that is out of reach.
    Unreached,
    /// As that of something else.
    Passed,
}

impl FoundNames {
    /// What stands in one of the folders. Where `asks_all` is false, what has the name of a message is taken to be one: to ask would be a
    /// call of the system for each message.
    pub(crate) fn read<R: Files + AllocGlobal + Clone + Drop>(
        disk: &Disk<R>,
        asks_all: bool,
        place: Place,
    ) -> io::Result<Self> {
        let mut found = FoundNames::new(disk.rt().alloc());
        let mut path = disk.at(place.folder())?;
        path.push('/')?;
        for name in entries_in(disk.rt(), path.as_str())? {
            let taken = how_taken(disk, asks_all, path.as_str(), name.as_slice())?;
            found.add(taken, FileName { place, name })?;
        }
        Ok(found)
    }

    /// What was found in this folder and in the other one.
    pub(crate) fn and(self, other: FoundNames) -> io::Result<Self>
        ensures names { IfOk result (λ both. both.names.items ≡ self.names.items ++ other.names.items) }
        ensures reached { IfOk result (λ both. both.unreached ≡ None → (self.unreached ≡ None) × (other.unreached ≡ None)) }
    {
        let mut both = self;
        let FoundNames {
            mut names,
            mut left_out,
            mut unspelled,
            unreached,
        } = other;
        both.names.append(&mut names)?;
        both.left_out.append(&mut left_out)?;
        both.unspelled.append(&mut unspelled)?;
        both.unreached = both.unreached.or(unreached);
        Ok(both)
    }

    fn new(alloc: Global) -> Self {
        FoundNames {
            names: Vec::new(alloc),
            left_out: Vec::new(alloc),
            unspelled: Vec::new(alloc),
            unreached: None,
        }
    }

    fn add(&mut self, taken: TakenName, file: FileName) -> io::Result<()> {
        match taken {
            TakenName::Listed => self.names.push(file)?,
            TakenName::LeftOut => self.left_out.push(file)?,
            TakenName::Unspelled => self.unspelled.push(file)?,
            TakenName::Unreached => self.unreached = Some(file),
            TakenName::Passed => {}
        }
        Ok(())
    }
}

/// How a name in the folder at this path, which ends with a slash, is taken.
fn how_taken<R: Files + AllocGlobal + Clone + Drop>(
    disk: &Disk<R>,
    asks_all: bool,
    folder: &str,
    bytes: &[u8],
) -> io::Result<TakenName> {
    let parts = read_name(bytes);
    let taken = by_name(bytes, &parts);
    let has_uid = has_uid(&parts);
    let Ok(name) = str::from_utf8(bytes) else {
        return Ok(unread(has_uid, taken));
    };
    if matches!(taken, TakenName::Passed) || has_uid && !asks_all {
        return Ok(taken);
    }
    let path = format!(in disk.rt().alloc(); "{folder}{name}")?;
    if is_file(disk.rt(), Path::new(path.as_str()))? {
        Ok(taken)
    } else {
        Ok(TakenName::Passed)
    }
}

/// How the name of a file is taken, which was read.
fn by_name(name: &[u8], parts: &Option<Name<'_>>) -> TakenName {
    match parts {
        Some(parts) if parts.uid.is_none() && name.len() > WAITING_MAX => TakenName::LeftOut,
        Some(_) => TakenName::Listed,
        None if name.first() == Some(&b'.') => TakenName::Passed,
        None => TakenName::Unspelled,
    }
}

/// How a name that is no UTF-8 is taken, which would be taken so otherwise. What it names cannot be asked.
fn unread(has_uid: bool, taken: TakenName) -> TakenName {
    match taken {
        TakenName::Listed if has_uid => TakenName::Unreached,
        TakenName::Listed => TakenName::LeftOut,
        taken => taken,
    }
}

/// Whether a name that was read carries a UID.
fn has_uid(parts: &Option<Name<'_>>) -> bool
    ensures { (name : List ℕ) → option_map parts_of parts.now ≡ name_of name → result ≡ is_some (uid_in name) }
{
    match parts {
        Some(name) => name.uid.is_some(),
        None => false,
    }
}

/// Whether a name is that of a file that waits for a UID.
pub(crate) fn is_waiting(name: &[u8]) -> bool
    ensures { result ≡ is_waiting name.now }
{
    match read_name(name) {
        Some(name) => name.uid.is_none(),
        None => false,
    }
}
