//! What the system says of folders, and a record of it.

ghost use Rattle.std.specs.Prelude.{◌≡◌, List, [], ◌∷◌, map, MatchResult, string_bytes};
ghost use Rattle.std.specs.Borrow.{ftrue};
ghost use Rattle.near_places.specs.Trees.{IsLater, Look};
ghost use Rattle.near_places.specs.Trees.Look.{FolderAt, NamesIn, BoxAt};

use crate::refusal::PlaceRefusal;
use device::disk::Disk;
use std::io::ErrorKind;
use std::marker::Model;
use std::os::unix::fs::MetadataExt;
use std::rt::Files;
use std::{fs, io};

/// The folders that make a folder a mailbox.
pub(crate) const PARTS: [&str; 3] = ["cur", "new", "tmp"];

/// Which folder of the system it is, by whatever path.
#[derive(Clone, Copy, PartialEq, Eq)]
pub struct Identity {
    device: u64,
    number: u64,
}

/// Each thing that the system was asked of folders, with its answer, the last one first. It takes no memory: contracts alone read it.
///
/// No contract can say what a system answers. So what is proved of its folders is proved of each tree of folders in which all answers
/// are as they were given. That each function here notes what it asked is to be read.
#[derive(Drop)]
pub struct Looks {
    pub ghost looks: { List Look },
}

impl Model for Looks {
    ghost also_owns = { λ _. ftrue };
}

impl Looks {
    /// The system was asked nothing.
    pub(crate) fn new() -> Self
        ensures { result.looks ≡ [] }
    {
        Looks {}
    }

    /// The same, and this after it.
    fn and(&self) -> Self
        ghost this: { Look }
        ensures { result.looks ≡ this ∷ self.now.looks }
    {
        Looks {}
    }

    /// Which folder is at a path, if one is. `CannotOpen`: the system does not say so.
    pub(crate) fn folder_at<R: Files + AllocGlobal>(
        &mut self,
        rt: &R,
        path: &str,
    ) -> Result<Option<Identity>, PlaceRefusal>
        ensures later { IsLater self.old.looks self.new.looks }
        ensures noted { MatchResult result (λ found. self.new.looks ≡ FolderAt path.now found ∷ self.old.looks)
            (λ _. self.new.looks ≡ self.old.looks) }
    {
        let found = folder_at(rt, path)?;
        note(self, path.as_bytes(), &found);
        Ok(found)
    }

    /// The names in a folder. One outside UTF-8 is missing: it is beyond the limits of the name of a mailbox, and the system cannot be
    /// asked for it. None where the folder was just removed. `CannotOpen`: the folder cannot be read.
    pub(crate) fn names_in<R: Files + AllocGlobal + Clone + Drop>(
        &mut self,
        rt: &R,
        path: &str,
    ) -> Result<Vec<String>, PlaceRefusal>
        ensures later { IsLater self.old.looks self.new.looks }
        ensures noted { MatchResult result (λ names. self.new.looks ≡ NamesIn path.now (map string_bytes names.items) ∷ self.old.looks)
            (λ _. self.new.looks ≡ self.old.looks) }
    {
        let names = names_in(rt, path)?;
        note(self, path.as_bytes(), &names);
        Ok(names)
    }

    /// Whether a mailbox is at a path. `CannotOpen`: the system does not say so.
    pub(crate) fn is_mailbox<R: Files + AllocGlobal + Clone + Drop>(
        &mut self,
        rt: &R,
        path: &str,
    ) -> Result<bool, PlaceRefusal>
        ensures later { IsLater self.old.looks self.new.looks }
        ensures noted { MatchResult result (λ is_box. self.new.looks ≡ BoxAt path.now is_box ∷ self.old.looks)
            (λ _. self.new.looks ≡ self.old.looks) }
    {
        let is_box = is_mailbox(rt, path)?;
        note(self, path.as_bytes(), &is_box);
        Ok(is_box)
    }
}

/// The system was asked something of this path, and answered this. Both are there for contracts alone, which name by them what is noted.
fn note<T>(looks: &mut Looks, _path: &[u8], _answer: &T)
    ghost this: { Look }
    ensures { looks.new.looks ≡ this ∷ looks.old.looks }
{
    *looks = looks.and();
}

/// Whether the same folder is at both paths.
pub(crate) fn is_same_folder<R: Files + AllocGlobal>(
    rt: &R,
    path: &str,
    other: &str,
) -> Result<bool, PlaceRefusal> {
    match folder_at(rt, path)? {
        Some(identity) => Ok(folder_at(rt, other)? == Some(identity)),
        None => Ok(false),
    }
}

fn folder_at<R: Files + AllocGlobal>(rt: &R, path: &str) -> Result<Option<Identity>, PlaceRefusal> {
    match fs::metadata(rt, path) {
        Ok(found) if found.is_dir() => Ok(Some(Identity {
            device: found.dev(),
            number: found.ino(),
        })),
        Ok(_) => Ok(None),
        Err(error) if is_nothing(error.kind()) => Ok(None),
        Err(error) => Err(PlaceRefusal::at(rt.alloc(), path, &error)),
    }
}

/// Whether an error says that there is nothing: a symlink leads nowhere, or the file was just removed.
fn is_nothing(kind: ErrorKind) -> bool {
    kind == ErrorKind::NotFound || kind == ErrorKind::FilesystemLoop
}

fn names_in<R: Files + AllocGlobal + Clone + Drop>(
    rt: &R,
    path: &str,
) -> Result<Vec<String>, PlaceRefusal> {
    let alloc = rt.alloc();
    let mut names = Vec::new(alloc);
    let entries = match fs::read_dir(rt, path) {
        Ok(entries) => entries,
        // It was just removed.
        Err(error) if error.kind() == ErrorKind::NotFound => return Ok(names),
        Err(error) => return Err(PlaceRefusal::at(alloc, path, &error)),
    };
    for entry in entries {
        match entry {
            Ok(entry) => names.push(String::from_str(alloc, entry.file_name())?)?,
            // A name outside UTF-8 cannot be had.
            Err(error) if error.kind() == ErrorKind::InvalidFilename => {}
            Err(error) => return Err(PlaceRefusal::at(alloc, path, &error)),
        }
    }
    Ok(names)
}

fn is_mailbox<R: Files + AllocGlobal + Clone + Drop>(
    rt: &R,
    path: &str,
) -> Result<bool, PlaceRefusal> {
    match has_parts(rt, path) {
        Ok(answer) => Ok(answer),
        Err(error) => Err(PlaceRefusal::at(rt.alloc(), path, &error)),
    }
}

fn has_parts<R: Files + AllocGlobal + Clone + Drop>(rt: &R, folder: &str) -> io::Result<bool> {
    let disk = Disk::new(rt.clone()?, folder)?;
    for part in PARTS {
        if !disk.has_folder(part)? {
            return Ok(false);
        }
    }
    Ok(true)
}
