//! A folder of a disk as a device: its files, and what the system's faults are to it.

ghost use Rattle.std.specs.Prelude.{◌≡◌, ◌+◌, ◌<◌, ◌^◌, ◌≤◌, true, false, Ok, is_ok, MatchResult, OnOk, OnErr, IfOk, IfErr};
ghost use Rattle.device.specs.Conditions.{disk_at};

use crate::DeviceFault;
use crate::condition::Condition;
use crate::trouble::Trouble;
use std::alloc::AllocError;
use std::fs::{DirBuilder, OpenFile, OpenOptions};
use std::io::{ErrorKind, Read, Write};
use std::marker::Model;
use std::os::unix::fs::{DirBuilderExt, OpenOptionsExt};
use std::rt::Files;
use std::time::SystemTime;
use std::{fs, io};

/// Who may read and write a new file: its owner.
const FILE_MODE: u32 = 0o600;

/// Who may use a new folder: its owner.
const FOLDER_MODE: u32 = 0o700;

/// A folder of a disk. Its parts are named by their paths from it.
///
/// New files and folders are for their owner alone. What a call of it does to the disk no contract says: nobody can promise that a
/// disk gives back what was written.
#[derive(Drop)]
pub struct Disk<R: Files + AllocGlobal + Clone + Drop> {
    rt: R,
    path: String,
    condition: Condition,
    trouble: Option<Trouble>,
}

impl<R: Files + AllocGlobal + Clone + Drop> Model for Disk<R> {
    ghost use Rattle.std.specs.Prelude.{string_bytes};
    ghost use Rattle.device.specs.Conditions.{DiskParts};

    ghost Value = { DiskParts };

    ghost view = { λ disk. record { path = string_bytes disk.path; condition = disk.condition } };
}

impl<R: Files + AllocGlobal + Clone + Drop> Disk<R> {
    /// The folder at this path, which is looked at by the first call.
    pub fn new(rt: R, path: &str) -> Result<Self, AllocError>
        ensures { IfOk result (λ disk. disk ≡ disk_at path.now) }
    {
        let path = String::from_str(rt.alloc(), path)?;
        Ok(Disk {
            rt,
            path,
            condition: Condition::new(),
            trouble: None,
        })
    }

    /// How many calls have stopped, up to the top of its type.
    pub fn stops(&self) -> usize
        ensures { self.now.condition.stops < 2 ^ 64 → result ≡ self.now.condition.stops }
    {
        self.condition.stops()
    }

    /// What the system said where a call stopped since the device was opened. None: none has, or memory ran out.
    pub fn trouble(&self) -> Option<Trouble> {
        self.trouble
    }

    /// Whether a call may be made. `Stopped`: one has stopped since the device was opened.
    pub fn check(&self) -> Result<(), DeviceFault>
        ensures whole { OnOk result (self.now.condition.is_broken ≡ false) }
        ensures stopped { IfErr result (λ fault. (fault ≡ DeviceFault.Stopped) × (self.now.condition.is_broken ≡ true)) }
    {
        self.condition.check()
    }

    /// What a call answers to whom the system answered this. After an error each later call stops.
    pub fn report<T>(&mut self, answer: io::Result<T>) -> Result<T, DeviceFault>
        ensures answer { MatchResult result (λ value. answer ≡ Ok value) (λ _. is_ok answer ≡ false) }
        ensures ok { OnOk result (self.new ≡ self.old) }
        ensures path { self.new.path ≡ self.old.path }
        ensures broken { OnErr result (self.new.condition.is_broken ≡ true) }
        ensures counted { IfErr result (λ fault. fault ≡ DeviceFault.Stopped → self.new.condition.stops ≡ self.old.condition.stops + 1) }
        ensures uncounted { IfErr result (λ fault. fault ≡ DeviceFault.NoMemory → self.new.condition.stops ≡ self.old.condition.stops) }
        ensures no_less { self.old.condition.stops ≤ self.new.condition.stops }
    {
        match answer {
            Ok(value) => Ok(value),
            Err(error) if error.kind() == ErrorKind::OutOfMemory => Err(self.condition.lack()),
            Err(error) => Err(self.stop(Trouble::of(error.kind()))),
        }
    }

    /// A call stops over this, and from now on each call does. Gives what the call answers.
    pub fn stop(&mut self, trouble: Trouble) -> DeviceFault
        ensures fault { result ≡ DeviceFault.Stopped }
        ensures path { self.new.path ≡ self.old.path }
        ensures broken { self.new.condition.is_broken ≡ true }
        ensures counted { self.new.condition.stops ≡ self.old.condition.stops + 1 }
    {
        self.trouble = Some(trouble);
        self.condition.stop()
    }

    /// Calls are answered again.
    pub fn reopen(&mut self)
        ensures path { self.new.path ≡ self.old.path }
        ensures whole { self.new.condition ≡ record self.old.condition { is_broken = false } }
    {
        self.trouble = None;
        self.condition.reopen();
    }

    /// The system, for what stands here in no function.
    pub fn rt(&self) -> &R {
        &self.rt
    }

    /// The path of a part.
    pub fn at(&self, part: &str) -> io::Result<String> {
        let path = self.path.as_str();
        Ok(format!(in self.rt.alloc(); "{path}/{part}")?)
    }

    /// Whether a folder stands there.
    pub fn has_folder(&self, part: &str) -> io::Result<bool> {
        let path = self.at(part)?;
        match fs::metadata(&self.rt, path.as_str()) {
            Ok(found) => Ok(found.is_dir()),
            Err(error) if error.kind() == ErrorKind::NotFound => Ok(false),
            Err(error) => Err(error),
        }
    }

    /// Makes a folder, and those above it, as far as they are not there.
    pub fn make_folder(&self, part: &str) -> io::Result<()> {
        let path = self.at(part)?;
        let mut builder = DirBuilder::new();
        builder.recursive(true).mode(FOLDER_MODE);
        builder.create(&self.rt, path.as_str())
    }

    /// When the names that stand in a part that is a folder changed last.
    pub fn changed(&self, part: &str) -> io::Result<SystemTime> {
        let path = self.at(part)?;
        fs::metadata(&self.rt, path.as_str())?.modified()
    }

    /// The bytes of a file, or none where it is missing. It was asked for its size before, which may have changed since: room is made for so
    /// many bytes at once.
    pub fn read(&self, part: &str, size: u64) -> io::Result<Option<Vec<u8>>> {
        let path = self.at(part)?;
        found(read_sized(&self.rt, path.as_str(), size))
    }

    /// The same of a file that no other program makes. No link is followed, and nothing but a file is opened: a fifo would not answer.
    pub fn read_own(&self, part: &str) -> io::Result<Option<Vec<u8>>> {
        match self.own_size(part)? {
            Some(size) => self.read(part, size),
            None => Ok(None),
        }
    }

    /// How many bytes the file has that stands there, or none where nothing does. `InvalidInput`: something else does, a link among it.
    fn own_size(&self, part: &str) -> io::Result<Option<u64>> {
        let path = self.at(part)?;
        match found(fs::symlink_metadata(&self.rt, path.as_str()))? {
            Some(found) if found.is_file() => Ok(Some(found.len())),
            Some(_) => Err(io::Error::from(ErrorKind::InvalidInput)),
            None => Ok(None),
        }
    }

    /// Makes a new file, to be written. If something stands under this name, it is removed: a link is never followed.
    pub fn new_file(&self, part: &str) -> io::Result<R::File> {
        match self.make_file(part) {
            Err(error) if error.kind() == ErrorKind::AlreadyExists => {
                self.remove_if_there(part)?;
                self.make_file(part)
            }
            answer => answer,
        }
    }

    /// Makes a file, to be written. `AlreadyExists`: something stands under this name, a link among it.
    pub fn make_file(&self, part: &str) -> io::Result<R::File> {
        let path = self.at(part)?;
        let mut options = OpenOptions::new();
        options.append(true).create_new(true).mode(FILE_MODE);
        options.open(&self.rt, path.as_str())
    }

    // Writes a new file and syncs its bytes.
    fn write_new(&self, part: &str, bytes: &[u8]) -> io::Result<()> {
        let mut file = self.new_file(part)?;
        file.write_all(bytes)?;
        OpenFile::sync_all(&file)
    }

    /// Replaces a file by one with these bytes, all of them or none: it is written under the other name, synced, and renamed. The new name
    /// is not synced.
    pub fn replace(&self, part: &str, other: &str, bytes: &[u8]) -> io::Result<()> {
        self.write_new(other, bytes)?;
        self.rename(other, part)
    }

    /// Opens a file that is there, and that no other program makes, to append to it. No link is followed.
    pub fn open_own(&self, part: &str) -> io::Result<R::File> {
        self.own_size(part)?;
        let path = self.at(part)?;
        let mut options = OpenOptions::new();
        options.append(true);
        options.open(&self.rt, path.as_str())
    }

    /// Gives a file another name. It is whole or not at all, and is not synced.
    pub fn rename(&self, from: &str, to: &str) -> io::Result<()> {
        let (from, to) = (self.at(from)?, self.at(to)?);
        fs::rename(&self.rt, from.as_str(), to.as_str())
    }

    /// Removes a file, which is not synced.
    pub fn remove(&self, part: &str) -> io::Result<()> {
        let path = self.at(part)?;
        fs::remove_file(&self.rt, path.as_str())
    }

    /// The same, where it is there.
    pub fn remove_if_there(&self, part: &str) -> io::Result<()> {
        found(self.remove(part))?;
        Ok(())
    }

    /// Syncs a file that is there.
    pub fn sync_file(&self, part: &str) -> io::Result<()> {
        let path = self.at(part)?;
        let file = fs::open(&self.rt, path.as_str())?;
        OpenFile::sync_all(&file)
    }

    /// Syncs the names that stand in a part that is a folder.
    pub fn sync_names_in(&self, part: &str) -> io::Result<()> {
        self.sync_folder(self.at(part)?.as_str())
    }

    /// Syncs the names that stand in the folder itself.
    pub fn sync_names(&self) -> io::Result<()> {
        self.sync_folder(self.path.as_str())
    }

    /// Syncs a folder. That a file system cannot do so is no fault.
    fn sync_folder(&self, path: &str) -> io::Result<()> {
        let folder = fs::open(&self.rt, path)?;
        match OpenFile::sync_all(&folder) {
            Err(error) if !is_unable(&error) => Err(error),
            _ => Ok(()),
        }
    }
}

/// The bytes of the file at this path, which had so many.
fn read_sized<R: Files + AllocGlobal>(rt: &R, path: &str, size: u64) -> io::Result<Vec<u8>> {
    let mut file = fs::open(rt, path)?;
    // One more, so that the end is met without room for further bytes.
    let room = usize::try_from(size).unwrap_or(0).saturating_add(1);
    let mut bytes = Vec::with_capacity(rt.alloc(), room)?;
    file.read_to_end(&mut bytes)?;
    Ok(bytes)
}

/// None instead of the error that nothing is there.
fn found<T: Drop>(answer: io::Result<T>) -> io::Result<Option<T>> {
    match answer {
        Ok(value) => Ok(Some(value)),
        Err(error) if error.kind() == ErrorKind::NotFound => Ok(None),
        Err(error) => Err(error),
    }
}

/// Whether a file system says so that it cannot do what is asked.
fn is_unable(error: &io::Error) -> bool {
    matches!(
        error.kind(),
        ErrorKind::InvalidInput | ErrorKind::Unsupported
    )
}
