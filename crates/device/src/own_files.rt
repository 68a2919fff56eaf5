//! The files of a folder that no other program writes, with a record of each call of the system on them.

ghost use Rattle.std.specs.Prelude.{◌≡◌, ◌+◌, ◌<◌, ◌^◌, ◌≤◌, ◌≢◌, [], true, false, None, Ok, Some, is_ok, MatchResult, OnOk, OnErr, IfOk, IfErr};
ghost use Rattle.device.specs.Conditions.{disk_at};
ghost use Rattle.device.specs.OwnFiles.{Either, GrewOrNot, Grew, HoldsAt, HoldsOrNot, NoFile, Same, Touches, bytes_of, held, KeptWord, noted, noted_read, noted_removal};
ghost use Rattle.device.specs.OwnFiles.{IsNamed, IsReplaced, IsSynced};
ghost use Rattle.device.specs.Recorded.{Unnoted};

use crate::DeviceFault;
use crate::disk::Disk;
use crate::file_call::{Deed, FileCall};
use crate::file_record::FileRecord;
use crate::trouble::Trouble;
use std::alloc::AllocError;
use std::fs::OpenFile;
use std::io;
use std::io::{ErrorKind, Write};
use std::marker::Model;
use std::rt::Files;

/// The files of a folder that no other program writes, by their names in it, and a record of each call of the system on them.
///
/// What the files hold is read off the record: what they held at first, and what each call did since that was done. So a contract
/// speaks of them where the answers that were noted are those of a file system (`KeptWord`). That each private function makes the call
/// that it notes is to be read.
#[derive(Drop)]
pub struct OwnFiles<R: Files + AllocGlobal + Clone + Drop> {
    disk: Disk<R>,
    /// The file that was made or appended to last, open for further bytes, as long as it has its name.
    open: Option<Open<R::File>>,
    calls: FileRecord,
}

/// An open file, and the name that it was opened by.
#[derive(Drop)]
struct Open<F: Drop> {
    name: &'static str,
    file: F,
}

impl<R: Files + AllocGlobal + Clone + Drop> Model for OwnFiles<R> {
    ghost use Rattle.device.specs.OwnFiles.{FilesParts};

    ghost Value = { FilesParts };

    ghost view = { λ files. record { disk = files.disk; world = files.calls.world; events = files.calls.events } };
}

impl<R: Files + AllocGlobal + Clone + Drop> OwnFiles<R> {
    /// The files in the folder at this path, which is looked at by the first call.
    pub fn new(rt: R, path: &str) -> Result<Self, AllocError>
        ensures disk { IfOk result (λ files. files.disk ≡ disk_at path.now) }
        ensures none { IfOk result (λ files. files.events ≡ []) }
    {
        Ok(OwnFiles {
            disk: Disk::new(rt, path)?,
            open: None,
            calls: FileRecord::new(),
        })
    }

    /// How many calls have stopped, up to the top of its type.
    pub fn stops(&self) -> usize
        ensures { self.now.disk.condition.stops < 2 ^ 64 → result ≡ self.now.disk.condition.stops }
    {
        self.disk.stops()
    }

    /// What the system said where a call stopped since the device was opened. None: none has, or memory ran out.
    pub fn trouble(&self) -> Option<Trouble> {
        self.disk.trouble()
    }

    /// Whether a call may be made. `Stopped`: one has stopped since the device was opened.
    pub fn check(&self) -> Result<(), DeviceFault>
        ensures whole { OnOk result (self.now.disk.condition.is_broken ≡ false) }
        ensures stopped { IfErr result (λ fault. (fault ≡ DeviceFault.Stopped) × (self.now.disk.condition.is_broken ≡ true)) }
    {
        self.disk.check()
    }

    /// Calls are answered again. No file stays open.
    pub fn reopen(&mut self)
        ensures { self.new ≡ record self.old { disk = record self.old.disk { condition = record self.old.disk.condition { is_broken = false } } } }
    {
        self.open = None;
        self.disk.reopen();
    }

    // Notes a call.
    fn note(&mut self, deed: Deed, is_ok: bool, name: &str, bytes: &[u8])
        ensures { self.new ≡ noted deed is_ok name.now bytes.now self.old }
    {
        self.calls
            .note(&FileCall { deed, is_ok }, name.as_bytes(), bytes);
    }

    // Makes a file, without bytes, which stays open. `AlreadyExists`: something stands there.
    fn make(&mut self, name: &'static str) -> io::Result<()>
        ensures { self.new ≡ noted Deed.Made (is_ok result) name.now [] self.old }
    {
        let made = self.disk.make_file(name);
        self.note(Deed::Made, made.is_ok(), name, &[]);
        self.open = Some(Open { name, file: made? });
        Ok(())
    }

    // Appends bytes to a file, which stays open.
    fn grow(&mut self, name: &'static str, bytes: &[u8]) -> io::Result<()>
        ensures { self.new ≡ noted Deed.Grown (is_ok result) name.now bytes.now self.old }
    {
        let answer = self.write(name, bytes);
        self.note(Deed::Grown, answer.is_ok(), name, bytes);
        answer
    }

    // Writes bytes to the end of a file, which is opened where it is not.
    fn write(&mut self, name: &'static str, bytes: &[u8]) -> io::Result<()>
        ensures { self.new ≡ self.old }
    {
        let mut file = match self.open.take() {
            Some(open) if open.name == name => open.file,
            _ => self.disk.open_own(name)?,
        };
        let answer = file.write_all(bytes);
        self.open = Some(Open { name, file });
        answer
    }

    // Gives a file another name. No file stays open.
    fn rename(&mut self, from: &str, to: &str) -> io::Result<()>
        ensures { self.new ≡ noted Deed.Renamed (is_ok result) from.now to.now self.old }
    {
        self.open = None;
        let answer = self.disk.rename(from, to);
        self.note(Deed::Renamed, answer.is_ok(), from, to.as_bytes());
        answer
    }

    // Reads a file, if it is there. No link is followed, and nothing but a file is opened.
    fn read_file(&mut self, name: &str) -> io::Result<Option<Vec<u8>>>
        ensures { MatchResult result (λ found. self.new ≡ noted_read found name.now self.old)
            (λ _. self.new ≡ noted Deed.Read false name.now [] self.old) }
    {
        let answer = self.disk.read_own(name);
        match &answer {
            Ok(Some(bytes)) => self.note(Deed::Read, true, name, bytes.as_slice()),
            Ok(None) => self.note(Deed::Missing, true, name, &[]),
            Err(_) => self.note(Deed::Read, false, name, &[]),
        }
        answer
    }

    // Removes a file. No file stays open. The answer is whether it was there.
    fn unlink(&mut self, name: &str) -> io::Result<bool>
        ensures { MatchResult result (λ is_there. self.new ≡ noted_removal is_there name.now self.old)
            (λ _. self.new ≡ noted Deed.Removed false name.now [] self.old) }
    {
        self.open = None;
        match self.disk.remove(name) {
            Ok(()) => {
                self.note(Deed::Removed, true, name, &[]);
                Ok(true)
            }
            Err(error) if error.kind() == ErrorKind::NotFound => {
                self.note(Deed::Missing, true, name, &[]);
                Ok(false)
            }
            Err(error) => {
                self.note(Deed::Removed, false, name, &[]);
                Err(error)
            }
        }
    }

    /// Syncs the bytes of a file that is there.
    pub fn sync_file(&mut self, name: &str) -> io::Result<()>
        ensures touches { Touches NoFile self.old self.new }
        ensures noted { self.new ≡ noted Deed.Synced (is_ok result) name.now [] self.old }
    {
        let answer = match &self.open {
            Some(open) if open.name == name => OpenFile::sync_all(&open.file),
            _ => self.disk.sync_file(name),
        };
        self.note(Deed::Synced, answer.is_ok(), name, &[]);
        answer
    }

    /// Syncs the names of the files.
    pub fn sync_names(&mut self) -> io::Result<()>
        ensures touches { Touches NoFile self.old self.new }
        ensures noted { self.new ≡ noted Deed.Synced (is_ok result) [] [] self.old }
    {
        let answer = self.disk.sync_names();
        self.note(Deed::Synced, answer.is_ok(), "", &[]);
        answer
    }

    /// What a call answers to whom the system answered this. After an error each later call stops.
    pub fn report<T>(&mut self, answer: io::Result<T>) -> Result<T, DeviceFault>
        ensures answer { MatchResult result (λ value. answer ≡ Ok value) (λ _. is_ok answer ≡ false) }
        ensures ok { OnOk result (self.new ≡ self.old) }
        ensures calls { Unnoted self.old self.new }
        ensures broken { OnErr result (self.new.disk.condition.is_broken ≡ true) }
        ensures counted { IfErr result (λ fault. fault ≡ DeviceFault.Stopped → self.new.disk.condition.stops ≡ self.old.disk.condition.stops + 1) }
        ensures uncounted { IfErr result (λ fault. fault ≡ DeviceFault.NoMemory → self.new.disk.condition.stops ≡ self.old.disk.condition.stops) }
        ensures no_less { self.old.disk.condition.stops ≤ self.new.disk.condition.stops }
    {
        self.disk.report(answer)
    }

    /// The bytes of a file, or none where it is missing.
    pub fn read(&mut self, name: &str) -> io::Result<Option<Vec<u8>>>
        ensures touches { Touches NoFile self.old self.new }
        ensures gives { IfOk result (λ found. KeptWord self.new → held self.old name.now ≡ bytes_of found) }
    {
        self.read_file(name)
    }

    /// Removes a file, if it is there. This is not synced.
    pub fn remove(&mut self, name: &str) -> io::Result<()>
        ensures touches { Touches (Same name.now) self.old self.new }
        ensures ok { OnOk result (KeptWord self.new → HoldsAt name.now None self.new) }
        ensures err { OnErr result (HoldsOrNot name.now None self.old self.new) }
    {
        self.unlink(name)?;
        Ok(())
    }

    // Makes a file, without bytes. What stands under this name is removed: a link is never followed.
    fn make_anew(&mut self, name: &'static str) -> io::Result<()>
        ensures touches { Touches (Same name.now) self.old self.new }
        ensures ok { OnOk result (KeptWord self.new → HoldsAt name.now (Some []) self.new) }
    {
        match self.make(name) {
            Err(error) if error.kind() == ErrorKind::AlreadyExists => {
                self.remove(name)?;
                self.make(name)
            }
            answer => answer,
        }
    }

    // Writes a file anew and syncs its bytes.
    fn write_anew(&mut self, name: &'static str, bytes: &[u8]) -> io::Result<()>
        ensures touches { Touches (Same name.now) self.old self.new }
        ensures ok { OnOk result (KeptWord self.new → HoldsAt name.now (Some bytes.now) self.new) }
        ensures synced { OnOk result (IsSynced name.now self.new) }
    {
        self.make_anew(name)?;
        self.grow(name, bytes)?;
        self.sync_file(name)
    }

    /// Replaces a file by one with these bytes, all of them or none: it is written under the other name, synced, and renamed, and the
    /// new name is synced.
    pub fn replace(
        &mut self,
        name: &'static str,
        other: &'static str,
        bytes: &[u8],
    ) -> io::Result<()>
        requires { name.now ≢ other.now }
        ensures touches { Touches (Either name.now other.now) self.old self.new }
        ensures ok { OnOk result (KeptWord self.new → HoldsAt name.now (Some bytes.now) self.new) }
        ensures err { OnErr result (KeptWord self.new → HoldsOrNot name.now (Some bytes.now) self.old self.new) }
        ensures synced { OnOk result (IsReplaced name.now other.now self.new) }
    {
        self.write_anew(other, bytes)?;
        self.rename(other, name)?;
        self.sync_names()
    }

    /// Appends bytes to a file. Where it is made for them and is to last, they and its name are synced. It stays open for further bytes.
    pub fn append(&mut self, name: &'static str, bytes: &[u8], lasts: bool) -> io::Result<()>
        ensures touches { Touches (Same name.now) self.old self.new }
        ensures ok { OnOk result (Grew name.now bytes.now self.old self.new) }
        ensures err { OnErr result (GrewOrNot name.now bytes.now self.old self.new) }
    {
        if self.is_open(name) {
            return self.append_to(name, bytes);
        }
        match self.make(name) {
            Ok(()) => self.append_made(name, bytes, lasts),
            Err(error) if error.kind() == ErrorKind::AlreadyExists => self.append_to(name, bytes),
            Err(error) => Err(error),
        }
    }

    // Whether the file of this name is open.
    fn is_open(&self, name: &str) -> bool {
        match &self.open {
            Some(open) => open.name == name,
            None => false,
        }
    }

    // Appends bytes to a file that was made for them, and syncs them and its name where it is to last.
    fn append_made(&mut self, name: &'static str, bytes: &[u8], lasts: bool) -> io::Result<()>
        ensures touches { Touches (Same name.now) self.old self.new }
        ensures ok { OnOk result (Grew name.now bytes.now self.old self.new) }
        ensures err { OnErr result (GrewOrNot name.now bytes.now self.old self.new) }
        ensures synced { OnOk result (lasts ≡ true → IsNamed name.now self.new) }
    {
        self.append_to(name, bytes)?;
        if lasts { self.sync_made(name) } else { Ok(()) }
    }

    // Syncs a file that was made, and its name.
    fn sync_made(&mut self, name: &str) -> io::Result<()>
        ensures touches { Touches NoFile self.old self.new }
        ensures synced { OnOk result (IsNamed name.now self.new) }
    {
        self.sync_file(name)?;
        self.sync_names()
    }

    // Appends bytes to a file that is there.
    fn append_to(&mut self, name: &'static str, bytes: &[u8]) -> io::Result<()>
        ensures touches { Touches (Same name.now) self.old self.new }
        ensures ok { OnOk result (Grew name.now bytes.now self.old self.new) }
        ensures err { OnErr result (GrewOrNot name.now bytes.now self.old self.new) }
    {
        self.grow(name, bytes)
    }
}

/// A file that was replaced and is read at once: it holds what was written.
pub fn replaced_is_read<R: Files + AllocGlobal + Clone + Drop>(
    files: &mut OwnFiles<R>,
    name: &'static str,
    other: &'static str,
    bytes: &[u8],
) -> io::Result<Option<Vec<u8>>>
    requires { name.now ≢ other.now }
    ensures { IfOk result (λ found. KeptWord files.new → bytes_of found ≡ Some bytes.now) }
{
    files.replace(name, other, bytes)?;
    files.read(name)
}
