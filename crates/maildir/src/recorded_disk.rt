//! The folder of a mailbox on a disk, with a record of each call of the system on it.

ghost use Rattle.std.specs.Prelude.{◌≡◌, ◌+◌, ◌<◌, ◌^◌, ◌≤◌, [], ◌∷◌, true, false, is_ok, is_none, Ok, MatchResult, OnOk, OnErr, IfOk, IfErr};
ghost use Rattle.device.specs.Conditions.{disk_at};
ghost use Rattle.device.specs.Recorded.{Unnoted};
ghost use Rattle.maildir.specs.DiskFolders.{are_all_synced, changes_names as changes_names_of, is_settled_on_disk, is_synced_on_disk};
ghost use Rattle.maildir.specs.DiskFolders.{noted, noted_mail, noted_meta, looked};

use crate::changes::Changes;
use crate::disk_call::{DiskCall, DiskDeed, NameSync};
use crate::disk_record::DiskRecord;
use crate::folder::{FileName, Location, Place};
use crate::found_names::FoundNames;
use crate::kinds::{file_size, is_something};
use device::DeviceFault;
use device::disk::Disk;
use device::trouble::Trouble;
use device::whose::Whose;
use std::alloc::{AllocError, Global};
use std::fs::{OpenFile, OpenOptions};
use std::io;
use std::io::{BufWriter, ErrorKind, Write};
use std::marker::Model;
use std::path::Path;
use std::rt::{Clock, Files};

/// The file in the folder that keeps the mailbox's validity and next UID.
pub const META: &str = ".uidvalidity";

/// What the next meta file is written as, before it takes the old one's place.
pub const NEXT_META: &str = ".uidvalidity.new";

/// The copy that is being written.
pub const COPY: &str = "tmp/mbsync.copy";

/// What a copy is begun as where an older one was left.
const NEXT_COPY: &str = "tmp/mbsync.copy.new";

/// The most bytes that a message may have whose file is read: 64 MiB. A longer one is not fit to be copied, whatever it says.
const READ_MAX: u64 = 67_108_864;

/// The folder of a mailbox, and a record of each call of the system on it.
///
/// What stands there is read off the record: what stood there at first, and what each call did since that was done. So a contract
/// speaks of it where the answers that were noted are those of a folder (`KeptWord`). That each function here makes the call that
/// it notes is to be read.
#[derive(Drop)]
pub(crate) struct RecordedDisk<R: Files + AllocGlobal + Clone + Drop> {
    disk: Disk<R>,
    /// Whether something that is no file was to be read under the name of a message.
    has_odd: bool,
    /// Whether no name was changed since the folder was opened or all names were synced last.
    is_kept: bool,
    /// Whether all names were synced since the folder was opened, and none was changed after that.
    is_settled: bool,
    calls: DiskRecord,
    pub ghost kept: { is_kept ≡ true → are_all_synced true calls.events ≡ true },
    pub ghost settled: { is_settled ≡ true → are_all_synced false calls.events ≡ true },
}

impl<R: Files + AllocGlobal + Clone + Drop> Model for RecordedDisk<R> {
    ghost use Rattle.maildir.specs.DiskFolders.{FolderParts};

    ghost Value = { FolderParts };

    ghost view = { λ d. record { disk = d.disk; world = d.calls.world; events = d.calls.events } };
}

impl<R: Files + AllocGlobal + Clone + Drop> RecordedDisk<R> {
    /// The folder at this path, which is looked at by the first call.
    pub(crate) fn new(rt: R, path: &str) -> Result<Self, AllocError>
        ensures disk { IfOk result (λ disk. disk.disk ≡ disk_at path.now) }
        ensures none { IfOk result (λ disk. disk.events ≡ []) }
    {
        Ok(RecordedDisk {
            disk: Disk::new(rt, path)?,
            has_odd: false,
            is_kept: true,
            is_settled: false,
            calls: DiskRecord::new(),
        })
    }

    /// How many calls have stopped, up to the top of its type.
    pub(crate) fn stops(&self) -> usize
        ensures { self.now.disk.condition.stops < 2 ^ 64 → result ≡ self.now.disk.condition.stops }
    {
        self.disk.stops()
    }

    /// What the system said where a call stopped since the device was opened. None: none has, or memory ran out.
    pub(crate) fn trouble(&self) -> Option<Trouble> {
        self.disk.trouble()
    }

    /// Whether a call may be made. `Stopped`: one has stopped since the device was opened.
    pub(crate) fn check(&self) -> Result<(), DeviceFault>
        ensures whole { OnOk result (self.now.disk.condition.is_broken ≡ false) }
        ensures stopped { IfErr result (λ fault. (fault ≡ DeviceFault.Stopped) × (self.now.disk.condition.is_broken ≡ true)) }
    {
        self.disk.check()
    }

    /// Calls are answered again.
    pub(crate) fn reopen(&mut self)
        ensures { self.new ≡ record self.old { disk = record self.old.disk { condition = record self.old.disk.condition { is_broken = false } } } }
    {
        self.disk.reopen();
    }

    /// What a call answers to whom the system answered this. After an error each later call stops.
    pub(crate) fn report<T>(&mut self, answer: io::Result<T>) -> Result<T, DeviceFault>
        ensures answer { MatchResult result (λ value. answer ≡ Ok value) (λ _. is_ok answer ≡ false) }
        ensures ok { OnOk result (self.new ≡ self.old) }
        ensures calls { Unnoted self.old self.new }
        ensures broken { OnErr result (self.new.disk.condition.is_broken ≡ true) }
        ensures counted { IfErr result (λ fault. fault ≡ DeviceFault.Stopped → self.new.disk.condition.stops ≡ self.old.disk.condition.stops + 1) }
        ensures uncounted { IfErr result (λ fault. fault ≡ DeviceFault.NoMemory → self.new.disk.condition.stops ≡ self.old.disk.condition.stops) }
        ensures no_less { self.old.disk.condition.stops ≤ self.new.disk.condition.stops }
    {
        self.disk.report(answer)
    }

    /// Memory, for what is made of the answers.
    pub(crate) fn alloc(&self) -> Global {
        self.disk.rt().alloc()
    }

    /// The system, for what is no call on the folder.
    pub(crate) fn rt(&self) -> &R {
        self.disk.rt()
    }

    // Notes a call.
    fn note(&mut self, deed: DiskDeed, is_ok: bool, name: &[u8], bytes: &[u8], names: &[FileName])
        ensures { self.new ≡ noted deed is_ok name.now bytes.now names.now self.old }
    {
        if changes_names(deed) {
            self.is_kept = false;
            self.is_settled = false;
        }
        self.calls
            .note(&DiskCall { deed, is_ok }, name, bytes, names);
    }

    /// Notes that a file is asked for.
    pub(crate) fn ask(&mut self)
        ensures { self.new ≡ noted DiskDeed.Asked true [] [] [] self.old }
    {
        self.note(DiskDeed::Asked, true, &[], &[], &[]);
    }

    /// Makes `cur`, `new` and `tmp`, as far as they are not there: this is no call on the folder of a mailbox yet.
    pub(crate) fn make(&self) -> io::Result<()> {
        for part in ["cur", "new", "tmp"] {
            self.disk.make_folder(part)?;
        }
        Ok(())
    }

    /// Whether `cur`, `new` and `tmp` are there.
    pub(crate) fn is_there(&mut self) -> io::Result<bool>
        ensures { MatchResult result (λ is_there. self.new ≡ noted (looked is_there) true [] [] [] self.old) (λ _. self.new ≡ self.old) }
    {
        let is_there = self.has_folders()?;
        let deed = if is_there {
            DiskDeed::Found
        } else {
            DiskDeed::Absent
        };
        self.note(deed, true, &[], &[], &[]);
        Ok(is_there)
    }

    fn has_folders(&self) -> io::Result<bool> {
        for part in ["cur", "new", "tmp"] {
            if !self.disk.has_folder(part)? {
                return Ok(false);
            }
        }
        Ok(true)
    }

    /// What stands in one of the folders. Where a message is out of reach, the names are not those of all.
    pub(crate) fn list(&mut self, place: Place) -> io::Result<FoundNames>
        ensures { MatchResult result
            (λ found. self.new ≡ noted (DiskDeed.Listed place) (is_none found.unreached) [] [] found.names.items self.old)
            (λ _. self.new ≡ noted (DiskDeed.Listed place) false [] [] [] self.old) }
    {
        let answer = self.found(place);
        let deed = DiskDeed::Listed(place);
        match &answer {
            Ok(found) => {
                let is_whole = found.unreached.is_none();
                self.note(deed, is_whole, &[], &[], found.names.as_slice());
            }
            Err(_) => self.note(deed, false, &[], &[], &[]),
        }
        answer
    }

    fn found(&self, place: Place) -> io::Result<FoundNames> {
        FoundNames::read(&self.disk, self.has_odd, place)
    }

    /// The bytes of the meta file, or none where it is missing. No link is followed, and nothing but a file is opened.
    pub(crate) fn read_meta(&mut self) -> io::Result<Option<Vec<u8>>>
        ensures { MatchResult result (λ bytes. self.new ≡ noted_meta bytes self.old) (λ _. self.new ≡ self.old) }
    {
        let answer = self.disk.read_own(META);
        match &answer {
            Ok(Some(bytes)) => self.note(DiskDeed::MetaRead, true, &[], bytes.as_slice(), &[]),
            Ok(None) => self.note(DiskDeed::MetaMissing, true, &[], &[], &[]),
            Err(_) => {}
        }
        answer
    }

    /// The bytes of a message, or none where nothing stands. Those of one that is too long to be read are a single NUL.
    pub(crate) fn read_mail(&mut self, file: Location<'_>) -> io::Result<Option<Vec<u8>>>
        ensures { MatchResult result (λ bytes. self.new ≡ noted_mail bytes file.entry.place file.entry.name.now self.old) (λ _. self.new ≡ self.old) }
    {
        let answer = self.mail_bytes(file);
        match &answer {
            Ok(Some(bytes)) => self.note(
                DiskDeed::Read(file.place),
                true,
                file.name,
                bytes.as_slice(),
                &[],
            ),
            Ok(None) => self.note(DiskDeed::Missing(file.place), true, file.name, &[], &[]),
            Err(_) => {}
        }
        answer
    }

    // A file is asked before it is opened, since a fifo would not answer, and one that is too long is not read. Where something else
    // stands there, names are asked from then on.
    fn mail_bytes(&mut self, file: Location<'_>) -> io::Result<Option<Vec<u8>>>
        ensures { self.new ≡ self.old }
    {
        let part = self.part_of(file)?;
        match self.size(part.as_str()) {
            Ok(Some(size)) if size > READ_MAX => Ok(Some(unread(self.alloc())?)),
            Ok(Some(size)) => self.disk.read(part.as_str(), size),
            Ok(None) => Ok(None),
            Err(error) => {
                self.has_odd = true;
                Err(error)
            }
        }
    }

    // How many bytes the file or the symlink to a file has that stands in this part of the folder, or none where nothing stands.
    // `InvalidInput`: something else does.
    fn size(&self, part: &str) -> io::Result<Option<u64>> {
        let path = self.disk.at(part)?;
        let path = Path::new(path.as_str());
        if let Some(size) = file_size(self.disk.rt(), path)? {
            return Ok(Some(size));
        }
        if is_something(self.disk.rt(), path)? {
            return Err(io::Error::from(ErrorKind::InvalidInput));
        }
        Ok(None)
    }

    // Looks whether a message stands there. `NotFound`: nothing does. `InvalidInput`: something else does.
    fn check_file(&self, part: &str) -> io::Result<()> {
        match self.size(part)? {
            Some(_) => Ok(()),
            None => Err(io::Error::from(ErrorKind::NotFound)),
        }
    }

    // The part of the folder that a file of `new` or `cur` is.
    fn part_of(&self, file: Location<'_>) -> io::Result<String> {
        let folder = file.place.folder();
        match str::from_utf8(file.name) {
            Ok(name) => Ok(format!(in self.disk.rt().alloc(); "{folder}/{name}")?),
            Err(_) => Err(io::Error::from(ErrorKind::InvalidFilename)),
        }
    }

    /// Makes the copy in `tmp`, without bytes. One that is there loses its bytes.
    pub(crate) fn make_copy(&mut self) -> io::Result<R::File>
        ensures { self.new ≡ noted DiskDeed.CopyMade (is_ok result) [] [] [] self.old }
    {
        let answer = self.new_copy();
        self.note(DiskDeed::CopyMade, answer.is_ok(), &[], &[], &[]);
        answer
    }

    // Where something stands there, an empty file takes its place, whole or not at all: a link is never followed.
    fn new_copy(&self) -> io::Result<R::File> {
        match self.disk.make_file(COPY) {
            Err(error) if error.kind() == ErrorKind::AlreadyExists => {
                let file = self.disk.new_file(NEXT_COPY)?;
                self.put_next_copy()?;
                Ok(file)
            }
            answer => answer,
        }
    }

    // Puts the empty file in the place of what stands there, or takes it away where that cannot be.
    fn put_next_copy(&self) -> io::Result<()> {
        let answer = self.disk.rename(NEXT_COPY, COPY);
        if answer.is_err() {
            self.disk.remove_if_there(NEXT_COPY)?;
        }
        answer
    }

    /// Hands bytes on that follow those of the copy.
    pub(crate) fn grow_copy<W: Write>(&mut self, writer: &mut W, bytes: &[u8]) -> io::Result<()>
        ensures { self.new ≡ noted DiskDeed.CopyGrown (is_ok result) [] bytes.now [] self.old }
    {
        let answer = writer.write_all(bytes);
        self.note(DiskDeed::CopyGrown, answer.is_ok(), &[], bytes, &[]);
        answer
    }

    /// Writes all bytes of the copy, and syncs them.
    pub(crate) fn sync_copy(&mut self, writer: &mut BufWriter<R::File>) -> io::Result<()>
        ensures { self.new ≡ noted DiskDeed.CopySynced (is_ok result) [] [] [] self.old }
    {
        let answer = flush(writer);
        self.note(DiskDeed::CopySynced, answer.is_ok(), &[], &[], &[]);
        answer
    }

    /// Gives the copy a name in `new` or `cur`. A file that has that name goes.
    pub(crate) fn place(&mut self, to: Location<'_>) -> io::Result<()>
        ensures { self.new ≡ noted (DiskDeed.Placed to.entry.place) (is_ok result) to.entry.name.now [] [] self.old }
    {
        let answer = self.rename_copy(to);
        self.note(
            DiskDeed::Placed(to.place),
            answer.is_ok(),
            to.name,
            &[],
            &[],
        );
        answer
    }

    fn rename_copy(&self, to: Location<'_>) -> io::Result<()> {
        self.disk.rename(COPY, self.part_of(to)?.as_str())
    }

    /// Gives a message another name in `new` or `cur`. A file that has that name goes.
    pub(crate) fn rename(&mut self, from: Location<'_>, to: Location<'_>) -> io::Result<()>
        ensures { self.new ≡ noted (DiskDeed.Renamed from.entry.place to.entry.place) (is_ok result)
            from.entry.name.now to.entry.name.now [] self.old }
    {
        let answer = self.rename_mail(from, to);
        self.note(
            DiskDeed::Renamed(from.place, to.place),
            answer.is_ok(),
            from.name,
            to.name,
            &[],
        );
        answer
    }

    fn rename_mail(&self, from: Location<'_>, to: Location<'_>) -> io::Result<()> {
        let to = self.part_of(to)?;
        let from = self.part_of(from)?;
        self.check_file(from.as_str())?;
        self.disk.rename(from.as_str(), to.as_str())
    }

    /// Removes a message.
    pub(crate) fn remove(&mut self, file: Location<'_>) -> io::Result<()>
        ensures { self.new ≡ noted (DiskDeed.Removed file.entry.place) (is_ok result) file.entry.name.now [] [] self.old }
    {
        let answer = self.remove_mail(file);
        self.note(
            DiskDeed::Removed(file.place),
            answer.is_ok(),
            file.name,
            &[],
            &[],
        );
        answer
    }

    fn remove_mail(&self, file: Location<'_>) -> io::Result<()> {
        let part = self.part_of(file)?;
        self.check_file(part.as_str())?;
        self.disk.remove(part.as_str())
    }

    /// Makes the next meta file, without bytes. What stands under its name is removed: a link is never followed.
    pub(crate) fn make_next(&mut self) -> io::Result<R::File>
        ensures { self.new ≡ noted DiskDeed.NextMade (is_ok result) [] [] [] self.old }
    {
        let answer = self.disk.new_file(NEXT_META);
        self.note(DiskDeed::NextMade, answer.is_ok(), &[], &[], &[]);
        answer
    }

    /// Writes bytes to the next meta file.
    pub(crate) fn grow_next(&mut self, file: &mut R::File, bytes: &[u8]) -> io::Result<()>
        ensures { self.new ≡ noted DiskDeed.NextGrown (is_ok result) [] bytes.now [] self.old }
    {
        let answer = file.write_all(bytes);
        self.note(DiskDeed::NextGrown, answer.is_ok(), &[], bytes, &[]);
        answer
    }

    /// Syncs the bytes of the next meta file.
    pub(crate) fn sync_next(&mut self, file: &R::File) -> io::Result<()>
        ensures { self.new ≡ noted DiskDeed.NextSynced (is_ok result) [] [] [] self.old }
    {
        let answer = OpenFile::sync_all(file);
        self.note(DiskDeed::NextSynced, answer.is_ok(), &[], &[], &[]);
        answer
    }

    /// Puts the next meta file in the place of the meta file.
    pub(crate) fn replace_meta(&mut self) -> io::Result<()>
        ensures { self.new ≡ noted DiskDeed.MetaReplaced (is_ok result) [] [] [] self.old }
    {
        let answer = self.disk.rename(NEXT_META, META);
        self.note(DiskDeed::MetaReplaced, answer.is_ok(), &[], &[], &[]);
        answer
    }

    /// Whether names that were changed, by whom it may be, are synced.
    pub(crate) fn is_synced(&self, whose: Whose) -> bool
        ensures own { result ≡ true → is_synced_on_disk self.now ≡ true }
        ensures all { result ≡ true → whose ≡ Whose.All → is_settled_on_disk self.now ≡ true }
    {
        match whose {
            Whose::Own => self.is_kept,
            Whose::All => self.is_kept && self.is_settled,
        }
    }

    /// All names are synced, so they need not be until one is changed.
    pub(crate) fn keep_synced(&mut self)
        requires synced { is_synced_on_disk self.old ≡ true }
        requires settled { is_settled_on_disk self.old ≡ true }
        ensures { self.new ≡ self.old }
    {
        self.is_kept = true;
        self.is_settled = true;
    }

    /// Syncs the names of messages in one of the folders, or that of the meta file.
    pub(crate) fn sync_names(&mut self, names: NameSync) -> io::Result<()>
        ensures { self.new ≡ noted (DiskDeed.Synced names) (is_ok result) [] [] [] self.old }
    {
        let answer = match names {
            NameSync::In(place) => self.disk.sync_names_in(place.folder()),
            NameSync::Whole => self.disk.sync_names(),
        };
        self.note(DiskDeed::Synced(names), answer.is_ok(), &[], &[], &[]);
        answer
    }
}

impl<R: Files + Clock + AllocGlobal + Clone + Drop> RecordedDisk<R> {
    /// When names in `new` and `cur` changed last: an answer of which nothing is said.
    pub(crate) fn changes(&self) -> io::Result<Changes> {
        Changes::of(&self.disk)
    }
}

/// Whether a call of the system changes a name that is synced later.
fn changes_names(deed: DiskDeed) -> bool
    ensures { result ≡ changes_names_of deed }
{
    matches!(
        deed,
        DiskDeed::Placed(_)
            | DiskDeed::Renamed(_, _)
            | DiskDeed::Removed(_)
            | DiskDeed::MetaReplaced
    )
}

/// Writes what is left in the buffer of a file, and syncs its bytes.
fn flush<F: OpenFile + Write + Drop>(writer: &mut BufWriter<F>) -> io::Result<()> {
    writer.flush()?;
    OpenFile::sync_all(writer.get_ref())
}

/// What stands for the bytes of a message that is too long to be read: no message with a NUL is fit to be copied.
fn unread(alloc: Global) -> Result<Vec<u8>, AllocError>
    ensures { IfOk result (λ bytes. bytes.items ≡ 0 ∷ []) }
{
    vec![in alloc; 0; 1]
}
