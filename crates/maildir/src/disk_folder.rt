//! A Maildir folder on a disk.

ghost use Rattle.std.specs.Prelude.{◌≡◌, ◌<◌, ◌^◌, ◌⊎◌, [], true, false, None, IfOk, OnOk, OnErr};
ghost use Rattle.device.specs.Conditions.{disk_at};
ghost use Rattle.mailcore.specs.CopyPieces.{text_left};
ghost use Rattle.maildir.specs.DiskEvents.{Standing, with_copied};
ghost use Rattle.maildir.specs.DiskFolders.{CopyBegins, Gained, KeptWord, asked_on_disk, is_settled_on_disk, is_synced_on_disk, standing};
ghost use Rattle.maildir.specs.Folders.{Lists, Renames, bytes_of, listed, text_of, with_meta};

use crate::disk_call::NameSync;
use crate::disk_stop::{DiskStop, Part};
use crate::folder::{FileName, Folder, Location, Origin, Place, Source};
use crate::found_names::FoundNames;
use crate::recorded_disk::{COPY, META, NEXT_META, RecordedDisk};
use crate::sure_names::sure_names;
use device::DeviceFault;
use device::trouble::Trouble;
use device::whose::Whose;
use mailcore::copy_pieces::CopyPieces;
use std::alloc::AllocError;
use std::io;
use std::io::{BufWriter, ErrorKind, Write};
use std::marker::Model;
use std::rt::{Clock, Files};

/// How many bytes of a copy are gathered before they are written.
const COPY_BUFFER: usize = 65_536;

/// A Maildir folder on a disk. A call stops where the system fails, and at a message whose name is no UTF-8.
///
/// Messages are files and symlinks to files; what else stands in `new` and `cur` under a name without a UID is left alone, and so is a
/// file that waits for a UID and can get none. Names with a UID are listed as they stand, since synchronisers alone give them, and
/// to files. A call that finds something else under such a name stops; where it was to be read, it is left alone from then on. Names
/// are listed so that other programs that rename files do not shorten the list. A file of more than 64 MiB is never read: it stands as a
/// single NUL, so it is not fit to be copied, bears no mark, and no part of it is copied. A copy and a meta file are written anew and
/// synced before they get their names; the names themselves are synced by `sync` alone.
///
/// Each call of the system is noted with its answer, and what the folder stores is read off this record. Whether the answers are
/// those of a folder to which others only add files no proof can say: that is a premise (`honest`) of what is proved.
#[derive(Drop)]
pub struct DiskFolder<R: Files + AllocGlobal + Clone + Drop> {
    disk: RecordedDisk<R>,
    /// The files that were left out when the names were listed last, since they cannot get a UID.
    left_out: Vec<FileName>,
    /// The files whose names were no Maildir names when the names were listed last.
    unspelled: Vec<FileName>,
    /// Where a call, or the mailbox over the folder, stopped first since it was opened.
    stop: Option<DiskStop>,
}

impl<R: Files + AllocGlobal + Clone + Drop> Model for DiskFolder<R> {
    ghost use Rattle.maildir.specs.DiskFolders.{FolderParts};

    ghost Value = { FolderParts };

    ghost view = { λ folder. folder.disk };
}

impl<R: Files + AllocGlobal + Clone + Drop> DiskFolder<R> {
    /// The folder at this path, which is looked at by the first call.
    pub fn new(rt: R, path: &str) -> Result<Self, AllocError>
        ensures disk { IfOk result (λ folder. folder.disk ≡ disk_at path.now) }
        ensures honest { IfOk result (λ folder. KeptWord folder) }
    {
        let left_out = Vec::new(rt.alloc());
        let unspelled = Vec::new(rt.alloc());
        Ok(DiskFolder {
            disk: RecordedDisk::new(rt, path)?,
            left_out,
            unspelled,
            stop: None,
        })
    }

    /// Makes the folder at this path with `cur`, `new` and `tmp`, as far as they are not there.
    ///
    /// `Stopped`: the system fails.
    pub fn create(rt: R, path: &str) -> Result<Self, DeviceFault>
        ensures disk { IfOk result (λ folder. folder.disk ≡ disk_at path.now) }
        ensures honest { IfOk result (λ folder. KeptWord folder) }
    {
        let mut folder = DiskFolder::new(rt, path)?;
        let answer = folder.disk.make();
        folder.disk.report(answer)?;
        Ok(folder)
    }

    /// How many calls have stopped, up to the top of its type.
    pub fn stops(&self) -> usize
        ensures { self.now.disk.condition.stops < 2 ^ 64 → result ≡ self.now.disk.condition.stops }
    {
        self.disk.stops()
    }

    /// Where a call stopped since the folder was opened, and what the system said; or a message that was to be read and was gone, over
    /// which the mailbox in the folder stops. None: nothing has stopped, or memory ran out.
    pub fn stop(&self) -> Option<&DiskStop> {
        self.stop.as_ref()
    }

    /// The files that cannot get a UID, and were left out when the names were listed last.
    pub fn left_out(&self) -> &[FileName] {
        self.left_out.as_slice()
    }

    /// The files whose names were no Maildir names when the names were listed last: they are no messages, and are left alone. Names that
    /// begin with a dot are not among them.
    pub fn unspelled(&self) -> &[FileName] {
        self.unspelled.as_slice()
    }

    // Writes a copy through one buffer, and syncs its bytes.
    fn write_copy(&mut self, copy: CopyPieces<'_>) -> io::Result<()>
        ensures disk { self.new.disk ≡ self.old.disk }
        ensures was_honest { KeptWord self.new → KeptWord self.old }
        ensures ok { OnOk result (standing self.new ≡ with_copied (text_left copy.entry) (standing self.old)) }
        ensures err { OnErr result ((standing self.new ≡ standing self.old)
            ⊎ CopyBegins (text_left copy.entry) (standing self.old) (standing self.new)) }
    {
        let file = self.disk.make_copy()?;
        let mut writer = BufWriter::with_capacity(self.disk.alloc(), COPY_BUFFER, file)?;
        write_pieces(&mut self.disk, &mut writer, copy)?;
        self.disk.sync_copy(&mut writer)
    }

    // Writes a new meta file, syncs it, and puts it in the place of the old one.
    fn write_meta(&mut self, text: &[u8]) -> io::Result<()>
        ensures disk { self.new.disk ≡ self.old.disk }
        ensures was_honest { KeptWord self.new → KeptWord self.old }
        ensures ok { OnOk result ((standing self.new).stored ≡ with_meta text.now (standing self.old).stored) }
        ensures err { OnErr result (((standing self.new).stored ≡ (standing self.old).stored)
            ⊎ ((standing self.new).stored ≡ with_meta text.now (standing self.old).stored)) }
        ensures synced { OnOk result (is_synced_on_disk self.new ≡ false) }
    {
        let mut file = self.disk.make_next()?;
        self.disk.grow_next(&mut file, text)?;
        self.disk.sync_next(&file)?;
        self.disk.replace_meta()
    }

    // Notes that a call stopped there, if one did.
    fn note(&mut self, part: Part)
        ensures { self.new ≡ self.old }
    {
        if let Some(trouble) = self.disk.trouble() {
            self.note_stop(part, trouble);
        }
    }

    // The same of a message.
    fn note_mail(&mut self, file: Location<'_>)
        ensures { self.new ≡ self.old }
    {
        if let Some(trouble) = self.disk.trouble() {
            let part = Part::of_mail(self.disk.alloc(), file);
            self.note_stop(part, trouble);
        }
    }

    // Notes that a message was to be read and is gone.
    fn note_gone(&mut self, file: Location<'_>)
        ensures { self.new ≡ self.old }
    {
        let part = Part::of_mail(self.disk.alloc(), file);
        self.note_stop(part, Trouble::Missing);
    }

    // Notes where something stopped, if nothing has stopped before.
    fn note_stop(&mut self, part: Part, trouble: Trouble)
        ensures { self.new ≡ self.old }
    {
        if self.stop.is_none() {
            self.stop = Some(DiskStop { part, trouble });
        }
    }

    // Keeps what was found beside the names, and gives these.
    fn keep(&mut self, found: FoundNames) -> io::Result<Vec<FileName>>
        ensures same { self.new ≡ self.old }
        ensures all { IfOk result (λ names. (found.unreached ≡ None) × (names.items ≡ found.names.items)) }
    {
        let FoundNames {
            names,
            left_out,
            unspelled,
            unreached,
        } = found;
        self.left_out = left_out;
        self.unspelled = unspelled;
        match unreached {
            Some(file) => {
                self.note_stop(Part::Mail(file), Trouble::BadName);
                Err(io::Error::from(ErrorKind::InvalidFilename))
            }
            None => Ok(names),
        }
    }

    // The bytes of a file, or none where it is missing.
    fn bytes_of(&mut self, file: Source<'_>) -> io::Result<Option<Vec<u8>>>
        ensures disk { self.new.disk ≡ self.old.disk }
        ensures was_honest { KeptWord self.new → KeptWord self.old }
        ensures same { standing self.new ≡ standing self.old }
        ensures gives { IfOk result (λ bytes. KeptWord self.new → text_of bytes ≡ bytes_of file.entry (standing self.old).stored) }
        ensures asked { asked_on_disk self.new ≡ asked_on_disk self.old }
    {
        match file {
            Source::Meta => self.disk.read_meta(),
            Source::Mail(file) => self.disk.read_mail(file),
        }
    }

    // Gives the copy or a message its name.
    fn give_name(&mut self, from: Origin<'_>, to: Location<'_>) -> io::Result<()>
        ensures disk { self.new.disk ≡ self.old.disk }
        ensures was_honest { KeptWord self.new → KeptWord self.old }
        ensures ok { OnOk result (KeptWord self.new → Renames from.entry to.entry (standing self.old).stored (standing self.new).stored) }
        ensures err { OnErr result (((standing self.new).stored ≡ (standing self.old).stored)
            ⊎ Renames from.entry to.entry (standing self.old).stored (standing self.new).stored) }
        ensures synced { OnOk result (is_synced_on_disk self.new ≡ false) }
    {
        match from {
            Origin::Tmp => self.disk.place(to),
            Origin::Delivered(file) => self.disk.rename(file, to),
        }
    }

    // Syncs the names of messages and of the meta file, where they are not synced.
    fn sync_names(&mut self, whose: Whose) -> io::Result<()>
        ensures disk { self.new.disk ≡ self.old.disk }
        ensures was_honest { KeptWord self.new → KeptWord self.old }
        ensures same { standing self.new ≡ standing self.old }
        ensures synced { OnOk result (is_synced_on_disk self.new ≡ true) }
        ensures settled { OnOk result (whose ≡ Whose.All → is_settled_on_disk self.new ≡ true) }
    {
        if self.disk.is_synced(whose) {
            return Ok(());
        }
        self.sync_all_names()
    }

    // Syncs the names of messages and of the meta file.
    fn sync_all_names(&mut self) -> io::Result<()>
        ensures disk { self.new.disk ≡ self.old.disk }
        ensures was_honest { KeptWord self.new → KeptWord self.old }
        ensures same { standing self.new ≡ standing self.old }
        ensures synced { OnOk result (is_synced_on_disk self.new ≡ true) }
        ensures settled { OnOk result (is_settled_on_disk self.new ≡ true) }
    {
        self.disk.sync_names(NameSync::In(Place::Cur))?;
        self.disk.sync_names(NameSync::In(Place::New))?;
        self.disk.sync_names(NameSync::Whole)?;
        self.disk.keep_synced();
        Ok(())
    }
}

impl<R: Files + Clock + AllocGlobal + Clone + Drop> DiskFolder<R> {
    // The names in both folders, or none where a folder is missing.
    #[tactic(auto, using(crate::proofs::DiskListing::gained_none))]
    fn listed(&mut self) -> io::Result<Option<Vec<FileName>>>
        ensures gained { Gained self.old self.new }
        ensures lists { IfOk result (λ names. KeptWord self.new → Lists (listed names) (standing self.new).stored) }
    {
        if !self.disk.is_there()? {
            return Ok(None);
        }
        let found = sure_names(&mut self.disk)?;
        Ok(Some(self.keep(found)?))
    }
}

impl<R: Files + Clock + AllocGlobal + Clone + Drop> Folder for DiskFolder<R> {
    ghost use Rattle.maildir.specs.DiskFolders.{KeptWord, asked_on_disk, is_settled_on_disk, is_synced_on_disk, seen_on_disk};
    ghost use Rattle.maildir.specs.Gains.{others};

    ghost honest = { KeptWord };

    ghost visitors = { others };

    ghost seen = { seen_on_disk };

    ghost is_synced = { is_synced_on_disk };

    ghost is_settled = { is_settled_on_disk };

    ghost reads = { asked_on_disk };

    fn names(&mut self) -> Result<Option<Vec<FileName>>, DeviceFault> {
        self.disk.check()?;
        let answer = self.listed();
        let answer = self.disk.report(answer);
        self.note(Part::Whole);
        answer
    }

    fn read(&mut self, file: Source<'_>) -> Result<Option<Vec<u8>>, DeviceFault> {
        self.disk.ask();
        self.disk.check()?;
        let answer = self.bytes_of(file);
        let answer = self.disk.report(answer);
        match file {
            Source::Meta => self.note(Part::Own(META)),
            Source::Mail(file) if matches!(answer, Ok(None)) => self.note_gone(file),
            Source::Mail(file) => self.note_mail(file),
        }
        answer
    }

    fn write_tmp(&mut self, copy: CopyPieces<'_>) -> Result<(), DeviceFault> {
        self.disk.check()?;
        let answer = self.write_copy(copy);
        let answer = self.disk.report(answer);
        self.note(Part::Own(COPY));
        answer
    }

    fn rename(&mut self, from: Origin<'_>, to: Location<'_>) -> Result<(), DeviceFault> {
        self.disk.check()?;
        let answer = self.give_name(from, to);
        let answer = self.disk.report(answer);
        match from {
            Origin::Tmp => self.note_mail(to),
            Origin::Delivered(file) => self.note_mail(file),
        }
        answer
    }

    fn remove(&mut self, file: Location<'_>) -> Result<(), DeviceFault> {
        self.disk.check()?;
        let answer = self.disk.remove(file);
        let answer = self.disk.report(answer);
        self.note_mail(file);
        answer
    }

    fn replace_meta(&mut self, text: &[u8]) -> Result<(), DeviceFault> {
        self.disk.check()?;
        let answer = self.write_meta(text);
        let answer = self.disk.report(answer);
        self.note(Part::Own(NEXT_META));
        answer
    }

    fn sync(&mut self, whose: Whose) -> Result<(), DeviceFault> {
        self.disk.check()?;
        let answer = self.sync_names(whose);
        let answer = self.disk.report(answer);
        self.note(Part::Whole);
        answer
    }

    fn reopen(&mut self) {
        self.stop = None;
        self.disk.reopen();
    }
}

/// Hands the text of a copy on.
fn write_pieces<R: Files + AllocGlobal + Clone + Drop, W: Write>(
    disk: &mut RecordedDisk<R>,
    writer: &mut W,
    copy: CopyPieces<'_>,
) -> io::Result<()>
    ensures disk { disk.new.disk ≡ disk.old.disk }
    ensures was_honest { KeptWord disk.new → KeptWord disk.old }
    ensures ok { OnOk result ((s : Standing) → standing disk.old ≡ with_copied [] s → standing disk.new ≡ with_copied (text_left copy.entry) s) }
    ensures err { OnErr result ((s : Standing) → standing disk.old ≡ with_copied [] s → CopyBegins (text_left copy.entry) s (standing disk.new)) }
{
    for piece in copy {
        disk.grow_copy(writer, piece)?;
    }
    Ok(())
}
