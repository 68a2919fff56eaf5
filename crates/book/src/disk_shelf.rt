//! A shelf on a disk.

ghost use Rattle.std.specs.Prelude.{◌≡◌, ◌<◌, ◌^◌, IfOk};
ghost use Rattle.device.specs.Conditions.{disk_at};
ghost use Rattle.device.specs.OwnFiles.{KeptWord, NoFile, Touches};
ghost use Rattle.book.specs.DiskShelves.{file_name, files_on};
ghost use Rattle.book.specs.Shelves.{Gives};

use crate::shelf::{Shelf, ShelfFile};
use device::DeviceFault;
use device::own_files::OwnFiles;
use device::trouble::Trouble;
use std::alloc::AllocError;
use std::io;
use std::marker::Model;
use std::rt::Files;

/// The file that keeps the state.
const STATE: &str = ".mbsyncstate";

/// The file that keeps the journal.
const JOURNAL: &str = ".mbsyncstate.journal";

/// What a file is written as before it takes the place of the state or the journal.
pub const NEXT: &str = ".mbsyncstate.new";

/// Where a call on a shelf stopped, and what the system said.
#[derive(Clone, Copy)]
pub struct ShelfStop {
    /// The name of the file.
    pub file: &'static str,
    /// What the system said.
    pub trouble: Trouble,
}

/// The files `.mbsyncstate` and `.mbsyncstate.journal` of a folder. A call stops where the system fails.
///
/// What has to outlive a loss of power is synced to the disk, and no more: the first bytes of a file that is to last, with its name,
/// since a plan has to be there before its first step; a file that is replaced before it is renamed, and its name after that; and the
/// journal with its name where one is read, since the call that wrote it may have stopped before it was synced. A plan without steps,
/// further bytes of a journal and the removal of a file may be lost: docs/DECISIONS.md says what follows. A file that is replaced is
/// written anew as `.mbsyncstate.new` and renamed over the old one, so that it is whole or as before.
///
/// Each call of the system is noted with its answer, and what the shelf stores is read off this record. Whether the answers are
/// those of a file system no proof can say: that is a premise (`honest`) of what is proved.
#[derive(Drop)]
pub struct DiskShelf<R: Files + AllocGlobal + Clone + Drop> {
    disk: OwnFiles<R>,
    /// Where a call stopped since the shelf was opened.
    stop: Option<ShelfStop>,
}

impl<R: Files + AllocGlobal + Clone + Drop> Model for DiskShelf<R> {
    ghost use Rattle.device.specs.OwnFiles.{FilesParts};

    ghost Value = { FilesParts };

    ghost view = { λ shelf. shelf.disk };
}

impl<R: Files + AllocGlobal + Clone + Drop> DiskShelf<R> {
    /// The shelf in the folder at this path, which is there; it is looked at by the first call.
    pub fn new(rt: R, path: &str) -> Result<Self, AllocError>
        ensures disk { IfOk result (λ shelf. shelf.disk ≡ disk_at path.now) }
        ensures honest { IfOk result (λ shelf. ⟦<DiskShelf<R> as Shelf>⟧.honest shelf) }
    {
        Ok(DiskShelf {
            disk: OwnFiles::new(rt, path)?,
            stop: None,
        })
    }

    /// How many calls have stopped, up to the top of its type.
    pub fn stops(&self) -> usize
        ensures { self.now.disk.condition.stops < 2 ^ 64 → result ≡ self.now.disk.condition.stops }
    {
        self.disk.stops()
    }

    /// Where a call stopped since the shelf was opened, and what the system said. None: none has, or memory ran out.
    pub fn stop(&self) -> Option<ShelfStop> {
        self.stop
    }

    // Notes that a call on a file of this name stopped, if one did.
    fn note(&mut self, file: &'static str)
        ensures { self.new ≡ self.old }
    {
        if self.stop.is_none() {
            if let Some(trouble) = self.disk.trouble() {
                self.stop = Some(ShelfStop { file, trouble });
            }
        }
    }

    // The bytes of a file. A journal is synced before it is relied on, and with its name that of the state.
    fn bytes_of(&mut self, file: ShelfFile) -> io::Result<Option<Vec<u8>>>
        ensures touches { Touches NoFile self.old self.new }
        ensures gives { IfOk result (λ bytes. KeptWord self.new → Gives file bytes (files_on self.old)) }
    {
        let bytes = self.disk.read(name_of(file))?;
        if file == ShelfFile::Journal && bytes.is_some() {
            self.disk.sync_file(JOURNAL)?;
            self.disk.sync_names()?;
        }
        Ok(bytes)
    }
}

/// The name of a file in the folder of a shelf on a disk.
pub fn name_of(file: ShelfFile) -> &'static str
    ensures { result.now ≡ file_name file }
{
    match file {
        ShelfFile::State => STATE,
        ShelfFile::Journal => JOURNAL,
    }
}

impl<R: Files + AllocGlobal + Clone + Drop> Shelf for DiskShelf<R> {
    ghost use Rattle.device.specs.OwnFiles.{KeptWord};
    ghost use Rattle.book.specs.DiskShelves.{seen_on_disk};

    ghost honest = { KeptWord };

    ghost seen = { seen_on_disk };

    fn read(&mut self, file: ShelfFile) -> Result<Option<Vec<u8>>, DeviceFault> {
        self.disk.check()?;
        let answer = self.bytes_of(file);
        let answer = self.disk.report(answer);
        self.note(name_of(file));
        answer
    }

    fn append(&mut self, file: ShelfFile, bytes: &[u8], lasts: bool) -> Result<(), DeviceFault> {
        self.disk.check()?;
        let answer = self.disk.append(name_of(file), bytes, lasts);
        let answer = self.disk.report(answer);
        self.note(name_of(file));
        answer
    }

    fn replace(&mut self, file: ShelfFile, bytes: &[u8]) -> Result<(), DeviceFault> {
        self.disk.check()?;
        let answer = self.disk.replace(name_of(file), NEXT, bytes);
        let answer = self.disk.report(answer);
        self.note(NEXT);
        answer
    }

    fn remove(&mut self, file: ShelfFile) -> Result<(), DeviceFault> {
        self.disk.check()?;
        let answer = self.disk.remove(name_of(file));
        let answer = self.disk.report(answer);
        self.note(name_of(file));
        answer
    }

    fn reopen(&mut self) {
        self.stop = None;
        self.disk.reopen();
    }
}
