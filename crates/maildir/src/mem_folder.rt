//! A folder in memory, whose calls stop where a schedule says so.

ghost use Rattle.std.specs.Prelude.{◌≡◌, ◌↔◌, ◌<◌, ◌^◌, true, map, IfOk, IsErrOf, OnOk, OnErr, None, false, is_some};
ghost use Rattle.std.specs.List.{list_any};
ghost use Rattle.std.specs.Option.{option_map};
ghost use Rattle.mailcore.specs.CopyPieces.{text_left};
ghost use Rattle.maildir.specs.FileLists.{files_left};
ghost use Rattle.maildir.specs.Folders.{name_of_file, is_there, renamed, bytes_of, text_of};

use crate::file_list::FileList;
use crate::folder::{File, FileName, Folder, Location, Origin, Place, Source};
use crate::mem_files::MemFiles;
use device::DeviceFault;
use device::history::History;
use device::schedule::{CallStop, Moment, Scheduled};
use device::whose::Whose;
use mailcore::copy_pieces::CopyPieces;
use mailcore::octets::Octets;
use std::alloc::{AllocError, Global};

/// A call of a folder that a schedule can stop. Of `write_tmp` alone there are parts.
#[derive(Clone, Copy, PartialEq, Eq)]
pub enum FolderCall {
    /// `names`
    Names,
    /// `read`
    Read,
    /// `write_tmp`
    WriteTmp,
    /// `rename`
    Rename,
    /// `remove`
    Remove,
    /// `replace_meta`
    ReplaceMeta,
    /// `sync`
    Sync,
}

/// A folder in memory.
#[derive(Drop)]
pub struct MemFolder {
    alloc: Global,
    is_there: bool,
    files: MemFiles,
    copy: Option<Octets>,
    meta: Option<Octets>,
    /// Whether nothing was renamed, removed or replaced since the last sync.
    is_synced: bool,
    // An item for each file that was asked for.
    reads: History<()>,
    stopping: Scheduled<FolderCall>,
}

impl MemFolder {
    ghost use Rattle.mailcore.specs.Content.{mark_of};
    ghost use Rattle.mailcore.specs.Visitors.{AreOctets, IsForeign, Visitors};
    ghost use Rattle.device.specs.Calls.{Read};
    ghost use Rattle.maildir.specs.Folders.{Lists, is_at, listed, name_at, removed_file, renamed_file, with_meta};
    ghost use Rattle.maildir.specs.Gains.{Adds, Gains};
    ghost use Rattle.maildir.specs.MemFolders.{empty, hidden, seen_of, stored_in, with_arrival, with_file};
    ghost use Rattle.maildir.specs.Names.{is_waiting};

    /// A folder that is there, without a file and without a meta file, whose calls stop as the schedule says.
    pub fn new(alloc: Global, schedule: Vec<CallStop<FolderCall>>) -> Self
        ensures { seen_of result ≡ record { stored = empty; is_broken = false; stops = 0 } }
    {
        MemFolder {
            alloc,
            is_there: true,
            files: MemFiles::new(alloc),
            copy: None,
            meta: None,
            is_synced: true,
            reads: History::new(),
            stopping: Scheduled::new(schedule),
        }
    }

    /// Puts a file there, in place of one that has its place and name.
    ///
    /// `AllocError`: memory ran out, and the files are as before.
    pub fn put(&mut self, file: File) -> Result<(), AllocError>
        ensures ok { OnOk result (seen_of self.new ≡ record (seen_of self.old) { stored = with_file file (stored_in self.old) }) }
        ensures err { OnErr result (seen_of self.new ≡ seen_of self.old) }
        ensures synced { self.new.is_synced ≡ self.old.is_synced }
    {
        let key = self.files.make_room(file.name.as_slice())?;
        self.files.put(key, file);
        Ok(())
    }

    /// Adds a file to `cur`, as another program does. It is no call of the folder: none of the stops meets it.
    ///
    /// `Stopped`: the name is that of a file in `cur`. Beside a fault nothing has changed, and the folder goes on.
    pub fn arrive(&mut self, name: Octets, bytes: Octets) -> Result<(), DeviceFault>
        ensures ok { OnOk result (seen_of self.new
            ≡ record (seen_of self.old) { stored = with_arrival (record { place = Place.Cur; name = name; bytes = bytes }) (stored_in self.old) }) }
        ensures err { OnErr result (seen_of self.new ≡ seen_of self.old) }
        ensures taken { IsErrOf result DeviceFault.Stopped ↔ (list_any (is_at Place.Cur name) (stored_in self.old).files ≡ true) }
        ensures synced { self.new.is_synced ≡ self.old.is_synced }
        ensures gains { (visitors : Visitors) → visitors.alone ≡ false → is_waiting name ≡ true → AreOctets bytes
            → IsForeign visitors.ours (mark_of bytes) → Gains visitors (stored_in self.old) (stored_in self.new) }
        ensures adds { (visitors : Visitors) → visitors.alone ≡ false → is_waiting name ≡ true → AreOctets bytes
            → IsForeign visitors.ours (mark_of bytes) → OnOk result (Adds visitors (stored_in self.old) (stored_in self.new)) }
    {
        let file = File {
            place: Place::Cur,
            name,
            bytes,
        };
        if self.has_file(&file) {
            return Err(DeviceFault::Stopped);
        }
        Ok(self.put(file)?)
    }

    // Gives a file another name where it stands, as another program does. It is no call of the folder: none of the stops meets it. A file
    // that has that name already goes.
    //
    // `AllocError`: memory ran out, and the files are as before.
    pub(crate) fn rename_by_others(
        &mut self,
        file: Location<'_>,
        name: &[u8],
    ) -> Result<(), AllocError>
        ensures ok { OnOk result (seen_of self.new ≡ record (seen_of self.old) {
          stored
              = renamed_file (name_at file.entry) (record { place = file.entry.place; name = name.now }) (stored_in self.old);
        }) }
        ensures err { OnErr result (seen_of self.new ≡ seen_of self.old) }
        ensures synced { self.new.is_synced ≡ self.old.is_synced }
    {
        let key = self.files.make_room(name)?;
        let to = FileName {
            place: file.place,
            name: copy_of(self.alloc, name)?,
        };
        self.files.rename(file, key, to);
        Ok(())
    }

    // Removes a file, as another program does. It is no call of the folder: none of the stops meets it.
    pub(crate) fn remove_by_others(&mut self, file: Location<'_>)
        ensures seen { seen_of self.new ≡ record (seen_of self.old) { stored = removed_file (name_at file.entry) (stored_in self.old) } }
        ensures synced { self.new.is_synced ≡ self.old.is_synced }
    {
        self.files.remove(file);
    }

    // Whether a file stands at the place and under the name of this one.
    fn has_file(&self, file: &File) -> bool
        ensures { result ≡ list_any (is_at file.now.place file.now.name) (stored_in self.now).files }
    {
        self.files.has(Location {
            place: file.place,
            name: file.name.as_slice(),
        })
    }

    /// Puts a meta file there.
    pub fn put_meta(&mut self, text: Octets)
        ensures { seen_of self.new ≡ record (seen_of self.old) { stored = with_meta text (stored_in self.old) } }
    {
        self.meta = Some(text);
    }

    /// Takes the three folders away, as far as calls see.
    pub fn hide(&mut self)
        ensures { seen_of self.new ≡ record (seen_of self.old) { stored = hidden (stored_in self.old) } }
    {
        self.is_there = false;
    }

    /// Its files in `new` and `cur`.
    pub fn files(&self) -> FileList<'_>
        ensures { files_left result ≡ (stored_in self.now).files }
    {
        self.files.list()
    }

    /// The text of its meta file.
    pub fn meta(&self) -> Option<&[u8]>
        ensures { option_map (λ text. text.now) result ≡ (stored_in self.now).meta }
    {
        self.meta.as_ref().map(|text| text.as_slice())
    }

    /// How many calls have stopped, up to the top of its type.
    pub fn stops(&self) -> usize
        ensures { (seen_of self.now).stops < 2 ^ 64 → result ≡ (seen_of self.now).stops }
    {
        self.stopping.stop_count()
    }

    // No memory is left for a call of it.
    pub(crate) fn lack(&mut self) -> DeviceFault
        ensures fault { result ≡ DeviceFault.NoMemory }
        ensures seen { seen_of self.new ≡ record (seen_of self.old) { is_broken = true } }
    {
        self.stopping.lack()
    }

    // The names of its files, or none where the three folders are not there.
    pub(crate) fn read_names(&mut self) -> Result<Option<Vec<FileName>>, DeviceFault>
        ensures { Read (Unit {0}) (λ names. Lists (listed names)) (seen_of self.old) (seen_of self.new) result }
    {
        if self.stopping.begin(FolderCall::Names)?.is_some() {
            return Err(self.stopping.stop());
        }
        if !self.is_there {
            return Ok(None);
        }
        match names_of(self.alloc, self.files()) {
            Ok(names) => Ok(Some(names)),
            Err(_) => Err(self.stopping.lack()),
        }
    }

    // The bytes of a file, or none where it is missing.
    fn bytes_of(&self, file: Source<'_>) -> Result<Option<Vec<u8>>, AllocError>
        ensures { IfOk result (λ bytes. text_of bytes ≡ bytes_of file.entry (stored_in self.now)) }
    {
        let found = match file {
            Source::Meta => self.meta(),
            Source::Mail(file) => self.files.bytes_at(file),
        };
        match found {
            Some(bytes) => Ok(Some(Vec::from_slice(self.alloc, bytes)?)),
            None => Ok(None),
        }
    }

    // Whether there is such a file.
    fn has(&self, from: Origin<'_>) -> bool
        ensures { result ≡ is_there from.entry (stored_in self.now) }
    {
        match from {
            Origin::Tmp => self.copy.is_some(),
            Origin::Delivered(file) => self.files.has(file),
        }
    }

    // Gives a file that is there its new name; memory is taken first.
    fn move_file(&mut self, from: Origin<'_>, to: Location<'_>) -> Result<(), AllocError>
        requires { is_there from (stored_in self.old) ≡ true }
        ensures ok { OnOk result (stored_in self.new ≡ renamed from.entry to.entry (stored_in self.old)) }
        ensures err { OnErr result (stored_in self.new ≡ stored_in self.old) }
        ensures stopping { (self.new.stopping ≡ self.old.stopping) × (self.new.is_synced ≡ self.old.is_synced) }
    {
        match from {
            Origin::Tmp => self.place_copy(to),
            Origin::Delivered(file) => {
                let name = copy_of(self.alloc, to.name)?;
                let key = self.files.make_room(to.name)?;
                let to = FileName {
                    place: to.place,
                    name,
                };
                self.files.rename(file, key, to);
                Ok(())
            }
        }
    }

    // Puts the copy in `tmp` into `new` or `cur`.
    fn place_copy(&mut self, to: Location<'_>) -> Result<(), AllocError>
        requires { is_some self.old.copy ≡ true }
        ensures ok { OnOk result (stored_in self.new ≡ renamed Origin.Tmp to.entry (stored_in self.old)) }
        ensures err { OnErr result (stored_in self.new ≡ stored_in self.old) }
        ensures stopping { (self.new.stopping ≡ self.old.stopping) × (self.new.is_synced ≡ self.old.is_synced) }
    {
        let name = copy_of(self.alloc, to.name)?;
        let key = self.files.make_room(to.name)?;
        let Some(bytes) = self.copy.take() else {
            unreachable!()
        };
        let file = File {
            place: to.place,
            name,
            bytes,
        };
        self.files.put(key, file);
        Ok(())
    }
}

impl Folder for MemFolder {
    ghost use Rattle.std.specs.Prelude.{true, length};
    ghost use Rattle.maildir.specs.Gains.{nobody};
    ghost use Rattle.maildir.specs.MemFolders.{seen_of};

    ghost honest = { λ _. Unit {0} };

    ghost visitors = { nobody };

    ghost seen = { seen_of };

    ghost is_synced = { λ folder. folder.is_synced };

    ghost is_settled = { λ folder. folder.is_synced };

    ghost reads = { λ folder. length folder.reads.items };

    fn names(&mut self) -> Result<Option<Vec<FileName>>, DeviceFault> {
        self.read_names()
    }

    fn read(&mut self, file: Source<'_>) -> Result<Option<Vec<u8>>, DeviceFault> {
        self.reads = self.reads.and(&());
        if self.stopping.begin(FolderCall::Read)?.is_some() {
            return Err(self.stopping.stop());
        }
        match self.bytes_of(file) {
            Ok(bytes) => Ok(bytes),
            Err(_) => Err(self.stopping.lack()),
        }
    }

    fn write_tmp(&mut self, copy: CopyPieces<'_>) -> Result<(), DeviceFault> {
        let moment = self.stopping.begin(FolderCall::WriteTmp)?;
        if moment == Some(Moment::Before) {
            return Err(self.stopping.stop());
        }
        let Ok(mut text) = text_of(self.alloc, copy) else {
            return Err(self.stopping.lack());
        };
        if let Some(Moment::Part(count)) = moment {
            text.truncate(count);
        }
        self.copy = Some(Octets::from_vec(text));
        if moment.is_some() {
            return Err(self.stopping.stop());
        }
        Ok(())
    }

    fn rename(&mut self, from: Origin<'_>, to: Location<'_>) -> Result<(), DeviceFault> {
        let moment = self.stopping.begin(FolderCall::Rename)?;
        if stops_before(moment) || !self.has(from) {
            return Err(self.stopping.stop());
        }
        self.is_synced = false;
        if self.move_file(from, to).is_err() {
            return Err(self.stopping.lack());
        }
        if moment.is_some() {
            return Err(self.stopping.stop());
        }
        Ok(())
    }

    fn remove(&mut self, file: Location<'_>) -> Result<(), DeviceFault> {
        let moment = self.stopping.begin(FolderCall::Remove)?;
        if stops_before(moment) || !self.files.has(file) {
            return Err(self.stopping.stop());
        }
        self.is_synced = false;
        self.files.remove(file);
        if moment.is_some() {
            return Err(self.stopping.stop());
        }
        Ok(())
    }

    fn replace_meta(&mut self, text: &[u8]) -> Result<(), DeviceFault> {
        let moment = self.stopping.begin(FolderCall::ReplaceMeta)?;
        if stops_before(moment) {
            return Err(self.stopping.stop());
        }
        let Ok(copy) = copy_of(self.alloc, text) else {
            return Err(self.stopping.lack());
        };
        self.is_synced = false;
        self.meta = Some(copy);
        if moment.is_some() {
            return Err(self.stopping.stop());
        }
        Ok(())
    }

    fn sync(&mut self, _whose: Whose) -> Result<(), DeviceFault> {
        if self.stopping.begin(FolderCall::Sync)?.is_some() {
            return Err(self.stopping.stop());
        }
        self.is_synced = true;
        Ok(())
    }

    fn reopen(&mut self) {
        self.stopping.reopen();
    }
}

// Whether a call that is whole or not at all has no effect.
fn stops_before(moment: Option<Moment>) -> bool
    ensures none { moment ≡ None → result ≡ false }
{
    matches!(moment, Some(Moment::Before | Moment::Part(_)))
}

// The names of files.
fn names_of(alloc: Global, files: FileList<'_>) -> Result<Vec<FileName>, AllocError>
    ensures { IfOk result (λ names. names.items ≡ map name_of_file (files_left files.entry)) }
{
    let mut names = Vec::with_capacity(alloc, files.len())?;
    for file in files {
        names.push(FileName {
            place: file.place,
            name: copy_of(alloc, file.name.as_slice())?,
        })?;
    }
    Ok(names)
}

fn text_of(alloc: Global, copy: CopyPieces<'_>) -> Result<Vec<u8>, AllocError>
    ensures { IfOk result (λ text. text.items ≡ text_left copy.entry) }
{
    let mut text = Vec::new(alloc);
    copy.append_to(&mut text)?;
    Ok(text)
}

fn copy_of(alloc: Global, bytes: &[u8]) -> Result<Octets, AllocError>
    ensures { IfOk result (λ copy. copy ≡ bytes.now) }
{
    Ok(Octets::from_vec(Vec::from_slice(alloc, bytes)?))
}
