//! A folder in memory, where other programs add, rename and remove files.

ghost use Rattle.std.specs.Prelude.{◌≡◌, true, false, IfErr, IfOk, OnErr, OnOk};
ghost use Rattle.maildir.specs.FileActs.{CallBegins};
ghost use Rattle.maildir.specs.MemFolders.{seen_of};

use crate::file_acts::FileAct;
use crate::folder::{FileName, Folder, Location, Origin, Source};
use crate::mem_folder::{FolderCall, MemFolder};
use crate::visited_folder::VisitedFolder;
use device::DeviceFault;
use device::whose::Whose;
use mailcore::copy_pieces::CopyPieces;
use mailcore::keywords::Keywords;
use mailcore::others::AnyMarks;

/// A folder in memory to which others add files, and where they do things to those of messages: each before its call.
///
/// It is not honest in the sense of `Folder`, whose law speaks of others who only add.
#[derive(Drop)]
pub struct ActedFolder {
    folder: VisitedFolder<AnyMarks>,
    // The flags of a name are by this map.
    keywords: Keywords,
    // What is done, in the order of the lines.
    acts: Vec<FileAct>,
}

impl ActedFolder {
    ghost use Rattle.mailcore.specs.Visitors.{others_but};
    ghost use Rattle.maildir.specs.VisitedFolders.{AddsAlone};

    /// This folder, the map by which the flags of names are known, and what others do there. Of two acts before one call the first is done
    /// first.
    pub fn new(folder: VisitedFolder<AnyMarks>, keywords: Keywords, acts: Vec<FileAct>) -> Self
        ensures folder { result.folder ≡ folder }
        ensures keywords { result.keywords ≡ keywords }
        ensures acts { result.acts ≡ acts }
    {
        ActedFolder {
            folder,
            keywords,
            acts,
        }
    }

    /// The folder with all that has come.
    ///
    /// `NoMemory`: memory ran out.
    pub fn into_folder(self) -> Result<MemFolder, DeviceFault>
        ensures { IfOk result (λ folder. AddsAlone (others_but (λ _. false)) (seen_of self.folder.folder) (seen_of folder)) }
    {
        let ActedFolder { folder, .. } = self;
        folder.into_folder()
    }

    // A call is made, if the folder has not stopped: what others do before it is done.
    fn begin(&mut self, call: FolderCall) -> Result<(), DeviceFault>
        ensures { CallBegins (seen_of self.old.folder.folder) (seen_of self.new.folder.folder) result }
    {
        if self.folder.is_broken() {
            return Ok(());
        }
        act_before(&mut self.folder, &self.keywords, &mut self.acts, call)
    }
}

// What others do before this call is done.
fn act_before(
    folder: &mut VisitedFolder<AnyMarks>,
    keywords: &Keywords,
    acts: &mut [FileAct],
    call: FolderCall,
) -> Result<(), DeviceFault>
    requires whole { (seen_of folder.old.folder).is_broken ≡ false }
    ensures { CallBegins (seen_of folder.old.folder) (seen_of folder.new.folder) result }
{
    for act in acts.iter_mut() {
        if act.is_met(call) {
            folder.act(keywords, act.uid, act.deed)?;
        }
    }
    Ok(())
}

impl Folder for ActedFolder {
    ghost use Rattle.std.specs.Prelude.{length};
    ghost use Rattle.mailcore.specs.Visitors.{others_but};

    ghost honest = { λ _. ⊥ };

    ghost visitors = { others_but (λ _. true) };

    ghost seen = { λ acted. seen_of acted.folder.folder };

    ghost is_synced = { λ acted. acted.folder.folder.is_synced };

    ghost is_settled = { λ acted. acted.folder.folder.is_synced };

    ghost reads = { λ acted. length acted.folder.folder.reads.items };

    fn names(&mut self) -> Result<Option<Vec<FileName>>, DeviceFault> {
        self.begin(FolderCall::Names)?;
        self.folder.names()
    }

    fn read(&mut self, file: Source<'_>) -> Result<Option<Vec<u8>>, DeviceFault> {
        self.begin(FolderCall::Read)?;
        self.folder.read(file)
    }

    fn write_tmp(&mut self, copy: CopyPieces<'_>) -> Result<(), DeviceFault> {
        self.begin(FolderCall::WriteTmp)?;
        self.folder.write_tmp(copy)
    }

    fn rename(&mut self, from: Origin<'_>, to: Location<'_>) -> Result<(), DeviceFault> {
        self.begin(FolderCall::Rename)?;
        self.folder.rename(from, to)
    }

    fn remove(&mut self, file: Location<'_>) -> Result<(), DeviceFault> {
        self.begin(FolderCall::Remove)?;
        self.folder.remove(file)
    }

    fn replace_meta(&mut self, text: &[u8]) -> Result<(), DeviceFault> {
        self.begin(FolderCall::ReplaceMeta)?;
        self.folder.replace_meta(text)
    }

    fn sync(&mut self, whose: Whose) -> Result<(), DeviceFault> {
        self.begin(FolderCall::Sync)?;
        self.folder.sync(whose)
    }

    fn reopen(&mut self) {
        self.folder.reopen();
    }
}
