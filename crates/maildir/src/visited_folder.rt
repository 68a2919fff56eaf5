//! A folder in memory to which others add files.

ghost use Rattle.std.specs.Prelude.{◌≡◌, true, false, IfErr, IfOk, OnErr, OnOk};
ghost use Rattle.mailcore.specs.Content.{mark_of};
ghost use Rattle.maildir.specs.Names.{is_waiting};
ghost use Rattle.mailcore.specs.Visitors.{AreOctets, IsForeign};

use crate::file_acts::{FileDeed, act_on};
use crate::folder::{FileName, Folder, Location, Origin, Source};
use crate::found_names::is_waiting;
use crate::mem_folder::{FolderCall, MemFolder};
use device::DeviceFault;
use device::whose::Whose;
use mailcore::copy_pieces::CopyPieces;
use mailcore::keywords::Keywords;
use mailcore::octets::Octets;
use mailcore::others::Others;
use mailcore::uid::Uid;
use std::alloc::{AllocError, Global};
use std::marker::PhantomData;

/// A file that others add to `cur`.
#[derive(Drop)]
pub struct ArrivingFile {
    /// Before which call it comes, whether that call stops or not.
    pub call: FolderCall,
    /// Before which of the calls of this name, counted from 1 over the folder's life. At 0 it has come.
    pub number: u64,
    /// Its name.
    pub name: Octets,
    /// Its bytes.
    pub bytes: Octets,
}

/// A folder in memory to which others add files: each comes before its call. A file comes if its name waits for a UID and no file in
/// `cur` has it, and it is one that the others may add.
#[derive(Drop)]
pub struct VisitedFolder<O: Others> {
    alloc: Global,
    folder: MemFolder,
    // Those that come, and those that have come since the names were read last.
    arrivals: Vec<ArrivingFile>,
    is_broken: bool,
    others: PhantomData<O>,
    pub ghost is_reported: { is_broken ≡ folder.stopping.is_broken },
}

impl<O: Others> VisitedFolder<O> {
    ghost use Rattle.maildir.specs.FolderCalls.{ReadAnew};
    ghost use Rattle.maildir.specs.Folders.{Lists, listed};
    ghost use Rattle.mailcore.specs.Visitors.{others_but};
    ghost use Rattle.maildir.specs.FileActs.{acted};
    ghost use Rattle.maildir.specs.MemFolders.{seen_of, stored_in};
    ghost use Rattle.maildir.specs.VisitedFolders.{AddsAlone};

    /// This folder, of which no call has stopped, and what others add to it.
    pub fn new(alloc: Global, folder: MemFolder, arrivals: Vec<ArrivingFile>) -> Self
        requires whole { (seen_of folder).is_broken ≡ false }
        ensures folder { result.folder ≡ folder }
        ensures arrivals { result.arrivals ≡ arrivals }
    {
        VisitedFolder {
            alloc,
            folder,
            arrivals,
            is_broken: false,
            others: PhantomData,
        }
    }

    /// The folder as its names were read last, with what was done since.
    pub fn folder(&self) -> &MemFolder
        ensures { result.now ≡ self.now.folder }
    {
        &self.folder
    }

    /// The folder with all that has come.
    ///
    /// `NoMemory`: memory ran out.
    pub fn into_folder(self) -> Result<MemFolder, DeviceFault>
        ensures { IfOk result (λ folder. AddsAlone (others_but O.ours) (seen_of self.folder) (seen_of folder)) }
    {
        let mut visited = self;
        visited.take_in()?;
        Ok(visited.folder)
    }

    // Whether a call has stopped since the folder was opened.
    pub(crate) fn is_broken(&self) -> bool
        ensures { result ≡ (seen_of self.now.folder).is_broken }
    {
        self.is_broken
    }

    // Another program does this to the file of a message, before a call.
    pub(crate) fn act(
        &mut self,
        keywords: &Keywords,
        uid: Uid,
        deed: FileDeed,
    ) -> Result<(), DeviceFault>
        ensures ok { OnOk result (seen_of self.new.folder
            ≡ record (seen_of self.old.folder) { stored = acted keywords.now uid deed (stored_in self.old.folder) }) }
        ensures err { OnErr result (seen_of self.new.folder ≡ record (seen_of self.old.folder) { is_broken = true }) }
        ensures fault { IfErr result (λ fault. fault ≡ DeviceFault.NoMemory) }
    {
        match act_on(self.alloc, &mut self.folder, keywords, uid, deed) {
            Ok(()) => Ok(()),
            Err(AllocError) => {
                self.is_broken = true;
                Err(self.folder.lack())
            }
        }
    }

    // A call is made: what others add before it has come.
    fn count(&mut self, call: FolderCall)
        ensures folder { self.new.folder ≡ self.old.folder }
        ensures broken { self.new.is_broken ≡ self.old.is_broken }
    {
        for arrival in self.arrivals.iter_mut() {
            if arrival.call == call && arrival.number > 0 {
                arrival.number -= 1;
            }
        }
    }

    // Puts what has come into the folder, after the other files.
    fn take_in(&mut self) -> Result<(), DeviceFault>
        ensures adds { AddsAlone (others_but O.ours) (seen_of self.old.folder) (seen_of self.new.folder) }
        ensures broken { self.new.is_broken ≡ self.old.is_broken }
        ensures synced { self.new.folder.is_synced ≡ self.old.folder.is_synced }
        ensures fault { IfErr result (λ fault. fault ≡ DeviceFault.NoMemory) }
    {
        let arrivals = std::mem::replace(&mut self.arrivals, Vec::new(self.alloc));
        for arrival in arrivals {
            if arrival.number > 0 {
                self.arrivals.push(arrival)?;
            } else {
                self.add(arrival)?;
            }
        }
        Ok(())
    }

    // Puts a file into the folder, if it is one that others may add.
    fn add(&mut self, arrival: ArrivingFile) -> Result<(), DeviceFault>
        ensures adds { AddsAlone (others_but O.ours) (seen_of self.old.folder) (seen_of self.new.folder) }
        ensures broken { self.new.is_broken ≡ self.old.is_broken }
        ensures synced { self.new.folder.is_synced ≡ self.old.folder.is_synced }
        ensures fault { IfErr result (λ fault. fault ≡ DeviceFault.NoMemory) }
    {
        if !may_come::<O>(arrival.name.as_slice(), arrival.bytes.as_slice()) {
            return Ok(());
        }
        match self.folder.arrive(arrival.name, arrival.bytes) {
            Ok(()) => Ok(()),
            Err(DeviceFault::Stopped) => Ok(()),
            Err(DeviceFault::NoMemory) => Err(DeviceFault::NoMemory),
        }
    }

    // The names, with what has come.
    fn names_anew(&mut self) -> Result<Option<Vec<FileName>>, DeviceFault>
        requires whole { self.old.is_broken ≡ false }
        ensures { ReadAnew (Unit {0}) (others_but O.ours) (λ names. Lists (listed names)) (seen_of self.old.folder) (seen_of self.new.folder) result }
    {
        if self.take_in().is_err() {
            self.is_broken = true;
            return Err(self.folder.lack());
        }
        let answer = self.folder.read_names();
        self.is_broken = answer.is_err();
        answer
    }
}

impl<O: Others> Folder for VisitedFolder<O> {
    ghost use Rattle.std.specs.Prelude.{true, length};
    ghost use Rattle.mailcore.specs.Visitors.{others_but};
    ghost use Rattle.maildir.specs.MemFolders.{seen_of};

    ghost honest = { λ _. Unit {0} };

    ghost visitors = { others_but O.ours };

    ghost seen = { λ visited. seen_of visited.folder };

    ghost is_synced = { λ visited. visited.folder.is_synced };

    ghost is_settled = { λ visited. visited.folder.is_synced };

    ghost reads = { λ visited. length visited.folder.reads.items };

    fn names(&mut self) -> Result<Option<Vec<FileName>>, DeviceFault> {
        self.count(FolderCall::Names);
        if self.is_broken {
            return self.folder.read_names();
        }
        self.names_anew()
    }

    fn read(&mut self, file: Source<'_>) -> Result<Option<Vec<u8>>, DeviceFault> {
        self.count(FolderCall::Read);
        let answer = self.folder.read(file);
        self.is_broken = answer.is_err();
        answer
    }

    fn write_tmp(&mut self, copy: CopyPieces<'_>) -> Result<(), DeviceFault> {
        self.count(FolderCall::WriteTmp);
        let answer = self.folder.write_tmp(copy);
        self.is_broken = answer.is_err();
        answer
    }

    fn rename(&mut self, from: Origin<'_>, to: Location<'_>) -> Result<(), DeviceFault> {
        self.count(FolderCall::Rename);
        let answer = self.folder.rename(from, to);
        self.is_broken = answer.is_err();
        answer
    }

    fn remove(&mut self, file: Location<'_>) -> Result<(), DeviceFault> {
        self.count(FolderCall::Remove);
        let answer = self.folder.remove(file);
        self.is_broken = answer.is_err();
        answer
    }

    fn replace_meta(&mut self, text: &[u8]) -> Result<(), DeviceFault> {
        self.count(FolderCall::ReplaceMeta);
        let answer = self.folder.replace_meta(text);
        self.is_broken = answer.is_err();
        answer
    }

    fn sync(&mut self, whose: Whose) -> Result<(), DeviceFault> {
        self.count(FolderCall::Sync);
        let answer = self.folder.sync(whose);
        self.is_broken = answer.is_err();
        answer
    }

    fn reopen(&mut self) {
        self.folder.reopen();
        self.is_broken = false;
    }
}

// Whether others may add this file.
#[tactic(auto, using(mailcore::proofs::Foreign::foreign_by))]
fn may_come<O: Others>(name: &[u8], bytes: &[u8]) -> bool
    ensures { result ≡ true → (is_waiting name.now ≡ true) × AreOctets bytes.now × IsForeign O.ours (mark_of bytes.now) }
{
    is_waiting(name) && O::may_add(bytes)
}
