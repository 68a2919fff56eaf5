//! A folder whose calls are noted.

ghost use Rattle.std.specs.Prelude.{◌≡◌};

use crate::files::{OpenFolder, print_files_in};
use crate::stop::word_of;
use device::DeviceFault;
use device::whose::Whose;
use mailcore::copy_pieces::CopyPieces;
use maildir::folder::{FileName, Folder, Location, Origin, Source};
use maildir::mem_folder::FolderCall;
use std::alloc::Global;
use test_scripts::reported::Reported;
use test_scripts::words::Words;

/// A folder that notes which calls are made of it.
#[derive(Drop)]
pub struct NotedFolder<F: Folder> {
    /// The folder itself, to look at it or to change it as others do: no call of it is noted.
    pub folder: F,
    /// The calls so far.
    pub calls: Vec<FolderCall>,
    /// Whether memory ran out for the note of a call.
    pub is_short: bool,
}

impl<F: Folder> NotedFolder<F> {
    /// This folder, of which nothing is noted yet.
    pub fn new(alloc: Global, folder: F) -> Self {
        NotedFolder {
            folder,
            calls: Vec::new(alloc),
            is_short: false,
        }
    }

    fn note(&mut self, call: FolderCall)
        ensures { self.new.folder ≡ self.old.folder }
    {
        if self.calls.push(call).is_err() {
            self.is_short = true;
        }
    }
}

/// A folder whose calls are noted, and that a script can look into.
pub trait Noted: Folder + Drop {
    /// Forgets the calls so far.
    fn forget(&mut self);

    /// Prints the files that stand there, the calls so far, and how many have stopped.
    fn print(&self, rt: &HostRuntime, line: &mut Words<'_>, reported: &mut Reported);
}

impl<F: OpenFolder> Noted for NotedFolder<F> {
    fn forget(&mut self) {
        self.calls.clear();
    }

    fn print(&self, rt: &HostRuntime, line: &mut Words<'_>, reported: &mut Reported) {
        print_files_in(rt, &self.folder, line, reported);
        reported.text("  calls:");
        for call in self.calls.iter() {
            reported.text(" ");
            reported.text(word_of(*call));
        }
        reported.text("; stops: ");
        reported.number(self.folder.stop_count() as u64);
        self.folder.print_notes(reported);
        reported.end();
        if self.is_short {
            reported.lose();
        }
    }
}

impl<F: Folder> Folder for NotedFolder<F> {
    ghost honest = { λ noted. F.honest noted.folder };

    ghost visitors = { F.visitors };

    ghost seen = { λ noted. F.seen noted.folder };

    ghost is_synced = { λ noted. F.is_synced noted.folder };

    ghost is_settled = { λ noted. F.is_settled noted.folder };

    ghost reads = { λ noted. F.reads noted.folder };

    fn names(&mut self) -> Result<Option<Vec<FileName>>, DeviceFault> {
        self.note(FolderCall::Names);
        self.folder.names()
    }

    fn read(&mut self, file: Source<'_>) -> Result<Option<Vec<u8>>, DeviceFault> {
        self.note(FolderCall::Read);
        self.folder.read(file)
    }

    fn write_tmp(&mut self, copy: CopyPieces<'_>) -> Result<(), DeviceFault> {
        self.note(FolderCall::WriteTmp);
        self.folder.write_tmp(copy)
    }

    fn rename(&mut self, from: Origin<'_>, to: Location<'_>) -> Result<(), DeviceFault> {
        self.note(FolderCall::Rename);
        self.folder.rename(from, to)
    }

    fn remove(&mut self, file: Location<'_>) -> Result<(), DeviceFault> {
        self.note(FolderCall::Remove);
        self.folder.remove(file)
    }

    fn replace_meta(&mut self, text: &[u8]) -> Result<(), DeviceFault> {
        self.note(FolderCall::ReplaceMeta);
        self.folder.replace_meta(text)
    }

    fn sync(&mut self, whose: Whose) -> Result<(), DeviceFault> {
        self.note(FolderCall::Sync);
        self.folder.sync(whose)
    }

    fn reopen(&mut self) {
        self.folder.reopen();
    }
}
