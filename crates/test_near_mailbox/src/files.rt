//! What stands in a folder, seen from outside its mailbox.

use crate::stopped_at::print_notes;
use mailcore::others::NoMarks;
use maildir::disk_folder::DiskFolder;
use maildir::folder::{Folder, Place};
use maildir::mem_folder::MemFolder;
use maildir::visited_folder::VisitedFolder;
use std::alloc::Global;
use std::fs::DirEntry;
use std::{fs, io};
use test_scripts::failure::Failure;
use test_scripts::reported::Reported;
use test_scripts::words::Words;

/// The folders of a folder on a disk in which files may stand, and what their paths begin with.
const FOLDERS: [(&str, &str); 4] = [(".", ""), ("cur", "cur/"), ("new", "new/"), ("tmp", "tmp/")];

/// A file that stands in a folder.
#[derive(Drop)]
pub struct Standing {
    /// Its path from the folder on, as `cur/a,U=1:2,S`.
    path: Vec<u8>,
    bytes: Vec<u8>,
}

/// A folder that a script can look into.
pub trait OpenFolder: Folder + Drop {
    /// How many calls have stopped.
    fn stop_count(&self) -> usize;

    /// Prints where it stopped and which files it left out, as far as it notes that.
    fn print_notes(&self, _reported: &mut Reported) {}

    /// Adds all files that stand there, in any order.
    fn add_files(&self, rt: &HostRuntime, files: &mut Vec<Standing>, line: &mut Words<'_>);
}

impl OpenFolder for MemFolder {
    fn stop_count(&self) -> usize {
        self.stops()
    }

    fn add_files(&self, rt: &HostRuntime, files: &mut Vec<Standing>, line: &mut Words<'_>) {
        let alloc = rt.alloc();
        for file in self.files() {
            let folder = match file.place {
                Place::New => "new/",
                Place::Cur => "cur/",
            };
            let (name, bytes) = (file.name.as_slice(), file.bytes.as_slice());
            add_file(alloc, files, folder, name, bytes, line);
        }
        if let Some(text) = self.meta() {
            add_file(alloc, files, "", b".uidvalidity", text, line);
        }
    }
}

impl OpenFolder for VisitedFolder<NoMarks> {
    fn stop_count(&self) -> usize {
        self.folder().stops()
    }

    /// Those of which the names were read.
    fn add_files(&self, rt: &HostRuntime, files: &mut Vec<Standing>, line: &mut Words<'_>) {
        self.folder().add_files(rt, files, line);
    }
}

impl OpenFolder for DiskFolder<HostRuntime> {
    fn stop_count(&self) -> usize {
        self.stops()
    }

    fn print_notes(&self, reported: &mut Reported) {
        print_notes(reported, self);
    }

    /// The process stands in the folder.
    fn add_files(&self, rt: &HostRuntime, files: &mut Vec<Standing>, line: &mut Words<'_>) {
        for (folder, prefix) in FOLDERS.iter() {
            if let Err(fault) = add_files_in(rt, files, folder, prefix, line) {
                line.fail(Failure::from(fault));
            }
        }
    }
}

/// Adds the files of one folder, each with this before its name.
fn add_files_in(
    rt: &HostRuntime,
    files: &mut Vec<Standing>,
    folder: &str,
    prefix: &str,
    line: &mut Words<'_>,
) -> io::Result<()> {
    for entry in fs::read_dir(rt, folder)? {
        if let Err(fault) = add_entry(rt, files, prefix, entry, line) {
            line.fail(Failure::from(fault));
        }
    }
    Ok(())
}

/// Adds what stands in a folder, if it is a file.
fn add_entry(
    rt: &HostRuntime,
    files: &mut Vec<Standing>,
    prefix: &str,
    entry: io::Result<DirEntry<HostRuntime>>,
    line: &mut Words<'_>,
) -> io::Result<()> {
    let entry = entry?;
    if entry.file_type()?.is_file() {
        let bytes = fs::read(rt, entry.path())?;
        let name = entry.file_name().as_bytes();
        add_file(rt.alloc(), files, prefix, name, &bytes, line);
    }
    Ok(())
}

fn add_file(
    alloc: Global,
    files: &mut Vec<Standing>,
    folder: &str,
    name: &[u8],
    bytes: &[u8],
    line: &mut Words<'_>,
) {
    let mut file = Standing {
        path: Vec::new(alloc),
        bytes: Vec::new(alloc),
    };
    if file.path.extend_from_slice(folder.as_bytes()).is_err()
        || file.path.extend_from_slice(name).is_err()
        || file.bytes.extend_from_slice(bytes).is_err()
        || files.push(file).is_err()
    {
        line.fail(Failure::NoMemory);
    }
}

/// Adds all files that stand in a folder to none, in the order of their paths.
pub fn gather<F: OpenFolder>(
    rt: &HostRuntime,
    folder: &F,
    files: &mut Vec<Standing>,
    line: &mut Words<'_>,
) {
    folder.add_files(rt, files, line);
    let sorted = files.sort_by(|a, b| a.path.as_slice().cmp(b.path.as_slice()));
    if sorted.is_err() {
        line.fail(Failure::NoMemory);
    }
}

/// An answer with the files that stand in a folder, each as ` PATH "BYTES"`.
pub fn print_files_in<F: OpenFolder>(
    rt: &HostRuntime,
    folder: &F,
    line: &mut Words<'_>,
    reported: &mut Reported,
) {
    let mut files = Vec::new(rt.alloc());
    gather(rt, folder, &mut files, line);
    reported.text("  files:");
    for file in files.iter() {
        reported.text(" ");
        print_file(reported, file);
    }
    reported.end();
    drop(files);
}

fn print_file(reported: &mut Reported, file: &Standing) {
    reported.bytes(&file.path);
    reported.text(" ");
    reported.quoted(&file.bytes);
}

/// Prints what is otherwise than before: ` -PATH` for a file that has gone, ` +PATH "BYTES"` for one that has come or has other
/// bytes; ` as before` where nothing is.
pub fn print_changes(reported: &mut Reported, before: &[Standing], now: &[Standing]) {
    let gone = print_gone(reported, before, now);
    let come = print_come(reported, before, now);
    if !gone && !come {
        reported.text(" as before");
    }
}

fn print_gone(reported: &mut Reported, before: &[Standing], now: &[Standing]) -> bool {
    let mut is_reported = false;
    for file in before {
        if bytes_at(now, &file.path).is_none() {
            reported.text(" -");
            reported.bytes(&file.path);
            is_reported = true;
        }
    }
    is_reported
}

fn print_come(reported: &mut Reported, before: &[Standing], now: &[Standing]) -> bool {
    let mut is_reported = false;
    for file in now {
        if bytes_at(before, &file.path) != Some(file.bytes.as_slice()) {
            reported.text(" +");
            print_file(reported, file);
            is_reported = true;
        }
    }
    is_reported
}

fn bytes_at<'a>(files: &'a [Standing], path: &[u8]) -> Option<&'a [u8]> {
    for file in files {
        if file.path.as_slice() == path {
            return Some(&file.bytes);
        }
    }
    None
}
