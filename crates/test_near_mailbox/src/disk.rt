//! A folder on a disk, in which the process stands.

use crate::noted_folder::NotedFolder;
use crate::seat::Seat;
use maildir::disk_folder::DiskFolder;
use std::fs::{DirBuilder, FileType};
use std::os::unix::fs::{DirBuilderExt, PermissionsExt, symlink};
use std::os::unix::net::UnixListener;
use std::{fs, io};
use test_scripts::failure::Failure;
use test_scripts::play::Player;
use test_scripts::reported::Reported;
use test_scripts::script::Script;
use test_scripts::words::Words;

/// A folder on a disk, and its mailbox.
#[derive(Drop)]
pub struct OnDisk {
    rt: HostRuntime,
    seat: Seat<NotedFolder<DiskFolder<HostRuntime>>>,
}

impl Player for OnDisk {
    fn begin(&mut self) -> Result<(), Failure> {
        Ok(())
    }

    fn play(&mut self, line: &mut Words<'_>, script: &mut Script<'_>) -> Result<(), Failure> {
        let word = line.word();
        match change(&self.rt, word, line) {
            Some(done) => Ok(done?),
            None => self.ask(word, line, &mut script.reported),
        }
    }
}

impl OnDisk {
    /// This folder.
    pub fn new(rt: &HostRuntime, folder: DiskFolder<HostRuntime>) -> Self {
        OnDisk {
            rt: *rt,
            seat: Seat::Folder(NotedFolder::new(rt.alloc(), folder)),
        }
    }

    fn ask(
        &mut self,
        word: &str,
        line: &mut Words<'_>,
        reported: &mut Reported,
    ) -> Result<(), Failure> {
        match word {
            "create" => drop(DiskFolder::create(self.rt, ".")?),
            "kind" => print_kind(&self.rt, line.word(), reported)?,
            _ => self.seat.play(&self.rt, word, line, reported),
        }
        Ok(())
    }
}

/// Takes or makes what a line with this first word says, or nothing if it says nothing of that.
fn change(rt: &HostRuntime, word: &str, line: &mut Words<'_>) -> Option<io::Result<()>> {
    match word {
        "put" => Some(put(rt, line)),
        "take" => Some(fs::remove_file(rt, line.word())),
        "rmdir" => Some(fs::remove_dir(rt, line.word())),
        "mkdir" => Some(make_folder(rt, line.word())),
        "socket" => Some(make_socket(rt, line.word())),
        "symlink" => {
            let path = line.word();
            Some(symlink(rt, line.word(), path))
        }
        "link" => {
            let path = line.word();
            Some(fs::hard_link(rt, line.word(), path))
        }
        _ => None,
    }
}

/// `PATH "BYTES"`: puts a file there.
fn put(rt: &HostRuntime, line: &mut Words<'_>) -> io::Result<()> {
    let path = line.word();
    let bytes = line.said(rt.alloc());
    fs::write(rt, path, bytes.as_slice())
}

fn make_folder(rt: &HostRuntime, path: &str) -> io::Result<()> {
    let mut builder = DirBuilder::new();
    builder.mode(0o700);
    builder.create(rt, path)
}

fn make_socket(rt: &HostRuntime, path: &str) -> io::Result<()> {
    let _listener = UnixListener::bind(rt, path)?;
    Ok(())
}

/// Prints what stands there, and of a file or a folder who may use it.
fn print_kind(rt: &HostRuntime, path: &str, reported: &mut Reported) -> io::Result<()> {
    let found = fs::symlink_metadata(rt, path)?;
    reported.begin();
    reported.text(word_of(found.file_type()));
    if found.is_file() || found.is_dir() {
        let mode = found.permissions().mode();
        reported.text(" ");
        for shift in [6, 3, 0] {
            reported.number(u64::from((mode >> shift) & 7));
        }
    }
    reported.end();
    Ok(())
}

fn word_of(kind: FileType) -> &'static str {
    if kind.is_file() {
        "file"
    } else if kind.is_dir() {
        "folder"
    } else if kind.is_symlink() {
        "symlink"
    } else {
        "socket"
    }
}
