//! The messages that are found on both sides.

use crate::home::at_home;
use crate::mem_disk::MemDisk;
use imap_server::server::Server;
use mailcore::tuid::TUID_LENGTH;
use std::alloc::Global;
use std::fs::DirEntry;
use std::{fs, io};
use test_scripts::failure::Failure;
use test_scripts::reported::Reported;

/// How the line of a mark begins.
const MARK: &[u8] = b"X-TUID: ";

/// A line for each message: its side and its mailbox, its flags, and its bytes without a mark line, in the order of these.
#[derive(Drop)]
pub struct FoundMessages {
    lines: Vec<String>,
}

impl FoundMessages {
    /// Those of a server and of these folders below the home folder.
    pub fn read(
        disk: &MemDisk,
        server: &Server,
        folders: &[String],
    ) -> Result<FoundMessages, Failure> {
        let alloc = disk.alloc();
        let mut found = FoundMessages {
            lines: Vec::new(alloc),
        };
        for mailbox in server.mailboxes() {
            for message in mailbox.messages.as_slice() {
                let mut line = Reported::new(alloc);
                line.text("far ");
                line.text(mailbox.name.as_str());
                line.text(" ");
                line.flags(message.flags);
                found.add(alloc, line, message.bytes.as_slice())?;
            }
        }
        for folder in folders {
            for part in ["cur", "new"] {
                let folder = folder.as_str();
                let path = format!(in alloc; "{folder}/{part}")?;
                found.add_files(disk, folder, at_home(alloc, path.as_str())?.as_str())?;
            }
        }
        found.lines.sort()?;
        Ok(found)
    }

    /// Whether these are the same.
    pub fn are(&self, others: &FoundMessages) -> bool {
        self.lines == others.lines
    }

    /// An answer for each.
    pub fn print(&self, reported: &mut Reported) {
        for line in &self.lines {
            reported.answer(line.as_str());
        }
    }

    fn add(&mut self, alloc: Global, line: Reported, bytes: &[u8]) -> Result<(), Failure> {
        let mut line = line;
        line.text(" ");
        line.quoted(without_mark(bytes));
        if line.is_lost() {
            return Err(Failure::NoMemory);
        }
        Ok(self.lines.push(String::from_str(alloc, line.as_str())?)?)
    }

    /// Adds the files of one folder, if it is there.
    fn add_files(&mut self, disk: &MemDisk, folder: &str, path: &str) -> Result<(), Failure> {
        if fs::metadata(disk, path).is_err() {
            return Ok(());
        }
        for entry in fs::read_dir(&disk, path)? {
            self.add_file(disk, folder, entry)?;
        }
        Ok(())
    }

    fn add_file(
        &mut self,
        disk: &MemDisk,
        folder: &str,
        entry: io::Result<DirEntry<&MemDisk>>,
    ) -> Result<(), Failure> {
        let entry = entry?;
        let bytes = fs::read(disk, entry.path())?;
        let mut line = Reported::new(disk.alloc());
        line.text("near ");
        line.text(folder);
        line.text(" ");
        line.text(letters_in(entry.file_name().as_bytes()));
        self.add(disk.alloc(), line, &bytes)
    }
}

/// The letters in the name of a file, or `-` for none.
fn letters_in(name: &[u8]) -> &str {
    match str::from_utf8(name).unwrap_or_default().rsplit_once(":2,") {
        Some((_, letters)) if !letters.is_empty() => letters,
        _ => "-",
    }
}

/// The bytes of a message without the line of its mark.
fn without_mark(bytes: &[u8]) -> &[u8] {
    let Some(marked) = bytes.strip_prefix(MARK) else {
        return bytes;
    };
    let rest = marked.get(TUID_LENGTH..).unwrap_or_default();
    match rest {
        [b'\r', b'\n', rest @ ..] | [b'\n', rest @ ..] => rest,
        _ => bytes,
    }
}
