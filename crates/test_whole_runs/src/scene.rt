//! What stands at first.

ghost use Rattle.std.specs.Prelude.{IfOk};
ghost use Rattle.imap_server.specs.Boxes.{AreServed};

use crate::home::at_home;
use crate::mem_disk::MemDisk;
use crate::world::{FOLDER, config_of, place_world};
use imap_server::served::are_served;
use imap_server::server::Server;
use mailcore::keywords::Keywords;
use mailcore::mailbox::StoredMailbox;
use std::alloc::Global;
use std::fs;
use test_scripts::failure::Failure;
use test_scripts::mail::{add_mailbox, add_message};
use test_scripts::words::Words;

/// The folders of a Maildir folder.
const PARTS: [&str; 3] = ["cur", "new", "tmp"];

/// The lines that say what stands at first.
#[derive(Drop)]
pub struct Scene {
    lines: Vec<u8>,
    config: Vec<u8>,
    world: Option<Vec<u8>>,
    /// The Maildir folders that are looked at, by their paths from the home folder.
    pub folders: Vec<String>,
}

impl Scene {
    /// Nothing stands.
    pub fn new(alloc: Global) -> Scene {
        Scene {
            lines: Vec::new(alloc),
            config: Vec::new(alloc),
            world: None,
            folders: Vec::new(alloc),
        }
    }

    /// The configuration is this text.
    pub fn configure(&mut self, text: &[u8]) -> Result<(), Failure> {
        self.config.clear();
        Ok(self.config.extend_from_slice(text)?)
    }

    /// A world stands, that of this text, with a configuration for it.
    pub fn add_world(&mut self, alloc: Global, text: &[u8]) -> Result<(), Failure> {
        self.add(alloc, "folder", FOLDER.as_bytes())?;
        self.config = config_of(alloc, text)?;
        let mut text = Vec::from_slice(alloc, text)?;
        text.extend_from_slice(b"end\n")?;
        self.world = Some(text);
        Ok(())
    }

    /// Adds a line, which begins with this word.
    pub fn add(&mut self, alloc: Global, word: &str, rest: &[u8]) -> Result<(), Failure> {
        if word == "folder" || word == "look" {
            let path = str::from_utf8(rest).unwrap_or_default();
            self.folders.push(String::from_str(alloc, path)?)?;
        }
        self.lines.extend_from_slice(word.as_bytes())?;
        self.lines.extend_from_slice(b" ")?;
        self.lines.extend_from_slice(rest)?;
        Ok(self.lines.extend_from_slice(b"\n")?)
    }

    /// Has all stand on a disk with an empty home folder, and gives the server.
    pub fn stand(&self, disk: &MemDisk) -> Result<Server, Failure> {
        let alloc = disk.alloc();
        fs::write(disk, at_home(alloc, ".mbsyncrc")?.as_str(), &self.config)?;
        let mut mailboxes = Vec::new(alloc);
        let mut keywords = Keywords::new(alloc);
        for line in self.lines.split_inclusive(|byte| *byte == b'\n') {
            place(disk, &mut mailboxes, line)?;
        }
        if let Some(text) = &self.world {
            let far = place_world(disk, text)?;
            mailboxes.push(far.mailbox)?;
            keywords = far.keywords;
        }
        serve(alloc, mailboxes, keywords)
    }
}

/// Has stand there what a line says.
fn place(disk: &MemDisk, mailboxes: &mut Vec<StoredMailbox>, line: &[u8]) -> Result<(), Failure> {
    let alloc = disk.alloc();
    let mut words = Words::new(line.strip_suffix(b"\n").unwrap_or(line));
    match words.word() {
        "mailbox" => add_mailbox(alloc, mailboxes, &mut words)?,
        "message" => add_message(alloc, mailboxes, &mut words)?,
        "folder" => make_folder(disk, words.text())?,
        "look" => {
            words.text();
        }
        "file" => {
            let path = at_home(alloc, words.word())?;
            let bytes = words.bytes(alloc)?;
            fs::write(disk, path.as_str(), &bytes)?;
        }
        _ => words.refuse(),
    }
    words.end()
}

fn make_folder(disk: &MemDisk, path: &str) -> Result<(), Failure> {
    let top = at_home(disk.alloc(), path)?;
    for part in PARTS {
        let path = format!(in disk.alloc(); "{top}/{part}")?;
        fs::create_dir_all(disk, path.as_str())?;
    }
    Ok(())
}

/// A server of these mailboxes, whose flags are the six and these keywords. `Script`: it cannot serve them.
fn serve(
    alloc: Global,
    mailboxes: Vec<StoredMailbox>,
    keywords: Keywords,
) -> Result<Server, Failure>
    ensures { IfOk result (λ server. AreServed server.server.mailboxes) }
{
    if !are_served(&mailboxes) {
        return Err(Failure::Script);
    }
    let user = Vec::from_slice(alloc, b"u")?;
    let password = Vec::from_slice(alloc, b"p")?;
    Ok(Server::with_keywords(alloc, mailboxes, user, password, keywords))
}
