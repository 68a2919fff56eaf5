//! A world as what stands on a disk and at a server (docs/FORMATS.md, "World").

use crate::home::at_home;
use crate::mem_disk::MemDisk;
use mailcore::flags::Flags;
use mailcore::keywords::Keywords;
use mailcore::mailbox::StoredMailbox;
use std::alloc::Global;
use std::fs;
use sync_state::fault::BookFault;
use sync_state::state_text::write_state_text;
use test_scripts::failure::Failure;
use worlds::fault::WorldFault;
use worlds::read::read_world;
use worlds::world::{Waiting, World};

/// The Maildir folder of the near mailbox, by its path from the home folder.
pub const FOLDER: &str = "mail";

/// The configuration, but for the lines of a world before its mailboxes, which belong to the channel `c`.
const CONFIG: &[u8] =
    b"IMAPStore far\nHost 127.0.0.1\nPort 143\nUser u\nPass p\n\nMaildirStore near\nPath ~/boxes/\nInbox ~/mail\n\n\
Channel c\nFar :far:\nNear :near:\n";

/// What a server has of a world: its far mailbox, and the map of its keywords.
#[derive(Drop)]
pub struct FarOfWorld {
    /// The mailbox.
    pub mailbox: StoredMailbox,
    /// The map.
    pub keywords: Keywords,
}

/// The configuration for the world of this text: what a run may do is said as in the world.
pub fn config_of(alloc: Global, text: &[u8]) -> Result<Vec<u8>, Failure> {
    let mut config = Vec::from_slice(alloc, CONFIG)?;
    for line in text.split_inclusive(|byte| *byte == b'\n') {
        if line.starts_with(b"far ") {
            break;
        }
        config.extend_from_slice(line)?;
    }
    Ok(config)
}

/// Has the near mailbox of the world of this text stand in its folder, which is empty, and gives the far one.
pub fn place_world(disk: &MemDisk, text: &[u8]) -> Result<FarOfWorld, Failure> {
    let world = world_of(disk.alloc(), text)?;
    write_meta(disk, &world)?;
    write_state(disk, &world)?;
    write_messages(disk, &world)?;
    write_waiting(disk, &world)?;
    let World { options, far, .. } = world;
    Ok(FarOfWorld {
        mailbox: far,
        keywords: options.keywords,
    })
}

/// The world of this text. `Script`: it is none.
fn world_of(alloc: Global, text: &[u8]) -> Result<World, Failure> {
    match read_world(alloc, text, Waiting::Kept) {
        Ok(world) => Ok(world),
        Err(WorldFault::Line(_)) => Err(Failure::Script),
        Err(WorldFault::NoMemory) => Err(Failure::NoMemory),
    }
}

fn write_meta(disk: &MemDisk, world: &World) -> Result<(), Failure> {
    let (validity, highest) = (world.near.validity, world.near.next.saturating_sub(1));
    let text = format!(in disk.alloc(); "{validity}\n{highest}\n")?;
    write(disk, ".uidvalidity", text.as_bytes())
}

fn write_state(disk: &MemDisk, world: &World) -> Result<(), Failure> {
    if world.state.run == 0 {
        return Ok(());
    }
    match write_state_text(disk.alloc(), &world.state) {
        Ok(text) => write(disk, ".mbsyncstate", &text),
        Err(BookFault::NoMemory) => Err(Failure::NoMemory),
        Err(_) => Err(Failure::Script),
    }
}

fn write_messages(disk: &MemDisk, world: &World) -> Result<(), Failure> {
    for message in world.near.messages.as_slice() {
        let uid = message.uid.get();
        let letters = letters_of(disk.alloc(), message.flags)?;
        let name = format!(in disk.alloc(); "cur/{uid},U={uid}:2,{letters}")?;
        write(disk, name.as_str(), message.bytes.as_slice())?;
    }
    Ok(())
}

fn write_waiting(disk: &MemDisk, world: &World) -> Result<(), Failure> {
    for (place, file) in world.waiting.iter().enumerate() {
        let letters = letters_of(disk.alloc(), file.flags)?;
        let name = format!(in disk.alloc(); "cur/waiting{place}:2,{letters}")?;
        write(disk, name.as_str(), file.bytes.as_slice())?;
    }
    Ok(())
}

/// Writes a file of the near mailbox's folder.
fn write(disk: &MemDisk, name: &str, bytes: &[u8]) -> Result<(), Failure> {
    let path = format!(in disk.alloc(); "{FOLDER}/{name}")?;
    let path = at_home(disk.alloc(), path.as_str())?;
    Ok(fs::write(disk, path.as_str(), bytes)?)
}

fn letters_of(alloc: Global, flags: Flags) -> Result<String, Failure> {
    let mut letters = String::new(alloc);
    for letter in flags.letters() {
        letters.push(char::from(letter))?;
    }
    Ok(letters)
}
