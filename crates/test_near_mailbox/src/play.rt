//! How a script is played.

use crate::beginnings::print_beginnings;
use crate::disk::OnDisk;
use crate::ground::Ground;
use crate::memory::Memory;
use crate::name::print_name;
use crate::visited::Visited;
use maildir::disk_folder::DiskFolder;
use test_scripts::failure::Failure;
use test_scripts::play::{Player, play_all, play_part};
use test_scripts::script::Script;
use test_scripts::words::Words;

/// The word with which the line begins that names another folder.
const FOLDER: &[u8] = b"folder ";

/// Plays a script of the near mailbox.
pub fn run(rt: &HostRuntime, script: &mut Script<'_>) -> Result<(), Failure> {
    let ground = Ground::new(rt)?;
    let played = play_on(rt, &ground, script);
    drop(ground);
    played
}

fn play_on(rt: &HostRuntime, ground: &Ground, script: &mut Script<'_>) -> Result<(), Failure> {
    let mut desk = Desk { rt, ground };
    play_all(rt, &mut desk, script)
}

/// The place of a folder on a disk.
#[derive(Clone, Copy)]
struct Desk<'a> {
    rt: &'a HostRuntime,
    ground: &'a Ground,
}

impl Player for Desk<'_> {
    fn begin(&mut self) -> Result<(), Failure> {
        Ok(())
    }

    fn play(&mut self, line: &mut Words<'_>, script: &mut Script<'_>) -> Result<(), Failure> {
        let alloc = self.rt.alloc();
        match line.word() {
            "folder" => return self.play_folder(line, script),
            "beginnings" => return print_beginnings(alloc, line, script),
            "name" => print_name(alloc, line.rest(), &mut script.reported),
            _ => line.refuse(),
        }
        Ok(())
    }
}

impl Desk<'_> {
    /// Plays the lines after this one that ask about its folder, by a player of their own.
    fn play_folder(self, line: &mut Words<'_>, script: &mut Script<'_>) -> Result<(), Failure> {
        match line.word() {
            "memory" => play_part(self.rt, Memory::read(self.rt, line), script, FOLDER),
            "visited" => play_part(self.rt, Visited::new(self.rt), script, FOLDER),
            "disk" => self.play_on_disk(self.ground.new_folder()?, script),
            "at" => self.play_on_disk(DiskFolder::new(*self.rt, line.text())?, script),
            _ => Err(Failure::Script),
        }
    }

    fn play_on_disk(
        self,
        folder: DiskFolder<HostRuntime>,
        script: &mut Script<'_>,
    ) -> Result<(), Failure> {
        play_part(self.rt, OnDisk::new(self.rt, folder), script, FOLDER)
    }
}
