//! What others add in a trial, as its lines say it.

ghost use Rattle.std.specs.Prelude.{◌≡◌, ◌↔◌, [], All, IfErr, IfSome, IsTrue, ◌++◌, ◌∷◌, ℕ, List, OnOk, true};
ghost use Rattle.mailcore.specs.Content.{mark_of};
ghost use Rattle.maildir.specs.declared.mem_folder.FolderCall.{FolderCall};
ghost use Rattle.mailcore.specs.Visitors.{IsForeign};
ghost use Rattle.worlds.specs.Lines.{IsOf};
ghost use Rattle.run_trial.specs.Arriving.{AreNone, are_foreign};
ghost use Rattle.run_trial.specs.Calls.{command_word, folder_word};
ghost use Rattle.run_trial.specs.Coming.{IsComing};
ghost use Rattle.run_trial.specs.CourseLines.{AddsArrival, Said, with_arrivals};

use crate::count::read_ordinal;
use crate::folder::arrival_name;
use crate::stop::{StopCommand, command_of, folder_call_of};
use mailcore::flags::Flags;
use mailcore::keywords::Keywords;
use mailcore::octets::Octets;
use mailcore::others::Others;
use mailcore::side::Side;
use maildir::visited_folder::ArrivingFile;
use std::alloc::Global;
use texts::lines::Line;
use worlds::fault::WorldFault;
use worlds::read_mailbox::{is_far, read_bytes};
use worlds::words::{read_named, split_word};

/// A message that others add to the far mailbox.
#[derive(Drop)]
pub struct FarArrival {
    /// The command before which it comes.
    pub command: StopCommand,
    /// Before which command of this name, counted from 1 over the trial.
    pub number: u64,
    /// Its flags.
    pub flags: Flags,
    /// Its bytes.
    pub bytes: Octets,
}

/// What others add in a trial, in the order of the lines.
#[derive(Drop)]
pub struct TrialArrivals {
    /// The messages that come to the far mailbox.
    pub far: Vec<FarArrival>,
    /// The files that come to the folder of the near one.
    pub near: Vec<ArrivingFile>,
}

/// When something comes, and what it is: the words of its line.
#[derive(Clone, Copy)]
struct Coming<'a> {
    side: Side,
    call: &'a [u8],
    number: u64,
    flags: Flags,
    /// The quoted text of its bytes.
    text: &'a [u8],
}

impl TrialArrivals {
    /// Nothing.
    pub fn new(alloc: Global) -> Self
        ensures far { result.far.items ≡ [] }
        ensures near { result.near.items ≡ [] }
    {
        TrialArrivals {
            far: Vec::new(alloc),
            near: Vec::new(alloc),
        }
    }

    /// Whether nothing comes.
    pub fn is_empty(&self) -> bool
        ensures { IsTrue result ↔ AreNone self.now }
    {
        self.far.is_empty() && self.near.is_empty()
    }

    /// Whether each of the messages and files is one that these others may add.
    pub fn are_of<O: Others>(&self) -> bool
        ensures exact { result ≡ are_foreign O.ours self.now }
        ensures foreign { result ≡ true → All (λ a. IsForeign O.ours (mark_of a.bytes)) self.now.far.items }
    {
        let far = self
            .far
            .iter()
            .all(|arrival| O::may_add(arrival.bytes.as_slice()));
        let near = self
            .near
            .iter()
            .all(|arrival| O::may_add(arrival.bytes.as_slice()));
        far && near
    }

    /// Adds what a line says after its word `arrive`: `far before CALL k FLAGS "BYTES"`, CALL a command, or `near` and a call of the
    /// folder. Its flags have a name by this map.
    pub fn add(
        &mut self,
        alloc: Global,
        text: &[u8],
        keywords: &Keywords,
        line: Line<'_>,
    ) -> Result<(), WorldFault>
        ensures fault { IfErr result (IsOf line.entry.number) }
        ensures adds { OnOk result ((said : Said) → AddsArrival text.now (with_arrivals self.old said) (with_arrivals self.new said)) }
    {
        let Some(coming) = Coming::read(text, keywords) else {
            return Err(WorldFault::of(line));
        };
        let bytes = read_bytes(alloc, coming.text, line)?;
        match coming.side {
            Side::Far => self.add_far(coming, bytes, line),
            Side::Near => self.add_near(alloc, coming, bytes, keywords, line),
        }
    }

    fn add_far(
        &mut self,
        coming: Coming<'_>,
        bytes: Vec<u8>,
        line: Line<'_>,
    ) -> Result<(), WorldFault>
        ensures fault { IfErr result (IsOf line.entry.number) }
        ensures near { self.new.near ≡ self.old.near }
        ensures adds { OnOk result ((command : StopCommand) × (command_word command ≡ coming.entry.call.now) × (self.new.far.items
            ≡ self.old.far.items ++ record { command = command; number = coming.entry.number; flags = coming.entry.flags; bytes = bytes.items } ∷ [])) }
    {
        let Some(command) = command_of(coming.call) else {
            return Err(WorldFault::of(line));
        };
        if !is_far(&bytes) {
            return Err(WorldFault::of(line));
        }
        Ok(
            self.far.push(FarArrival {
                command,
                number: coming.number,
                flags: coming.flags,
                bytes: Octets::from_vec(bytes),
            })?,
        )
    }

    // The file of the j-th line has a name of its own, which j stands in.
    fn add_near(
        &mut self,
        alloc: Global,
        coming: Coming<'_>,
        bytes: Vec<u8>,
        keywords: &Keywords,
        line: Line<'_>,
    ) -> Result<(), WorldFault>
        ensures fault { IfErr result (IsOf line.entry.number) }
        ensures far { self.new.far ≡ self.old.far }
        ensures adds { OnOk result ((call : FolderCall) × (name : List ℕ) × (folder_word call ≡ coming.entry.call.now) × (self.new.near.items
            ≡ self.old.near.items ++ record { call = call; number = coming.entry.number; name = name; bytes = bytes.items } ∷ [])) }
    {
        let Some(call) = folder_call_of(coming.call) else {
            return Err(WorldFault::of(line));
        };
        let number = self.near.len().saturating_add(1);
        let name = arrival_name(alloc, number, coming.flags, keywords)?;
        Ok(
            self.near.push(ArrivingFile {
                call,
                number: coming.number,
                name: Octets::from_vec(name),
                bytes: Octets::from_vec(bytes),
            })?,
        )
    }
}

impl<'a> Coming<'a> {
    fn read(text: &'a [u8], keywords: &Keywords) -> Option<Coming<'a>>
        ensures { IfSome result (IsComing text.now) }
    {
        let (side, text) = split_word(text)?;
        let (moment, text) = split_word(text)?;
        let (call, text) = split_word(text)?;
        let (number, text) = split_word(text)?;
        let (flags, text) = split_word(text)?;
        if moment != b"before".as_slice() {
            return None;
        }
        Some(Coming {
            side: Side::from_word(side)?,
            call,
            number: read_ordinal(number)?,
            flags: read_named(flags, keywords)?,
            text,
        })
    }
}
