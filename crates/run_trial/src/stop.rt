//! Where the calls of a trial stop, as its lines say it (docs/FORMATS.md, "Trial"). A call has one of these words:
//!
//! | Device | Calls |
//! |---|---|
//! | the folder of the near mailbox | `folder.names`, `folder.read`, `folder.write_tmp`, `folder.rename`, `folder.remove`, `folder.replace_meta` |
//! | the shelf with state and journal | `shelf.read`, `shelf.append`, `shelf.replace`, `shelf.remove` |
//! | the connection to the far mailbox | `CAPABILITY`, `LOGIN`, `ENABLE`, `SELECT`, `FETCH`, `STORE`, `EXPUNGE`, `APPEND` |
//!
//! Of a call that reads, a stop before and one after its effect are the same.

ghost use Rattle.std.specs.Prelude.{◌≡◌, ◌≢◌, ◌++◌, ℕ, List, [], All, Contains, IfSome, OnOk, codes, true, false};
ghost use Rattle.run_trial.specs.Calls.{command_word, folder_verb, folder_word, shelf_verb, shelf_word, stop_word};
ghost use Rattle.run_trial.specs.CourseLines.{Said, SaysCall, SaysMoment, SaysStop, StopAdded, stopped_command, with_stops};

use crate::count::{read_count, read_ordinal};
use book::mem_shelf::ShelfCall;
use device::schedule::{CallStop, Moment};
use maildir::mem_folder::FolderCall;
use std::alloc::{AllocError, Global};
use worlds::words::split_word;

/// A command of IMAP that a trial can stop (RFC 9051, sections 6.1 to 6.4). Of the UID commands the name after `UID` is reported.
#[derive(Clone, Copy, PartialEq, Eq)]
pub enum StopCommand {
    /// CAPABILITY.
    Capability,
    /// LOGIN.
    Login,
    /// ENABLE.
    Enable,
    /// SELECT.
    Select,
    /// UID FETCH.
    Fetch,
    /// UID STORE.
    Store,
    /// UID EXPUNGE.
    Expunge,
    /// APPEND.
    Append,
}

/// Where an APPEND breaks off.
#[derive(Clone, Copy, PartialEq, Eq)]
pub enum Cut {
    /// So many bytes of its tagged reply arrive.
    Reply(usize),
    /// So many octets of its literal reach the server.
    Send(usize),
}

/// A stop of the far mailbox's connection.
#[derive(Clone, Copy, PartialEq, Eq)]
pub enum FarStop {
    /// Of a command: the server does not see it, or does it and no byte of its replies comes back.
    Command(CallStop<StopCommand>),
    /// Of the APPEND of this number, counted from 1 over the trial.
    Append(u64, Cut),
}

/// A stop of one device.
#[derive(Clone, Copy, PartialEq, Eq)]
pub enum DeviceStop {
    /// Of the near mailbox's folder.
    Folder(CallStop<FolderCall>),
    /// Of the shelf with the state and the journal.
    Shelf(CallStop<ShelfCall>),
    /// Of the connection to the far mailbox.
    Link(FarStop),
}

impl FarStop {
    /// The command that it stops, and which one of its name.
    fn command(&self) -> (StopCommand, u64)
        ensures { result ≡ stopped_command self.now }
    {
        match *self {
            FarStop::Command(stop) => (stop.call, stop.number),
            FarStop::Append(number, _) => (StopCommand::Append, number),
        }
    }
}

/// The stops of a trial by devices, each in the order of the lines: of two for one call the first acts. A connection has one
/// for a command at most.
#[derive(Drop)]
pub struct Stops {
    /// Those of the near mailbox's folder.
    pub folder: Vec<CallStop<FolderCall>>,
    /// Those of the shelf.
    pub shelf: Vec<CallStop<ShelfCall>>,
    /// Those of the connection to the far mailbox.
    pub link: Vec<FarStop>,
}

impl Stops {
    /// None.
    pub fn new(alloc: Global) -> Self
        ensures folder { result.folder.items ≡ [] }
        ensures shelf { result.shelf.items ≡ [] }
        ensures link { result.link.items ≡ [] }
    {
        Stops {
            folder: Vec::new(alloc),
            shelf: Vec::new(alloc),
            link: Vec::new(alloc),
        }
    }

    /// Adds a stop after the others of its device. `AllocError`: memory ran out.
    pub fn push(&mut self, stop: DeviceStop) -> Result<(), AllocError>
        ensures { OnOk result ((said : Said) → StopAdded stop (with_stops self.old said) (with_stops self.new said)) }
    {
        match stop {
            DeviceStop::Folder(stop) => self.folder.push(stop)?,
            DeviceStop::Shelf(stop) => self.shelf.push(stop)?,
            DeviceStop::Link(stop) if self.is_stopped(stop.command()) => {}
            DeviceStop::Link(stop) => self.link.push(stop)?,
        }
        Ok(())
    }

    /// Whether this command is stopped.
    fn is_stopped(&self, command: (StopCommand, u64)) -> bool
        ensures some { result ≡ true → (other : FarStop) × Contains self.now.link.items other × (stopped_command other ≡ command) }
        ensures none { result ≡ false → All (λ stop. stopped_command stop ≢ command) self.now.link.items }
    {
        self.link.iter().any(|stop| stop.command() == command)
    }
}

/// Which call stops, by its word, and where.
#[derive(Clone, Copy)]
pub struct Halt<'a> {
    /// The name of the call.
    pub call: &'a [u8],
    /// Which call of this name, counted from 1 over the trial.
    pub number: u64,
    /// Where it stops.
    pub moment: Moment,
}

impl<'a> Halt<'a> {
    /// What stands after the word `stop`: `before CALL k`, `after CALL k` or `part CALL k b`.
    pub fn read(text: &'a [u8]) -> Option<Halt<'a>>
        ensures { IfSome result (λ halt. SaysCall halt.call.now halt.number halt.moment text.now) }
    {
        let (moment, text) = split_word(text)?;
        let (call, text) = split_word(text)?;
        let (number, moment) = split_moment(moment, text)?;
        Some(Halt {
            call,
            number: read_ordinal(number)?,
            moment,
        })
    }

    /// This stop, of a call of some device.
    pub fn of<C>(&self, call: C) -> CallStop<C>
        ensures { result ≡ record { call = call; number = self.now.number; moment = self.now.moment } }
    {
        CallStop {
            call,
            number: self.number,
            moment: self.moment,
        }
    }

    /// The stop of a trial. Of `shelf.append` alone there are parts.
    fn device(&self) -> Option<DeviceStop>
        ensures word { IfSome result (λ stop. stop_word stop ≡ self.now.call.now) }
        ensures says { IfSome result (λ stop. (text : List ℕ) → SaysCall self.now.call.now self.now.number self.now.moment text
            → SaysStop stop (codes "stop " ++ text)) }
    {
        let shelf = shelf_call_of(self.call);
        let has_parts = matches!(shelf, Some(ShelfCall::Append));
        if matches!(self.moment, Moment::Part(_)) && !has_parts {
            return None;
        }
        if let Some(call) = shelf {
            return Some(DeviceStop::Shelf(self.of(call)));
        }
        if let Some(call) = folder_call_of(self.call) {
            return Some(DeviceStop::Folder(self.of(call)));
        }
        let command = command_of(self.call)?;
        Some(DeviceStop::Link(FarStop::Command(self.of(command))))
    }
}

/// What stands after the name of a call that stops at the moment of this word: the number of the call, and for a part how much of it.
fn split_moment<'a>(word: &[u8], text: &'a [u8]) -> Option<(&'a [u8], Moment)>
    ensures { IfSome result (λ parts. SaysMoment parts.1 word.now parts.0.now text.now) }
{
    match word {
        b"before" => Some((text, Moment::Before)),
        b"after" => Some((text, Moment::After)),
        b"part" => {
            let (number, bytes) = split_word(text)?;
            Some((number, Moment::Part(read_count(bytes)? as usize)))
        }
        _ => None,
    }
}

/// The stop of a line of a trial: what stands after its word `stop`.
pub fn read_stop(text: &[u8]) -> Option<DeviceStop>
    ensures { IfSome result (λ stop. SaysStop stop (codes "stop " ++ text.now)) }
{
    Halt::read(text)?.device()
}

/// The stop of a line of a trial: what stands after its word `cut`, `reply k b` or `send k b`.
pub fn read_cut(text: &[u8]) -> Option<DeviceStop>
    ensures { IfSome result (λ stop. SaysStop stop (codes "cut " ++ text.now)) }
{
    let (word, text) = split_word(text)?;
    let (number, bytes) = split_word(text)?;
    let number = read_ordinal(number)?;
    let bytes = read_count(bytes)? as usize;
    let cut = match word {
        b"reply" => Cut::Reply(bytes),
        b"send" => Cut::Send(bytes),
        _ => return None,
    };
    Some(DeviceStop::Link(FarStop::Append(number, cut)))
}

/// The call of the near mailbox's folder that has this name.
pub fn folder_call_of(name: &[u8]) -> Option<FolderCall>
    ensures { IfSome result (λ call. folder_word call ≡ name.now) }
{
    folder_verb(name.strip_prefix(b"folder.".as_slice())?)
}

fn folder_verb(verb: &[u8]) -> Option<FolderCall>
    ensures { IfSome result (λ call. folder_verb call ≡ verb.now) }
{
    match verb {
        b"names" => Some(FolderCall::Names),
        b"read" => Some(FolderCall::Read),
        b"write_tmp" => Some(FolderCall::WriteTmp),
        b"rename" => Some(FolderCall::Rename),
        b"remove" => Some(FolderCall::Remove),
        _ if verb == b"replace_meta".as_slice() => Some(FolderCall::ReplaceMeta),
        _ => None,
    }
}

/// The call of the shelf that has this name.
fn shelf_call_of(name: &[u8]) -> Option<ShelfCall>
    ensures { IfSome result (λ call. shelf_word call ≡ name.now) }
{
    shelf_verb(name.strip_prefix(b"shelf.".as_slice())?)
}

fn shelf_verb(verb: &[u8]) -> Option<ShelfCall>
    ensures { IfSome result (λ call. shelf_verb call ≡ verb.now) }
{
    match verb {
        b"read" => Some(ShelfCall::Read),
        b"append" => Some(ShelfCall::Append),
        b"replace" => Some(ShelfCall::Replace),
        b"remove" => Some(ShelfCall::Remove),
        _ => None,
    }
}

/// The command that has this name.
pub fn command_of(name: &[u8]) -> Option<StopCommand>
    ensures { IfSome result (λ command. command_word command ≡ name.now) }
{
    match name {
        b"CAPABILITY" => Some(StopCommand::Capability),
        b"LOGIN" => Some(StopCommand::Login),
        b"ENABLE" => Some(StopCommand::Enable),
        b"SELECT" => Some(StopCommand::Select),
        b"FETCH" => Some(StopCommand::Fetch),
        b"STORE" => Some(StopCommand::Store),
        b"EXPUNGE" => Some(StopCommand::Expunge),
        b"APPEND" => Some(StopCommand::Append),
        _ => None,
    }
}
