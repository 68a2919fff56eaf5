//! What other clients do to messages in a trial, as its lines say it.

ghost use Rattle.std.specs.Prelude.{◌≡◌, ◌↔◌, [], ◌∷◌, ◌++◌, List, ℕ, codes, IfErr, IfSome, IsTrue, OnOk};
ghost use Rattle.mem_link.specs.declared.acts.MessageDeed.TheVariants.{Flag as Flagging, Remove as Removal};
ghost use Rattle.worlds.specs.Lines.{IsOf};
ghost use Rattle.worlds.specs.PlanLines.{change_text};
ghost use Rattle.maildir.specs.declared.mem_folder.FolderCall.{FolderCall};
ghost use Rattle.run_trial.specs.Calls.{command_word, folder_word};
ghost use Rattle.run_trial.specs.Acting.{IsActing, NobodyActs};
ghost use Rattle.run_trial.specs.ActLines.{file_deed, target_text};
ghost use Rattle.run_trial.specs.CourseLines.{AddsAct, AddsFlags, Said, with_acts};

use crate::count::read_ordinal;
use crate::stop::{StopCommand, command_of, folder_call_of};
use mailcore::flags::Flags;
use mailcore::keywords::Keywords;
use mailcore::side::Side;
use mailcore::uid::Uid;
use mailcore::words::read_uid;
use maildir::file_acts::{FileAct, FileDeed};
use mem_link::acts::MessageDeed;
use std::alloc::Global;
use texts::lines::Line;
use worlds::fault::WorldFault;
use worlds::words::{read_named, split_word};

/// What another client does to a message of the far mailbox.
#[derive(Clone, Copy)]
pub struct FarAct {
    /// The command before which it does so.
    pub command: StopCommand,
    /// Before which command of this name, counted from 1 over the trial.
    pub number: u64,
    /// The message.
    pub uid: Uid,
    /// What it does.
    pub deed: MessageDeed,
}

/// What other clients do to messages in a trial, in the order of the lines.
#[derive(Drop)]
pub struct TrialActs {
    /// At the far mailbox.
    pub far: Vec<FarAct>,
    /// In the folder of the near one.
    pub near: Vec<FileAct>,
}

/// When something is done, and what stands after that: the words of its line.
#[derive(Clone, Copy)]
struct Acting<'a> {
    side: Side,
    call: &'a [u8],
    number: u64,
    /// The message, and what becomes of its flags.
    target: &'a [u8],
}

/// A message, and what becomes of its flags.
#[derive(Clone, Copy)]
struct FlagAct {
    uid: Uid,
    set: Flags,
    clear: Flags,
}

impl TrialActs {
    /// Nothing.
    pub fn new(alloc: Global) -> Self
        ensures far { result.far.items ≡ [] }
        ensures near { result.near.items ≡ [] }
    {
        TrialActs {
            far: Vec::new(alloc),
            near: Vec::new(alloc),
        }
    }

    /// Whether nothing is done.
    pub fn is_empty(&self) -> bool
        ensures { IsTrue result ↔ NobodyActs self.now }
    {
        self.far.is_empty() && self.near.is_empty()
    }

    /// Adds what a line says after its word `flag`: `far before CALL k UID +LETTERS -LETTERS`, CALL a command, or `near` and a call of
    /// the folder. Its flags have a name by this map.
    pub fn add_flags(
        &mut self,
        text: &[u8],
        keywords: &Keywords,
        line: Line<'_>,
    ) -> Result<(), WorldFault>
        ensures fault { IfErr result (IsOf line.entry.number) }
        ensures adds { OnOk result ((said : Said) → AddsFlags text.now (with_acts self.old said) (with_acts self.new said)) }
    {
        let Some(acting) = Acting::read(text) else {
            return Err(WorldFault::of(line));
        };
        let Some(change) = FlagAct::read(acting.target, keywords) else {
            return Err(WorldFault::of(line));
        };
        let deed = MessageDeed::Flag {
            set: change.set,
            clear: change.clear,
        };
        self.push(acting, change.uid, deed, line)
    }

    /// Adds what a line says after its word `remove`: `far before CALL k UID`, CALL a command, or `near` and a call of the folder.
    pub fn add_removal(&mut self, text: &[u8], line: Line<'_>) -> Result<(), WorldFault>
        ensures fault { IfErr result (IsOf line.entry.number) }
        ensures adds { OnOk result ((said : Said) → AddsAct Removal text.now (with_acts self.old said) (with_acts self.new said)) }
    {
        let Some(acting) = Acting::read(text) else {
            return Err(WorldFault::of(line));
        };
        match read_uid(acting.target) {
            Some(uid) => self.push(acting, uid, MessageDeed::Remove, line),
            None => Err(WorldFault::of(line)),
        }
    }

    fn push(
        &mut self,
        acting: Acting<'_>,
        uid: Uid,
        deed: MessageDeed,
        line: Line<'_>,
    ) -> Result<(), WorldFault>
        ensures fault { IfErr result (IsOf line.entry.number) }
        ensures adds { OnOk result ((said : Said) (text : List ℕ) → IsActing text acting.entry → target_text uid deed ≡ acting.entry.target.now
            → AddsAct deed text (with_acts self.old said) (with_acts self.new said)) }
    {
        match acting.side {
            Side::Far => self.push_far(acting, uid, deed, line),
            Side::Near => self.push_near(acting, uid, deed, line),
        }
    }

    fn push_far(
        &mut self,
        acting: Acting<'_>,
        uid: Uid,
        deed: MessageDeed,
        line: Line<'_>,
    ) -> Result<(), WorldFault>
        ensures fault { IfErr result (IsOf line.entry.number) }
        ensures near { self.new.near ≡ self.old.near }
        ensures adds { OnOk result ((command : StopCommand) × (command_word command ≡ acting.entry.call.now) × (self.new.far.items
            ≡ self.old.far.items ++ record { command = command; number = acting.entry.number; uid = uid; deed = deed } ∷ [])) }
    {
        let Some(command) = command_of(acting.call) else {
            return Err(WorldFault::of(line));
        };
        Ok(
            self.far.push(FarAct {
                command,
                number: acting.number,
                uid,
                deed,
            })?,
        )
    }

    fn push_near(
        &mut self,
        acting: Acting<'_>,
        uid: Uid,
        deed: MessageDeed,
        line: Line<'_>,
    ) -> Result<(), WorldFault>
        ensures fault { IfErr result (IsOf line.entry.number) }
        ensures far { self.new.far ≡ self.old.far }
        ensures adds { OnOk result ((call : FolderCall) × (folder_word call ≡ acting.entry.call.now) × (self.new.near.items
            ≡ self.old.near.items ++ record { call = call; number = acting.entry.number; uid = uid; deed = file_deed deed } ∷ [])) }
    {
        let Some(call) = folder_call_of(acting.call) else {
            return Err(WorldFault::of(line));
        };
        Ok(
            self.near.push(FileAct {
                call,
                number: acting.number,
                uid,
                deed: file_deed(deed),
            })?,
        )
    }
}

/// The same done to the file of a message.
fn file_deed(deed: MessageDeed) -> FileDeed
    ensures { result ≡ file_deed deed }
{
    match deed {
        MessageDeed::Flag { set, clear } => FileDeed::Flag { set, clear },
        MessageDeed::Remove => FileDeed::Remove,
    }
}

impl<'a> Acting<'a> {
    fn read(text: &'a [u8]) -> Option<Acting<'a>>
        ensures { IfSome result (IsActing text.now) }
    {
        let (side, text) = split_word(text)?;
        let (moment, text) = split_word(text)?;
        let (call, text) = split_word(text)?;
        let (number, target) = split_word(text)?;
        if moment != b"before".as_slice() {
            return None;
        }
        Some(Acting {
            side: Side::from_word(side)?,
            call,
            number: read_ordinal(number)?,
            target,
        })
    }
}

impl FlagAct {
    /// `UID +LETTERS -LETTERS`, where an empty part is left out with its space.
    fn read(text: &[u8], keywords: &Keywords) -> Option<FlagAct>
        ensures { IfSome result (λ change. target_text change.uid (Flagging change.set change.clear) ≡ text.now) }
    {
        let Some((uid, signed)) = split_word(text) else {
            return Some(FlagAct {
                uid: read_uid(text)?,
                set: Flags::none(),
                clear: Flags::none(),
            });
        };
        let (set, clear) = read_signed(signed, keywords)?;
        Some(FlagAct {
            uid: read_uid(uid)?,
            set,
            clear,
        })
    }
}

/// `+LETTERS`, `-LETTERS`, or both with a space between.
fn read_signed(text: &[u8], keywords: &Keywords) -> Option<(Flags, Flags)>
    ensures { IfSome result (λ flags. change_text (codes " +") flags.0 ++ change_text (codes " -") flags.1 ≡ 32 ∷ text.now) }
{
    if let Some((set, clear)) = split_word(text) {
        let set = read_after(b"+", set, keywords)?;
        return Some((set, read_after(b"-", clear, keywords)?));
    }
    match read_after(b"+", text, keywords) {
        Some(set) => Some((set, Flags::none())),
        None => Some((Flags::none(), read_after(b"-", text, keywords)?)),
    }
}

/// The flags after this sign, of which there is at least one.
fn read_after(sign: &[u8], word: &[u8], keywords: &Keywords) -> Option<Flags>
    ensures { IfSome result (λ flags. change_text (32 ∷ sign.now) flags ≡ 32 ∷ word.now) }
{
    let flags = read_named(word.strip_prefix(sign)?, keywords)?;
    if flags.is_empty() { None } else { Some(flags) }
}
