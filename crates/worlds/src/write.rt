//! How the text of a world is written (docs/FORMATS.md, "World").

ghost use Rattle.std.specs.Prelude.{◌≡◌, ◌++◌, true, [], ◌∷◌, OnOk, map, string_bytes};
ghost use Rattle.std.specs.List.{flat_map};
ghost use Rattle.mailcore.specs.KeywordNames.{is_keyword_letter, is_keyword_name};
ghost use Rattle.worlds.specs.Keywords.{keyword_lines};
ghost use Rattle.worlds.specs.WorldText.{mailbox_text, quoted, state_text, text_from_far, waiting_line};
ghost use Rattle.worlds.specs.Worlds.{store_of, waiting_of, world_of};
ghost use Rattle.worlds.specs.OptionsText.{expunge_word, options_text, or_none, word_if, words_of};
ghost use Rattle.worlds.specs.Written.{store_in, world_in};

use crate::plan_lines::FlagsWord;
use crate::world::{WaitingFile, World};
use mailcore::flags::Flags;
use mailcore::keywords::{Keyword, Keywords};
use mailcore::mailbox::{Message, StoredMailbox};
use mailcore::octets::Octets;
use mailcore::side::Side;
use rules::options::{Cells, Options, Sides};
use rules::state::SyncState;
use std::alloc::AllocError;
use texts::escape::push_escaped;

/// Adds the text of a world.
pub fn write_world(text: &mut String, world: &World) -> Result<(), AllocError>
    ensures { OnOk result (string_bytes text.new ≡ string_bytes text.old ++ options_text world.now.options ++ text_from_far (world_of world.now)) }
{
    write_options(text, &world.options)?;
    write_from_far(text, world)
}

/// Adds the text of a world from its line `far` on.
pub fn write_from_far(text: &mut String, world: &World) -> Result<(), AllocError>
    ensures { OnOk result (string_bytes text.new ≡ string_bytes text.old ++ text_from_far (world_of world.now)) }
{
    let parts = WrittenWorld {
        far: WrittenMailbox::of(&world.far),
        near: WrittenMailbox::of(&world.near),
        waiting: &world.waiting,
        state: &world.state,
    };
    write_parts(text, &parts)
}

/// A mailbox as it is written: its numbers, and its messages in the order of their UIDs.
#[derive(Clone, Copy)]
pub struct WrittenMailbox<'a> {
    /// Its UIDVALIDITY.
    pub validity: u32,
    /// Its UIDNEXT.
    pub next: u32,
    /// Its messages.
    pub messages: &'a [Message],
}

impl<'a> WrittenMailbox<'a> {
    /// This mailbox.
    pub fn of(mailbox: &'a StoredMailbox) -> Self
        ensures { store_in result ≡ store_of mailbox.now }
    {
        WrittenMailbox {
            validity: mailbox.validity,
            next: mailbox.next,
            messages: mailbox.messages.as_slice(),
        }
    }
}

/// A world without what the run may do, wherever its parts stand.
#[derive(Clone, Copy)]
pub struct WrittenWorld<'a> {
    /// The far mailbox.
    pub far: WrittenMailbox<'a>,
    /// The near mailbox.
    pub near: WrittenMailbox<'a>,
    /// The near files that wait for a UID, in the order of their names.
    pub waiting: &'a [WaitingFile],
    /// What the last run recorded.
    pub state: &'a SyncState,
}

/// Adds the lines of a world from its line `far` on.
pub fn write_parts(text: &mut String, parts: &WrittenWorld<'_>) -> Result<(), AllocError>
    ensures { OnOk result (string_bytes text.new ≡ string_bytes text.old ++ text_from_far (world_in parts.now)) }
{
    write_mailbox(text, Side::Far, &parts.far)?;
    write_mailbox(text, Side::Near, &parts.near)?;
    write_waiting(text, parts.waiting)?;
    write_state(text, parts.state)?;
    text.push_str("end\n")
}

/// Adds the lines of a world that say what the run may do.
pub fn write_options(text: &mut String, options: &Options) -> Result<(), AllocError>
    ensures { OnOk result (string_bytes text.new ≡ string_bytes text.old ++ options_text options.now) }
{
    text.push_str("sync")?;
    write_cells(text, &options.cells)?;
    text.push_str("\nexpunge ")?;
    text.push_str(expunge_word(options.expunge))?;
    text.push_str("\n")?;
    write_keywords(text, &options.keywords)
}

/// The word for the sides that are expunged.
fn expunge_word(sides: Sides) -> &'static str
    ensures { result.now ≡ expunge_word sides }
{
    match (sides.far, sides.near) {
        (false, false) => "None",
        (true, false) => "Far",
        (false, true) => "Near",
        (true, true) => "Both",
    }
}

/// Adds a compound word for each cell that is on, or `None`.
fn write_cells(text: &mut String, cells: &Cells) -> Result<(), AllocError>
    ensures { OnOk result (string_bytes text.new ≡ string_bytes text.old ++ or_none (words_of cells.now)) }
{
    let before = text.len();
    write_if(text, cells.new.pull, " PullNew")?;
    write_if(text, cells.gone.pull, " PullGone")?;
    write_if(text, cells.flags.pull, " PullFlags")?;
    write_if(text, cells.new.push, " PushNew")?;
    write_if(text, cells.gone.push, " PushGone")?;
    write_if(text, cells.flags.push, " PushFlags")?;
    if text.len() == before {
        text.push_str(" None")?;
    }
    Ok(())
}

/// Adds a word for a cell that is on.
fn write_if(text: &mut String, is_on: bool, word: &str) -> Result<(), AllocError>
    ensures { OnOk result (string_bytes text.new ≡ string_bytes text.old ++ word_if is_on word.now) }
{
    if is_on {
        return text.push_str(word);
    }
    Ok(())
}

/// Adds a line for each keyword, in the order of the letters.
fn write_keywords(text: &mut String, keywords: &Keywords) -> Result<(), AllocError>
    ensures { OnOk result (string_bytes text.new ≡ string_bytes text.old ++ keyword_lines keywords.now []) }
{
    for keyword in keywords.as_slice() {
        write_keyword(text, keyword)?;
    }
    Ok(())
}

fn write_keyword(text: &mut String, keyword: &Keyword) -> Result<(), AllocError>
    requires letter { is_keyword_letter keyword.now.letter ≡ true }
    requires name { is_keyword_name keyword.now.name ≡ true }
    ensures { OnOk result (string_bytes text.new ≡ string_bytes text.old ++ keyword_lines (keyword.now ∷ []) []) }
{
    text.push_str("keyword ")?;
    text.push(char::from(keyword.letter))?;
    text.push(' ')?;
    for &byte in keyword.name.as_slice() {
        text.push(char::from(byte))?;
    }
    text.push('\n')
}

fn write_mailbox(
    text: &mut String,
    side: Side,
    mailbox: &WrittenMailbox<'_>,
) -> Result<(), AllocError>
    ensures { OnOk result (string_bytes text.new ≡ string_bytes text.old ++ mailbox_text side (store_in mailbox.now)) }
{
    let letter = match side {
        Side::Far => 'f',
        Side::Near => 'n',
    };
    writeln!(text, "{side} {} {}", mailbox.validity, mailbox.next)?;
    for message in mailbox.messages {
        let uid = message.uid.get();
        write!(text, "{letter} {uid} {} ", FlagsWord(message.flags))?;
        write_bytes(text, &message.bytes)?;
    }
    Ok(())
}

/// Adds the lines of the files that wait for a UID.
fn write_waiting(text: &mut String, files: &[WaitingFile]) -> Result<(), AllocError>
    ensures { OnOk result (string_bytes text.new ≡ string_bytes text.old ++ flat_map waiting_line (map waiting_of files.now)) }
{
    for file in files {
        write!(text, "w {} ", FlagsWord(file.flags))?;
        write_bytes(text, &file.bytes)?;
    }
    Ok(())
}

/// Adds the quoted text of bytes and ends the line.
fn write_bytes(text: &mut String, bytes: &Octets) -> Result<(), AllocError>
    ensures { OnOk result (string_bytes text.new ≡ string_bytes text.old ++ quoted bytes.now ++ 10 ∷ []) }
{
    text.push('"')?;
    push_escaped(text, bytes.as_slice())?;
    text.push_str("\"\n")
}

fn write_state(text: &mut String, state: &SyncState) -> Result<(), AllocError>
    ensures { OnOk result (string_bytes text.new ≡ string_bytes text.old ++ state_text state.now) }
{
    let (run, far, near) = (state.run, state.far_validity, state.near_validity);
    let (pulled, pushed) = (state.max_pulled, state.max_pushed);
    writeln!(text, "state {run} {far} {near} {pulled} {pushed}")?;
    for entry in state.entries.as_slice() {
        let (far, near) = (entry.number(Side::Far), entry.number(Side::Near));
        writeln!(text, "e {far} {near} {}", FlagsWord(entry.flags))?;
    }
    Ok(())
}
