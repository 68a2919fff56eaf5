//! The lines `state` and `e` of a world.

ghost use Rattle.std.specs.Prelude.{◌≡◌, ◌+◌, ◌≤◌, ◌++◌, [], ◌∷◌, IfErr, IfOk, IfSome, OnOk};
ghost use Rattle.std.specs.List.{flat_map, join_with_byte};
ghost use Rattle.rules.specs.declared.entry.Entry.{Entry};
ghost use Rattle.worlds.specs.Lines.{IsOf, IsUpTo};
ghost use Rattle.worlds.specs.WorldText.{entry_line, entry_words, state_text, state_words};
ghost use Rattle.texts.specs.Lines.{line_count, line_ends};

use crate::fault::WorldFault;
use crate::line::{pushed, take_line};
use crate::words::split_word;
use mailcore::words::{read_flags, read_highest, read_side_uid};
use rules::entry::{Entries, Entry};
use rules::state::SyncState;
use std::alloc::Global;
use texts::lines::{Line, Lines};
use texts::number::{read_number, read_u32};

/// What the last run recorded, from the next lines.
pub fn read_state(alloc: Global, lines: &mut Lines<'_>) -> Result<SyncState, WorldFault>
    ensures text { IfOk result (λ state. lines.old.rest.now ≡ state_text state ++ lines.new.rest.now) }
    ensures count { line_count lines.new ≤ line_count lines.old }
    ensures fault { IfErr result (IsUpTo (line_count lines.old + 1)) }
{
    let line = take_line(lines, b"state ")?;
    let mut state = read_numbers(alloc, line.text).ok_or(WorldFault::of(line))?;
    if state.run > 0 {
        state.entries = read_entries(alloc, lines)?;
    }
    Ok(state)
}

/// A state without entries: run 0 and nothing else, or a later run with both UIDVALIDITYs.
fn read_numbers(alloc: Global, text: &[u8]) -> Option<SyncState>
    ensures words { IfSome result (λ state. text.now ≡ join_with_byte 32 (state_words state)) }
    ensures none { IfSome result (λ state. state.entries ≡ []) }
{
    let (run, text) = split_word(text)?;
    let (far_validity, text) = split_word(text)?;
    let (near_validity, text) = split_word(text)?;
    let (max_pulled, max_pushed) = split_word(text)?;
    let state = SyncState {
        run: read_number(run, u64::MAX)?,
        far_validity: read_u32(far_validity, u32::MAX)?,
        near_validity: read_u32(near_validity, u32::MAX)?,
        max_pulled: read_highest(max_pulled)?,
        max_pushed: read_highest(max_pushed)?,
        entries: Entries::new(alloc),
    };
    if has_valid_numbers(&state) {
        Some(state)
    } else {
        None
    }
}

fn has_valid_numbers(state: &SyncState) -> bool {
    if state.run == 0 {
        state.far_validity == 0
            && state.near_validity == 0
            && state.max_pulled == 0
            && state.max_pushed == 0
    } else {
        state.far_validity > 0 && state.near_validity > 0
    }
}

/// The entries of the next lines.
fn read_entries(alloc: Global, lines: &mut Lines<'_>) -> Result<Entries, WorldFault>
    ensures text { IfOk result (λ entries. lines.old.rest.now ≡ flat_map entry_line entries ++ lines.new.rest.now) }
    ensures count { line_count lines.new ≤ line_count lines.old }
    ensures fault { IfErr result (IsUpTo (line_count lines.old + 1)) }
{
    let mut entries = Entries::new(alloc);
    while let Some(line) = lines.take_if(b"e ") {
        push_entry(&mut entries, line)?;
    }
    Ok(entries)
}

/// Adds the entry of a line after the others.
fn push_entry(entries: &mut Entries, line: Line<'_>) -> Result<(), WorldFault>
    ensures entry { OnOk result ((entry : Entry) × (line.entry.text.now ≡ join_with_byte 32 (entry_words entry)) × (entries.new ≡ entries.old ++ entry ∷ [])) }
    ensures fault { IfErr result (IsOf line.entry.number) }
{
    let Some(entry) = read_entry(line.text) else {
        return Err(WorldFault::of(line));
    };
    pushed(line, entries.push(entry))
}

/// The entry of a line. Its flags may be such as have no name now.
fn read_entry(text: &[u8]) -> Option<Entry>
    ensures { IfSome result (λ entry. text.now ≡ join_with_byte 32 (entry_words entry)) }
{
    let (far, text) = split_word(text)?;
    let (near, flags) = split_word(text)?;
    Some(Entry {
        far: read_side_uid(far)?,
        near: read_side_uid(near)?,
        flags: read_flags(flags)?,
    })
}
