//! The text of a state.

ghost use Rattle.std.specs.Prelude.{◌≡◌, ◌≢◌, ◌+◌, ◌++◌, ◌<◌, [], ◌∷◌, length, IfOk, IfErr, IfSome, IfNone, OnOk, OnErr, Err};
ghost use Rattle.rules.specs.declared.entry.Entry.{Entry};
ghost use Rattle.sync_state.specs.Lines.{lines_text, HasLine, HasNoLine};
ghost use Rattle.sync_state.specs.StateText.{StateText, IsEntry, entry_line, end_line, state_lines};
ghost use Rattle.sync_state.specs.Faults.{ReportsState};
ghost use Rattle.sync_state.specs.StateReading.{HeadRead, EntriesRead, ReportsEntry, ReportsEnd};

use crate::fault::BookFault;
use crate::fields::after;
use crate::lines::{push_line, take};
use crate::version::Version;
use crate::words::{Highest, Positive, RunNumber};
use mailcore::fault::PushFault;
use mailcore::flags::Flags;
use mailcore::uid::Uid;
use rules::entry::{Entries, Entry};
use rules::state::SyncState;
use std::alloc::Global;
use texts::cut::cut;
use texts::lines::Lines;

/// Far UID, near UID and flags.
type EntryFields = (Option<Uid>, (Option<Uid>, Flags));

/// The numbers with which a state begins.
#[derive(Clone, Copy)]
struct StateHead {
    version: Version,
    run: RunNumber,
    far: (Positive, Highest),
    near: (Positive, Highest),
}

/// The state with this text, in whatever version. `BadState`: it is the text of no state.
pub fn read_state_text(alloc: Global, text: &[u8]) -> Result<SyncState, BookFault>
    ensures spelled { IfOk result (λ state. StateText state text.now) }
    ensures refused { IfErr result (ReportsState text.now) }
{
    let mut lines = Lines::new(text);
    let head = read_head(&mut lines)?;
    let entries = read_entries(alloc, &mut lines, head.version)?;
    read_end(&mut lines)?;
    Ok(SyncState {
        run: head.run.0,
        far_validity: head.far.0.0,
        near_validity: head.near.0.0,
        max_pulled: head.far.1.0,
        max_pushed: head.near.1.0,
        entries,
    })
}

/// The numbers of the first four lines.
fn read_head(lines: &mut Lines<'_>) -> Result<StateHead, BookFault>
    requires { lines.old.taken ≡ 0 }
    ensures ok { IfOk result (λ head. HeadRead head lines.old.rest.now lines.new.rest.now) }
    ensures taken { OnOk result (lines.new.taken ≡ 4) }
    ensures refused { IfErr result (ReportsState lines.old.rest.now) }
{
    let Some(version) = take(lines, b"mbsync state ") else {
        return Err(BookFault::BadState(1));
    };
    let Some(run) = take(lines, b"run ") else {
        return Err(BookFault::BadState(2));
    };
    let Some(far) = take(lines, b"far ") else {
        return Err(BookFault::BadState(3));
    };
    let Some(near) = take(lines, b"near ") else {
        return Err(BookFault::BadState(4));
    };
    Ok(StateHead {
        version,
        run,
        far,
        near,
    })
}

/// The entries of the next lines.
fn read_entries(
    alloc: Global,
    lines: &mut Lines<'_>,
    version: Version,
) -> Result<Entries, BookFault>
    ensures ok { IfOk result (λ entries. EntriesRead version entries lines.old.rest.now lines.new.rest.now) }
    ensures taken { IfOk result (λ entries. lines.new.taken ≡ lines.old.taken + length entries) }
    ensures refused { IfErr result (ReportsEntry version lines.old.taken lines.old.rest.now) }
{
    let mut entries = Entries::new(alloc);
    while let Some(entry) = take_entry(lines, version) {
        match entries.push(entry) {
            Ok(()) => {}
            Err(PushFault::OutOfOrder) => return Err(BookFault::BadState(lines.taken)),
            Err(PushFault::NoMemory) => return Err(BookFault::NoMemory),
        }
    }
    Ok(entries)
}

/// Takes the next line if it is an entry of this version.
fn take_entry(lines: &mut Lines<'_>, version: Version) -> Option<Entry>
    ensures some { IfSome result (λ entry. HasLine [] (IsEntry version) entry_line entry lines.old.rest.now lines.new.rest.now) }
    ensures taken { IfSome result (λ _. lines.new.taken ≡ lines.old.taken + 1) }
    ensures shorter { IfSome result (λ _. length lines.new.rest.now < length lines.old.rest.now) }
    ensures none { IfNone result (HasNoLine [] (IsEntry version) entry_line lines.old.rest.now) }
    ensures unchanged { IfNone result (lines.new ≡ lines.old) }
{
    let (line, rest) = cut(lines.rest, b'\n')?;
    let entry = entry_of(line, version)?;
    lines.taken += 1;
    lines.rest = rest;
    Some(entry)
}

/// The entry with this line.
fn entry_of(line: &[u8], version: Version) -> Option<Entry>
    ensures some { IfSome result (λ entry. IsEntry version entry × (line.now ≡ entry_line entry)) }
    ensures none { IfNone result ((entry : Entry) → IsEntry version entry → line.now ≢ entry_line entry) }
{
    let (far, (near, flags)) = after::<EntryFields>(line, b"e ")?;
    if version.has_letters(flags) {
        Some(Entry { far, near, flags })
    } else {
        None
    }
}

/// The last line, after which nothing follows.
fn read_end(lines: &mut Lines<'_>) -> Result<(), BookFault>
    ensures ok { OnOk result (lines.old.rest.now ≡ end_line ++ 10 ∷ []) }
    ensures refused { IfErr result (ReportsEnd lines.old.taken lines.old.rest.now) }
{
    let Some(()) = take(lines, b"end") else {
        return Err(BookFault::BadState(lines.taken + 1));
    };
    if lines.rest.is_empty() {
        Ok(())
    } else {
        Err(BookFault::BadState(lines.taken + 1))
    }
}

/// The text of a state, in the second version. A state has one if it is of a run that was made, with UIDVALIDITYs from 1 on and no highest UID
/// above 4294967294.
pub fn write_state_text(alloc: Global, state: &SyncState) -> Result<Vec<u8>, BookFault>
    ensures spelled { IfOk result (λ text. text.items ≡ lines_text (state_lines Version.Two state.now)) }
    ensures no_memory { OnErr result (result ≡ Err BookFault.NoMemory) }
{
    let mut text = Vec::new(alloc);
    push_line(&mut text, b"mbsync state ", Version::Two)?;
    push_line(&mut text, b"run ", RunNumber(state.run))?;
    let far = (Positive(state.far_validity), Highest(state.max_pulled));
    push_line(&mut text, b"far ", far)?;
    let near = (Positive(state.near_validity), Highest(state.max_pushed));
    push_line(&mut text, b"near ", near)?;
    for entry in state.entries.as_slice() {
        push_line(&mut text, b"e ", (entry.far, (entry.near, entry.flags)))?;
    }
    push_line(&mut text, b"end", ())?;
    Ok(text)
}
