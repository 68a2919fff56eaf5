//! Steps and notes, which stand in the order of their places, each with its line.

ghost use Rattle.std.specs.Prelude.{◌≡◌, ◌≢◌, ◌+◌, ◌<◌, ℕ, List, [], length, IfOk, IfErr, IfSome, IfNone};
ghost use Rattle.sync_state.specs.Lines.{HasLine, HasNoLine};
ghost use Rattle.sync_state.specs.JournalText.{step_line, note_line, step_place, note_place};
ghost use Rattle.sync_state.specs.JournalReading.{IsStepIn, IsNoteIn, ItemsRead, ReportsItem};
ghost use Rattle.sync_state.specs.Places.{place_at};

use crate::fault::BookFault;
use crate::journal_lines::{read_note, read_step};
use crate::place::StepPlace;
use crate::version::Version;
use rules::plan::{Note, Step};
use std::alloc::Global;
use texts::cut::cut;
use texts::lines::Lines;

/// What has a line in a plan, and a place in its order.
pub trait PlanItem: Copy {
    ghost use Rattle.sync_state.specs.declared.version.Version.{Version};

    /// The values that a text of a version may hold.
    ghost fits: { Version → Self → Type 0 };

    /// The line of a value.
    ghost line: { Self → List ℕ };

    /// The place of a value.
    ghost place: { Self → ℕ × ℕ × ℕ };

    /// The value with this line in a text of this version.
    fn of_line(text: &[u8], version: Version) -> Option<Self>
        ensures some { IfSome result (λ a. fits version a × (text.now ≡ line a)) }
        ensures none { IfNone result ((a : Self) → fits version a → text.now ≢ line a) };

    /// Its place. A text of the second version may hold each value of this type.
    fn place(&self) -> StepPlace
        ensures place { place_at result ≡ place self.now }
        ensures fits { fits Version.Two self.now };
}

impl PlanItem for Step {
    ghost fits = { IsStepIn };

    ghost line = { step_line };

    ghost place = { step_place };

    fn of_line(text: &[u8], version: Version) -> Option<Step> {
        let step = read_step(text)?;
        if version.has_letters_of_step(&step) {
            Some(step)
        } else {
            None
        }
    }

    fn place(&self) -> StepPlace {
        step_fits(*self);
        StepPlace::of_step(self)
    }
}

impl PlanItem for Note {
    ghost fits = { IsNoteIn };

    ghost line = { note_line };

    ghost place = { note_place };

    fn of_line(text: &[u8], version: Version) -> Option<Note> {
        let note = read_note(text)?;
        if version.has_letters_of_note(&note) {
            Some(note)
        } else {
            None
        }
    }

    fn place(&self) -> StepPlace {
        note_fits(*self);
        StepPlace::of_note(self)
    }
}

/// What the types of a step's parts say.
fn step_fits(step: Step)
    ensures { IsStepIn Version.Two step }
{}

/// What the types of a note's parts say.
fn note_fits(note: Note)
    ensures { IsNoteIn Version.Two note }
{}

/// Takes the next line if it is one of these in a text of this version.
fn take_item<A: PlanItem>(lines: &mut Lines<'_>, version: Version) -> Option<A>
    ensures some { IfSome result (λ a. HasLine [] (A.fits version) A.line a lines.old.rest.now lines.new.rest.now) }
    ensures taken { IfSome result (λ _. lines.new.taken ≡ lines.old.taken + 1) }
    ensures shorter { IfSome result (λ _. length lines.new.rest.now < length lines.old.rest.now) }
    ensures none { IfNone result (HasNoLine [] (A.fits version) A.line lines.old.rest.now) }
    ensures unchanged { IfNone result (lines.new ≡ lines.old) }
{
    let (text, rest) = cut(lines.rest, b'\n')?;
    let item = A::of_line(text, version)?;
    lines.taken += 1;
    lines.rest = rest;
    Some(item)
}

/// Those of the next lines. `BadJournal`: one is not in order after those before it.
pub fn read_items<A: PlanItem>(
    alloc: Global,
    lines: &mut Lines<'_>,
    version: Version,
) -> Result<Vec<A>, BookFault>
    ensures ok { IfOk result (λ items. ItemsRead (A.fits version) A.line A.place items.items lines.old.rest.now lines.new.rest.now) }
    ensures taken { IfOk result (λ items. lines.new.taken ≡ lines.old.taken + length items.items) }
    ensures refused { IfErr result (ReportsItem (A.fits version) A.line A.place lines.old.taken lines.old.rest.now) }
{
    let mut items = Vec::new(alloc);
    let mut last = StepPlace::BOTTOM;
    while let Some(item) = take_item::<A>(lines, version) {
        let place = item.place();
        if !last.is_below(place) {
            return Err(BookFault::BadJournal(lines.taken));
        }
        items.push(item)?;
        last = place;
    }
    Ok(items)
}
