//! The places of steps and notes in the order of a plan.

ghost use Rattle.std.specs.Prelude.{◌≡◌};
ghost use Rattle.sync_state.specs.JournalText.{step_place, note_place, is_below};
ghost use Rattle.sync_state.specs.Places.{place_at, rank};

use mailcore::side::{Direction, Side};
use rules::plan::{Note, Step};

/// The kinds of steps and notes, in the order of a plan.
#[derive(Clone, Copy, PartialEq, Eq, PartialOrd, Ord)]
enum StepKind {
    NewPull,
    NewPush,
    GonePull,
    GonePush,
    FlagsPull,
    FlagsPush,
    ExpungeFar,
    ExpungeNear,
    RecordFlags,
    DropEntry,
}

/// The kind of a step or a note, and the UIDs by which those of its kind rise.
#[derive(Clone, Copy)]
pub struct StepPlace {
    kind: StepKind,
    first: u32,
    second: u32,
}

impl StepPlace {
    /// Below each step and each note.
    pub const BOTTOM: StepPlace = StepPlace {
        kind: StepKind::NewPull,
        first: 0,
        second: 0,
    };

    /// The place of a step.
    pub fn of_step(step: &Step) -> StepPlace
        ensures { place_at result ≡ step_place step.now }
    {
        match *step {
            Step::New { direction, uid, .. } => match direction {
                Direction::Pull => StepPlace::at(StepKind::NewPull, uid.get(), 0),
                Direction::Push => StepPlace::at(StepKind::NewPush, uid.get(), 0),
            },
            Step::Gone {
                direction,
                far,
                near,
            } => match direction {
                Direction::Pull => StepPlace::at(StepKind::GonePull, near.get(), 0),
                Direction::Push => StepPlace::at(StepKind::GonePush, far.get(), 0),
            },
            Step::Flags { direction, far, .. } => match direction {
                Direction::Pull => StepPlace::at(StepKind::FlagsPull, far.get(), 0),
                Direction::Push => StepPlace::at(StepKind::FlagsPush, far.get(), 0),
            },
            Step::Expunge { side, uid } => match side {
                Side::Far => StepPlace::at(StepKind::ExpungeFar, uid.get(), 0),
                Side::Near => StepPlace::at(StepKind::ExpungeNear, uid.get(), 0),
            },
        }
    }

    /// The place of a note.
    pub fn of_note(note: &Note) -> StepPlace
        ensures { place_at result ≡ note_place note.now }
    {
        match *note {
            Note::Record { far, near, .. } => StepPlace::at(
                StepKind::RecordFlags,
                far.get(),
                near.get(),
            ),
            Note::Drop { far, near } => StepPlace::at(
                StepKind::DropEntry,
                far.map_or(0, |uid| uid.get()),
                near.map_or(0, |uid| uid.get()),
            ),
        }
    }

    fn at(kind: StepKind, first: u32, second: u32) -> StepPlace
        ensures { place_at result ≡ (rank kind, first, second) }
    {
        StepPlace {
            kind,
            first,
            second,
        }
    }

    /// Whether this place is below another.
    pub fn is_below(self, other: StepPlace) -> bool
        ensures { result ≡ is_below (place_at self) (place_at other) }
    {
        self.kind < other.kind
            || (self.kind == other.kind
                && (self.first < other.first
                    || (self.first == other.first && self.second < other.second)))
    }
}
