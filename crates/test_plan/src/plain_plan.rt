//! The plain planner: each question is a walk over a whole list. What the planner answers is compared with it.

use mailcore::flags::{Flag, Flags};
use mailcore::listing::Item;
use mailcore::side::{Direction, Side};
use mailcore::tuid::Tuid;
use planner::state::{Entry, Note, Options, Step, SyncState};
use rules::entry::ListedPair;
use rules::flag_rule::{recorded_after, taken, with_deleted};
use std::alloc::Global;

/// What a plan is made on.
#[derive(Clone, Copy)]
pub struct Plain<'a> {
    /// The far messages.
    pub far: &'a [Item],
    /// The near ones.
    pub near: &'a [Item],
    /// What the last run recorded.
    pub state: &'a SyncState,
    /// What the run may do.
    pub options: &'a Options,
}

/// Both ways of a message.
const DIRECTIONS: [Direction; 2] = [Direction::Pull, Direction::Push];

/// Both sides.
const SIDES: [Side; 2] = [Side::Far, Side::Near];

/// What the plain planner makes.
#[derive(Drop)]
pub struct PlainPlan {
    /// The steps of the plan.
    pub steps: Vec<Step>,
    /// Its notes.
    pub notes: Vec<Note>,
    /// Whether memory ran out.
    pub is_lost: bool,
}

impl PlainPlan {
    fn step(&mut self, step: Step) {
        if self.steps.push(step).is_err() {
            self.is_lost = true;
        }
    }
}

impl<'a> Plain<'a> {
    /// The plan, under these marks.
    pub fn plan(self, alloc: Global, marks: &[Tuid]) -> PlainPlan {
        let mut plan = PlainPlan {
            steps: Vec::new(alloc),
            notes: Vec::new(alloc),
            is_lost: false,
        };
        for direction in DIRECTIONS.iter() {
            self.push_new(*direction, marks, &mut plan);
        }
        for direction in DIRECTIONS.iter() {
            self.push_gones(*direction, &mut plan);
        }
        for direction in DIRECTIONS.iter() {
            self.push_flags(*direction, &mut plan);
        }
        for side in SIDES.iter() {
            self.push_expunges(*side, &mut plan);
        }
        self.push_notes(&mut plan);
        plan
    }

    fn push_notes(self, plan: &mut PlainPlan) {
        for entry in self.entries() {
            if let Some(note) = self.record(entry) {
                if plan.notes.push(note).is_err() {
                    plan.is_lost = true;
                }
            }
        }
        for entry in self.entries() {
            if self.vanishes(Side::Far, entry) && self.vanishes(Side::Near, entry) {
                let note = Note::Drop {
                    far: entry.far,
                    near: entry.near,
                };
                if plan.notes.push(note).is_err() {
                    plan.is_lost = true;
                }
            }
        }
    }

    fn push_new(self, direction: Direction, marks: &[Tuid], plan: &mut PlainPlan) {
        for item in self.items(direction.source()) {
            if let (true, Some(mark)) = (
                self.is_new(direction, item),
                marks.get(plan.steps.len()),
            ) {
                plan.step(Step::New {
                    direction,
                    uid: item.uid,
                    flags: item.flags,
                    mark: *mark,
                });
            }
        }
    }

    fn push_gones(self, direction: Direction, plan: &mut PlainPlan) {
        for item in self.items(direction.target()) {
            if let Some(step) = self.gone(direction, item) {
                plan.step(step);
            }
        }
    }

    fn push_flags(self, direction: Direction, plan: &mut PlainPlan) {
        if self.options.cells.flags.goes(direction) {
            for entry in self.entries() {
                if let Some(step) = self.changed(direction, entry) {
                    plan.step(step);
                }
            }
        }
    }

    fn push_expunges(self, side: Side, plan: &mut PlainPlan) {
        for item in self.items(side) {
            if self.is_expunged(side, item.uid.get()) {
                plan.step(Step::Expunge {
                    side,
                    uid: item.uid,
                });
            }
        }
    }

    /// Whether the message is copied.
    fn is_new(self, direction: Direction, item: &Item) -> bool {
        let side = direction.source();
        let number = item.uid.get();
        let highest = match direction {
            Direction::Pull => self.state.max_pulled,
            Direction::Push => self.state.max_pushed,
        };
        self.options.cells.new.goes(direction)
            && highest < number
            && !self.is_named(side, number)
            && !(item.flags.has(Flag::Deleted) && self.options.expunge.covers(side))
            && item.fit
    }

    /// Whether an entry has this UID on this side.
    fn is_named(self, side: Side, number: u32) -> bool {
        for entry in self.entries() {
            if entry.number(side) == number {
                return true;
            }
        }
        false
    }

    /// The step of a message of the target whose counterpart has gone.
    fn gone(self, direction: Direction, item: &Item) -> Option<Step> {
        let entry = self.full(direction.target(), item.uid.get())?;
        let (far, near) = entry.uids()?;
        let source = direction.source();
        let is_listed = self.flags_at(source, entry.number(source)).is_some();
        if is_listed || !self.options.cells.gone.goes(direction) {
            return None;
        }
        Some(Step::Gone {
            direction,
            far,
            near,
        })
    }

    /// The step of a pair whose flags have changed on the source.
    fn changed(self, direction: Direction, entry: &Entry) -> Option<Step> {
        let pair = self.pair(entry)?;
        let (before, source) = match direction {
            Direction::Pull => (pair.near_flags, pair.far_flags),
            Direction::Push => (pair.far_flags, pair.near_flags),
        };
        let after = taken(source, before, pair.recorded);
        if before == after {
            return None;
        }
        Some(Step::Flags {
            direction,
            far: pair.far,
            near: pair.near,
            set: after.minus(before),
            cleared: before.minus(after),
        })
    }

    /// The note of a pair whose recorded flags change.
    fn record(self, entry: &Entry) -> Option<Note> {
        let pair = self.pair(entry)?;
        let cells = self.options.cells.flags;
        let flags = recorded_after(
            cells.pull,
            cells.push,
            pair.far_flags,
            pair.near_flags,
            pair.recorded,
        );
        if flags == pair.recorded {
            return None;
        }
        Some(Note::Record {
            far: pair.far,
            near: pair.near,
            flags,
        })
    }

    /// Whether nothing is left of an entry on a side.
    fn vanishes(self, side: Side, entry: &Entry) -> bool {
        let number = entry.number(side);
        number == 0 || self.flags_at(side, number).is_none() || self.is_expunged(side, number)
    }

    /// Whether a message is removed.
    fn is_expunged(self, side: Side, number: u32) -> bool {
        match self.flags_at(side, number) {
            Some(flags) => {
                self.options.expunge.covers(side)
                    && self.flags_then(side, number, flags).has(Flag::Deleted)
            }
            None => false,
        }
    }

    /// A message's flags after the other steps.
    fn flags_then(self, side: Side, number: u32, flags: Flags) -> Flags {
        let Some(entry) = self.full(side, number) else {
            return flags;
        };
        let cells = self.options.cells;
        let direction = side.towards();
        match self.flags_at(side.other(), entry.number(side.other())) {
            None if cells.gone.goes(direction) => with_deleted(flags),
            Some(theirs) if cells.flags.goes(direction) => taken(theirs, flags, entry.flags),
            _ => flags,
        }
    }

    /// The pair of an entry whose messages are both listed.
    fn pair(self, entry: &Entry) -> Option<ListedPair> {
        let (far, near) = entry.uids()?;
        Some(ListedPair {
            far,
            near,
            far_flags: self.flags_at(Side::Far, far.get())?,
            near_flags: self.flags_at(Side::Near, near.get())?,
            recorded: entry.flags,
        })
    }

    /// The full entry with this UID on this side.
    fn full(self, side: Side, number: u32) -> Option<Entry> {
        for entry in self.entries() {
            if entry.is_full() && entry.number(side) == number {
                return Some(*entry);
            }
        }
        None
    }

    /// The flags of the message with this UID.
    fn flags_at(self, side: Side, number: u32) -> Option<Flags> {
        for item in self.items(side) {
            if item.uid.get() == number {
                return Some(item.flags);
            }
        }
        None
    }

    fn items(self, side: Side) -> &'a [Item] {
        match side {
            Side::Far => self.far,
            Side::Near => self.near,
        }
    }

    fn entries(self) -> &'a [Entry] {
        self.state.entries.as_slice()
    }
}
