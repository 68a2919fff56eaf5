//! The planner beside the plain one, on drawn worlds.

use crate::drawn_worlds::{DrawnWorld, Numbers};
use crate::generator::Generator;
use crate::marks::drawn;
use crate::plain_plan::{Plain, PlainPlan};
use crate::turns::Bounds;
use mailcore::fault::CoreFault;
use mailcore::side::Side;
use mailcore::tuid::Tuid;
use planner::fault::PlanFault;
use planner::news::news;
use planner::plan::plan_in;
use planner::state::{Entry, Plan};
use planner::turns::Turns;
use std::alloc::Global;
use test_scripts::failure::Failure;
use test_scripts::reported::Reported;
use test_scripts::words::Words;

/// What was met in the worlds so far.
#[derive(Drop)]
struct Met {
    half_entries: usize,
    steps: usize,
    notes: usize,
    refused: usize,
    differ: usize,
    out_of_bounds: usize,
}

/// `COUNT`: prints in how many of so many drawn worlds the planner answers otherwise than the plain one, and in how many it takes
/// fewer or more turns than it may.
pub fn print_compared(alloc: Global, reported: &mut Reported, line: &mut Words<'_>) {
    let count = line.count();
    let mut numbers = Numbers::new(1);
    let mut met = Met {
        half_entries: 0,
        steps: 0,
        notes: 0,
        refused: 0,
        differ: 0,
        out_of_bounds: 0,
    };
    for _ in 0..count {
        let world = numbers.world(alloc);
        compare(alloc, &world, &mut met, line);
        drop(world);
    }
    if numbers.is_lost {
        reported.lose();
    }
    print_met(reported, count, &met);
}

fn print_met(reported: &mut Reported, count: usize, met: &Met) {
    reported.begin();
    for (number, words) in [
        (count, " worlds, "),
        (met.half_entries, " half entries, "),
        (met.steps, " steps, "),
        (met.notes, " notes, "),
        (met.refused, " refused, "),
        (met.differ, " differ, "),
        (met.out_of_bounds, " out of bounds"),
    ]
    .iter()
    {
        reported.number(*number as u64);
        reported.text(words);
    }
    reported.end();
}

/// Compares both planners on a world.
fn compare(alloc: Global, world: &DrawnWorld, met: &mut Met, line: &mut Words<'_>) {
    let (state, options) = (&world.state, &world.options);
    let (far, near) = (&world.far, &world.near);
    let wanted = news(far, near, state, options);
    let marks = counted_marks(alloc, wanted, line);
    if marks.len() == wanted {
        let mut turns = Turns::new();
        let planned = plan_in(alloc, far, near, state, options, &marks, &mut turns);
        met.add_halves(state.entries.as_slice());
        match planned {
            Ok(plan) => {
                let is_within = Bounds::of(far, near, state).hold(&turns);
                met.add_plan(&plan, &plain_of(world).plan(alloc, &marks), is_within, line);
                drop(plan);
            }
            Err(PlanFault::ValidityChanged(side)) => {
                met.add_refusal(changed_side(world) == Some(side), turns.count() == 0);
            }
            Err(PlanFault::NoMemory) => line.fail(Failure::NoMemory),
        }
    } else {
        line.refuse();
    }
}

/// So many marks, made of the words 1, 2, 3 ..
fn counted_marks(alloc: Global, count: usize, line: &mut Words<'_>) -> Vec<Tuid> {
    let mut generator = Generator { drawn: 0, step: 1 };
    match drawn(alloc, &mut generator, count) {
        Ok(marks) => return marks,
        Err(CoreFault::NoMemory) => line.fail(Failure::NoMemory),
        Err(_) => line.refuse(),
    }
    Vec::new(alloc)
}

fn plain_of(world: &DrawnWorld) -> Plain<'_> {
    Plain {
        far: world.far.items.as_slice(),
        near: world.near.items.as_slice(),
        state: &world.state,
        options: &world.options,
    }
}

impl Met {
    fn add_halves(&mut self, entries: &[Entry]) {
        for entry in entries {
            if !entry.is_full() {
                self.half_entries = self.half_entries.saturating_add(1);
            }
        }
    }

    /// A plan, and the plain one, which should be the same.
    fn add_plan(&mut self, plan: &Plan, plain: &PlainPlan, is_within: bool, line: &mut Words<'_>) {
        self.steps = self.steps.saturating_add(plain.steps.len());
        self.notes = self.notes.saturating_add(plain.notes.len());
        let is_same = plan.steps.as_slice() == plain.steps.as_slice()
            && plan.notes.as_slice() == plain.notes.as_slice();
        self.judge(is_same, is_within);
        if plain.is_lost {
            line.fail(Failure::NoMemory);
        }
    }

    /// No plan, as it should be.
    fn add_refusal(&mut self, is_same: bool, is_within: bool) {
        self.refused = self.refused.saturating_add(1);
        self.judge(is_same, is_within);
    }

    fn judge(&mut self, is_same: bool, is_within: bool) {
        if !is_same {
            self.differ = self.differ.saturating_add(1);
        }
        if !is_within {
            self.out_of_bounds = self.out_of_bounds.saturating_add(1);
        }
    }
}

/// The side whose UIDVALIDITY is not the recorded one.
fn changed_side(world: &DrawnWorld) -> Option<Side> {
    if world.state.run == 0 {
        None
    } else if world.far.validity != world.state.far_validity {
        Some(Side::Far)
    } else if world.near.validity != world.state.near_validity {
        Some(Side::Near)
    } else {
        None
    }
}
