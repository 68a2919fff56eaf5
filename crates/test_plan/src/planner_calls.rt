//! Calls of the planner on the mailboxes and the state of a world.

use crate::marks::read_marks;
use crate::turns::{Bounds, print_turns};
use crate::written::world_of;
use mailcore::listing::{Items, Listing};
use mailcore::mailbox::StoredMailbox;
use mailcore::side::Side;
use mailcore::tuid::Tuid;
use mailcore::uid::Uid;
use planner::fault::PlanFault;
use planner::news::news;
use planner::plan::{plan, plan_in};
use planner::state::{Plan, PlanSide, Step};
use planner::turns::Turns;
use planner::unfit::unfit;
use std::alloc::{AllocError, Global};
use test_scripts::failure::Failure;
use test_scripts::reported::Reported;
use test_scripts::words::Words;
use worlds::plan_lines::{NoteLine, StepLine, UnfitLine};
use worlds::world::{Waiting, World};

/// Prints what a call of the planner answers on the world of a text: `news`, `unfit`, `plan` with the marks that the rest of the
/// line names, or `turns` with such, how many it takes. The line is bad if the text is no world, or the plan wants another number of
/// marks.
pub fn print_planned(
    alloc: Global,
    reported: &mut Reported,
    text: &[u8],
    call: &str,
    line: &mut Words<'_>,
) {
    let marks = read_marks(alloc, line);
    if let Some(world) = world_of(alloc, text, Waiting::Admitted, line) {
        let far = listing_of(alloc, &world.far, Side::Far, line);
        let near = listing_of(alloc, &world.near, Side::Near, line);
        let asked = Asked {
            alloc,
            far: &far,
            near: &near,
            world: &world,
            marks: &marks,
        };
        asked.call(call, line, reported);
        drop(near);
        drop(far);
        drop(world);
    }
}

/// What a mailbox lists.
fn listing_of(alloc: Global, mailbox: &StoredMailbox, side: Side, line: &mut Words<'_>) -> Listing {
    match mailbox.listing(alloc, side) {
        Ok(listing) => listing,
        Err(_) => {
            line.fail(Failure::NoMemory);
            Listing {
                validity: mailbox.validity,
                next: mailbox.next,
                items: Items::new(alloc),
            }
        }
    }
}

/// What a call of the planner is given.
#[derive(Clone, Copy)]
struct Asked<'a> {
    alloc: Global,
    far: &'a Listing,
    near: &'a Listing,
    world: &'a World,
    marks: &'a [Tuid],
}

impl Asked<'_> {
    fn call(self, call: &str, line: &mut Words<'_>, reported: &mut Reported) {
        let (alloc, far, near, marks) = (self.alloc, self.far, self.near, self.marks);
        let (state, options) = (&self.world.state, &self.world.options);
        let wanted = news(far, near, state, options);
        match call {
            "news" => {
                reported.begin();
                reported.number(wanted as u64);
                reported.end();
            }
            "unfit" => print_unfit(reported, unfit(alloc, far, near, state, options)),
            _ if marks.len() != wanted => line.refuse(),
            "plan" => print_plan(reported, plan(alloc, far, near, state, options, marks)),
            _ => {
                let mut turns = Turns::new();
                let planned = plan_in(alloc, far, near, state, options, marks, &mut turns);
                print_turns(reported, planned, &turns, Bounds::of(far, near, state));
            }
        }
    }
}

fn print_unfit(reported: &mut Reported, answer: Result<Vec<(Side, Uid)>, AllocError>) {
    match answer {
        Ok(unfit) => {
            for (side, uid) in unfit.iter() {
                reported.say(&UnfitLine(*side, *uid));
            }
        }
        Err(_) => reported.lose(),
    }
}

fn print_plan(reported: &mut Reported, answer: Result<Plan, PlanFault>) {
    match answer {
        Ok(plan) => {
            print_steps(reported, &plan);
            drop(plan);
        }
        Err(PlanFault::NoMemory) => reported.lose(),
        Err(fault) => reported.say(&fault),
    }
}

fn print_steps(reported: &mut Reported, plan: &Plan) {
    reported.begin();
    reported.text("run ");
    reported.number(plan.run);
    reported.end();
    print_side(reported, "far", &plan.far);
    print_side(reported, "near", &plan.near);
    for step in plan.steps.as_slice() {
        print_step(reported, step);
    }
    for note in plan.notes.as_slice() {
        reported.say(&NoteLine(note));
    }
}

fn print_side(reported: &mut Reported, name: &str, side: &PlanSide) {
    reported.begin();
    reported.text(name);
    reported.text(": validity ");
    reported.number(u64::from(side.validity));
    reported.text(", highest ");
    reported.number(u64::from(side.highest));
    reported.text(", next ");
    reported.number(u64::from(side.next));
    reported.end();
}

/// Prints a step, with the flags and the mark of a copy.
fn print_step(reported: &mut Reported, step: &Step) {
    reported.begin();
    reported.shown(&StepLine(step));
    if let Step::New { flags, mark, .. } = *step {
        reported.text(" ");
        reported.flags(flags);
        reported.text(" ");
        reported.bytes(&mark.text());
    }
    reported.end();
}
