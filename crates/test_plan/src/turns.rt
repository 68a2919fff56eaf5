//! How many turns the planner takes.

use mailcore::listing::Listing;
use planner::fault::PlanFault;
use planner::state::Plan;
use planner::turns::Turns;
use rules::state::SyncState;
use test_scripts::reported::Reported;

/// How many turns a plan may take: one for each message and entry at least, and twenty times as many at most.
#[derive(Clone, Copy)]
pub struct Bounds {
    least: u64,
    most: u64,
}

impl Bounds {
    /// Those of a plan for these listings and this state.
    pub fn of(far: &Listing, near: &Listing, state: &SyncState) -> Bounds {
        let least = far
            .items
            .as_slice()
            .len()
            .saturating_add(near.items.as_slice().len())
            .saturating_add(state.entries.as_slice().len()) as u64;
        Bounds {
            least,
            most: least.saturating_mul(20),
        }
    }

    /// Whether so many turns are within.
    pub fn hold(self, turns: &Turns) -> bool {
        self.least <= turns.count() && turns.count() <= self.most
    }
}

/// Prints within which bounds the turns are that the planner takes for a plan.
pub fn print_turns(
    reported: &mut Reported,
    planned: Result<Plan, PlanFault>,
    turns: &Turns,
    bounds: Bounds,
) {
    match planned {
        Ok(plan) => drop(plan),
        Err(PlanFault::NoMemory) => reported.lose(),
        Err(_) => {}
    }
    reported.begin();
    if turns.count() == 0 {
        reported.text("none");
    } else if bounds.hold(turns) {
        reported.text("from ");
        reported.number(bounds.least);
        reported.text(" to ");
        reported.number(bounds.most);
    } else {
        reported.number(turns.count());
        reported.text(", which are too few or too many");
    }
    reported.end();
}
