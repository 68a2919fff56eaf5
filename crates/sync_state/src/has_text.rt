//! Whether a plan has a text.

ghost use Rattle.std.specs.Prelude.{◌≡◌, ◌↔◌, ◌<◌, ◌^◌, All, true, map};
ghost use Rattle.sync_state.specs.JournalText.{IsPlan, IsPlanSide, rises, bottom};

use crate::items::PlanItem;
use crate::keyword_lines::map_fits;
use crate::place::StepPlace;
use crate::version::Version;
use rules::plan::{Plan, PlanSide};

/// Whether a plan has a text: the UIDVALIDITY and the UIDNEXT of both sides are above 0, no highest UID is 4294967295,
/// and its steps and its notes stand in the order of a plan.
///
/// A plan without one is not to be begun: what was written could not be read again.
pub fn has_text(plan: &Plan) -> bool
    ensures { IsPlan plan.now ↔ (result ≡ true) }
{
    run_fits(plan.run);
    map_fits(&plan.keywords);
    side_has_text(plan.far)
        && side_has_text(plan.near)
        && are_in_order(plan.steps.as_slice())
        && are_in_order(plan.notes.as_slice())
}

/// What the type of a run's number says.
fn run_fits(run: u64)
    ensures { run < 2 ^ 64 }
{}

fn side_has_text(side: PlanSide) -> bool
    ensures { IsPlanSide side ↔ (result ≡ true) }
{
    side.validity > 0 && side.highest < u32::MAX && side.next > 0
}

/// Whether each is in order after the one before it.
fn are_in_order<A: PlanItem>(items: &[A]) -> bool
    ensures order { result ≡ rises bottom (map A.place items.now) }
    ensures fit { result ≡ true → All (A.fits Version.Two) items.now }
{
    let mut last = StepPlace::BOTTOM;
    for item in items {
        let place = item.place();
        if !last.is_below(place) {
            return false;
        }
        last = place;
    }
    true
}
