//! New messages: those that a run copies to the other side.

ghost use Rattle.std.specs.Prelude.{◌≡◌, ◌<◌, ◌≤◌, ◌^◌, ◌+◌, ◌++◌, length, count_by, All, OnOk, IfOk};
ghost use Rattle.mailcore.specs.Sides.{source};
ghost use Rattle.rules.specs.Scene.{items, scene};
ghost use Rattle.planner.specs.Scenes.{IsMet};
ghost use Rattle.rules.specs.Called.{would_be_new, is_new};
ghost use Rattle.rules.specs.Outcome.{count_new, news};
ghost use Rattle.rules.specs.Plans.{IsStep};
ghost use Rattle.planner.specs.Newcomers.{is_newcomer};
ghost use Rattle.planner.specs.Seen.{seen};
ghost use Rattle.planner.specs.Written.{new_steps};

use crate::lists::Lists;
use crate::met::Met;
use crate::newcomers::{Newcomers, may_be_new};
use crate::pushes::push_step;
use crate::turns::Turns;
use mailcore::listing::{Item, Listing};
use mailcore::side::Direction;
use mailcore::tuid::Tuid;
use rules::options::Options;
use rules::plan::Step;
use rules::state::SyncState;
use std::alloc::{AllocError, Global};

/// How many messages a run copies, in both directions together: so many marks its plan wants. Takes no memory.
pub fn news(far: &Listing, near: &Listing, state: &SyncState, options: &Options) -> usize
    ensures counted { result ≡ count_new (scene far.now near.now state.now options.now) }
    ensures few { result < 2 ^ 63 }
{
    count_new(Direction::Pull, state.max_pulled, far, state, options)
        + count_new(Direction::Push, state.max_pushed, near, state, options)
}

// How many messages of the source's listing are new in a direction, above the highest UID that was taken over in it.
fn count_new(
    direction: Direction,
    highest: u32,
    listing: &Listing,
    state: &SyncState,
    options: &Options,
) -> usize
    ensures counted { result
        ≡ count_by (is_newcomer options.now direction highest state.now.entries) listing.now.items }
    ensures few { result < 2 ^ 62 }
{
    let newcomers = Newcomers {
        direction,
        highest,
        options,
        items: listing.items.as_slice(),
        entries: state.entries.as_slice(),
    };
    newcomers.count()
}

impl Lists<'_> {
    /// Whether a message would be new if it were fit.
    pub fn would_be_new(&self, direction: Direction, met: &Met) -> bool
        requires { IsMet (source direction) self.now.standings.now met.now }
        ensures { result ≡ would_be_new (seen self.now) direction met.now.item }
    {
        let highest = self.highest(direction);
        may_be_new(self.options(), direction, highest, &met.item)
            && !self.is_paired(direction.source(), met)
    }

    fn is_new(&self, direction: Direction, met: &Met) -> bool
        requires { IsMet (source direction) self.now.standings.now met.now }
        ensures { result ≡ is_new (seen self.now) direction met.now.item }
    {
        self.would_be_new(direction, met) && met.item.fit
    }

    /// The messages that are copied in a direction, in order.
    pub fn new_items(
        &self,
        alloc: Global,
        direction: Direction,
        turns: &mut Turns,
    ) -> Result<Vec<Item>, AllocError>
        requires room { turns.old + length (items (seen self.now) (source direction)) < 2 ^ 64 }
        ensures found { IfOk result (λ v. v.items ≡ news (seen self.now) direction) }
        ensures few { IfOk result (λ v. length v.items ≤ length (items (seen self.now) (source direction))) }
        ensures turns { OnOk result (turns.new ≡ turns.old + length (items (seen self.now) (source direction))) }
        ensures most { turns.new ≤ turns.old + length (items (seen self.now) (source direction)) }
    {
        let mut found = Vec::new(alloc);
        for met in self.met(direction.source()) {
            turns.tick();
            if self.is_new(direction, met) {
                found.push(met.item)?;
            }
        }
        Ok(found)
    }
}

/// Adds a step for each new message, with the next mark.
pub(crate) fn push_new(
    direction: Direction,
    items: &[Item],
    marks: &[Tuid],
    steps: &mut Vec<Step>,
    turns: &mut Turns,
) -> Result<(), AllocError>
    requires marks { length items.now ≤ length marks.now }
    requires room { turns.old + length items.now < 2 ^ 64 }
    ensures written { OnOk result (steps.new.items ≡ steps.old.items ++ new_steps direction items.now marks.now) }
    ensures fit { OnOk result (All IsStep steps.old.items → All IsStep steps.new.items) }
    ensures turns { OnOk result (turns.new ≡ turns.old + length items.now) }
    ensures most { turns.new ≤ turns.old + length items.now }
{
    for (i, item) in items.iter().enumerate() {
        turns.tick();
        let step = Step::New {
            direction,
            uid: item.uid,
            flags: item.flags,
            mark: marks[i],
        };
        push_step(steps, step)?;
    }
    Ok(())
}
