//! Worlds before and after a run.

use mailcore::mailbox::StoredMailbox;
use mailcore::side::Side;
use std::alloc::Global;
use test_scripts::failure::Failure;
use worlds::fault::WorldFault;
use worlds::read::read_world;
use worlds::world::{Waiting, World};

/// What stands before the lines of a world that begin with `far`: the letters `a` and `b` are those of keywords.
const OPTIONS: &[u8] = b"sync None\nexpunge None\nkeyword a $Label1\nkeyword b Junk\n";

/// The world of this text. `Script`: it is none.
pub(crate) fn world_of(alloc: Global, text: &[u8]) -> Result<World, Failure> {
    match read_world(alloc, text, Waiting::Kept) {
        Ok(world) => Ok(world),
        Err(WorldFault::Line(_)) => Err(Failure::Script),
        Err(WorldFault::NoMemory) => Err(Failure::NoMemory),
    }
}

/// The world of these lines, from its line `far` on.
pub(crate) fn end_of(alloc: Global, lines: &[u8]) -> Result<World, Failure> {
    let mut text = Vec::from_slice(alloc, OPTIONS)?;
    text.extend_from_slice(lines)?;
    world_of(alloc, &text)
}

/// The mailbox of this side.
pub(crate) fn mailbox_in(world: &World, side: Side) -> &StoredMailbox {
    match side {
        Side::Far => &world.far,
        Side::Near => &world.near,
    }
}

/// The highest UID of this side that the state names as no new one.
pub(crate) fn highest_in(world: &World, side: Side) -> u32 {
    match side {
        Side::Far => world.state.max_pulled,
        Side::Near => world.state.max_pushed,
    }
}
