//! The map from the UIDs of one side in the outcome of a run to those that are found.

use crate::world::{highest_in, mailbox_in};
use mailcore::side::Side;
use std::alloc::{AllocError, Global};
use worlds::world::World;

/// A map of the UIDs of one side: itself on those below the next UID of the opening, and rising on those that the run gave.
#[derive(Drop)]
pub(crate) struct Renaming {
    given: Vec<u32>,
    renamed: Vec<u32>,
}

impl Renaming {
    /// That from the UIDs given in the outcome to as many that are given in what is found. None: there are more or fewer.
    pub(crate) fn new(
        alloc: Global,
        side: Side,
        next: u32,
        outcome: &World,
        found: &World,
    ) -> Result<Option<Renaming>, AllocError> {
        let given = given_in(alloc, outcome, side, next)?;
        let renamed = given_in(alloc, found, side, next)?;
        if given.len() == renamed.len() {
            Ok(Some(Renaming { given, renamed }))
        } else {
            Ok(None)
        }
    }

    /// The UID that is found in place of this one. 0 stands for none.
    pub(crate) fn of(&self, uid: u32) -> u32 {
        match self.given.binary_search(&uid) {
            Ok(place) => self.renamed.get(place).copied().unwrap_or(uid),
            Err(_) => uid,
        }
    }
}

/// The UIDs of this side, from this one on, that a message, an entry or the highest UID of the state names, in their order.
fn given_in(alloc: Global, world: &World, side: Side, next: u32) -> Result<Vec<u32>, AllocError> {
    let mut uids = Vec::new(alloc);
    for message in mailbox_in(world, side).messages.as_slice() {
        uids.push(message.uid.get())?;
    }
    uids.extend_from_slice(&named_in(alloc, world, side)?)?;
    uids.retain(|uid| *uid >= next);
    uids.sort_unstable();
    uids.dedup();
    Ok(uids)
}

/// The UIDs of this side that the state names; 0 stands for none.
pub(crate) fn named_in(alloc: Global, world: &World, side: Side) -> Result<Vec<u32>, AllocError> {
    let mut uids = Vec::new(alloc);
    uids.push(highest_in(world, side))?;
    for entry in world.state.entries.as_slice() {
        uids.push(entry.number(side))?;
    }
    Ok(uids)
}
