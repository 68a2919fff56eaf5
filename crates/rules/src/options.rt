//! What a run may do.

ghost use Rattle.std.specs.Prelude.{◌≡◌, IfOk};
ghost use Rattle.rules.specs.Options.{covers, goes};

use mailcore::keywords::Keywords;
use mailcore::side::{Direction, Side};
use std::alloc::{AllocError, Global};

/// A choice of directions.
#[derive(Clone, Copy, PartialEq, Eq)]
pub struct Directions {
    /// From far to near.
    pub pull: bool,
    /// From near to far.
    pub push: bool,
}

impl Directions {
    /// Whether this direction is chosen.
    pub fn goes(self, direction: Direction) -> bool
        ensures { result ≡ goes self direction }
    {
        match direction {
            Direction::Pull => self.pull,
            Direction::Push => self.push,
        }
    }
}

/// A choice of sides.
#[derive(Clone, Copy, PartialEq, Eq)]
pub struct Sides {
    /// The far side.
    pub far: bool,
    /// The near side.
    pub near: bool,
}

impl Sides {
    /// Whether this side is chosen.
    pub fn covers(self, side: Side) -> bool
        ensures { result ≡ covers self side }
    {
        match side {
            Side::Far => self.far,
            Side::Near => self.near,
        }
    }
}

/// The six cells of Sync: a type of propagation in a direction.
#[derive(Clone, Copy, PartialEq, Eq)]
pub struct Cells {
    /// New messages are copied.
    pub new: Directions,
    /// Messages whose counterpart has gone are marked as deleted.
    pub gone: Directions,
    /// Changed flags are taken over.
    pub flags: Directions,
}

/// What a run may do.
#[derive(Drop)]
pub struct Options {
    /// What is propagated.
    pub cells: Cells,
    /// The sides on which messages that are marked as deleted are expunged.
    pub expunge: Sides,
    /// By this map keywords have a letter. A flag without a name is no flag of a message.
    pub keywords: Keywords,
}

impl Options {
    /// The same options again. `AllocError`: a growth was refused.
    pub fn try_clone(&self, alloc: Global) -> Result<Options, AllocError>
        ensures { IfOk result (λ options. options ≡ self.now) }
    {
        Ok(Options {
            cells: self.cells,
            expunge: self.expunge,
            keywords: self.keywords.try_clone(alloc)?,
        })
    }
}
