//! Which entries lose a side when a plan is given up.

ghost use Rattle.std.specs.Prelude.{◌≡◌};
ghost use Rattle.book.specs.LostSides.{lost_of, lost_on, none_lost};

use mailcore::side::Side;
use std::alloc::Global;
use std::marker::Model;

/// The entries that lose a side, by their far UIDs.
#[derive(Drop)]
pub struct LostSides {
    /// Those that lose their far side.
    far: Vec<u32>,
    /// Those that lose their near side.
    near: Vec<u32>,
}

impl Model for LostSides {
    ghost use Rattle.book.specs.LostSides.{Lost, lost_of};

    ghost Value = { Lost };

    ghost view = { λ a. lost_of a.far.items a.near.items };
}

impl LostSides {
    /// The entries of these far UIDs lose their far side, and those of these their near side.
    pub fn new(far: Vec<u32>, near: Vec<u32>) -> Self
        ensures { result ≡ lost_of far.items near.items }
    {
        LostSides { far, near }
    }

    /// No entry loses a side. Takes no memory.
    pub fn none(alloc: Global) -> Self
        ensures { result ≡ none_lost }
    {
        LostSides {
            far: Vec::new(alloc),
            near: Vec::new(alloc),
        }
    }

    /// The far UIDs of the entries that lose this side.
    pub fn on(&self, side: Side) -> &[u32]
        ensures { result.now ≡ lost_on self.now side }
    {
        match side {
            Side::Far => &self.far,
            Side::Near => &self.near,
        }
    }
}
