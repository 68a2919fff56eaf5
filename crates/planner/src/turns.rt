//! How many turns a plan takes.

ghost use Rattle.std.specs.Prelude.{◌≡◌, ◌<◌, ◌^◌, ◌+◌};

use std::marker::Model;

/// A count of the turns that loops have taken.
#[derive(Clone, Copy, PartialEq, Eq)]
pub struct Turns {
    count: u64,
}

impl Model for Turns {
    ghost use Rattle.std.specs.Prelude.{ℕ, ◌<◌, ◌^◌};

    ghost Value = { ℕ };

    ghost view = { λ t. t.count };

    ghost inverse = { λ n. record { count = n } };
}

impl Turns {
    /// None yet.
    pub fn new() -> Turns
        ensures { result ≡ 0 }
    {
        Turns { count: 0 }
    }

    /// One more turn.
    pub fn tick(&mut self)
        requires { self.old + 1 < 2 ^ 64 }
        ensures { self.new ≡ self.old + 1 }
    {
        self.count += 1;
    }

    /// How many there were.
    pub fn count(&self) -> u64
        ensures { result ≡ self.now }
    {
        self.count
    }
}
