//! How many calls of a device have stopped.

ghost use Rattle.std.specs.Prelude.{◌≡◌, ◌+◌, ◌<◌, ◌≤◌, ◌^◌, length};

use crate::history::History;
use std::marker::Model;

/// How many calls of a device have stopped. To contracts no number is the greatest.
#[derive(Drop)]
pub struct StopCount {
    /// An item for each stop.
    stops: History<()>,
    // The same number, up to the top of its type.
    shown: usize,
    pub ghost same: { length stops.items < 2 ^ 64 → shown ≡ length stops.items },
    pub ghost most: { 2 ^ 64 ≤ length stops.items → shown + 1 ≡ 2 ^ 64 },
}

impl Model for StopCount {
    ghost use Rattle.std.specs.Prelude.{ℕ, length};

    ghost Value = { ℕ };

    ghost view = { λ count. length count.stops.items };
}

impl StopCount {
    /// None.
    pub fn new() -> Self
        ensures { result ≡ 0 }
    {
        StopCount {
            stops: History::new(),
            shown: 0,
        }
    }

    /// Counts a stop.
    pub fn push(&mut self)
        ensures { self.new ≡ self.old + 1 }
    {
        self.stops = self.stops.and(&());
        self.shown = self.shown.saturating_add(1);
    }

    /// The number, up to the top of its type.
    pub fn get(&self) -> usize
        ensures { self.now < 2 ^ 64 → result ≡ self.now }
    {
        self.shown
    }
}
