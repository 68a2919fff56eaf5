//! The UIDs of messages.

ghost use Rattle.std.specs.Prelude.{◌≡◌, ◌<◌, ◌^◌, ◌+◌};
ghost use Rattle.std.specs.Option.{SomeIff};

use std::marker::Model;

/// The unique identifier of a message in its mailbox, 1 to 4294967294 (RFC 9051, section 2.3.1.1).
///
/// The greatest number of 32 bits is left out, so that there is a next UID above each.
#[derive(Clone, Copy, PartialEq, Eq, PartialOrd, Ord)]
pub struct Uid {
    number: u32,
}

impl Model for Uid {
    ghost use Rattle.std.specs.Prelude.{ℕ, ◌<◌, ◌^◌, ◌+◌};

    ghost Value = { ℕ };

    ghost view = { λ u. u.number };

    ghost invariant = { λ u. (0 < u.number) × (u.number + 1 < 2 ^ 32) };

    ghost inverse = { λ n. record { number = n } };
}

impl Uid {
    /// The UID with this number, or none at 0 and 4294967295.
    pub fn new(number: u32) -> Option<Uid>
        ensures { SomeIff result ((0 < number) × (number + 1 < 2 ^ 32)) number }
    {
        if 0 < number && number < u32::MAX {
            Some(Uid { number })
        } else {
            None
        }
    }

    /// Its number, which has a number above it.
    pub fn get(self) -> u32
        ensures number { result ≡ self }
        ensures positive { 0 < result }
        ensures below_last { result + 1 < 2 ^ 32 }
    {
        self.number
    }
}
