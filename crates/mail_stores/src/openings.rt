//! From which openings runs over lent mailboxes are looked at.

use std::marker::Brand;

/// A choice of openings. Contracts alone read it. What is proved of stores under every choice holds of each mailbox from any opening at
/// which it stands.
pub trait Openings {
    ghost use Rattle.channels.specs.Lendings.{Choice};

    /// The opening from which a run is looked at, by the device at which it finds a mailbox and by its options.
    ghost opening: { Choice };
}

/// Without a choice: that of a first run. A call at this type can choose another one.
impl Openings for Brand {
    ghost use Rattle.channels.specs.Openings.{first_on};

    ghost opening = { first_on };
}
