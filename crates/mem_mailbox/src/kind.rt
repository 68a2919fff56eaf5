//! Which mailbox of a pair a mailbox in memory is.

ghost use Rattle.std.specs.Prelude.{◌≡◌};

use mailcore::side::Side;

/// Which mailbox of a pair a mailbox in memory is. It is the same for all values of a type.
pub trait BoxKind {
    ghost use Rattle.mailcore.specs.declared.side.Side.{Side};

    /// Its side.
    ghost of: { Side };

    /// Its side.
    fn side() -> Side
        ensures { result ≡ of };
}

/// That of a server, where nothing waits.
#[derive(Drop)]
pub struct OfFar;

/// That of a folder.
#[derive(Drop)]
pub struct OfNear;

impl BoxKind for OfFar {
    ghost use Rattle.mailcore.specs.declared.side.Side.TheVariants.{Far};

    ghost of = { Far };

    fn side() -> Side {
        Side::Far
    }
}

impl BoxKind for OfNear {
    ghost use Rattle.mailcore.specs.declared.side.Side.TheVariants.{Near};

    ghost of = { Near };

    fn side() -> Side {
        Side::Near
    }
}
