//! The UIDNEXT of the far mailbox.

ghost use Rattle.std.specs.Prelude.{◌≡◌};

/// What knows the UIDNEXT of a far mailbox (RFC 9051, section 2.3.1.1).
pub trait FarNext {
    ghost use Rattle.std.specs.Prelude.{ℕ, Option};

    /// The UIDNEXT that was reported when the far mailbox was opened, if it is open and nothing has changed since.
    ghost uidnext: { Self → Option ℕ };

    /// The same.
    fn far_next(&self) -> Option<u32>
        ensures { result ≡ uidnext self.now };
}
