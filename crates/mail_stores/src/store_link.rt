//! A link to the server of a store.

ghost use Rattle.std.specs.Prelude.{◌≡◌, IfOk};

use crate::notes::ServerNotes;
use imap_link::link::Link;
use mailcore::keywords::Keywords;
use std::alloc::AllocError;

/// A link of which it is known where it leads, and by which map of keywords the flags there are seen.
pub trait StoreLink: Link {
    ghost use Rattle.std.specs.Prelude.{ℕ, List};
    ghost use Rattle.imap_client.specs.Seen.{HasMap};
    ghost use Rattle.mailcore.specs.declared.keywords.Keywords.{Keywords};

    /// The address of the server, a host and a port.
    ghost address: { Self → List ℕ };

    /// The map of keywords by which flags at the server have letters.
    ghost map: { Self → Keywords };

    /// The address of the server.
    fn address(&self) -> &str
        ensures { result.now ≡ address self.now };

    /// The map of keywords by which its server is seen.
    fn keywords(&self) -> &Keywords
        ensures { result.now ≡ map self.now };

    /// So flags there have them, where the server and what lies between have behaved as specified.
    ghost seen: { (link : Self) → Self.Link.honest link → HasMap (map link) (Self.Link.line link).end.server };
}

/// Such a link that is made over a system `R`, and reports to `W` what it waits for.
pub trait LinkOver<R, W>: StoreLink {
    /// A link to the server at this address, which is seen by this map of keywords. It is not connected yet. What is to be reported of its
    /// server is noted there.
    fn over(
        rt: &R,
        address: &str,
        notes: &ServerNotes,
        waits: W,
        keywords: &Keywords,
    ) -> Result<Self, AllocError>
        ensures keywords { IfOk result (λ link. Self.map link ≡ keywords.now) }
        ensures address { IfOk result (λ link. Self.address link ≡ address.now) };
}
