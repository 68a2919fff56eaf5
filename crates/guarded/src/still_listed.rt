//! Which far messages are listed.

ghost use Rattle.std.specs.Prelude.{◌≡◌, ◌==◌};
ghost use Rattle.std.specs.List.{list_any};
ghost use Rattle.mailcore.specs.Listed.{IsRising};
ghost use Rattle.guarded.specs.Listed.{is_listed, still_listed};

use crate::due::Due;
use mailcore::listing::{Item, Listing};
use mailcore::uid::Uid;

/// The first of these that is asked about when so many steps are logged, and that is listed.
pub(crate) fn still_listed(dues: &[Due], logged: usize, listing: &Listing) -> Option<Uid>
    ensures { result ≡ still_listed dues.now logged listing.now }
{
    dues.iter()
        .find(|due| due.is_due(logged) && is_listed(listing, due.uid))
        .map(|due| due.uid)
}

/// Whether a message is listed.
pub(crate) fn is_listed(listing: &Listing, uid: Uid) -> bool
    ensures { result ≡ is_listed listing.now uid }
{
    is_among(listing.items.as_slice(), uid)
}

/// Whether a message is one of these, which rise.
fn is_among(items: &[Item], uid: Uid) -> bool
    requires { IsRising items.now }
    ensures { result ≡ list_any (λ item. item.uid == uid) items.now }
{
    items
        .binary_search_by_key(&uid.get(), |item| item.uid.get())
        .is_ok()
}
