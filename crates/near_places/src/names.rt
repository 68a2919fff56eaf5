//! Which names of mailboxes have no folder below the path of a Maildir store.

ghost use Rattle.std.specs.Prelude.{◌≡◌};
ghost use Rattle.near_places.specs.Names.{has_own_part, is_own_part};

/// Whether a part of a name, between slashes, is that of a folder or a file which stands in the folder of each mailbox: `cur`, `new`,
/// `tmp`, or what begins with `.mbsyncstate` or `.uidvalidity`. The folder of a mailbox of this name would lie among the messages of
/// another one, or in place of its state.
pub fn has_own_part(name: &str) -> bool
    ensures { result ≡ has_own_part name.now }
{
    any_own_part(name.as_bytes())
}

fn any_own_part(name: &[u8]) -> bool
    ensures { result ≡ has_own_part name.now }
{
    name.split(|b| *b == b'/').any(|part| is_own_part(part))
}

#[tactic(auto, unfolding(crate::specs::Names::is_own_part))]
fn is_own_part(part: &[u8]) -> bool
    ensures { result ≡ is_own_part part.now }
{
    part == b"cur".as_slice()
        || part == b"new".as_slice()
        || part == b"tmp".as_slice()
        || part.starts_with(b".mbsyncstate")
        || part.starts_with(b".uidvalidity")
}
