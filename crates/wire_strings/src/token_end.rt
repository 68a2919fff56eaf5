//! The end of a token that ends by itself: no byte of an atom may follow it, as none may follow an atom.

ghost use Rattle.std.specs.Prelude.{◌≡◌};
ghost use Rattle.wire_reader.specs.Given.{Gives};
ghost use Rattle.wire_reader.specs.Listing.{ended_by};
ghost use Rattle.wire_tokens.specs.Atoms.{is_atom_byte};

use wire_reader::stop::{Kind, Stop};
use wire_tokens::atom::is_atom_byte;

/// The value that was read, unless a byte of an atom follows it; at least one byte is required.
pub(crate) fn ended<T: Drop>(value: T, bytes: &[u8]) -> Result<(T, &[u8]), Stop>
    ensures { Gives (λ r. (r.0, r.1.now)) result (ended_by is_atom_byte value bytes.now) }
{
    match bytes {
        [] => Err(Stop::Ends(None)),
        [b, ..] => {
            if is_atom_byte(*b) {
                Err(Stop::Fails(Kind::Syntax, bytes.len()))
            } else {
                Ok((value, bytes))
            }
        }
    }
}
