//! What a world has as the bytes of a message.

ghost use Rattle.std.specs.Prelude.{◌≡◌, false, IfOk};
ghost use Rattle.mailcore.specs.Content.{fit};

use mailcore::content::MESSAGE_MAX;
use mailcore::octets::Octets;
use mailcore::side::Side;
use std::alloc::{AllocError, Global};

/// What a world has as the bytes of its messages.
#[derive(Clone, Copy, PartialEq, Eq)]
pub enum Bodies {
    /// As few as say whether the message is fit to be copied: of others the plan does not depend.
    Short,
    /// Those that are stored.
    Stored,
}

/// As few bytes as the mailbox of this side can have in a message that is fit to be copied, or in one that is not.
pub(crate) fn short_body(alloc: Global, side: Side, is_fit: bool) -> Result<Octets, AllocError>
    ensures { IfOk result (λ bytes. fit side bytes ≡ is_fit) }
{
    if is_fit {
        return Ok(Octets::from_vec(Vec::new(alloc)));
    }
    match side {
        Side::Far => too_long(alloc),
        Side::Near => Ok(Octets::from_vec(Vec::from_slice(alloc, b"\0")?)),
    }
}

/// One byte more than a far message may have that is fit.
fn too_long(alloc: Global) -> Result<Octets, AllocError>
    ensures { IfOk result (λ bytes. fit Side.Far bytes ≡ false) }
{
    let mut bytes = Vec::new(alloc);
    bytes.resize(MESSAGE_MAX + 1, b'x')?;
    Ok(Octets::from_vec(bytes))
}
