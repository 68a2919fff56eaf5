//! Names of mailboxes, as a server writes them and as they are near.
//!
//! A server of IMAP4rev2 writes a name in UTF-8 (RFC 9051, section 5.1). Near and in configurations it stands in modified UTF-7
//! (RFC 3501, section 5.1.3), so it is ASCII there: printable ASCII stands for itself, `&` for `&-`, and a run of other characters
//! for the base64 of its UTF-16 between `&` and `-`, with `,` for `/` and without padding.

ghost use Rattle.std.specs.Prelude.{◌≡◌, ℕ, List, IfOk, MatchOption};
ghost use Rattle.link_face.specs.Names.{IsName};

use crate::modified_utf7::{far_name, near_name};
use std::alloc::{AllocError, Global};

/// The name in modified UTF-7. None: it is not UTF-8, or has a control character.
///
/// `AllocError`: memory ran out.
pub fn to_near(alloc: Global, far: &[u8]) -> Result<Option<Vec<u8>>, AllocError>
    ensures { IfOk result (λ found. MatchOption found ((near : List ℕ) → ¬ (IsName far.now near)) (λ near. IsName far.now near.items)) }
{
    let Some(near) = near_name(alloc, far)? else {
        return Ok(None);
    };
    match far_name(alloc, &near)? {
        Some(back) if back.as_slice() == far => Ok(Some(near)),
        _ => Ok(None),
    }
}

/// The name in UTF-8. None: it is no modified UTF-7, or not as `to_near` writes it, as `&AGE-` for `a`.
///
/// `AllocError`: memory ran out.
pub fn to_far(alloc: Global, near: &[u8]) -> Result<Option<Vec<u8>>, AllocError>
    ensures { IfOk result (λ found. MatchOption found ((far : List ℕ) → ¬ (IsName far near.now)) (λ far. IsName far.items near.now)) }
{
    let Some(far) = far_name(alloc, near)? else {
        return Ok(None);
    };
    match near_name(alloc, &far)? {
        Some(back) if back.as_slice() == near => Ok(Some(far)),
        _ => Ok(None),
    }
}
