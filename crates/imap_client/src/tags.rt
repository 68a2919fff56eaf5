//! The tags of a connection: A1, A2, ..

ghost use Rattle.std.specs.Prelude.{◌≡◌, IfOk};
ghost use Rattle.imap_client.specs.Tags.{tag_text};

use itoa::Buffer;
use std::alloc::{AllocError, Global};
use wire_tokens::tag::Tag;

/// The tag of the n-th command of a connection.
///
/// `AllocError`: memory ran out.
pub(crate) fn tag_of(alloc: Global, n: u64) -> Result<Tag, AllocError>
    ensures { IfOk result (λ tag. tag ≡ tag_text n) }
{
    let mut digits = Buffer::new();
    let mut text = Vec::from_slice(alloc, b"A")?;
    text.extend_from_slice(digits.format(n).as_bytes())?;
    match Tag::read(&text) {
        Some(tag) => Ok(tag),
        None => unreachable!(),
    }
}
