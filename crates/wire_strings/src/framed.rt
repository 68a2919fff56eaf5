//! Writing of a text between two others.

ghost use Rattle.std.specs.Prelude.{◌≡◌, ◌++◌, length, take, OnOk, OnErr};

use std::alloc::AllocError;

/// Writes the text with what stands before and after it.
///
/// `AllocError`: memory ran out, and nothing is written.
pub(crate) fn write_framed(
    before: &[u8],
    text: &[u8],
    following: &[u8],
    out: &mut Vec<u8>,
) -> Result<(), AllocError>
    ensures ok { OnOk result (out.new.items ≡ out.old.items ++ (before.now ++ (text.now ++ following.now))) }
    ensures err { OnErr result (out.new.items ≡ out.old.items) }
{
    let start = out.len();
    let written = append_framed(before, text, following, out);
    if written.is_err() {
        out.truncate(start);
    }
    written
}

/// The same; where memory runs out, a part may be written.
fn append_framed(
    before: &[u8],
    text: &[u8],
    following: &[u8],
    out: &mut Vec<u8>,
) -> Result<(), AllocError>
    ensures ok { OnOk result (out.new.items ≡ out.old.items ++ (before.now ++ (text.now ++ following.now))) }
    ensures kept { OnErr result (take (length out.old.items) out.new.items ≡ out.old.items) }
{
    out.extend_from_slice(before)?;
    out.extend_from_slice(text)?;
    out.extend_from_slice(following)?;
    Ok(())
}
