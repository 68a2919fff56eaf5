//! Writing of bytes as they are.

ghost use Rattle.std.specs.Prelude.{◌≡◌, OnOk, OnErr};
ghost use Rattle.wire_reader.specs.Spelling.{Is};
ghost use Rattle.wire_tokens.specs.Writing.{Appended};

use std::alloc::AllocError;

/// Writes these bytes at the end. `AllocError`: memory ran out, and nothing is written.
pub fn append(bytes: &[u8], out: &mut Vec<u8>) -> Result<(), AllocError>
    ensures ok { OnOk result (Appended (Is bytes.now) out.old.items out.new.items) }
    ensures err { OnErr result (out.new.items ≡ out.old.items) }
{
    out.extend_from_slice(bytes)
}
