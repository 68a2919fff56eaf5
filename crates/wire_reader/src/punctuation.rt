//! Single bytes between the parts of a line.

ghost use Rattle.std.specs.Prelude.{◌≡◌};
ghost use Rattle.wire_reader.specs.Given.{Gives, SeparatorIs};
ghost use Rattle.wire_reader.specs.Reading.{byte_at, crlf_at};

use crate::stop::{Kind, Stop};

/// Reads this one byte; gives the bytes after it.
pub fn byte(c: u8, bytes: &[u8]) -> Result<&[u8], Stop>
    ensures { Gives (λ r. (tt, r.now)) result (byte_at c bytes.now) }
{
    match bytes {
        [] => Err(Stop::Ends(None)),
        [b, rest @ ..] => {
            if *b == c {
                Ok(rest)
            } else {
                Err(Stop::Fails(Kind::Syntax, bytes.len()))
            }
        }
    }
}

/// Reads the end of a line, CR LF.
pub fn crlf(bytes: &[u8]) -> Result<&[u8], Stop>
    ensures { Gives (λ r. (tt, r.now)) result (crlf_at bytes.now) }
{
    byte(b'\n', byte(b'\r', bytes)?)
}

/// The bytes after the separator, if it stands at the front; none where another byte does.
pub fn separator(c: u8, bytes: &[u8]) -> Result<Option<&[u8]>, Stop>
    ensures { SeparatorIs c bytes.now result }
{
    match bytes {
        [] => Err(Stop::Ends(None)),
        [b, rest @ ..] => Ok(if *b == c { Some(rest) } else { None }),
    }
}
