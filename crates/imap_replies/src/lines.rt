//! What may end a line: nothing more, or a space and a text or names.

ghost use Rattle.wire_reader.specs.Given.{Gives};
ghost use Rattle.imap_replies.specs.ReplyReading.{rest_line_at, names_line_at};

use wire_reader::punctuation::{byte, crlf};
use wire_reader::stop::Stop;
use wire_strings::line_text::{LineText, read_line_text};
use wire_tokens::names::{Names, read_names};

/// Reads the line end, or a space, a text and the line end.
#[tactic(auto, unfolding(crate::specs::ReplyReading::rest_line_at))]
pub(crate) fn read_rest(bytes: &[u8]) -> Result<(Option<LineText<'_>>, &[u8]), Stop>
    ensures { Gives (λ r. (r.0, r.1.now)) result (rest_line_at bytes.now) }
{
    match bytes {
        [] => Err(Stop::Ends(None)),
        [b'\r', ..] => Ok((None, crlf(bytes)?)),
        _ => {
            let (text, rest) = read_line_text(byte(b' ', bytes)?)?;
            Ok((Some(text), rest))
        }
    }
}

/// Reads the line end, or a space, names and the line end.
#[tactic(auto, unfolding(crate::specs::ReplyReading::names_line_at))]
pub(crate) fn read_names_line(bytes: &[u8]) -> Result<(Option<Names<'_>>, &[u8]), Stop>
    ensures { Gives (λ r. (r.0, r.1.now)) result (names_line_at bytes.now) }
{
    match bytes {
        [] => Err(Stop::Ends(None)),
        [b'\r', ..] => Ok((None, crlf(bytes)?)),
        _ => {
            let (names, rest) = read_names(byte(b' ', bytes)?)?;
            Ok((Some(names), crlf(rest)?))
        }
    }
}
