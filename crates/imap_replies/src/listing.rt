//! LIST replies (RFC 9051, section 9: mailbox-list).

ghost use Rattle.wire_reader.specs.Given.{Gives};
ghost use Rattle.wire_reader.specs.Reading.{mapped};
ghost use Rattle.imap_replies.specs.Listings.{mark_at, list_at};
ghost use Rattle.imap_replies.specs.ReplyReading.{listed};

use crate::reply::Reply;
use wire_reader::keyword::word;
use wire_reader::punctuation::{byte, crlf};
use wire_reader::side::Speaker;
use wire_reader::stop::Stop;
use wire_strings::astring::read_astring;
use wire_strings::delimiter::{Delimiter, read_delimiter};
use wire_tokens::flag_list::read_flags;

/// What follows LIST.
#[tactic(auto, unfolding(crate::specs::Listings::list_at))]
pub(crate) fn list(bytes: &[u8]) -> Result<(Reply<'_>, &[u8]), Stop>
    ensures { Gives (λ r. (r.0, r.1.now)) result (mapped listed list_at bytes.now) }
{
    let (attributes, rest) = read_flags(byte(b' ', bytes)?)?;
    let (delimiter, rest) = read_mark(byte(b' ', rest)?)?;
    let (name, rest) = read_astring(Speaker::Replies, byte(b' ', rest)?)?;
    Ok((Reply::List(attributes, delimiter, name), crlf(rest)?))
}

/// A quoted string of one character, or NIL in any case, which is none.
#[tactic(auto, unfolding(crate::specs::Listings::mark_at))]
fn read_mark(bytes: &[u8]) -> Result<(Option<Delimiter>, &[u8]), Stop>
    ensures { Gives (λ r. (r.0, r.1.now)) result (mark_at bytes.now) }
{
    match bytes {
        [] => Err(Stop::Ends(None)),
        [b'"', ..] => {
            let (mark, rest) = read_delimiter(bytes)?;
            Ok((Some(mark), rest))
        }
        _ => Ok((None, word(b"NIL", bytes)?)),
    }
}
