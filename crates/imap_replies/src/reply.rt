//! What a server says (RFC 9051, section 7): the values of its lines. Texts, names and strings are lent from the input.

use crate::fetch::FetchList;
use crate::other::{OtherEvent, OtherWord};
use crate::response::ResponseText;
use crate::word::{NoticeKind, Status};
use wire_strings::astring::AString;
use wire_strings::delimiter::Delimiter;
use wire_strings::line_text::LineText;
use wire_tokens::flag_list::FlagNames;
use wire_tokens::names::Names;
use wire_tokens::number::NonZero;
use wire_tokens::tag::Tag;

/// A reply: a line of a server, with the literals in it.
#[derive(Drop)]
pub enum Reply<'a> {
    /// `+ text`: the server waits for more of a command.
    Continue(LineText<'a>),
    /// The end of the command of this tag.
    Tagged(Tag, Status, ResponseText<'a>),
    /// `* OK`, `* NO`, `* BAD`, `* BYE` or `* PREAUTH`.
    Notice(NoticeKind, ResponseText<'a>),
    /// `* CAPABILITY` and the names, of which there may be none.
    Capability(Option<Names<'a>>),
    /// `* ENABLED` and the names, of which there may be none.
    Enabled(Option<Names<'a>>),
    /// `* LIST`: the flags of a mailbox, the delimiter of its levels if it has one, and its name.
    List(FlagNames<'a>, Option<Delimiter>, AString<'a>),
    /// `* FLAGS`: the flags that a mailbox knows.
    Flags(FlagNames<'a>),
    /// `* n EXISTS`: so many messages are there.
    Exists(u32),
    /// `* n EXPUNGE`: the message of this number was removed.
    Expunge(NonZero),
    /// `* n FETCH`: what the message of this number has.
    Fetch(NonZero, FetchList<'a>),
    /// Another word, and the text after it.
    Other(OtherWord<'a>, Option<LineText<'a>>),
    /// A number, another word, and the text after it.
    OtherNumbered(u32, OtherEvent<'a>, Option<LineText<'a>>),
}
