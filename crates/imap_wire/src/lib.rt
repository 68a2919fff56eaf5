//! Lines of IMAP4rev2 (RFC 9051, in the profile of docs/FORMATS.md), both ways: commands and replies as values, read and
//! written.
#![tactic(auto)]

pub use imap_commands::command::{Command, FetchItems, Request, StoreMode};
pub use imap_commands::message::SentMessage;
pub use imap_commands::pattern::ListPattern;
pub use imap_commands::places::{commands_end_at_places, commands_wait_between_places};
pub use imap_commands::reading::read_command;
pub use imap_commands::writing::write_command;
pub use imap_link::reply_buf::ReplyBuf;
pub use imap_replies::fetch::{FetchItem, FetchList};
pub use imap_replies::other::{OtherCode, OtherEvent, OtherWord};
pub use imap_replies::places::{replies_end_at_places, replies_wait_between_places};
pub use imap_replies::reading::read_reply;
pub use imap_replies::reply::Reply;
pub use imap_replies::response::{Code, ResponseText};
pub use imap_replies::word::{NoticeKind, Status};
pub use imap_replies::writing::write_reply;
pub use wire_reader::answer::{Read, WireFault};
pub use wire_reader::scanner::Scanner;
pub use wire_strings::astring::AString;
pub use wire_strings::code_text::CodeText;
pub use wire_strings::delimiter::Delimiter;
pub use wire_strings::line_text::LineText;
pub use wire_strings::octets::LentOctets;
pub use wire_strings::plain_text::PlainText;
pub use wire_strings::quoted::Quoted;
pub use wire_strings::string::WireString;
pub use wire_strings::text::Text;
pub use wire_tokens::atom::Atom;
pub use wire_tokens::flag_list::{FlagList, FlagNames, PermanentFlags};
pub use wire_tokens::names::{NameList, Names};
pub use wire_tokens::number::NonZero;
pub use wire_tokens::tag::Tag;
pub use wire_tokens::uid_set::{SetEnd, SetItem, UidSet};
