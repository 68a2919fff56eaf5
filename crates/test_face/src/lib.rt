//! What a client hears of replies over a link that hands out only those of the profile, and what a server gets of commands, as
//! scripts ask for it.
//!
//! The lines of a script of `face`. Bytes stand in both scripts as worlds have them (docs/FORMATS.md, "Worlds").
//!
//! ```text
//! reply "* 1 RECENT\0d\0a"     these bytes come, and then the end: what is handed out, and whether the link gave up
//! line * OK still here         the same of a line, with its end
//! times 60000 * OK still here   this line comes so often: how many bytes are handed out, and whether the link gave up
//! send "A1 NOOP\0d\0a"         these bytes are sent over the connection of this case: what the server gets
//! copy MARK "a\0d\0a"           the same of the copy of this message under this mark, and the line end after it
//! connect                      a new connection is made for those that are sent next
//! ```
//!
//! The bytes of replies come whole, and in pieces of 1 and 7 bytes; and cut at each place. If other bytes are handed out then, it is
//! reported.
#![tactic(auto)]

mod bytes_link;
mod hearing;
pub mod play;
mod sending;
mod taking_link;
