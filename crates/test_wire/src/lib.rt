//! What the readers and writers of IMAP take and write, as scripts ask for it.
//!
//! Bytes stand in both scripts as worlds have them (docs/FORMATS.md, "Worlds").
//!
//! The lines of a script of `tokens`, with [`play::run_tokens`]. Bytes stand here in quotes, with a space between two texts;
//! `256*"a"` is the text in the quotes 256 times.
//!
//! ```text
//! atom "INBOX\0d\0a"                        the token at the front of the bytes
//! command "A1 NOOP\0d\0a"                   the command there; reply does the same
//! make tag 33*"a"                           the value of whole bytes, if it is one
//! write line-text "done"                    a text and the line end
//! has "IDLE" names "IMAP4rev2 idle\0d\0a"   whether one of the names is this, without case
//! uid 300 greatest 300 set "559:* "         whether the set names the UID; greatest - in an empty mailbox
//! uid 7 greatest 7 alone                    the same of the set of this UID alone
//! empty-set                                 the set of no item
//! ```
//!
//! The tokens are number, nz, atom, tag, names, flags, permanent-flags, attributes, delimiter, quoted, string, nstring, text,
//! line-text, plain-text, code-text and set. Reported of each is what its reader takes, what the value is, and how it is written again.
//!
//! The lines of a script of `wire`, with [`play::run`]. An example follows the letter of its reader, without quotes.
//!
//! ```text
//! C A1 NOOP\0d\0a        what the reader of commands answers: to the whole, to each beginning, where a scanner stops, and to
//!                        the bytes with each one changed to others, a line for each
//! R * 2 EXISTS\0d\0a     the same of the reader of replies
//! c A1 NOOP\0d\0a        what the reader of commands answers to the whole alone; r does the same for replies
//! b * 2 EXISTS\0d\0a     what a buffer of replies answers to the whole, where it comes in pieces of 1, 2 and 7 bytes, a line for
//!                        each size: how many bytes it holds then, and how many once those that were read are dropped; where
//!                        the reader of replies answers otherwise, or of another reply, its answer follows
//! listings 4             makes four FETCH replies of a listing
//! body 50                makes a FETCH reply with a body of 50 octets
//! read all               reads what was made, from memory
//! feed in pieces of 7    reads it as it comes over a connection, seven bytes at a time
//! line feeds             counts its line feeds, and nothing else
//! ```
//!
//! A reader answers `w N` for a whole line of so many bytes, `a N` where it waits for so many octets, `p` for the beginning of a
//! line, `s N` and `t N` where the byte at that place has no meaning or makes a literal too long, and `l` for a line that is too
//! long. `oracle/wire_answers.py` decides these in another way; the lines from `listings` on are there for `bench/wire.py`.
#![tactic(auto)]

mod buffered;
mod command;
mod feed;
mod made;
mod made_replies;
mod named;
mod pieces;
pub mod play;
mod reader;
mod reply;
mod reporting;
mod sets;
mod strings;
mod token;
mod tokens;
mod wire;
