//! Scripts of sessions with the server, and of links to it that stop.
//!
//! FLAGS are letters, or `-` for none. Bytes between quotes are escaped as in worlds (docs/FORMATS.md). In an answer a byte outside
//! 32 to 126 is shown as `<0a>`, and of a line with more than 200 bytes its beginning and how long it is. A line `case NAME` begins
//! anew, with no mailbox, no server, no stop and no link, and pieces of 4096 bytes.
//!
//! In both kinds of scripts:
//!
//! | Line | Answer |
//! |---|---|
//! | `mailbox VALIDITY NEXT NAME` | a mailbox of the next server |
//! | `message UID FLAGS "BYTES"` | a message of this mailbox, after the others |
//! | `C: TEXT` | TEXT as it stands, with its line end, is sent |
//! | `part TEXT` | the same without the line end |
//! | `bytes "BYTES"`, `times N "BYTES"` | these bytes are sent; so many times, at once |
//! | `mailboxes` | each mailbox: its name, UIDVALIDITY, UIDNEXT and messages |
//!
//! A script of sessions, with [`play::run`]. What is sent is answered with the replies.
//!
//! | Line | Answer |
//! |---|---|
//! | `server` | a server with these mailboxes, for the user `u` with the password `p`, replaces the last one |
//! | `connect` | a connection begins: the greeting |
//! | `pieces N` | from here on bytes are fed in pieces of N |
//! | `hang up` | the connection ends |
//! | `arrive NAME FLAGS N "BYTES"` | a message with so many times these bytes comes to the mailbox NAME from elsewhere: its UID, or `none`, or why not |
//! | `together` | what is sent up to the line `end` is fed as one; there, the replies |
//! | `loopback` | what is sent up to the line `end` goes over a loopback connection, which is written in full before it is served: what comes back, and how serving ended |
//! | `stream`, `stream until read K`, `stream until write K` | the same over a reader and a writer in memory, whose K-th call fails |
//!
//! A script of links, with [`play::run_links`]. What is sent is answered with `ok`, or why not. NAME is SELECT, FETCH, STORE,
//! EXPUNGE or APPEND.
//!
//! | Line | Answer |
//! |---|---|
//! | `stop before NAME K`, `stop after NAME K` | the next link stops at the K-th command of this name, before it is done or after it |
//! | `stop literal K B` | it stops where the server has read B octets of the literal of the K-th APPEND |
//! | `stop reply K B` | it stops where B bytes of the tagged reply to the K-th APPEND have come |
//! | `stop sent N`, `stop received N` | it stops where so many bytes were sent, or received |
//! | `link memory`, `link memory N`, `link loopback` | a link to a server with these mailboxes, for the user `u` with the password `p`, replaces the last one: in memory (where at most N bytes come at once), or over a loopback connection |
//! | `reconnect` | a new connection: `ok`, or why not |
//! | `receive` | what comes by one call, or why nothing does |
//! | `count` | how many bytes come by calls up to the first that gives fewer than 4096 |
//! | `stops` | how many calls have stopped |
#![tactic(auto)]

mod arriving;
mod calls;
mod links;
mod mailboxes;
pub mod play;
mod sent;
mod serving;
mod sessions;
mod stops;
