//! Calls of the client as scripts write them, made over any link, and their answers.
//!
//! | Call | |
//! |---|---|
//! | `open`, `reconnect`, `login USER PASSWORD`, `names`, `create NAME`, `select NAME`, `logout` | of a session; `names` lists its mailboxes |
//! | `list`, `fetch UID`, `find_mark MARK UID`, `append FLAGS "BYTES"`, `add_flags UID FLAGS`, `remove_flags UID FLAGS`, `expunge UID ..` | of a mailbox; FLAGS are letters, or `-` for none; the UID of `find_mark` is the least that counts |
//! | `count` | lists the mailbox too, and reports how many messages there are |
//! | `into_session`, `into_link` | gives the session back, and the link |
//!
//! It is answered `done`, or with a value, or with a fault by its name (`FarFault`), or `not made` where the client has no
//! session or no mailbox for it. Of a message that is listed stand UID and flags, and `unfit` if it has more than 16777216 bytes;
//! of names and bodies with more than 200 bytes the first 60 and how many they are. Bytes between quotes are escaped as in
//! worlds (docs/FORMATS.md).
//!
//! # The player `client`
//!
//! [`play::run`] makes the calls of a client over a link whose other end says what the script says. What goes over the link in a
//! call stands in the lines before it:
//!
//! | Line | What it says |
//! |---|---|
//! | `S: TEXT` | the server says this line |
//! | `says "BYTES"`, `repeats N "BYTES"` | the server says these bytes; so many times |
//! | `C: TEXT` | the client has to send this line; what the server says after it comes once just these lines were sent |
//! | `sends "BYTES"` | the client has to send these bytes |
//! | `unreachable` | the server cannot be reached |
//! | `breaks N` | of what is sent N bytes go, and then the connection breaks |
//! | a call | is made; after its answer, `sent ..` reports what was sent though the script does not name it, `did not send ..` what was not, though it does |
//!
//! Where the server has no more to say, the bytes end.
//!
//! | Line | |
//! |---|---|
//! | `case ..` | a client and a server that nothing was said to, over a new link |
//! | `keep NAME` | the case ends here, and later ones can go on from it |
//! | `after NAME` | the case goes on from the one that was kept by this name: its calls are made first, and nothing of them is reported |
//! | `pieces N` | from here on what is said comes in pieces of at most N bytes (4096 where this does not stand) |
//! | `cut everywhere` | the case so far is played anew for each place at which what the server says may end: which call is the first whose answer is another one then, and whether those after it are stopped and send nothing |
//! | `over tcp HOST:PORT` | the calls after it in the case are made over a connection to the server there |
//! | `over memory` | the lines after it in the case are those of a server in memory, and calls that are made over a link to it |
//!
//! # A server in memory
//!
//! It has the user `u` with the password `p`, and these mailboxes:
//!
//! | Line | |
//! |---|---|
//! | `mailbox VALIDITY NEXT NAME` | a mailbox of the server |
//! | `message UID FLAGS "BYTES"` | a message of this mailbox, after the others |
//! | `messages N` | messages with the UIDs 1 to N, of which each begins with the mark that its UID is in twelve digits |
//! | `body N` | a message with the UID 1 and N bytes |
//! | `pieces N` | what the server says comes in pieces of at most N bytes (4096 where this does not stand) |
//!
//! They stand before the first call.
//!
//! # The player `cut_calls`
//!
//! [`cut_calls::run_cuts`] makes the calls of a client over a link to a server in memory, cut at each byte.
//!
//! | Line | |
//! |---|---|
//! | `case ..` | a server in memory without mailboxes; no call is made |
//! | a line of a server in memory, or a call | is played before each call that is cut after it, and refused there where it is bad |
//! | `cut CALL` | this call is made after the others, unbroken; then it is cut after each byte that is sent in it, and before each byte that is received in it |
//!
//! Reported are the answer of the unbroken call and what it changes on the server; then for each direction at how many places the call was
//! cut, and after how many of these cuts the server holds what the unbroken call leaves (the effect stands), or what it held before.
//!
//! It is `as it must be` where at each place the call answers `Stopped`, the server holds the one or the other, and a client that goes on
//! (with `reconnect`, or `open` where the session has ended, and `login`) lists just the mailboxes and messages that stand there, which
//! changes nothing; and where the call that is cut after its last byte answers what the unbroken one does. Else it says at how many
//! places it is not so, and what is wrong at the first.
#![tactic(auto)]

mod answers;
mod client;
pub mod cut_calls;
mod cuts;
mod held;
mod mailbox_calls;
mod memory;
pub mod play;
mod record;
mod replay;
mod scene;
pub mod script_link;
mod session_calls;
mod stage;
mod tally;
pub mod tape;
