//! Scripts of whole runs: over servers that lie, and of the whole program.
//!
//! **Over servers that lie**, with [`lying_play::run`]: a link whose other end says what a script says, and in memory a folder and a shelf.
//!
//! | Line | |
//! |---|---|
//! | `near VALIDITY NEXT` | an empty near mailbox, and a shelf with neither state nor journal |
//! | `message UID FLAGS "BYTES"` | a message of this mailbox, after the others |
//! | `C:`, `S:` and the like | what goes over the link in the next run (the library `test_client`) |
//! | `settle` | one run over a new link, of the INBOX of the user `u` with the password `p`, with Sync Full and Expunge None, in one attempt and with the marks of a trial: `ran`, `finished` or `already` and the steps that were performed, or a fault by its name (`RunFault`). What was sent though the script does not say so follows, and what was not, though it does |
//! | `state`, `journal` | the bytes of this file after a run, or `missing` |
//! | `cut everywhere` | the lines before it in the case are played with each beginning of what the server says in them: what the runs answer, and at which places |
//!
//! **Of the program**, with [`program_play::run`]: mbsync from the words of the command line to the exit status, over a server and folders in
//! memory.
//!
//! It runs on a machine of its own ([`machine::Machine`]). Its disk is in memory, with an empty home folder, and `/dev/urandom` always gives
//! the same bytes. Its clock stands, and whatever address it connects to is a server in memory, for the user `u` with the password `p`.
//! Each of its calls of the system can be interrupted, those on an open file and on a connection among them: then each later one fails too.
//! Only folders have times, and these stand still. What was written but not synced is kept, as where a process is killed and the system goes
//! on.
//!
//! FLAGS are letters, or `-` for none. Bytes between quotes are escaped as in worlds (docs/FORMATS.md). A line `case NAME` begins anew, with
//! no mailbox and an empty home folder. Lines of the scene say what stands at first:
//!
//! | Line | Meaning |
//! |---|---|
//! | `mailbox VALIDITY NEXT NAME` | a mailbox of the server |
//! | `message UID FLAGS "BYTES"` | a message of this mailbox, after the others |
//! | `folder PATH` | a Maildir folder, by its path from the home folder |
//! | `look PATH` | a Maildir folder that is looked at where it is there, since a run may make it |
//! | `file PATH "BYTES"` | a file |
//! | `config` | the lines up to `end` are the configuration, `.mbsyncrc` |
//! | `world` | the lines up to `end` are a world (docs/FORMATS.md): its far mailbox is the server's INBOX, its near one stands in the folder `mail` with its state, and the channel `c` synchronises them |
//!
//! The others play it. Words are those of the command line:
//!
//! | Line | Answer |
//! |---|---|
//! | `run WORDS` | the exit status, and what is printed; the next line finds what this run left |
//! | `show` | the messages of both sides, without marks, and whose they are |
//! | `stops WORDS` | From the scene, the program runs and is interrupted at one call of the system, before its effect, after it, or after it has written the first half of its bytes, and runs again, unless the interruption before has left the same: for each call. Whether each time this left the same messages as a run that nothing interrupts, and nothing to do |
#![tactic(auto)]

mod calls;
mod connection;
mod counted_file;
mod cuts;
mod found;
mod home;
pub mod lying_play;
mod lying_stage;
pub mod machine;
mod mem_content;
mod mem_dir;
mod mem_disk;
mod mem_file;
mod mem_tree;
mod near;
pub mod program_play;
mod program_stage;
mod scene;
mod stops;
mod system_folders;
mod whole_run;
mod world;
