//! `Pair`, the `Outside` of a run over any two mailboxes and a book on any shelf, for example a mailbox at a server, one in a
//! folder, and files on a disk. It hands each call of a run to the part that it concerns, copies a message by loading it from one
//! mailbox and appending it to the other, and after a failed call answers `Stopped` until all is opened again.
#![tactic(auto)]

mod apart;
pub mod book_part;
mod book_reported;
mod copying;
pub mod device_history;
pub mod laws;
mod listings;
mod naming;
pub mod pair;
mod pair_outside;
mod plan_written;
mod run_ended;
mod run_given_up;
pub mod tally;
mod together;
