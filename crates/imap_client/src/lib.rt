//! A session with an IMAP server, and the far mailbox, over any link.
#![tactic(auto)]

mod addition;
pub mod appending;
mod bodies;
mod call;
pub mod far_box;
pub mod laws;
mod leaving;
pub mod line_record;
mod listing;
mod login;
mod mailboxes;
mod marking;
pub mod noted_link;
mod sending;
pub mod session;
mod tags;
pub mod tcp_link;
mod transcript;
pub mod waits;
