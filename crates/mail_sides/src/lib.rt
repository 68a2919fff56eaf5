//! The mailboxes of a run: the near one over a folder, the far one over a session with a server, and the pair of both with a book.
#![tactic(auto)]

pub mod account;
pub mod both;
mod entering;
pub mod far_reported;
pub mod far_side;
pub mod logged_in;
mod near_reported;
pub mod near_side;
pub mod sides;
mod stage;
