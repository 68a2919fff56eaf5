//! What the replies to the commands of a client report: mailboxes and their names, messages, bodies, marks, and the UID of a message that
//! was added.
#![tactic(auto)]

pub mod bodies;
pub mod given;
pub mod items;
pub mod marks;
pub mod names;
pub mod opening;
pub mod reading;
pub mod reported;
mod shown;
