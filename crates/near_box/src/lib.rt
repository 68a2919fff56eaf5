//! The near mailbox: the mailbox that stands in a Maildir folder.
#![tactic(auto)]

mod admitting;
mod call;
mod flag_change;
mod known_mark;
pub mod laws;
mod near_box;
mod near_calls;
mod near_fault;
mod opening;
mod read_fault;
mod reading;
mod survey;
mod waiting;

pub use crate::near_box::NearBox;
pub use crate::near_fault::NearFault;
