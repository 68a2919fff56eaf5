//! The trait `Outside`: all that a run reads and changes, which is the far mailbox, the near mailbox and the book (state and
//! journal). `runner` makes a run over any type that has this trait, so that one proof holds for a server and a disk as well as
//! for mailboxes in memory.
#![tactic(auto)]

pub mod box_fault;
pub mod far_next;
pub mod fault;
pub mod fault_number;
pub mod mailbox;
pub mod outside;
