//! Mailboxes in memory: lists of messages, whose calls stop or are refused where schedules say so. Nobody else adds messages.
#![tactic(auto)]

mod admission;
pub mod box_condition;
pub mod kind;
pub mod mem_mailbox;
pub mod mem_store;
