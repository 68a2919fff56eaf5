//! Links to a server in this process, which stop where a schedule says: one in memory, and one over a loopback connection.
#![tactic(auto)]

pub mod acted_link;
pub mod acts;
pub mod arrivals;
pub mod command;
pub mod loop_link;
pub mod mem_link;
mod muting;
pub mod schedule;
mod sending;
mod unread;
pub mod visited_link;
