//! The command line of `mbsync`: its words, the request that they name, and what is printed where they name none.
#![tactic(auto)]

pub mod fault;
pub mod read;
pub mod report;
mod sync_flag;
mod synopsis;
