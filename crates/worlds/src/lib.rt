//! Worlds, the texts that hold two mailboxes and a state: how they are read and written; and the lines of a plan as they are printed.
#![tactic(auto)]

pub mod fault;
pub mod line;
pub mod listed;
pub mod plan_lines;
pub mod read;
mod read_keywords;
pub mod read_mailbox;
mod read_options;
mod read_state;
pub mod trial_generator;
pub mod words;
pub mod world;
pub mod write;
