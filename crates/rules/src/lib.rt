//! The plain types of a run (entries, state, options, plans), and in `specs/` what a run means.
#![tactic(auto)]

pub mod entry;
pub mod flag_rule;
mod near_uids;
pub mod options;
pub mod plan;
pub mod state;
pub mod sync_words;
