//! The state of the last run and the journal of a run: their texts, and which plans have one.
#![tactic(auto)]

pub mod fault;
mod fields;
pub mod has_text;
mod items;
pub mod journal;
pub mod journal_lines;
pub mod journal_read;
pub mod journal_text;
pub mod keyword_lines;
pub mod laws;
pub mod lines;
pub mod place;
pub mod state_text;
pub mod version;
mod words;

pub use rules::entry::{Entries, Entry};
pub use rules::options::{Cells, Directions, Options, Sides};
pub use rules::plan::{Note, Notes, Plan, PlanSide, Step, Steps};
pub use rules::state::SyncState;
