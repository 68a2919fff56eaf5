//! Trials (docs/FORMATS.md, "Trial"): a world, how often a run of it is tried, and where its calls stop; and the run of one over everything
//! that a real one has but a network and a disk: a session with a server, a folder and a shelf in memory. How the text of one is read, the
//! devices that it says, and what is reported of it.
#![tactic(auto)]

pub mod act;
mod acted;
mod among;
pub mod arrival;
pub mod attempts;
pub mod contents;
pub mod count;
pub mod devices;
pub mod failure;
pub mod folder;
mod linked;
pub mod memory;
mod other_marks;
pub mod read;
pub mod report;
pub mod run;
mod schedule;
pub mod server;
pub mod setting;
pub mod shelf;
pub mod stop;
pub mod trial;
pub mod trial_laws;
mod visited;
