//! A book: the state of the last run and the journal of a run, kept on a shelf so that they survive any stop.
#![tactic(auto)]

pub mod agreement;
pub mod allowed;
pub mod book;
pub mod book_log;
mod changes;
pub mod commit;
pub mod committed;
pub mod disk_shelf;
pub mod give_up;
pub mod given_up;
pub mod laws;
pub mod lost_sides;
pub mod mem_shelf;
mod places;
pub mod shelf;
mod taken;
