//! What the programs print of a run: what became of its steps, and what it answers.
#![tactic(auto)]

pub mod answer;
pub mod performed;
