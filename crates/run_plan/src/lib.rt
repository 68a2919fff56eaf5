//! The program `mbplan`, from the text of a world to the text of its plan, over readers and writers.
#![tactic(auto)]

mod failure;
pub mod run;
