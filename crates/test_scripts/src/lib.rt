//! Scripts of tests: what a line says, what is answered, and the transcript, in which each line of the script is followed by
//! its answers.
//!
//! A program of tests reads its standard input with [`program::play_input`]. There a line `script NAME` says which library plays the
//! lines after it. Each answer stands on a line of its own, after two spaces.
#![tactic(auto)]

pub mod failure;
pub mod mail;
pub mod play;
pub mod program;
pub mod reported;
pub mod script;
pub mod words;
