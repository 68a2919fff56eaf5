//! Parts of texts that every format has: numbers, escaped bytes, lines, and cuts at a byte.
#![tactic(auto)]

pub mod cut;
pub mod escape;
pub mod fault;
pub mod lines;
pub mod number;
