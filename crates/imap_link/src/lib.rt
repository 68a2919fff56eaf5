//! A link to a server, and one command after another over it.
#![tactic(auto)]

pub mod fault;
pub mod kind;
pub mod link;
mod moving;
pub mod reply_buf;
mod search;
pub mod sink;
pub mod uses;
pub mod wire;
