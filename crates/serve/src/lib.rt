//! A connection to a server, over any reader and writer: a socket, or bytes in memory.
#![tactic(auto)]

pub mod fault;
pub mod stream;
