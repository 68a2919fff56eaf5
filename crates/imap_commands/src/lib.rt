//! Commands of IMAP (RFC 9051, section 6, in the profile of docs/FORMATS.md): what they are, and how they are read and
//! written as bytes.
#![tactic(auto)]

mod append;
pub mod command;
pub mod message;
pub mod pattern;
pub mod places;
pub mod reading;
mod request_writing;
mod requests;
mod verb;
pub mod writing;
