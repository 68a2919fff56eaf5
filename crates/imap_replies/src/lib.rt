//! The replies of an IMAP server (RFC 9051, section 7, in the profile of docs/FORMATS.md), read and written.
#![tactic(auto)]

mod code_head;
mod event;
pub mod fetch;
mod fetch_writing;
mod head;
mod lines;
mod listing;
pub mod other;
pub mod places;
pub mod reading;
pub mod reply;
pub mod response;
mod response_writing;
pub mod word;
pub mod writing;
