//! A small IMAP server (RFC 9051, in the profile of docs/FORMATS.md): mailboxes in memory, one connection at a time.
//! It reads and answers bytes in any pieces, and opens no connection itself.
#![tactic(auto)]

mod acts;
mod append_command;
mod commands;
mod condition;
mod dropped;
mod fault;
mod line;
mod list_command;
mod mailbox_commands;
mod message_commands;
mod news;
mod reading;
pub mod served;
pub mod server;
mod service;
mod session_commands;
mod unread;
mod words;
mod writing;
