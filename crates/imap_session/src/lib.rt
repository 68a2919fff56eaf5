//! What a session with an IMAP server is (RFC 9051, section 3, in the profile of docs/FORMATS.md): the mailboxes and the
//! condition of a connection, what each command does and which replies it gets, what is read that is no command, and
//! what both ends of a connection have. These are definitions, in `specs/`; `sessions` and `exchanges` have laws above them, for whoever
//! doubts them. `naming` and `changing` have what commands make of the messages that a set of UIDs names.
#![tactic(auto)]

pub mod changing;
pub mod exchanges;
pub mod naming;
pub mod sessions;
