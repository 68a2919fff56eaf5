//! The strings and texts of IMAP lines: quoted strings, literals, both beside an atom, and the texts that end lines or stand
//! in a response code (RFC 9051, section 9, in the profile of docs/FORMATS.md), read and written.
#![tactic(auto)]

pub mod astring;
pub mod code_text;
pub mod delimiter;
mod framed;
pub mod line_text;
pub mod octets;
pub mod plain_text;
pub mod quoted;
pub mod string;
pub mod string_writing;
pub mod text;
mod token_end;
