//! The tokens of IMAP lines that are no strings and no texts: numbers, atoms, tags, names, flags and sets of UIDs (RFC 9051,
//! section 9, in the profile of docs/FORMATS.md), read and written.
#![tactic(auto)]

pub mod appending;
pub mod atom;
pub mod flag_list;
mod flag_text;
pub mod names;
pub mod number;
mod spaced;
pub mod tag;
pub mod uid_set;
