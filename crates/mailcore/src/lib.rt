//! What a mail message is to a synchroniser: its UID, flags, content and mark, and how mailboxes list their messages; which marks a search
//! went past, and who else may add messages.
#![tactic(auto)]

pub mod atom;
pub mod content;
pub mod content_lines;
pub mod copies;
pub mod copy_pieces;
pub mod fault;
pub mod flag_laws;
pub mod flags;
pub mod keyword_laws;
pub mod keywords;
pub mod laws;
pub mod listing;
pub mod mailbox;
pub mod mailbox_name;
pub mod mailbox_pattern;
pub mod marks;
pub mod octets;
pub mod others;
pub mod passed_marks;
pub mod side;
pub mod spared;
pub mod tuid;
pub mod uid;
pub mod words;
