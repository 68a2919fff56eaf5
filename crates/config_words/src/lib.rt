//! What a single line of the configuration says (docs/FORMATS.md, "Configuration"), or which error it has; `config` puts lines
//! together. For example, `Port 1143` is the keyword `Port` with a number, `Port x` has wrong arguments, and `Porte 1` begins with
//! an unknown keyword. `patterns` has the words that choose among the mailboxes of two stores.
#![tactic(auto)]

pub mod fault;
pub mod inbox;
pub mod keyword;
pub mod patterns;
pub mod setting;
pub mod words;
