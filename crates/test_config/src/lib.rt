//! Scripts of what the user writes: configurations, the names that patterns choose, and command lines of `mbsync`; and of where near
//! mailboxes are (`near_places_play`).
//!
//! The lines of a script of `config`, with [`play::run`]:
//!
//! | Line | Answer |
//! |---|---|
//! | `let NAME LINE \| LINE ..` | nothing: `$NAME` is a line that stands for these lines from now on, in the cases after it too |
//! | `read LINE \| LINE ..` | what the configuration of these lines says, or its first faulty line and the kind of its fault |
//! | `bytes "BYTES"` | the same of a text that is escaped as in worlds (docs/FORMATS.md) |
//! | `advise LINE \| LINE ..`, `advise_bytes "BYTES"` | what `mbsync` prints after the first faulty line and its kind: what to do |
//! | `long N LINE \| LINE ..` | the same, once each `~~` of the lines is N letters `x` |
//! | `choose WORD .. : NAME ..` | which of these names the words of Patterns choose |
//!
//! One space before and after `|` belongs to it.
//!
//! The lines of a script of `command_line`, with [`command_lines::run_words`]:
//!
//! | Line | Answer |
//! |---|---|
//! | `mbsync WORD ..` | what the words ask for, or what is printed on standard output and standard error, and the exit status |
//! | `closed mbsync WORD ..` | the same, where nothing can be written |
//!
//! Words are separated by one space, and `''` is the empty word.
#![tactic(auto)]

mod advised;
mod changes;
pub mod command_lines;
mod configs;
mod ground;
pub mod near_places_play;
mod patterns;
pub mod play;
mod requests;
