//! Scripts of worlds: what `mbplan` makes of them, how they are written, and what the planner answers on them; and of the words of
//! mail that stand in them.
//!
//! Bytes stand between quotes and are escaped as in worlds (docs/FORMATS.md). Of worlds and of words of Sync they may stand between
//! bars too, for themselves. A world stays the last one until the next, also after a line `case`.
//!
//! Worlds, and what `mbplan` does with them:
//!
//! | Line | Answer |
//! |---|---|
//! | `world`, then its lines, then a line `.` | what `mbplan` prints for this world on standard output and standard error, and its status |
//! | `line N "BYTES"` | the same on the last world with this line in place of line N |
//! | `following "BYTES"` | the same with these bytes after it |
//! | `grow line N by COUNT` | the same, once the message of line N has so many letters more; the world stays so |
//! | `beginnings` | the same on each beginning of the last world, where those with one answer stand together |
//! | `reader fails` | the same, where the reader gives one byte at a time and then fails |
//! | `writer takes COUNT bytes`, `error writer takes COUNT bytes` | the same, where standard output or standard error fails after so many bytes |
//! | `writer cannot be flushed`, `argument given` | the same in these cases |
//! | `written`, `written from far`, `written from far admitted` | how the last world, its part from `far` on, or this part with its waiting files admitted is written |
//! | `written line N "BYTES"` | line N of the last world as it is written, once it is read with these bytes |
//! | `news`, `unfit`, `plan MARK ..` | what these calls of the planner answer on the last world |
//! | `turns MARK ..` | from how many to how many turns the planner takes on it at most, or `none` |
//! | `compare COUNT` | on how many of so many drawn worlds the planner answers otherwise than one that walks over whole lists |
//!
//! Words of mail:
//!
//! | Line | Answer |
//! |---|---|
//! | `sync "WORDS"`, `sync` | the cells that these words, or no words, choose |
//! | `marks COUNT counting`, `marks COUNT constant` | so many marks of a generator whose words are 1, 2, 3 .., or all 0 |
//! | `mark "BYTES"`, `mark_of "BYTES"` | the mark that this is, or that this message bears |
//! | `content "BYTES"`, `length far "BYTES"` | what this message says, and how long that is on this side |
//! | `copy far MARK "BYTES"`, `copy_len far "BYTES"`, `fit far "BYTES"` | the copy on this side, how long it is, and whether a message of this side can be copied; `near` likewise |
//! | `flags "LETTERS"`, `imap "NAME"`, `uid N` | the flags with these letters, the flag with this name, this UID |
#![tactic(auto)]

mod cells;
mod changes;
mod comparison;
mod devices;
mod drawn_worlds;
mod generator;
mod mail;
mod marks;
mod phrases;
mod plain_plan;
mod planner_calls;
pub mod play;
mod runs;
mod turns;
mod written;
