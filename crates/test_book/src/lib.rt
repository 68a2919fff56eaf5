//! What is read of the texts of states and journals (docs/FORMATS.md), what books on shelves answer, and what each stop leaves,
//! as scripts ask for it.
//!
//! A case has the files of a shelf, a plan, and one shelf or the book that is open on it:
//!
//! | Line | Meaning |
//! |---|---|
//! | `state` | the state's file: its lines stand after this one, up to `.` |
//! | `state torn` | the same, without the LF after the last line |
//! | `state missing` | there is none |
//! | `state from FILE` | it is read from a file, seen from where the program runs |
//! | `journal` | the journal's file, in all these ways |
//! | `plan` | a plan: the lines of a journal's plan without the first and the last one, up to `.` |
//! | `stop before append 2`, `stop after append 2` | the second append of the next shelf in memory stops before or after its effect |
//! | `stop following 7 append 1` | the first one stops after seven bytes |
//! | `shelf memory` | a shelf in memory, with the files |
//! | `shelf disk` | a shelf on a disk, in the folder `shelf`, with the files |
//!
//! Questions about the files and the plan:
//!
//! | Line | Answer |
//! |---|---|
//! | `read state`, `read journal` | what is read of the file, and whether it is written so again |
//! | `beginnings state` | the same of each beginning of it, held against a rule: the lines after this one, up to `.` |
//! | `disagreement` | the first line of the journal that does not agree with the state |
//! | `has_text` | whether the plan has a text |
//! | `stops open`, `stops` and a call of a book | what is left where it stops at a call of its shelf, and how it is resumed |
//!
//! A row of a rule says of the beginnings with so many whole lines how they are to be read: `N: ANSWER`, `N to N: ANSWER`, and
//! `N torn: ANSWER` for those alone whose whole lines a part of one follows. Of rows about one beginning the first counts. A
//! beginning that is read otherwise is printed as `WRONG`.
//!
//! Calls of the shelf, while no book is open on it:
//!
//! | Line | Meaning |
//! |---|---|
//! | `shelf read state`, `shelf append state "e 1 1 S\0a"`, `shelf replace state ""`, `shelf remove state` | that call |
//! | `reopen` | opens the shelf again |
//! | `open` | opens a book on it, which has it then |
//!
//! Calls of the book, each answered with what the book says then. Steps are numbered from 1:
//!
//! | Line | Meaning |
//! |---|---|
//! | `held` | what the book says |
//! | `discard`, `mend`, `begin`, `commit` | that call; the plan of the script is begun |
//! | `done 2`, `done 1 7`, `void 1` | logs a step as done, with the UID of its copy if it makes one, or as void |
//! | `log all` | logs all that is left as done, each copy with the number of its step as its UID |
//! | `close` | the shelf is taken from the book |
//!
//! What is done to a shelf on a disk, and what is seen of a shelf:
//!
//! | Line | Meaning |
//! |---|---|
//! | `folder at journal` | makes a folder where the file would be; `next` is the file that is written before it replaces one |
//! | `folder away journal` | takes it away |
//! | `folder link state`, `folder symlink state` | makes the next file a second name of this one, or a symlink to it |
//! | `folder removed` | takes the folder of the shelf away |
//! | `mode state` | who may use the file |
//! | `show` | what the files hold, and how many calls of a shelf in memory have stopped |
#![tactic(auto)]

mod answer;
mod call;
mod desk;
mod files;
mod folder;
mod plan_text;
pub mod play;
mod readings;
mod rule;
mod runs;
mod stage;
mod stops;
