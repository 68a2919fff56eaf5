//! Scripts of runs over a server, a folder and a shelf in memory: trials (`play`), runs that are stopped at each of their calls
//! (`stops_play`), and runs that end with a fault (`wanting_play`).
//!
//! Trials as `mbtrial` makes them (docs/FORMATS.md, "Trial"), each over a server, a folder and a shelf in memory. After a line `play`
//! stand the lines that are printed, those of standard error, each after `err`, and the exit status.
//!
//! | Line | Meaning |
//! |---|---|
//! | `trial` | the text of a trial up to a line `.`, which the lines after it play |
//! | `play` | the trial is played, and the far mailbox is reached in memory |
//! | `play over loopback` | the same, and the far mailbox is reached over a loopback connection |
//! | `play following a face` | the same, and the far mailbox is reached in memory through a face, as `mbsync` hears real servers |
//! | `play in pieces` | whether it comes to the same as in memory where at most 1, 7 and 4096 bytes of what the server says are received at once |
//! | `play for each B from N to M` | the trial is played once for each number from N to M, instead of each word `B` of its text: where all numbers of a range have the same answer, it is reported once after the range |
//! | `play for each B from N to M over loopback` | the same over loopback connections |
//! | `play for each B from N to M following a face` | the same through faces |
//! | `play for each B from N to M in pieces` | whether each comes to the same as in memory where what the server says is received in pieces |
#![tactic(auto)]

mod alike;
mod numbered;
pub mod play;
mod renaming;
mod stop;
pub mod stops_play;
mod sweep;
pub mod wanting_play;
mod world;
