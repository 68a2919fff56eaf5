//! Runs over mailboxes and a shelf in memory, with the marks of the trial generator. Of a run is printed what `mbtrial` prints of a
//! trial: what it came to, what became of its steps, and the world from its line `far` on (docs/FORMATS.md, "Trial").
//!
//! A case has these lines, those that say what stops before its first run.
//!
//! | Line | Meaning |
//! |---|---|
//! | `world` | a world up to its line `end` (docs/FORMATS.md, "World"): what the runs of the case are made over |
//! | `journal "BYTES"` | the journal before the first run |
//! | `stop before CALL k` | the k-th call of this name has no effect, and stops |
//! | `stop after CALL k` | it has its effect, and stops |
//! | `stop part shelf.append k b` | its first b bytes are written, and it stops |
//! | `refuse CALL k` | the k-th call of this name is refused |
//! | `run N` | a run is made in up to N attempts, over what the one before it left |
//!
//! The calls of the far mailbox are `far.open`, `far.list`, `far.find_mark`, `far.load`, `far.append`, `far.add_flags`,
//! `far.remove_flags` and `far.expunge`. Those of the near mailbox have the same names after `near.`, and two more are `near.admit`
//! and `near.sync`. Those of the shelf are `shelf.read`, `shelf.append`, `shelf.replace` and `shelf.remove`. `near.sync` and the calls
//! of the shelf are not refused. Calls are counted over the whole case.
#![tactic(auto)]

pub mod calls;
pub mod play;
pub mod stage;
