//! What a command line comes to: channels in an order, or why nothing is done.

ghost use Rattle.std.specs.Prelude.{◌≡◌, IfErr, IfOk, IfSome, IsErr, Ok};
ghost use Rattle.channels.specs.Chosen.{chosen_among, unknown_among};
ghost use Rattle.config.specs.Cells.{line_cells};
ghost use Rattle.channels.specs.Refusals.{IsReason, IsRefused, IsUnknown, refusal_advice, status_of};

use crate::chosen::{chosen_places, unknown_name};
use config::cells::{CellsFault, cells};
use config::config::Config;
use config::request::RunRequest;
use rules::options::Cells;
use std::alloc::{AllocError, Global};
use std::fmt;

/// The channels that a command line names, and what it says of their runs.
#[derive(Drop)]
pub(crate) struct Course {
    /// The places of the channels in the configuration, in the order in which they run.
    pub(crate) places: Vec<usize>,
    /// The cells that stand in place of every channel's.
    pub(crate) cells: Option<Cells>,
}

/// Why nothing of a command line is done, as it is reported.
#[derive(Clone, Copy, Debug, PartialEq, Eq)]
pub(crate) enum Refusal<'a> {
    /// This name is neither a channel nor a group.
    Unknown(&'a str),
    /// The words of Sync are refused.
    SyncWords,
    /// A growth was refused.
    NoMemory,
}

impl fmt::Display for Refusal<'_> {
    ghost use Rattle.std.specs.Prelude.{Some};
    ghost use Rattle.channels.specs.Refusals.{refusal_text};

    ghost output = { λ refusal. Some (refusal_text refusal) };

    fn fmt<W: fmt::Write>(&self, f: &mut fmt::Formatter<W>) -> fmt::Result {
        match *self {
            Refusal::Unknown(name) => write!(f, "unknown {name}"),
            Refusal::SyncWords => f.write_str("sync words"),
            Refusal::NoMemory => f.write_str("no memory"),
        }
    }
}

impl Refusal<'_> {
    /// What to do, on a line after a line end.
    pub(crate) fn advice(self) -> &'static str
        ensures { result.now ≡ refusal_advice self.entry }
    {
        match self {
            Refusal::Unknown(_) => {
                "\n  the configuration has no channel or group of this name: its lines Channel and Group say which it has"
            }
            Refusal::SyncWords | Refusal::NoMemory => "",
        }
    }

    /// The exit status.
    pub(crate) fn status(self) -> u8
        ensures { result ≡ status_of self.entry }
    {
        match self {
            Refusal::Unknown(_) | Refusal::SyncWords => 2,
            Refusal::NoMemory => 1,
        }
    }
}

/// What a command line comes to. The first name that is unknown is reported before words of Sync that are refused.
pub(crate) fn course_of<'a>(
    alloc: Global,
    config: &Config,
    request: &'a RunRequest,
) -> Result<Course, Refusal<'a>>
    ensures places { IfOk result (λ course. course.places.items ≡ chosen_among config.now request.now.chosen) }
    ensures cells { IfOk result (λ course. line_cells request.now.sync_words.items ≡ Ok course.cells) }
    ensures unknown { IfSome (unknown_among config.now request.now.chosen) (IsUnknown result) }
    ensures refused { IsRefused config.now request.now → IsErr result }
    ensures usage { IfErr result (λ refusal. status_of refusal ≡ 2 → IsRefused config.now request.now) }
    ensures reason { IfErr result (IsReason config.now request.now) }
{
    if let Some(name) = unknown_name(config, &request.chosen) {
        return Err(Refusal::Unknown(name));
    }
    let cells = match cells(alloc, &request.sync_words) {
        Ok(cells) => cells,
        Err(CellsFault::Refused(_)) => return Err(Refusal::SyncWords),
        Err(CellsFault::NoMemory) => return Err(Refusal::NoMemory),
    };
    match chosen_places(alloc, config, &request.chosen) {
        Ok(places) => Ok(Course { places, cells }),
        Err(AllocError) => Err(Refusal::NoMemory),
    }
}
