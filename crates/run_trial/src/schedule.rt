//! Where the link of a trial stops, and which replies over it come without APPENDUID.

ghost use Rattle.std.specs.Prelude.{◌≡◌};
ghost use Rattle.run_trial.specs.Among.{name_of};

use crate::stop::{Cut, FarStop, StopCommand};
use device::schedule::{CallStop, Moment};
use mem_link::command::{CommandName, Nth};
use mem_link::schedule as link;
use std::alloc::{AllocError, Global};

/// The schedule of these stops, where the replies to the APPENDs of these numbers come without APPENDUID.
pub(crate) fn schedule_of(
    alloc: Global,
    stops: &[FarStop],
    mutes: Vec<u64>,
) -> Result<link::Schedule, AllocError> {
    let mut all = Vec::with_capacity(alloc, stops.len())?;
    for stop in stops {
        if let Some(stop) = stop_of(*stop) {
            all.push(stop)?;
        }
    }
    Ok(link::Schedule::new(all).muting(mutes))
}

/// A stop as a link says it. There are no parts of a command.
fn stop_of(stop: FarStop) -> Option<link::LinkStop> {
    match stop {
        FarStop::Command(stop) => command_stop(stop),
        FarStop::Append(append, Cut::Reply(bytes)) => Some(link::LinkStop::InReply {
            append,
            bytes,
        }),
        FarStop::Append(append, Cut::Send(octets)) => Some(link::LinkStop::InLiteral {
            append,
            octets,
        }),
    }
}

fn command_stop(stop: CallStop<StopCommand>) -> Option<link::LinkStop> {
    let command = Nth {
        name: name_of(stop.call),
        number: stop.number,
    };
    match stop.moment {
        Moment::Before => Some(link::LinkStop::Before(command)),
        Moment::After => Some(link::LinkStop::After(command)),
        Moment::Part(_) => None,
    }
}

/// The name of this command, as a link says it.
pub(crate) fn name_of(command: StopCommand) -> CommandName
    ensures { result ≡ name_of command }
{
    match command {
        StopCommand::Capability => CommandName::Capability,
        StopCommand::Login => CommandName::Login,
        StopCommand::Enable => CommandName::Enable,
        StopCommand::Select => CommandName::Select,
        StopCommand::Fetch => CommandName::Fetch,
        StopCommand::Store => CommandName::Store,
        StopCommand::Expunge => CommandName::Expunge,
        StopCommand::Append => CommandName::Append,
    }
}
