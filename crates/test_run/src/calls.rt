//! The calls of an outside in memory, and which of them stop or are refused, as scripts say it.

use book::mem_shelf::ShelfCall;
use device::schedule::{CallStop, Moment};
use mailcore::side::Side;
use mem_mailbox::box_condition::{BoxCall, BoxCondition};
use run_trial::stop::Halt;
use std::alloc::Global;
use test_scripts::failure::Failure;
use test_scripts::words::Words;

/// A call that a script can stop.
#[derive(Clone, Copy)]
enum Call {
    /// Of the mailbox of a side.
    Box(Side, BoxCall),
    /// Of the shelf.
    Shelf(ShelfCall),
}

/// All of them, with their names.
const CALLS: [(&str, Call); 22] = [
    ("far.open", Call::Box(Side::Far, BoxCall::Open)),
    ("far.list", Call::Box(Side::Far, BoxCall::List)),
    ("far.find_mark", Call::Box(Side::Far, BoxCall::FindMark)),
    ("far.load", Call::Box(Side::Far, BoxCall::Load)),
    ("far.append", Call::Box(Side::Far, BoxCall::Append)),
    ("far.add_flags", Call::Box(Side::Far, BoxCall::AddFlags)),
    (
        "far.remove_flags",
        Call::Box(Side::Far, BoxCall::RemoveFlags),
    ),
    ("far.expunge", Call::Box(Side::Far, BoxCall::Expunge)),
    ("near.open", Call::Box(Side::Near, BoxCall::Open)),
    ("near.admit", Call::Box(Side::Near, BoxCall::Admit)),
    ("near.list", Call::Box(Side::Near, BoxCall::List)),
    ("near.find_mark", Call::Box(Side::Near, BoxCall::FindMark)),
    ("near.load", Call::Box(Side::Near, BoxCall::Load)),
    ("near.append", Call::Box(Side::Near, BoxCall::Append)),
    ("near.add_flags", Call::Box(Side::Near, BoxCall::AddFlags)),
    (
        "near.remove_flags",
        Call::Box(Side::Near, BoxCall::RemoveFlags),
    ),
    ("near.expunge", Call::Box(Side::Near, BoxCall::Expunge)),
    ("near.sync", Call::Box(Side::Near, BoxCall::Sync)),
    ("shelf.read", Call::Shelf(ShelfCall::Read)),
    ("shelf.append", Call::Shelf(ShelfCall::Append)),
    ("shelf.replace", Call::Shelf(ShelfCall::Replace)),
    ("shelf.remove", Call::Shelf(ShelfCall::Remove)),
];

/// The call of this name.
fn call_named(name: &[u8]) -> Option<Call> {
    let (_, call) = CALLS.iter().find(|(word, _)| word.as_bytes() == name)?;
    Some(*call)
}

/// Which calls of a mailbox stop, and which are refused.
#[derive(Drop)]
pub struct BoxSchedule {
    stops: Vec<CallStop<BoxCall>>,
    refusals: Vec<CallStop<BoxCall>>,
}

impl BoxSchedule {
    /// None.
    fn new(alloc: Global) -> BoxSchedule {
        BoxSchedule {
            stops: Vec::new(alloc),
            refusals: Vec::new(alloc),
        }
    }

    /// The condition of a mailbox whose calls stop and are refused so.
    pub fn condition(self) -> BoxCondition {
        let BoxSchedule { stops, refusals } = self;
        BoxCondition::new(stops, refusals)
    }
}

/// Which calls stop, and which are refused.
#[derive(Drop)]
pub struct Schedule {
    /// Of the far mailbox.
    pub far: BoxSchedule,
    /// Of the near mailbox.
    pub near: BoxSchedule,
    /// The calls of the shelf that stop.
    pub shelf_stops: Vec<CallStop<ShelfCall>>,
}

impl Schedule {
    /// None.
    pub fn new(alloc: Global) -> Schedule {
        Schedule {
            far: BoxSchedule::new(alloc),
            near: BoxSchedule::new(alloc),
            shelf_stops: Vec::new(alloc),
        }
    }

    /// `before CALL k`, `after CALL k` or `part shelf.append k b`: this call stops.
    pub fn read_stop(&mut self, line: &mut Words<'_>) -> Result<(), Failure> {
        let Some(halt) = Halt::read(line.rest()) else {
            return Err(Failure::Script);
        };
        match call_named(halt.call) {
            Some(call) => self.stop(halt.of(call)),
            None => Err(Failure::Script),
        }
    }

    /// `CALL k`: this call is refused.
    pub fn read_refusal(&mut self, line: &mut Words<'_>) -> Result<(), Failure> {
        let call = call_named(line.word().as_bytes());
        let number = line.long_number();
        match call {
            Some(Call::Box(_, BoxCall::Sync)) | Some(Call::Shelf(_)) | None => Err(Failure::Script),
            Some(Call::Box(side, call)) => Ok(
                self.of(side).refusals.push(CallStop {
                    call,
                    number,
                    moment: Moment::Before,
                })?,
            ),
        }
    }

    /// Adds a stop after the others.
    fn stop(&mut self, stop: CallStop<Call>) -> Result<(), Failure> {
        let CallStop {
            call,
            number,
            moment,
        } = stop;
        match call {
            Call::Box(side, call) => Ok(
                self.of(side).stops.push(CallStop {
                    call,
                    number,
                    moment,
                })?,
            ),
            Call::Shelf(call) => Ok(
                self.shelf_stops.push(CallStop {
                    call,
                    number,
                    moment,
                })?,
            ),
        }
    }

    /// That of the mailbox of a side.
    fn of(&mut self, side: Side) -> &mut BoxSchedule {
        match side {
            Side::Far => &mut self.far,
            Side::Near => &mut self.near,
        }
    }
}
