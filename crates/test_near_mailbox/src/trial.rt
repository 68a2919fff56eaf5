//! An operation that is stopped at each of its calls in turn.

use crate::files::{Standing, gather, print_changes};
use crate::memory::Memory;
use crate::noted_folder::NotedFolder;
use crate::operation::report_fault;
use crate::seat::{Seat, read_validity};
use crate::stop::print_stop;
use device::schedule::{CallStop, Moment};
use mailcore::keywords::Keywords;
use maildir::folder::Folder;
use maildir::mem_folder::{FolderCall, MemFolder};
use near_box::NearFault;
use std::num::NonZeroU32;
use test_scripts::reported::Reported;
use test_scripts::words::Words;

/// An operation of each kind.
const EACH: [&[u8]; 8] = [
    b"admit",
    b"list",
    b"fetch 1",
    b"find AQAAAAAAAAAC 1",
    b"append - \"\"",
    b"add 1 -",
    b"remove 1 -",
    b"expunge -",
];

/// An operation on a new mailbox, or `open` for the opening alone.
#[derive(Clone, Copy)]
struct Trial<'a> {
    rt: &'a HostRuntime,
    memory: &'a Memory,
    /// The validity of a mailbox without a meta file.
    fresh: NonZeroU32,
    operation: Words<'a>,
    /// The files in a new folder.
    before: &'a [Standing],
}

/// `V OPERATION`: prints what each stop leaves, what a new mailbox lists then, and what the operation answers when it is called
/// again.
pub fn try_stops(rt: &HostRuntime, memory: &Memory, line: &mut Words<'_>, reported: &mut Reported) {
    let fresh = read_validity(line);
    let mut seat = memory.new_seat(None, line);
    let mut before = Vec::new(rt.alloc());
    if let Some(noted) = seat.close() {
        gather(rt, &noted.folder, &mut before, line);
    }
    let trial = Trial {
        rt,
        memory,
        fresh,
        operation: *line,
        before: &before,
    };
    trial.print_stops(&mut seat, line, reported);
    drop(before);
    drop(seat);
}

impl Trial<'_> {
    /// Does it in this folder without a stop, which shows its calls, and then with a stop in each of them.
    fn print_stops(
        self,
        seat: &mut Seat<NotedFolder<MemFolder>>,
        line: &mut Words<'_>,
        reported: &mut Reported,
    ) {
        let first = self.first_call(seat);
        let mut aside = Reported::new(self.rt.alloc());
        self.act(seat, line, &mut aside);
        if aside.is_lost() {
            reported.lose();
        }
        if let Some(noted) = seat.close() {
            self.print_calls(noted.calls.as_slice(), first, line, reported);
        }
    }

    /// Opens the mailbox. Gives the first call that is stopped: the first of all, or the first after the opening.
    fn first_call(self, seat: &mut Seat<NotedFolder<MemFolder>>) -> usize {
        let mut operation = self.operation;
        if operation.word() == "open" {
            return 0;
        }
        let alloc = self.rt.alloc();
        let _ = seat.open(alloc, self.fresh, Keywords::new(alloc));
        match seat.close() {
            Some(noted) => noted.calls.len(),
            None => 0,
        }
    }

    /// Stops each of these calls after the first ones.
    fn print_calls(
        self,
        calls: &[FolderCall],
        first: usize,
        line: &mut Words<'_>,
        reported: &mut Reported,
    ) {
        for (place, call) in calls.iter().enumerate().skip(first) {
            let number = number_of(*call, calls, place);
            self.print_moments(*call, number, line, reported);
        }
    }

    /// Stops the call of this name and number before, after each byte of a copy, and after the call.
    fn print_moments(
        self,
        call: FolderCall,
        number: u64,
        line: &mut Words<'_>,
        reported: &mut Reported,
    ) {
        let mut stop = CallStop {
            call,
            number,
            moment: Moment::Before,
        };
        self.print_stop(stop, line, reported);
        if call == FolderCall::WriteTmp {
            for count in 0..=self.copy_length(line) {
                stop.moment = Moment::Part(count);
                self.print_stop(stop, line, reported);
            }
        }
        stop.moment = Moment::After;
        self.print_stop(stop, line, reported);
    }

    /// How many bytes the operation writes as a copy, which is an `append` then.
    fn copy_length(self, line: &mut Words<'_>) -> usize {
        let mut words = self.operation;
        words.word();
        words.flags();
        let length = words.said(self.rt.alloc()).len();
        line.note(words.end());
        length
    }

    /// Tries one stop in a folder of its own.
    fn print_stop(self, stop: CallStop<FolderCall>, line: &mut Words<'_>, reported: &mut Reported) {
        let mut seat = self.memory.new_seat(Some(stop), line);
        reported.begin();
        print_stop(reported, stop);
        reported.text(": ");
        self.print_first(&mut seat, line, reported);
        self.print_again(&mut seat, line, reported);
        drop(seat);
    }

    /// What is answered where the call stops, and what that leaves.
    fn print_first(
        self,
        seat: &mut Seat<NotedFolder<MemFolder>>,
        line: &mut Words<'_>,
        reported: &mut Reported,
    ) {
        let mut operation = self.operation;
        self.act(seat, &mut operation, reported);
        reported.text("; stops: ");
        if let Some(noted) = seat.close() {
            reported.number(noted.folder.stops() as u64);
            noted.reopen();
        }
        reported.text("\n ");
        self.print_state(seat, line, reported);
    }

    /// What is answered when it is done again, and what that leaves.
    fn print_again(
        self,
        seat: &mut Seat<NotedFolder<MemFolder>>,
        line: &mut Words<'_>,
        reported: &mut Reported,
    ) {
        let mut operation = self.operation;
        reported.text("  again: ");
        self.act(seat, &mut operation, reported);
        reported.text(";");
        self.print_state(seat, line, reported);
    }

    /// Prints what stands in the folder otherwise than at first, and what a new mailbox on it lists.
    fn print_state(
        self,
        seat: &mut Seat<NotedFolder<MemFolder>>,
        line: &mut Words<'_>,
        reported: &mut Reported,
    ) {
        let mut now = Vec::new(self.rt.alloc());
        if let Some(noted) = seat.close() {
            gather(self.rt, &noted.folder, &mut now, line);
        }
        print_changes(reported, self.before, &now);
        drop(now);
        reported.text("; lists ");
        self.act(seat, &mut Words::new(b"list"), reported);
        reported.end();
    }

    /// Opens a mailbox, does what a line asks of it, and prints the answer. After a fault each operation is required to stop.
    fn act(
        self,
        seat: &mut Seat<NotedFolder<MemFolder>>,
        line: &mut Words<'_>,
        reported: &mut Reported,
    ) {
        let alloc = self.rt.alloc();
        let word = line.word();
        match seat.open(alloc, self.fresh, Keywords::new(alloc)) {
            Err(fault) => {
                report_fault(reported, fault);
            }
            Ok(()) if word == "open" => reported.text("ok"),
            Ok(()) => {
                if seat.perform(alloc, word, line, reported).is_some() {
                    self.report_after(seat, reported);
                }
            }
        }
    }

    /// Prints whether each operation is answered by `Stopped`.
    fn report_after(self, seat: &mut Seat<NotedFolder<MemFolder>>, reported: &mut Reported) {
        let alloc = self.rt.alloc();
        let mut aside = Reported::new(alloc);
        let mut is_stopped = true;
        for line in EACH.iter() {
            let mut line = Words::new(line);
            let word = line.word();
            let fault = seat.perform(alloc, word, &mut line, &mut aside);
            is_stopped = is_stopped && matches!(fault, Some(NearFault::Stopped));
        }
        if aside.is_lost() {
            reported.lose();
        }
        reported.text(if is_stopped {
            ", and each call behind it"
        } else {
            ", but the mailbox goes on"
        });
    }
}

/// The number of the call at this place among those of its name, from 1 on.
fn number_of(call: FolderCall, calls: &[FolderCall], place: usize) -> u64 {
    let mut number = 1u64;
    for other in calls.iter().take(place) {
        if *other == call {
            number = number.saturating_add(1);
        }
    }
    number
}
