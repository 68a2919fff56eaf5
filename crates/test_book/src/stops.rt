//! A call of a book that stops at a call of its shelf: what is left, and how it is resumed.

use crate::answer::Answer;
use crate::desk::Desk;
use crate::files::{print_files, shelf_with};
use crate::runs::{Place, Runs};
use book::mem_shelf::{MemShelf, ShelfCall};
use book::shelf::ShelfFile;
use device::schedule::{CallStop, Moment};
use rules::plan::Plan;
use std::alloc::{AllocError, Global};
use test_scripts::reported::Reported;
use test_scripts::words::Words;

/// The calls that are stopped in turn: of each kind as many as a call of a book makes, the reading of both files among them.
const CALLS: [(ShelfCall, u64, &str); 8] = [
    (ShelfCall::Read, 1, "read 1"),
    (ShelfCall::Read, 2, "read 2"),
    (ShelfCall::Append, 1, "append 1"),
    (ShelfCall::Append, 2, "append 2"),
    (ShelfCall::Replace, 1, "replace 1"),
    (ShelfCall::Replace, 2, "replace 2"),
    (ShelfCall::Remove, 1, "remove 1"),
    (ShelfCall::Remove, 2, "remove 2"),
];

/// How many bytes of an append are written at most where it stops: more than a plan or a line of a script has.
const LONGEST: usize = 125;

/// A call that is tried on a shelf with these files: `open`, or a call of a book.
#[derive(Clone, Copy)]
pub struct Trial<'a> {
    pub alloc: Global,
    /// The files before it.
    pub before: &'a MemShelf,
    pub plan: Option<&'a Plan>,
    /// Its words.
    pub call: Words<'a>,
}

impl<'a> Trial<'a> {
    /// Prints what is left of the call without a stop, and of the call with a stop at each call of its shelf. The line is bad if it is
    /// not done, though nothing stops.
    pub fn report(&self, line: &mut Words<'_>, reported: &mut Reported) {
        let mut held = Reported::new(self.alloc);
        match shelf_with(self.alloc, self.before, Vec::new(self.alloc)) {
            Ok(shelf) => {
                let mut desk = Desk::new(Some(shelf));
                self.print_from(&mut desk, &mut held, line, reported);
                drop(desk);
            }
            Err(_) => reported.lose(),
        }
    }

    fn print_from(
        &self,
        desk: &mut Desk<MemShelf>,
        held: &mut Reported,
        line: &mut Words<'_>,
        reported: &mut Reported,
    ) {
        self.make_unbroken(desk, held, line);
        reported.begin();
        reported.text("unbroken: ");
        reported.add(held);
        reported.end();
        if let Some(after) = desk.shelf() {
            print_files(reported, after);
            let stopped = Stopped {
                trial: *self,
                after,
                held: held.as_str(),
            };
            for (call, number, what) in CALLS {
                stopped.print_moments(what, call, number, line, reported);
            }
        }
    }

    /// Makes the call without a stop, and prints what a new book says then.
    fn make_unbroken(&self, desk: &mut Desk<MemShelf>, held: &mut Reported, line: &mut Words<'_>) {
        let answer = self.open_and_call(desk, line);
        if !answer.is_done() {
            answer.report(held);
            line.refuse();
        }
        desk.close(line);
        desk.print_opened(self.alloc, line, held);
        desk.close(line);
    }

    /// Opens a book and makes the call.
    fn open_and_call(&self, desk: &mut Desk<MemShelf>, line: &mut Words<'_>) -> Answer {
        match desk.open(self.alloc, line) {
            Answer::Done => self.make(desk, line),
            refused => refused,
        }
    }

    /// Makes the call of a book that is open.
    fn make(&self, desk: &mut Desk<MemShelf>, line: &mut Words<'_>) -> Answer {
        let mut call = self.call;
        let answer = match call.word() {
            "open" => Answer::Done,
            word => desk.call(self.alloc, word, &mut call, self.plan),
        };
        line.note(call.end());
        answer
    }
}

/// The same call with a stop, and what is left of it without one.
#[derive(Drop)]
struct Stopped<'a> {
    trial: Trial<'a>,
    /// The files after the unbroken call.
    after: &'a MemShelf,
    /// What a new book says then.
    held: &'a str,
}

impl Stopped<'_> {
    /// Prints what is left for each moment of this call of the shelf.
    fn print_moments(
        &self,
        what: &'static str,
        call: ShelfCall,
        number: u64,
        line: &mut Words<'_>,
        reported: &mut Reported,
    ) {
        let mut runs = Runs::new(self.trial.alloc, what);
        for place in 0..LONGEST + 3 {
            let moment = moment_at(place);
            let stop = CallStop {
                call,
                number,
                moment,
            };
            self.print_stop(stop, line, &mut runs.next);
            runs.add(reported, Place::Stop(moment));
        }
        runs.print_run(reported);
    }

    /// Makes the call with this stop, and prints what it answers and what is left.
    fn print_stop(&self, stop: CallStop<ShelfCall>, line: &mut Words<'_>, reported: &mut Reported) {
        match self.stopping(stop) {
            Ok(shelf) => {
                let mut desk = Desk::new(Some(shelf));
                self.print_stop_at(&mut desk, stop, line, reported);
                drop(desk);
            }
            Err(_) => reported.lose(),
        }
    }

    /// A shelf with the files before the call, and this stop.
    fn stopping(&self, stop: CallStop<ShelfCall>) -> Result<MemShelf, AllocError> {
        let schedule = Vec::from_slice(self.trial.alloc, &[stop])?;
        shelf_with(self.trial.alloc, self.trial.before, schedule)
    }

    fn print_stop_at(
        &self,
        desk: &mut Desk<MemShelf>,
        stop: CallStop<ShelfCall>,
        line: &mut Words<'_>,
        reported: &mut Reported,
    ) {
        let answer = self.trial.open_and_call(desk, line);
        let later = self.close(desk, answer, line);
        if let Some(shelf) = desk.shelf() {
            self.print_left(shelf, stop, answer, later, reported);
        }
        desk.reopen(line);
        desk.print_opened(self.trial.alloc, line, reported);
        if !reported.as_str().ends_with(self.held) {
            self.print_again(desk, stop, line, reported);
        }
    }

    /// Prints what was answered, and what is left on the shelf.
    fn print_left(
        &self,
        shelf: &MemShelf,
        stop: CallStop<ShelfCall>,
        answer: Answer,
        later: Option<Answer>,
        reported: &mut Reported,
    ) {
        if shelf.stops() == 0 {
            reported.text("not made, ");
        }
        answer.report(reported);
        if let Some(later) = later {
            reported.text(", then ");
            later.report(reported);
        }
        reported.text("; ");
        reported.text(self.left_on(shelf, stop));
        reported.text("; ");
    }

    /// Closes the book, if one is open. Gives what it answers to `discard` before, if the call was not done.
    fn close(
        &self,
        desk: &mut Desk<MemShelf>,
        answer: Answer,
        line: &mut Words<'_>,
    ) -> Option<Answer> {
        if desk.shelf().is_some() {
            return None;
        }
        let later = if answer.is_done() {
            None
        } else {
            Some(self.make_plain(desk, "discard", line))
        };
        desk.close(line);
        later
    }

    /// Resumes the call, as a run does, where a new book does not say what it says after the unbroken call: where a plan is
    /// to be begun, a journal without one is discarded before, and where a step is to be logged, a torn line is mended.
    fn print_again(
        &self,
        desk: &mut Desk<MemShelf>,
        stop: CallStop<ShelfCall>,
        line: &mut Words<'_>,
        reported: &mut Reported,
    ) {
        let mut words = self.trial.call;
        let mended = match words.word() {
            "begin" => self.make_plain(desk, "discard", line),
            "done" | "void" | "log" => self.make_plain(desk, "mend", line),
            _ => Answer::Done,
        };
        if mended.wants_memory() {
            reported.lose();
        }
        reported.text("; again ");
        self.trial.make(desk, line).report(reported);
        desk.close(line);
        reported.text(", ");
        if let Some(shelf) = desk.shelf() {
            reported.text(self.left_on(shelf, stop));
        }
    }

    /// Makes a call that is one word.
    fn make_plain(&self, desk: &mut Desk<MemShelf>, word: &str, line: &mut Words<'_>) -> Answer {
        desk.call(self.trial.alloc, word, line, None)
    }

    /// What the files of this shelf are, seen from the call.
    fn left_on(&self, shelf: &MemShelf, stop: CallStop<ShelfCall>) -> &'static str {
        let (before, after) = (self.trial.before, self.after);
        let is_old_state = shelf.bytes(ShelfFile::State) == before.bytes(ShelfFile::State);
        let is_new_state = shelf.bytes(ShelfFile::State) == after.bytes(ShelfFile::State);
        let is_old_journal = shelf.bytes(ShelfFile::Journal) == before.bytes(ShelfFile::Journal);
        let is_new_journal = shelf.bytes(ShelfFile::Journal) == after.bytes(ShelfFile::Journal);
        if is_old_state && is_old_journal {
            "files as before"
        } else if is_new_state && is_new_journal {
            "files as after"
        } else if is_new_state && is_old_journal {
            "state as after, journal as before"
        } else if is_old_state && self.is_part_of_journal(shelf, stop) {
            "so many bytes appended"
        } else {
            "other files"
        }
    }

    /// Whether as many bytes follow the old journal as the stop let pass of those that the call appends.
    fn is_part_of_journal(&self, shelf: &MemShelf, stop: CallStop<ShelfCall>) -> bool {
        match (stop.call, stop.moment) {
            (ShelfCall::Append, Moment::Part(count)) => {
                let before = self
                    .trial
                    .before
                    .bytes(ShelfFile::Journal)
                    .unwrap_or_default();
                let after = self.after.bytes(ShelfFile::Journal).unwrap_or_default();
                let end = before.len().saturating_add(count).min(after.len());
                shelf.bytes(ShelfFile::Journal) == after.get(..end)
            }
            _ => false,
        }
    }
}

/// The moment at this place in the order in which they are tried: before, after each number of bytes, and after the call.
fn moment_at(place: usize) -> Moment {
    if place == 0 {
        Moment::Before
    } else if place <= LONGEST + 1 {
        Moment::Part(place - 1)
    } else {
        Moment::After
    }
}
