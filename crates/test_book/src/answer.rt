//! What a book and its calls answer.

use book::book::Book;
use book::shelf::Shelf;
use sync_state::fault::BookFault;
use test_scripts::reported::Reported;

/// What a call of a book answers.
#[derive(Clone, Copy)]
pub enum Answer {
    /// It did what it says.
    Done,
    /// It may not be called here, and was not.
    MayNot,
    /// Why it did not.
    Fault(BookFault),
}

impl Answer {
    /// The answer that a call gave.
    pub fn of(given: Result<(), BookFault>) -> Answer {
        match given {
            Ok(()) => Answer::Done,
            Err(fault) => Answer::Fault(fault),
        }
    }

    /// Whether the call did what it says.
    pub fn is_done(self) -> bool {
        matches!(self, Answer::Done)
    }

    /// Whether the call found no memory.
    pub fn wants_memory(self) -> bool {
        matches!(self, Answer::Fault(BookFault::NoMemory))
    }

    /// Prints it.
    pub fn report(self, reported: &mut Reported) {
        match self {
            Answer::Done => reported.text("ok"),
            Answer::MayNot => reported.text("may not be called"),
            Answer::Fault(fault) => print_fault(reported, fault),
        }
    }
}

/// Prints a fault. Want of memory counts as a loss.
pub fn print_fault(reported: &mut Reported, fault: BookFault) {
    reported.shown(&fault);
    if fault == BookFault::NoMemory {
        reported.lose();
    }
}

/// Prints what a book says: the number of the last run, how many entries it left, and how many steps of the pending plan are
/// logged, of how many, if one is pending.
pub fn print_held<S: Shelf>(reported: &mut Reported, book: &Book<S>) {
    let state = book.state();
    reported.text("run ");
    reported.number(state.run);
    reported.text(", ");
    reported.number(state.entries.as_slice().len() as u64);
    reported.text(" entries, ");
    match book.pending() {
        Some(journal) => {
            reported.number(journal.log.as_slice().len() as u64);
            reported.text(" of ");
            reported.number(journal.plan.steps.as_slice().len() as u64);
            reported.text(" steps logged");
        }
        None => reported.text("no plan"),
    }
}
