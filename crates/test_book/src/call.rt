//! The calls of a book that is open.

use crate::answer::Answer;
use crate::plan_text::copy_of;
use book::book::Book;
use book::shelf::Shelf;
use mailcore::uid::Uid;
use rules::plan::Plan;
use std::alloc::Global;
use sync_state::fault::BookFault;
use sync_state::journal::Logged;
use test_scripts::words::Words;

/// Makes the call with this word, if it may be made. The line is refused where there is none, or no plan to be begun.
pub fn make_call<S: Shelf>(
    alloc: Global,
    book: &mut Book<S>,
    word: &str,
    line: &mut Words<'_>,
    plan: Option<&Plan>,
) -> Answer {
    match word {
        "discard" => Answer::of(book.discard()),
        "mend" => Answer::of(book.mend()),
        "begin" => begin(alloc, book, line, plan),
        "done" => log(book, line),
        "void" => void(book, line.count()),
        "log" => log_all(book, line),
        "commit" => commit(book),
        _ => refuse(line),
    }
}

/// The line is bad, whatever is printed of it.
pub fn refuse(line: &mut Words<'_>) -> Answer {
    line.refuse();
    Answer::MayNot
}

fn begin<S: Shelf>(
    alloc: Global,
    book: &mut Book<S>,
    line: &mut Words<'_>,
    plan: Option<&Plan>,
) -> Answer {
    match plan {
        Some(plan) => match copy_of(alloc, plan) {
            Ok(copy) => begin_plan(book, copy),
            Err(_) => Answer::Fault(BookFault::NoMemory),
        },
        None => refuse(line),
    }
}

fn begin_plan<S: Shelf>(book: &mut Book<S>, plan: Plan) -> Answer {
    match book.may_begin(&plan) {
        Ok(true) => Answer::of(book.begin(plan)),
        Ok(false) => Answer::MayNot,
        Err(_) => Answer::Fault(BookFault::NoMemory),
    }
}

/// `STEP`, or `STEP UID` for a new message whose copy has this UID.
fn log<S: Shelf>(book: &mut Book<S>, line: &mut Words<'_>) -> Answer {
    let step = line.count();
    if line.is_over() {
        done(book, step)
    } else {
        copied(book, step, line.uid())
    }
}

fn copied<S: Shelf>(book: &mut Book<S>, step: usize, copy: Uid) -> Answer {
    if book.may_log(step, Logged::Copied(copy)) {
        Answer::of(book.done(step, Some(copy)))
    } else {
        Answer::MayNot
    }
}

fn done<S: Shelf>(book: &mut Book<S>, step: usize) -> Answer {
    if book.may_log(step, Logged::Done) {
        Answer::of(book.done(step, None))
    } else {
        Answer::MayNot
    }
}

fn void<S: Shelf>(book: &mut Book<S>, step: usize) -> Answer {
    if book.may_log(step, Logged::Void) {
        Answer::of(book.void(step))
    } else {
        Answer::MayNot
    }
}

fn commit<S: Shelf>(book: &mut Book<S>) -> Answer {
    match book.pending() {
        Some(journal) if journal.log.as_slice().len() == journal.plan.steps.as_slice().len() => {
            Answer::of(book.commit())
        }
        _ => Answer::MayNot,
    }
}

/// `all`: each step that is not logged is logged as done, up to one that cannot be, which is answered.
fn log_all<S: Shelf>(book: &mut Book<S>, line: &mut Words<'_>) -> Answer {
    line.expect("all");
    let Some(journal) = book.pending() else {
        return Answer::MayNot;
    };
    let logged = journal.log.as_slice().len();
    let mut answer = Answer::Done;
    for before in logged..journal.plan.steps.as_slice().len() {
        answer = log_step(book, before + 1);
        if !answer.is_done() {
            break;
        }
    }
    answer
}

/// Logs a step as done. The copy of a new message gets the number of its step as its UID.
fn log_step<S: Shelf>(book: &mut Book<S>, step: usize) -> Answer {
    let number = u32::try_from(step).unwrap_or(u32::MAX);
    match (done(book, step), Uid::new(number)) {
        (Answer::MayNot, Some(copy)) => copied(book, step, copy),
        (answer, _) => answer,
    }
}
