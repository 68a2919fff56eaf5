//! A shelf and the book that is open on it.

use crate::answer::{Answer, print_held};
use crate::call::{make_call, refuse};
use crate::files::read_file;
use book::book::{Book, OpenFault};
use book::shelf::Shelf;
use device::DeviceFault;
use rules::plan::Plan;
use std::alloc::Global;
use test_scripts::reported::Reported;
use test_scripts::words::Words;

/// A shelf, or the book that is open on it and has it then, or nothing. A line that wants another is refused.
#[derive(Drop)]
pub struct Desk<S: Shelf + Drop> {
    shelf: Option<S>,
    book: Option<Book<S>>,
}

impl<S: Shelf + Drop> Desk<S> {
    /// With this shelf, or nothing.
    pub fn new(shelf: Option<S>) -> Desk<S> {
        Desk { shelf, book: None }
    }

    /// The shelf, if no book is open.
    pub fn shelf(&self) -> Option<&S> {
        self.shelf.as_ref()
    }

    /// Opens a book on the shelf.
    pub fn open(&mut self, alloc: Global, line: &mut Words<'_>) -> Answer {
        let Some(shelf) = self.shelf.take() else {
            return refuse(line);
        };
        match Book::open(alloc, shelf) {
            Ok(book) => {
                self.book = Some(book);
                Answer::Done
            }
            Err(OpenFault { shelf, fault }) => {
                self.shelf = Some(shelf);
                Answer::Fault(fault)
            }
        }
    }

    /// Makes the call of the book with this word.
    pub fn call(
        &mut self,
        alloc: Global,
        word: &str,
        line: &mut Words<'_>,
        plan: Option<&Plan>,
    ) -> Answer {
        match &mut self.book {
            Some(book) => make_call(alloc, book, word, line, plan),
            None => refuse(line),
        }
    }

    /// Takes the shelf from the book.
    pub fn close(&mut self, line: &mut Words<'_>) {
        match self.book.take() {
            Some(book) => self.shelf = Some(book.into_shelf()),
            None => line.refuse(),
        }
    }

    /// Opens the shelf again.
    pub fn reopen(&mut self, line: &mut Words<'_>) {
        match &mut self.shelf {
            Some(shelf) => shelf.reopen(),
            None => line.refuse(),
        }
    }

    /// Plays a line with this word.
    pub fn play(
        &mut self,
        alloc: Global,
        word: &str,
        line: &mut Words<'_>,
        reported: &mut Reported,
        plan: Option<&Plan>,
    ) {
        match word {
            "close" => self.close(line),
            "reopen" => self.reopen(line),
            _ => {
                reported.begin();
                self.ask(alloc, word, line, reported, plan);
                reported.end();
            }
        }
    }

    fn ask(
        &mut self,
        alloc: Global,
        word: &str,
        line: &mut Words<'_>,
        reported: &mut Reported,
        plan: Option<&Plan>,
    ) {
        match word {
            "open" => self.print_opened(alloc, line, reported),
            "held" => self.print_held(line, reported),
            _ => {
                self.call(alloc, word, line, plan).report(reported);
                reported.text("; ");
                self.print_held(line, reported);
            }
        }
    }

    /// Opens a book, and prints what it says or why there is none.
    pub fn print_opened(&mut self, alloc: Global, line: &mut Words<'_>, reported: &mut Reported) {
        match self.open(alloc, line) {
            Answer::Done => self.print_held(line, reported),
            refused => refused.report(reported),
        }
    }

    fn print_held(&self, line: &mut Words<'_>, reported: &mut Reported) {
        match &self.book {
            Some(book) => print_held(reported, book),
            None => line.refuse(),
        }
    }

    /// Makes the call of the shelf with this word, and prints what it answers.
    pub fn use_shelf(
        &mut self,
        alloc: Global,
        word: &str,
        line: &mut Words<'_>,
        reported: &mut Reported,
    ) {
        let Some(shelf) = &mut self.shelf else {
            line.refuse();
            return;
        };
        let file = read_file(line);
        match word {
            "read" => print_read(reported, shelf.read(file)),
            "append" => print_done(reported, shelf.append(file, &line.said(alloc), true)),
            "replace" => print_done(reported, shelf.replace(file, &line.said(alloc))),
            "remove" => print_done(reported, shelf.remove(file)),
            _ => line.refuse(),
        }
    }
}

/// Prints the bytes that were read, or that the file is missing.
fn print_read(reported: &mut Reported, read: Result<Option<Vec<u8>>, DeviceFault>) {
    match read {
        Ok(Some(bytes)) => {
            reported.begin();
            reported.quoted(&bytes);
            reported.end();
        }
        Ok(None) => reported.answer("missing"),
        Err(fault) => print_done(reported, Err(fault)),
    }
}

fn print_done(reported: &mut Reported, done: Result<(), DeviceFault>) {
    match done {
        Ok(()) => reported.answer("ok"),
        Err(DeviceFault::Stopped) => reported.answer("stopped"),
        Err(DeviceFault::NoMemory) => reported.lose(),
    }
}
