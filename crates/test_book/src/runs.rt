//! Answers that follow one another, of which equal ones are printed in one line.

use device::schedule::Moment;
use std::alloc::Global;
use std::mem;
use test_scripts::reported::Reported;

/// Where an answer is given.
#[derive(Clone, Copy)]
pub enum Place {
    /// Of so many bytes.
    Length(usize),
    /// Of a call that stops there.
    Stop(Moment),
}

impl Place {
    fn report(self, reported: &mut Reported) {
        match self {
            Place::Length(length) => reported.number(length as u64),
            Place::Stop(Moment::Before) => reported.text("before"),
            Place::Stop(Moment::Part(count)) => {
                reported.text("behind ");
                reported.number(count as u64);
            }
            Place::Stop(Moment::After) => reported.text("after"),
        }
    }
}

/// The last run of equal answers, and the next answer.
#[derive(Drop)]
pub struct Runs {
    alloc: Global,
    what: &'static str,
    /// The places of its first and its last answer.
    places: Option<(Place, Place)>,
    is_single: bool,
    answer: Reported,
    /// Where the next answer is printed.
    pub next: Reported,
}

impl Runs {
    /// No answer. This is what stands before the place of each.
    pub fn new(alloc: Global, what: &'static str) -> Runs {
        Runs {
            alloc,
            what,
            places: None,
            is_single: true,
            answer: Reported::new(alloc),
            next: Reported::new(alloc),
        }
    }

    /// Adds the next answer, which is given at this place. If it is another than the last one, the run of that is printed.
    pub fn add(&mut self, reported: &mut Reported, place: Place) {
        let next = mem::replace(&mut self.next, Reported::new(self.alloc));
        if next.is_lost() {
            reported.lose();
        }
        let is_same = next.as_str() == self.answer.as_str();
        match self.places {
            Some((first, _)) if is_same => {
                self.places = Some((first, place));
                self.is_single = false;
            }
            _ => {
                self.print_run(reported);
                self.places = Some((place, place));
                self.is_single = true;
                self.answer = next;
            }
        }
    }

    /// Prints the last run.
    pub fn print_run(&self, reported: &mut Reported) {
        if let Some((first, last)) = self.places {
            reported.begin();
            reported.text(self.what);
            reported.text(" ");
            first.report(reported);
            if !self.is_single {
                reported.text(" to ");
                last.report(reported);
            }
            reported.text(": ");
            reported.text(self.answer.as_str());
            reported.end();
        }
    }
}
