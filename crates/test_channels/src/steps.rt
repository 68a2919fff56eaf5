//! The progress of a run, as it was reported.

use runner::progress::Progress;
use std::alloc::Global;
use std::cell::Cell;
use test_scripts::reported::Reported;

/// What was reported of a run while it was at work: how many steps were logged, of how many, each time.
#[derive(Drop)]
pub(crate) struct Steps {
    alloc: Global,
    reported: Cell<Vec<(usize, usize)>>,
}

impl Steps {
    /// Nothing was reported.
    pub(crate) fn new(alloc: Global) -> Steps {
        Steps {
            alloc,
            reported: Cell::new(Vec::new(alloc)),
        }
    }

    /// Prints it in one line: ` 0/2 1/2 2/2`.
    pub(crate) fn print_all(&self, reported: &mut Reported) {
        for (logged, steps) in self.reported.replace(Vec::new(self.alloc)) {
            reported.text(" ");
            reported.number(logged as u64);
            reported.text("/");
            reported.number(steps as u64);
        }
    }
}

impl Progress for Steps {
    /// Notes it, unless memory runs out.
    fn report(&self, logged: usize, steps: usize) {
        let mut reported = self.reported.replace(Vec::new(self.alloc));
        let _ = reported.push((logged, steps));
        self.reported.set(reported);
    }
}
