//! Whether a book's journal may be begun, and a step of it logged: the tests of what these calls ask for.

ghost use Rattle.std.specs.Prelude.{◌≡◌, ◌+◌, ◌↔◌, Ok, true, false, length};
ghost use Rattle.sync_state.specs.JournalText.{FitsStep, IsPlan};
ghost use Rattle.sync_state.specs.JournalReading.{FitsAt};
ghost use Rattle.book.specs.Agreement.{Agrees};
ghost use Rattle.book.specs.BookLogs.{fresh, MayBegin, MayLog};

use crate::agreement::plan_agrees;
use crate::book::{Book, Pending};
use crate::shelf::Shelf;
use rules::plan::{Plan, Step};
use std::alloc::AllocError;
use sync_state::has_text::has_text;
use sync_state::journal::{Journal, Logged};

impl<S: Shelf> Book<S> {
    /// Whether `begin` may be called with this plan: there is no journal, the plan has a text and is of the next run, and
    /// each of its steps and notes agrees with the state. `AllocError`: memory ran out.
    pub fn may_begin(&self, plan: &Plan) -> Result<bool, AllocError>
        ensures missing { result ≡ Ok true → self.now.pending ≡ Pending.Missing }
        ensures has_text { result ≡ Ok true → IsPlan plan.now }
        ensures next { result ≡ Ok true → plan.now.run ≡ self.now.state.run + 1 }
        ensures agrees { result ≡ Ok true → Agrees self.now.state.entries (fresh plan.now) }
        ensures refused { result ≡ Ok false → ¬ MayBegin self.now.state self.now.pending plan.now }
    {
        let Pending::Missing = self.pending else {
            return Ok(false);
        };
        if plan.run <= self.state.run || plan.run - self.state.run != 1 {
            return Ok(false);
        }
        if !has_text(plan) {
            return Ok(false);
        }
        plan_agrees(self.alloc, &self.state.entries, plan)
    }

    /// Whether the step of this number, counted from 1, may be logged so: it is the first that is not logged, a new message
    /// is logged as copied or void and another step as done, and no torn line follows the journal.
    pub fn may_log(&self, step: usize, logged: Logged) -> bool
        ensures { MayLog self.now.pending step logged ↔ (result ≡ true) }
    {
        match &self.pending {
            Pending::Planned(written) => {
                !written.is_torn && is_next(&written.journal, step, logged)
            }
            Pending::Missing | Pending::Useless => false,
        }
    }
}

/// Whether the step of this number is the first that is not logged, and may be logged so.
fn is_next(journal: &Journal, step: usize, logged: Logged) -> bool
    ensures { ((step ≡ length journal.now.log + 1) × FitsAt journal.now.plan.steps (length journal.now.log) logged) ↔ (result ≡ true) }
{
    let steps = journal.plan.steps.as_slice();
    let count = journal.log.as_slice().len();
    if count >= steps.len() {
        return false;
    }
    if step != count + 1 {
        return false;
    }
    fits_step(&steps[count], logged)
}

/// Whether a step may be logged so.
fn fits_step(step: &Step, logged: Logged) -> bool
    ensures { FitsStep step.now logged ↔ (result ≡ true) }
{
    match (step, logged) {
        // The number of a UID shows its range.
        (Step::New { .. }, Logged::Copied(copy)) => copy.get() > 0,
        (Step::New { .. }, Logged::Void) => true,
        (Step::New { .. }, Logged::Done) => false,
        (_, logged) => logged == Logged::Done,
    }
}
