//! How the journal of a book is begun, and how its steps are logged.

ghost use Rattle.std.specs.Prelude.{◌≡◌, ◌+◌, ◌++◌, ◌∷◌, [], List, false, true, IfOk, OnOk, OnErr};
ghost use Rattle.std.specs.List.{list_any};
ghost use Rattle.rules.specs.declared.entry.Entry.{Entry};
ghost use Rattle.book.specs.Agreement.{Agrees, copies_of};
ghost use Rattle.sync_state.specs.JournalText.{IsPlan, log_line};
ghost use Rattle.book.specs.Books.{Ends, torn};
ghost use Rattle.book.specs.BookLogs.{fresh, begun, as_done, logged_more, is_free, is_refused, MayLog};
ghost use Rattle.book.specs.TakenUids.{KnowsTaken, copies_one};

use crate::book::{Book, Pending};
use crate::shelf::{Shelf, ShelfFile};
use crate::taken::Taken;
use mailcore::uid::Uid;
use rules::plan::Plan;
use std::alloc::{AllocError, Global};
use sync_state::fault::BookFault;
use sync_state::journal::{Journal, Log, Logged, WrittenJournal};
use sync_state::journal_lines::push_logged;
use sync_state::journal_text::write_plan;
use sync_state::version::Version;

impl<S: Shelf> Book<S> {
    ghost use Rattle.book.specs.Standings.{LeavesJournal, standing};

    /// Writes the plan of the next run in the second version, with no step logged: one `append`. It lasts if it has steps, since these are
    /// begun then. A fault leaves no journal, one without a plan, or this one.
    pub fn begin(&mut self, plan: Plan) -> Result<(), BookFault>
        requires missing { self.old.pending ≡ Pending.Missing }
        requires has_text { IsPlan plan }
        requires next { plan.run ≡ self.old.state.run + 1 }
        requires agrees { Agrees self.old.state.entries (fresh plan) }
        ensures was_honest { S.honest self.new.shelf → S.honest self.old.shelf }
        ensures state { self.new.state ≡ self.old.state }
        ensures begun { OnOk result (self.new.pending ≡ begun plan) }
        ensures kept { OnErr result (self.new.pending ≡ self.old.pending) }
        ensures leaves { S.honest self.new.shelf → LeavesJournal Pending.Missing (begun plan) Pending.Useless self.old self.new result }
        ensures ends { Ends false (standing self.old) (standing self.new) result }
    {
        if !self.is_ready {
            return Err(BookFault::Stopped);
        }
        self.is_ready = false;
        let text = write_plan(self.alloc, &plan)?;
        let entries = self.state.entries.as_slice();
        let taken = Taken::begun(self.alloc, entries, plan.steps.as_slice())?;
        let lasts = !plan.steps.as_slice().is_empty();
        self.shelf.append(ShelfFile::Journal, &text, lasts)?;
        let log = Log::from_vec(Vec::new(self.alloc));
        self.pending = Pending::Planned(WrittenJournal {
            version: Version::Two,
            journal: Journal { plan, log },
            is_torn: false,
        });
        self.taken = taken;
        self.is_ready = true;
        Ok(())
    }

    /// Logs the step of this number, counted from 1, as done: one `append`. A new message has a copy, whose UID this is.
    ///
    /// `BadState(0)`: the copy's UID is taken. Nothing has changed then.
    pub fn done(&mut self, step: usize, copy: Option<Uid>) -> Result<(), BookFault>
        requires next { MayLog self.old.pending step (as_done copy) }
        ensures was_honest { S.honest self.new.shelf → S.honest self.old.shelf }
        ensures state { self.new.state ≡ self.old.state }
        ensures logged { OnOk result (self.new.pending ≡ logged_more self.old.pending (as_done copy)) }
        ensures kept { OnErr result (self.new.pending ≡ self.old.pending) }
        ensures leaves { S.honest self.new.shelf
            → LeavesJournal self.old.pending (logged_more self.old.pending (as_done copy)) (torn self.old.pending) self.old self.new result }
        ensures ends { Ends (is_refused self.old.state.entries self.old.pending (as_done copy)) (standing self.old) (standing self.new) result }
    {
        if !self.is_ready {
            return Err(BookFault::Stopped);
        }
        let logged = as_done(copy);
        if self.refuses(&logged) {
            return Err(BookFault::BadState(0));
        }
        self.log(step, logged)
    }

    /// Logs the step of this number, counted from 1, as void: one `append`. It is a new message that was not there any
    /// more, or could not be copied.
    pub fn void(&mut self, step: usize) -> Result<(), BookFault>
        requires next { MayLog self.old.pending step Logged.Void }
        ensures was_honest { S.honest self.new.shelf → S.honest self.old.shelf }
        ensures state { self.new.state ≡ self.old.state }
        ensures logged { OnOk result (self.new.pending ≡ logged_more self.old.pending Logged.Void) }
        ensures kept { OnErr result (self.new.pending ≡ self.old.pending) }
        ensures leaves { S.honest self.new.shelf
            → LeavesJournal self.old.pending (logged_more self.old.pending Logged.Void) (torn self.old.pending) self.old self.new result }
        ensures ends { Ends false (standing self.old) (standing self.new) result }
    {
        self.log(step, Logged::Void)
    }

    /// Logs the next step, whose copy has a UID that is free.
    fn log(&mut self, step: usize, logged: Logged) -> Result<(), BookFault>
        requires next { MayLog self.old.pending step logged }
        requires free { self.old.is_ready ≡ true → is_refused self.old.state.entries self.old.pending logged ≡ false }
        ensures was_honest { S.honest self.new.shelf → S.honest self.old.shelf }
        ensures state { self.new.state ≡ self.old.state }
        ensures logged { OnOk result (self.new.pending ≡ logged_more self.old.pending logged) }
        ensures kept { OnErr result (self.new.pending ≡ self.old.pending) }
        ensures leaves { S.honest self.new.shelf
            → LeavesJournal self.old.pending (logged_more self.old.pending logged) (torn self.old.pending) self.old self.new result }
        ensures ends { Ends false (standing self.old) (standing self.new) result }
    {
        if !self.is_ready {
            return Err(BookFault::Stopped);
        }
        self.is_ready = false;
        let line = line_of(self.alloc, step, &logged)?;
        self.shelf.append(ShelfFile::Journal, &line, false)?;
        self.taken.add_next(&self.pending, logged)?;
        log_pending(&mut self.pending, logged)?;
        self.is_ready = true;
        Ok(())
    }

    /// Whether the copy of the next step has a UID that is taken.
    fn refuses(&self, logged: &Logged) -> bool
        ensures { self.now.is_ready ≡ true → result ≡ is_refused self.now.state.entries self.now.pending logged.now }
    {
        match &self.pending {
            Pending::Planned(written) => !is_free(&self.taken, &written.journal, *logged),
            Pending::Missing | Pending::Useless => false,
        }
    }
}

fn as_done(copy: Option<Uid>) -> Logged
    ensures { result ≡ as_done copy }
{
    match copy {
        Some(uid) => Logged::Copied(uid),
        None => Logged::Done,
    }
}

/// The line that logs the step of this number.
fn line_of(alloc: Global, step: usize, logged: &Logged) -> Result<Vec<u8>, AllocError>
    ensures { IfOk result (λ line. line.items ≡ log_line step logged.now ++ 10 ∷ []) }
{
    let mut line = Vec::new(alloc);
    push_logged(&mut line, step as u64, *logged)?;
    Ok(line)
}

fn log_pending(pending: &mut Pending, logged: Logged) -> Result<(), AllocError>
    ensures ok { OnOk result (pending.new ≡ logged_more pending.old logged) }
    ensures err { OnErr result (pending.new ≡ pending.old) }
{
    match pending {
        Pending::Planned(written) => written.journal.log.push(logged),
        Pending::Missing | Pending::Useless => Ok(()),
    }
}

/// Whether the copy of the next step, if it made one, has a UID that is not taken.
fn is_free(taken: &Taken, journal: &Journal, logged: Logged) -> bool
    ensures { (entries : List Entry) → (list_any copies_one journal.now.plan.steps ≡ true
        → KnowsTaken entries journal.now.plan.steps (copies_of journal.now.plan.steps journal.now.log) taken.now)
        → result ≡ is_free entries journal.now logged }
{
    let steps = journal.plan.steps.as_slice();
    let count = journal.log.as_slice().len();
    count >= steps.len() || taken.is_free(&steps[count], logged)
}
