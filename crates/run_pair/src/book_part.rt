//! The book of an outside.

ghost use Rattle.std.specs.Prelude.{◌≡◌, true, false, None, Some, OnOk, IfOk, IfErr};
ghost use Rattle.std.specs.Option.{option_map};

use crate::book_reported::reported_by;
use book::book::Book;
use book::lost_sides::LostSides;
use book::shelf::Shelf;
use mailcore::uid::Uid;
use outside::fault::OutsideFault;
use rules::plan::Plan;
use rules::state::SyncState;
use std::alloc::Global;
use sync_state::journal::Journal;

/// A book over a shelf: closed, or open once it was read. A fault leaves it as it is: the caller makes no more calls until `reopen`.
#[derive(Drop)]
pub struct BookPart<S: Shelf> {
    book: Book<S>,
    is_open: bool,
}

impl<S: Shelf + Drop> BookPart<S> {
    ghost use Rattle.sync_state.specs.declared.journal.Logged.TheVariants.{Void};
    ghost use Rattle.book.specs.declared.book.Pending.TheVariants.{Missing, Useless};
    ghost use Rattle.book.specs.Books.{IsSound, mended, torn, Turns, TurnsHalf};
    ghost use Rattle.book.specs.BookLogs.{begun, as_done, logged_more};
    ghost use Rattle.book.specs.Commits.{CommitsHalf, CommitsTo};
    ghost use Rattle.book.specs.GivingUp.{GivesUpHalf, GivesUpTo};
    ghost use Rattle.book.specs.LostSides.{AreRising};
    ghost use Rattle.outside.specs.Calls.{FromBook, FromShelf};
    ghost use Rattle.run_pair.specs.PartCalls.{Part, PartChanges};
    ghost use Rattle.run_pair.specs.Kept.{AreCommitted, AreGivenUp, FromLog, IsBook, IsHeld, IsRead, LeavesUnread, OfKept, ReadsFiles, TakesCommit, TakesGivingUp, TakesLog, TakesPlan, journal_of, state_of, turned};
    ghost use Rattle.run_pair.specs.Stops.{standing_at};
    ghost use Rattle.run_pair.specs.BookParts.{Stops, files_of, honest_in, kept_of, seen_of, standing_of};

    /// The part over this shelf. No book is open.
    pub fn new(alloc: Global, shelf: S) -> Self
        ensures seen { seen_of result ≡ S.seen shelf }
        ensures standing { standing_of result ≡ standing_at (S.seen shelf) }
        ensures kept { kept_of result ≡ None }
    {
        BookPart {
            book: Book::closed(alloc, shelf),
            is_open: false,
        }
    }

    /// Gives the shelf back, without taking memory.
    pub fn into_shelf(self) -> S
        ensures seen { S.seen result ≡ seen_of self }
        ensures was_honest { S.honest result → honest_in self }
    {
        self.book.into_shelf()
    }

    /// Reads the shelf. `BadState` and `BadJournal`: its files hold no book, and this is the first line that shows it.
    pub fn open(&mut self) -> Result<(), OutsideFault>
        ensures was_honest { honest_in self.new → honest_in self.old }
        ensures book { OnOk result (IsBook (kept_of self.new)) }
        ensures reported { IfErr result FromShelf }
        ensures stops { Stops self.old self.new result }
        ensures part { Part (honest_in self.new) (λ _. ReadsFiles (kept_of self.new)) LeavesUnread (files_of self.old) (files_of self.new) result }
    {
        self.is_open = false;
        reported_by(self.book.enter())?;
        self.is_open = true;
        Ok(())
    }

    /// What the last run recorded.
    pub fn state(&self) -> &SyncState
        requires read { IsRead (kept_of self.now) }
        ensures state { state_of (kept_of self.now) ≡ Some result.now }
        ensures sound { IsSound result.now }
    {
        self.book.state()
    }

    /// The plan of the next run and which of its steps are logged, if it is pending.
    pub fn pending(&self) -> Option<&Journal>
        requires read { IsRead (kept_of self.now) }
        ensures { option_map (λ journal. journal.now) result ≡ journal_of (kept_of self.now) }
    {
        self.book.pending()
    }

    /// Removes the journal, if there is one.
    pub fn discard(&mut self) -> Result<(), OutsideFault>
        requires read { IsRead (kept_of self.old) }
        ensures was_honest { honest_in self.new → honest_in self.old }
        ensures kept { OnOk result (kept_of self.new ≡ turned (λ _. Missing) (kept_of self.old)) }
        ensures reported { IfErr result FromBook }
        ensures stops { Stops self.old self.new result }
        ensures part { PartChanges (honest_in self.new) (λ _. OfKept (λ p. Turns p Missing) (kept_of self.old))
            (OfKept (λ p. TurnsHalf p Missing) (kept_of self.old)) (files_of self.old) (files_of self.new) result }
    {
        reported_by(self.book.discard())
    }

    /// Takes a torn last line off the journal, if there is one.
    pub fn mend(&mut self) -> Result<(), OutsideFault>
        requires read { IsRead (kept_of self.old) }
        ensures was_honest { honest_in self.new → honest_in self.old }
        ensures kept { OnOk result (kept_of self.new ≡ turned mended (kept_of self.old)) }
        ensures reported { IfErr result FromBook }
        ensures stops { Stops self.old self.new result }
        ensures part { PartChanges (honest_in self.new) (λ _. OfKept (λ p. Turns p (mended p)) (kept_of self.old))
            (OfKept (λ p. TurnsHalf p p) (kept_of self.old)) (files_of self.old) (files_of self.new) result }
    {
        reported_by(self.book.mend())
    }

    /// Writes the whole plan of the next run, of which no step is logged.
    pub fn begin(&mut self, plan: Plan) -> Result<(), OutsideFault>
        requires takes { TakesPlan (kept_of self.old) plan }
        ensures was_honest { honest_in self.new → honest_in self.old }
        ensures kept { OnOk result (kept_of self.new ≡ turned (λ _. begun plan) (kept_of self.old)) }
        ensures reported { IfErr result FromBook }
        ensures stops { Stops self.old self.new result }
        ensures part { PartChanges (honest_in self.new) (λ _. OfKept (λ _. Turns Missing (begun plan)) (kept_of self.old))
            (OfKept (λ _. TurnsHalf Missing Useless) (kept_of self.old)) (files_of self.old) (files_of self.new) result }
    {
        reported_by(self.book.begin(plan))
    }

    /// Logs the step of this number, counted from 1, as done. A new message has a copy, whose UID this is.
    ///
    /// `BadState(0)`: that UID is taken.
    pub fn done(&mut self, step: usize, copy: Option<Uid>) -> Result<(), OutsideFault>
        requires takes { TakesLog (kept_of self.old) step (as_done copy) }
        ensures was_honest { honest_in self.new → honest_in self.old }
        ensures kept { OnOk result (kept_of self.new ≡ turned (λ p. logged_more p (as_done copy)) (kept_of self.old)) }
        ensures reported { IfErr result (FromLog (kept_of self.old) (as_done copy)) }
        ensures stops { Stops self.old self.new result }
        ensures part { PartChanges (honest_in self.new) (λ _. OfKept (λ p. Turns p (logged_more p (as_done copy))) (kept_of self.old))
            (OfKept (λ p. TurnsHalf p (torn p)) (kept_of self.old)) (files_of self.old) (files_of self.new) result }
    {
        reported_by(self.book.done(step, copy))
    }

    /// Logs the step of this number, counted from 1, as void.
    pub fn void(&mut self, step: usize) -> Result<(), OutsideFault>
        requires takes { TakesLog (kept_of self.old) step Void }
        ensures was_honest { honest_in self.new → honest_in self.old }
        ensures kept { OnOk result (kept_of self.new ≡ turned (λ p. logged_more p Void) (kept_of self.old)) }
        ensures reported { IfErr result FromBook }
        ensures stops { Stops self.old self.new result }
        ensures part { PartChanges (honest_in self.new) (λ _. OfKept (λ p. Turns p (logged_more p Void)) (kept_of self.old))
            (OfKept (λ p. TurnsHalf p (torn p)) (kept_of self.old)) (files_of self.old) (files_of self.new) result }
    {
        reported_by(self.book.void(step))
    }

    /// Puts the state that the finished plan makes in place of the old one, and then removes the journal.
    pub fn commit(&mut self) -> Result<(), OutsideFault>
        requires takes { TakesCommit (kept_of self.old) }
        ensures was_honest { honest_in self.new → honest_in self.old }
        ensures kept { OnOk result (AreCommitted (kept_of self.old) (kept_of self.new)) }
        ensures held { OnOk result (honest_in self.new → IsHeld (kept_of self.new) (files_of self.new)) }
        ensures reported { IfErr result FromBook }
        ensures stops { Stops self.old self.new result }
        ensures part { PartChanges (honest_in self.new) (λ _. OfKept CommitsTo (kept_of self.old)) (OfKept CommitsHalf (kept_of self.old))
            (files_of self.old) (files_of self.new) result }
    {
        reported_by(self.book.commit())
    }

    /// Puts the state that is left of the pending plan, where these entries lose a side, in place of the old one, and then removes the journal.
    pub fn give_up(&mut self, lost: &LostSides) -> Result<(), OutsideFault>
        requires takes { TakesGivingUp (kept_of self.old) }
        requires rising { AreRising lost.now }
        ensures was_honest { honest_in self.new → honest_in self.old }
        ensures kept { OnOk result (AreGivenUp lost.now (kept_of self.old) (kept_of self.new)) }
        ensures held { OnOk result (honest_in self.new → IsHeld (kept_of self.new) (files_of self.new)) }
        ensures reported { IfErr result FromBook }
        ensures stops { Stops self.old self.new result }
        ensures part { PartChanges (honest_in self.new)
            (λ _. OfKept (GivesUpTo lost.now) (kept_of self.old)) (OfKept (GivesUpHalf lost.now) (kept_of self.old))
            (files_of self.old) (files_of self.new) result }
    {
        reported_by(self.book.give_up(lost))
    }

    /// Closes the book, if one is open, and opens the shelf again.
    pub fn reopen(&mut self)
        ensures was_honest { honest_in self.new → honest_in self.old }
        ensures seen { seen_of self.new ≡ record (seen_of self.old) { is_broken = false } }
        ensures standing { standing_of self.new ≡ record (standing_of self.old) { is_ready = true } }
        ensures kept { kept_of self.new ≡ None }
    {
        self.is_open = false;
        self.book.reopen();
    }
}
