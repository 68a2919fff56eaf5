//! How a run is committed.

ghost use Rattle.std.specs.Prelude.{◌≡◌, false, true, OnOk, OnErr};
ghost use Rattle.book.specs.Books.{Holds, Ends};
ghost use Rattle.book.specs.Commits.{IsFinished, Makes, LeavesMade};

use crate::book::{Book, Pending};
use crate::committed::committed;
use crate::shelf::{Shelf, ShelfFile};
use sync_state::fault::BookFault;
use sync_state::state_text::write_state_text;

impl<S: Shelf> Book<S> {
    ghost use Rattle.book.specs.Standings.{files_in, standing};

    /// Puts the state that the finished journal makes in place of the old one, in the second version, and then removes the journal: one
    /// `replace` and one `remove`. A fault leaves the old state and the journal, the new state and the journal, which is
    /// useless then, or the new state alone.
    pub fn commit(&mut self) -> Result<(), BookFault>
        requires finished { IsFinished self.old.pending }
        ensures was_honest { S.honest self.new.shelf → S.honest self.old.shelf }
        ensures committed { OnOk result (Makes self.old.pending self.old.state self.new.state) }
        ensures removed { OnOk result (self.new.pending ≡ Pending.Missing) }
        ensures kept { OnErr result ((self.new.state ≡ self.old.state) × (self.new.pending ≡ self.old.pending)) }
        ensures held { OnOk result (S.honest self.new.shelf → Holds (files_in self.new) self.new.state Pending.Missing) }
        ensures leaves { S.honest self.new.shelf → LeavesMade self.old.pending (files_in self.old) (files_in self.new) result }
        ensures ends { Ends false (standing self.old) (standing self.new) result }
    {
        if !self.is_ready {
            return Err(BookFault::Stopped);
        }
        let Pending::Planned(written) = &self.pending else {
            return Ok(());
        };
        self.is_ready = false;
        let state = committed(self.alloc, &self.state, &written.journal)?;
        let text = write_state_text(self.alloc, &state)?;
        self.shelf.replace(ShelfFile::State, &text)?;
        self.shelf.remove(ShelfFile::Journal)?;
        self.state = state;
        self.pending = Pending::Missing;
        self.is_ready = true;
        Ok(())
    }
}
