//! A book: the state of the last run and the journal of the run that is under way, kept on a shelf.

ghost use Rattle.std.specs.Prelude.{◌≡◌, false, true, Some, Ok, IfOk, IfErr, OnOk, OnErr, MatchOption};
ghost use Rattle.sync_state.specs.declared.journal.WrittenJournal.{WrittenJournal};
ghost use Rattle.book.specs.Books.{Holds, HoldsState, HoldsJournal, IsPlanned, IsSound, IsUnstopped, Fits, Ends, mended};
ghost use Rattle.book.specs.Books.{ReportsOpen, ReportsStateFile, ReportsJournalFile, ReportsPending, StopsReported};
ghost use Rattle.book.specs.BookLaws.{Fits-prop, IsSound-prop, Knows-prop};
ghost use Rattle.book.specs.TakenUids.{Knows};

use crate::agreement::disagreement;
use crate::shelf::{Shelf, ShelfFile};
use crate::taken::Taken;
use rules::state::SyncState;
use std::alloc::Global;
use sync_state::fault::BookFault;
use sync_state::journal::{Journal, WrittenJournal};
use sync_state::journal_text::{read_journal, write_journal_in};
use sync_state::state_text::read_state_text;

/// What stands in the journal's file.
#[derive(Drop)]
pub enum Pending {
    /// There is no journal.
    Missing,
    /// There is one, without a plan or with the plan of a run that was made.
    Useless,
    /// The plan of the next run, and which of its steps are logged.
    Planned(WrittenJournal),
}

/// The state that the state's file holds. No file: no run was made.
fn read_state_file<S: Shelf>(alloc: Global, shelf: &mut S) -> Result<SyncState, BookFault>
    ensures holds { IfOk result (λ state. S.honest shelf.new → HoldsState (S.seen shelf.new).stored.state state) }
    ensures sound { IfOk result IsSound }
    ensures was_honest { S.honest shelf.new → S.honest shelf.old }
    ensures files { S.honest shelf.new → (S.seen shelf.new).stored ≡ (S.seen shelf.old).stored }
    ensures unstopped { OnOk result (IsUnstopped (S.seen shelf.old) (S.seen shelf.new)) }
    ensures refused { IfErr result (λ fault. S.honest shelf.new → ReportsStateFile (S.seen shelf.new).stored.state fault) }
    ensures reported { IfErr result (λ fault. StopsReported fault (S.seen shelf.old) (S.seen shelf.new)) }
{
    match shelf.read(ShelfFile::State)? {
        Some(text) => read_state_text(alloc, &text),
        None => Ok(SyncState::none(alloc)),
    }
}

/// What the journal's file holds, after this state.
fn read_journal_file<S: Shelf>(
    alloc: Global,
    shelf: &mut S,
    state: &SyncState,
) -> Result<Pending, BookFault>
    ensures holds { IfOk result (λ pending. S.honest shelf.new → HoldsJournal state.now (S.seen shelf.new).stored.journal pending) }
    ensures fits { IfOk result (Fits state.now) }
    ensures was_honest { S.honest shelf.new → S.honest shelf.old }
    ensures files { S.honest shelf.new → (S.seen shelf.new).stored ≡ (S.seen shelf.old).stored }
    ensures unstopped { OnOk result (IsUnstopped (S.seen shelf.old) (S.seen shelf.new)) }
    ensures refused { IfErr result (λ fault. S.honest shelf.new → ReportsJournalFile state.now (S.seen shelf.new).stored.journal fault) }
    ensures reported { IfErr result (λ fault. StopsReported fault (S.seen shelf.old) (S.seen shelf.new)) }
{
    match shelf.read(ShelfFile::Journal)? {
        Some(text) => read_pending(alloc, &text, state),
        None => Ok(Pending::Missing),
    }
}

/// What a journal's file with this text holds, after this state.
fn read_pending(alloc: Global, text: &[u8], state: &SyncState) -> Result<Pending, BookFault>
    ensures holds { IfOk result (λ pending. HoldsJournal state.now (Some text.now) pending) }
    ensures fits { IfOk result (Fits state.now) }
    ensures refused { IfErr result (ReportsPending state.now text.now) }
{
    let Some(written) = read_journal(alloc, text)? else {
        return Ok(Pending::Useless);
    };
    if written.journal.plan.run <= state.run {
        return Ok(Pending::Useless);
    }
    if written.journal.plan.run - 1 > state.run {
        return Err(BookFault::BadJournal(2));
    }
    match disagreement(alloc, &state.entries, &written.journal)? {
        Some(line) => Err(BookFault::BadJournal(line)),
        None => Ok(Pending::Planned(written)),
    }
}

/// What both files hold, and what is taken then.
fn read_files<S: Shelf>(
    alloc: Global,
    shelf: &mut S,
) -> Result<(SyncState, Pending, Taken), BookFault>
    ensures holds { IfOk result (λ held. S.honest shelf.new → Holds (S.seen shelf.new).stored held.0 held.1) }
    ensures fits { IfOk result (λ held. Fits held.0 held.1) }
    ensures sound { IfOk result (λ held. IsSound held.0) }
    ensures knows { IfOk result (λ held. Knows held.0.entries held.1 held.2) }
    ensures unstopped { OnOk result (IsUnstopped (S.seen shelf.old) (S.seen shelf.new)) }
    ensures was_honest { S.honest shelf.new → S.honest shelf.old }
    ensures files { S.honest shelf.new → (S.seen shelf.new).stored ≡ (S.seen shelf.old).stored }
    ensures refused { IfErr result (λ fault. S.honest shelf.new → ReportsOpen (S.seen shelf.new).stored fault) }
    ensures reported { IfErr result (λ fault. StopsReported fault (S.seen shelf.old) (S.seen shelf.new)) }
{
    let state = read_state_file(alloc, shelf)?;
    let pending = read_journal_file(alloc, shelf, &state)?;
    let taken = Taken::of(alloc, state.entries.as_slice(), &pending)?;
    Ok((state, pending, taken))
}

/// Why a book was not opened, and the shelf.
#[derive(Drop)]
pub struct OpenFault<S> {
    /// The shelf, whose files are as before.
    pub shelf: S,
    /// Why it was not opened.
    pub fault: BookFault,
}

/// The state of the last run and the journal of the next one.
///
/// After `Stopped` and `NoMemory` each call answers `Stopped`: the shelf is to be reopened, and a new book opened.
#[derive(Drop)]
pub struct Book<S: Shelf> {
    pub(crate) alloc: Global,
    pub(crate) shelf: S,
    pub(crate) state: SyncState,
    pub(crate) pending: Pending,
    // What is taken while a plan is pending.
    pub(crate) taken: Taken,
    pub(crate) is_ready: bool,
    pub ghost is_whole: { is_ready ≡ true → (S.seen shelf).is_broken ≡ false },
    pub ghost holds: { is_ready ≡ true → S.honest shelf → Holds (S.seen shelf).stored state pending },
    pub ghost fits: { Fits state pending } by { Fits-prop state pending },
    pub ghost sound: { IsSound state } by { IsSound-prop state },
    pub ghost knows: { is_ready ≡ true → Knows state.entries pending taken } by { Knows-prop is_ready state.entries pending taken },
}

impl<S: Shelf> Book<S> {
    ghost use Rattle.book.specs.Standings.{LeavesJournal, standing};

    /// Reads both files and changes nothing. `BadState`: the state is not spelled so. `BadJournal`: a journal with `go`
    /// is not spelled so, or it is of a run above the next one, which is line 2, or it is of the next one and disagrees
    /// with the state.
    pub fn open(alloc: Global, shelf: S) -> Result<Book<S>, OpenFault<S>>
        ensures was_honest { IfOk result (λ book. S.honest book.shelf → S.honest shelf) }
        ensures files { IfOk result (λ book. S.honest book.shelf → (S.seen book.shelf).stored ≡ (S.seen shelf).stored) }
        ensures ready { IfOk result (λ book. book.is_ready ≡ true) }
        ensures held { IfOk result (λ book. S.honest book.shelf → Holds (S.seen book.shelf).stored book.state book.pending) }
        ensures unstopped { IfOk result (λ book. IsUnstopped (S.seen shelf) (S.seen book.shelf)) }
        ensures handed_honest { IfErr result (λ f. S.honest f.shelf → S.honest shelf) }
        ensures handed_back { IfErr result (λ f. S.honest f.shelf → (S.seen f.shelf).stored ≡ (S.seen shelf).stored) }
        ensures refused { IfErr result (λ f. S.honest f.shelf → ReportsOpen (S.seen f.shelf).stored f.fault) }
        ensures reported { IfErr result (λ f. StopsReported f.fault (S.seen shelf) (S.seen f.shelf)) }
    {
        let mut shelf = shelf;
        match read_files(alloc, &mut shelf) {
            Ok((state, pending, taken)) => Ok(Book {
                alloc,
                shelf,
                state,
                pending,
                taken,
                is_ready: true,
            }),
            Err(fault) => Err(OpenFault { shelf, fault }),
        }
    }

    /// A book over this shelf that is not open: of its calls `enter` and `reopen` alone do anything.
    pub fn closed(alloc: Global, shelf: S) -> Book<S>
        ensures shelf { result.shelf ≡ shelf }
        ensures closed { result.is_ready ≡ false }
    {
        Book {
            alloc,
            shelf,
            state: SyncState::none(alloc),
            pending: Pending::Missing,
            taken: Taken::none(alloc),
            is_ready: false,
        }
    }

    /// Opens the book: reads both files and changes nothing. A book that is open stays so, and nothing is called. The faults are those
    /// of `open`.
    pub fn enter(&mut self) -> Result<(), BookFault>
        ensures was_honest { S.honest self.new.shelf → S.honest self.old.shelf }
        ensures files { S.honest self.new.shelf → (S.seen self.new.shelf).stored ≡ (S.seen self.old.shelf).stored }
        ensures ready { OnOk result (self.new.is_ready ≡ true) }
        ensures failed { OnErr result (self.new.is_ready ≡ false) }
        ensures untouched { self.old.is_ready ≡ true → (result ≡ Ok tt) × (self.new ≡ self.old) }
        ensures held { OnOk result (S.honest self.new.shelf → Holds (S.seen self.new.shelf).stored self.new.state self.new.pending) }
        ensures unstopped { OnOk result (IsUnstopped (S.seen self.old.shelf) (S.seen self.new.shelf)) }
        ensures refused { IfErr result (λ fault. S.honest self.new.shelf → ReportsOpen (S.seen self.new.shelf).stored fault) }
        ensures reported { IfErr result (λ fault. StopsReported fault (S.seen self.old.shelf) (S.seen self.new.shelf)) }
    {
        if self.is_ready {
            return Ok(());
        }
        let (state, pending, taken) = read_files(self.alloc, &mut self.shelf)?;
        self.state = state;
        self.pending = pending;
        self.taken = taken;
        self.is_ready = true;
        Ok(())
    }

    /// Closes the book, and opens its shelf again.
    pub fn reopen(&mut self)
        ensures was_honest { S.honest self.new.shelf → S.honest self.old.shelf }
        ensures closed { self.new.is_ready ≡ false }
        ensures shelf { S.seen self.new.shelf ≡ record (S.seen self.old.shelf) { is_broken = false } }
    {
        self.is_ready = false;
        self.shelf.reopen();
    }

    /// The state of the last run.
    pub fn state(&self) -> &SyncState
        ensures state { result.now ≡ self.now.state }
        ensures sound { IsSound result.now }
    {
        &self.state
    }

    /// The plan of the next run and which of its steps are logged, if it is pending.
    pub fn pending(&self) -> Option<&Journal>
        ensures { MatchOption result (¬ IsPlanned self.now.pending)
            (λ journal. (written : WrittenJournal) × (self.now.pending ≡ Pending.Planned written) × (journal.now ≡ written.journal)) }
    {
        match &self.pending {
            Pending::Planned(written) => Some(&written.journal),
            _ => None,
        }
    }

    /// The shelf, with what the book says unless a call of it has failed.
    pub fn into_shelf(self) -> S
        ensures shelf { result ≡ self.shelf }
        ensures whole { self.is_ready ≡ true → (S.seen result).is_broken ≡ false }
        ensures holds { S.honest result → self.is_ready ≡ true → Holds (S.seen result).stored self.state self.pending }
    {
        let Book {
            alloc: _,
            shelf,
            state: _,
            pending: _,
            taken: _,
            is_ready: _,
        } = self;
        shelf
    }

    /// Removes the journal, if there is one: one `remove`, or no call of the shelf.
    pub fn discard(&mut self) -> Result<(), BookFault>
        ensures was_honest { S.honest self.new.shelf → S.honest self.old.shelf }
        ensures state { self.new.state ≡ self.old.state }
        ensures removed { OnOk result (self.new.pending ≡ Pending.Missing) }
        ensures kept { OnErr result (self.new.pending ≡ self.old.pending) }
        ensures untouched { self.old.is_ready ≡ true → self.old.pending ≡ Pending.Missing → (result ≡ Ok tt) × (self.new.shelf ≡ self.old.shelf) }
        ensures leaves { S.honest self.new.shelf → LeavesJournal self.old.pending Pending.Missing Pending.Missing self.old self.new result }
        ensures ends { Ends false (standing self.old) (standing self.new) result }
    {
        if !self.is_ready {
            return Err(BookFault::Stopped);
        }
        if matches!(self.pending, Pending::Missing) {
            return Ok(());
        }
        self.is_ready = false;
        self.shelf.remove(ShelfFile::Journal)?;
        self.pending = Pending::Missing;
        self.is_ready = true;
        Ok(())
    }

    /// Takes a torn last line off a journal whose plan is pending, if there is one: one `replace`, or no call of the shelf.
    /// The journal keeps its version.
    pub fn mend(&mut self) -> Result<(), BookFault>
        ensures was_honest { S.honest self.new.shelf → S.honest self.old.shelf }
        ensures state { self.new.state ≡ self.old.state }
        ensures mended { OnOk result (self.new.pending ≡ mended self.old.pending) }
        ensures kept { OnErr result (self.new.pending ≡ self.old.pending) }
        ensures untouched { self.old.is_ready ≡ true → mended self.old.pending ≡ self.old.pending
            → (result ≡ Ok tt) × (self.new.shelf ≡ self.old.shelf) }
        ensures leaves { S.honest self.new.shelf → LeavesJournal self.old.pending (mended self.old.pending) self.old.pending self.old self.new result }
        ensures ends { Ends false (standing self.old) (standing self.new) result }
    {
        if !self.is_ready {
            return Err(BookFault::Stopped);
        }
        let Pending::Planned(written) = &self.pending else {
            return Ok(());
        };
        if !written.is_torn {
            return Ok(());
        }
        self.is_ready = false;
        let text = write_journal_in(self.alloc, written.version, &written.journal)?;
        self.shelf.replace(ShelfFile::Journal, &text)?;
        mend_pending(&mut self.pending);
        self.is_ready = true;
        Ok(())
    }
}

fn mend_pending(pending: &mut Pending)
    ensures { pending.new ≡ mended pending.old }
{
    match pending {
        Pending::Planned(written) => written.is_torn = false,
        Pending::Missing | Pending::Useless => {}
    }
}
