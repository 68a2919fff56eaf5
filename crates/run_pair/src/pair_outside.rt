//! The calls of a run over any two mailboxes and any shelf: each goes to the part that it concerns.

ghost use Rattle.std.specs.Prelude.{◌≡◌, ◌&&◌, ℕ, false, true, Ok, IfErr, IfOk, OnErr, OnOk, IsErrOf, length};
ghost use Rattle.run_pair.specs.BookParts.{kept_of, standing_of};
ghost use Rattle.run_pair.specs.Naming.{PendingNamesNothing, PlanNamesNothing};

use crate::copying::copy;
use crate::listings::note_opened;
use crate::pair::Pair;
use crate::plan_written::begin_synced;
use crate::run_ended::commit_synced;
use crate::run_given_up::give_up_synced;
use book::lost_sides::LostSides;
use book::shelf::Shelf;
use mailcore::flags::Flags;
use mailcore::listing::Listing;
use mailcore::side::{Direction, Side};
use mailcore::spared::Spared;
use mailcore::tuid::Tuid;
use mailcore::uid::Uid;
use outside::fault::OutsideFault;
use outside::mailbox::Mailbox;
use outside::outside::{Carried, Outside};
use rules::plan::Plan;
use rules::state::SyncState;
use sync_state::journal::Journal;

impl<F: Mailbox + Drop, N: Mailbox + Drop, S: Shelf + Drop> Outside for Pair<F, N, S> {
    ghost use Rattle.mailcore.specs.KeywordNames.{kept};
    ghost use Rattle.mailcore.specs.Operations.{flags_added, flags_removed, marked_from};
    ghost use Rattle.mailcore.specs.Sides.{target};
    ghost use Rattle.mailcore.specs.Spared.{spares};
    ghost use Rattle.sync_state.specs.declared.journal.Logged.TheVariants.{Void};
    ghost use Rattle.book.specs.declared.book.Pending.TheVariants.{Missing, Useless};
    ghost use Rattle.book.specs.Books.{mended, torn, Turns as TurnsJournal, TurnsHalf};
    ghost use Rattle.book.specs.BookLogs.{begun, as_done, logged_more};
    ghost use Rattle.book.specs.Commits.{CommitsHalf, CommitsTo};
    ghost use Rattle.book.specs.GivingUp.{GivesUpHalf, GivesUpTo};
    ghost use Rattle.book.specs.LostSides.{AreRising};
    ghost use Rattle.outside.specs.Devices.{box};
    ghost use Rattle.outside.specs.Calls.{FromBook, FromBox, FromOpening, FromShelf, LeavesBy, opened_again, stopped};
    ghost use Rattle.outside.specs.Opened.{AreCommitted, AreGivenUp, IsBook, IsHeld, IsOpen, IsRead, TakesCommit, TakesDiscard, TakesGivingUp, TakesLog, TakesPlan, shown_far, turned, with_box, with_listing};
    ghost use Rattle.outside.specs.BookCalls.{FromLog, LeavesUnread, ReadsBook};
    ghost use Rattle.outside.specs.MailboxOperations.{HasNumbers, ListsWithin, removed, NoRoom};
    ghost use Rattle.outside.specs.BoxCalls.{Admits, AdmitsPart, Carry, ListsFar, ListsNear, Names, SetsAside, Turns, copies_made};
    ghost use Rattle.outside.specs.MailboxCalls.{Never};
    ghost use Rattle.run_pair.specs.Faults.{OrRefusal};
    ghost use Rattle.run_pair.specs.Parts.{both};
    ghost use Rattle.run_pair.specs.Tallies.{Tallied, counted_again, ended, ended_naming, no_copies};
    ghost use Rattle.run_pair.specs.Pairs.{BookCall, BoxChange, BoxOpens, BoxRead, ByBook, ByBox, ByCopy, BySyncedBook, CannotOpen, IsSyncedFirst, IsWhole, PairCall, device_of, honest_of, opened_of, seen_of};

    ghost honest = { honest_of };

    ghost ours = { both F.ours N.ours };

    ghost alone = { F.alone && N.alone };

    ghost keywords = { λ pair. F.keywords pair.far };

    ghost seen = { seen_of };

    ghost opened = { opened_of };

    ghost Record = { Unit {0} };

    ghost noted = { λ _ _. tt };

    ghost asked = { λ _. tt };

    fn open_book(&mut self) -> Result<(), OutsideFault>
        ensures was_honest { honest_of self.new → honest_of self.old }
        ensures keywords { F.keywords self.new.far ≡ F.keywords self.old.far }
        ensures book { OnOk result (IsBook (opened_of self.new)) }
        ensures call { PairCall (λ _. 0) FromShelf (λ _. ReadsBook (opened_of self.new)) LeavesUnread self.old self.new result }
        ensures why { IsErrOf result OutsideFault.Stopped → ByBook self.old self.new }
        ensures tallied { Tallied (ended no_copies) result self.old.tally self.new.tally }
    {
        if self.tally.is_broken() {
            return Err(OutsideFault::Stopped);
        }
        let answer = self.book.open();
        self.tally.end(answer)
    }

    fn state(&self) -> &SyncState {
        self.book.state()
    }

    fn pending(&self) -> Option<&Journal> {
        self.book.pending()
    }

    fn discard(&mut self) -> Result<(), OutsideFault>
        requires takes { TakesDiscard (opened_of self.old) }
        ensures was_honest { honest_of self.new → honest_of self.old }
        ensures keywords { F.keywords self.new.far ≡ F.keywords self.old.far }
        ensures opened { OnOk result (opened_of self.new ≡ turned (λ _. Missing) (opened_of self.old)) }
        ensures call { BookCall FromBook (λ p. TurnsJournal p Missing) (λ p. TurnsHalf p Missing) self.old self.new result }
        ensures why { IsErrOf result OutsideFault.Stopped → ByBook self.old self.new }
        ensures tallied { Tallied (ended no_copies) result self.old.tally self.new.tally }
    {
        if self.tally.is_broken() {
            return Err(OutsideFault::Stopped);
        }
        let answer = self.book.discard();
        self.tally.end(answer)
    }

    fn mend(&mut self) -> Result<(), OutsideFault>
        requires read { IsRead (opened_of self.old) }
        ensures was_honest { honest_of self.new → honest_of self.old }
        ensures keywords { F.keywords self.new.far ≡ F.keywords self.old.far }
        ensures opened { OnOk result (opened_of self.new ≡ turned mended (opened_of self.old)) }
        ensures call { BookCall FromBook (λ p. TurnsJournal p (mended p)) (λ p. TurnsHalf p p) self.old self.new result }
        ensures why { IsErrOf result OutsideFault.Stopped → ByBook self.old self.new }
        ensures tallied { Tallied (ended no_copies) result self.old.tally self.new.tally }
    {
        if self.tally.is_broken() {
            return Err(OutsideFault::Stopped);
        }
        let answer = self.book.mend();
        self.tally.end(answer)
    }

    fn begin(&mut self, plan: Plan) -> Result<(), OutsideFault>
        requires takes { TakesPlan (opened_of self.old) plan }
        ensures was_honest { honest_of self.new → honest_of self.old }
        ensures keywords { F.keywords self.new.far ≡ F.keywords self.old.far }
        ensures opened { OnOk result (opened_of self.new ≡ turned (λ _. begun plan) (opened_of self.old)) }
        ensures call { BookCall FromBook (λ _. TurnsJournal Missing (begun plan)) (λ _. TurnsHalf Missing Useless) self.old self.new result }
        ensures why { IsErrOf result OutsideFault.Stopped → BySyncedBook self.old self.new }
        ensures tallied { Tallied (ended no_copies) result self.old.tally self.new.tally }
        ensures synced { IsSyncedFirst (PlanNamesNothing (kept_of self.old.book) plan) self.old self.new }
    {
        if self.tally.is_broken() {
            return Err(OutsideFault::Stopped);
        }
        let answer = begin_synced(&mut self.near, &mut self.book, plan);
        self.tally.end(answer)
    }

    fn done(&mut self, step: usize, copy: Option<Uid>) -> Result<(), OutsideFault>
        requires takes { TakesLog (opened_of self.old) step (as_done copy) }
        ensures was_honest { honest_of self.new → honest_of self.old }
        ensures keywords { F.keywords self.new.far ≡ F.keywords self.old.far }
        ensures opened { OnOk result (opened_of self.new ≡ turned (λ p. logged_more p (as_done copy)) (opened_of self.old)) }
        ensures call { BookCall (FromLog (opened_of self.old) (as_done copy)) (λ p. TurnsJournal p (logged_more p (as_done copy)))
            (λ p. TurnsHalf p (torn p)) self.old self.new result }
        ensures why { IsErrOf result OutsideFault.Stopped → ByBook self.old self.new }
        ensures tallied { Tallied (ended no_copies) result self.old.tally self.new.tally }
    {
        if self.tally.is_broken() {
            return Err(OutsideFault::Stopped);
        }
        let answer = self.book.done(step, copy);
        self.tally.end(answer)
    }

    fn void(&mut self, step: usize) -> Result<(), OutsideFault>
        requires takes { TakesLog (opened_of self.old) step Void }
        ensures was_honest { honest_of self.new → honest_of self.old }
        ensures keywords { F.keywords self.new.far ≡ F.keywords self.old.far }
        ensures opened { OnOk result (opened_of self.new ≡ turned (λ p. logged_more p Void) (opened_of self.old)) }
        ensures call { BookCall FromBook (λ p. TurnsJournal p (logged_more p Void)) (λ p. TurnsHalf p (torn p)) self.old self.new result }
        ensures why { IsErrOf result OutsideFault.Stopped → ByBook self.old self.new }
        ensures tallied { Tallied (ended no_copies) result self.old.tally self.new.tally }
    {
        if self.tally.is_broken() {
            return Err(OutsideFault::Stopped);
        }
        let answer = self.book.void(step);
        self.tally.end(answer)
    }

    fn commit(&mut self) -> Result<(), OutsideFault>
        requires takes { TakesCommit (opened_of self.old) }
        ensures was_honest { honest_of self.new → honest_of self.old }
        ensures keywords { F.keywords self.new.far ≡ F.keywords self.old.far }
        ensures opened { OnOk result (AreCommitted (opened_of self.old) (opened_of self.new)) }
        ensures held { result ≡ Ok tt → honest_of self.new → IsHeld (opened_of self.new) (seen_of self.new).device }
        ensures call { BookCall FromBook CommitsTo CommitsHalf self.old self.new result }
        ensures why { IsErrOf result OutsideFault.Stopped → BySyncedBook self.old self.new }
        ensures tallied { Tallied (ended no_copies) result self.old.tally self.new.tally }
        ensures synced { IsSyncedFirst (PendingNamesNothing (kept_of self.old.book)) self.old self.new }
    {
        if self.tally.is_broken() {
            return Err(OutsideFault::Stopped);
        }
        let answer = commit_synced(&mut self.near, &mut self.book);
        self.tally.end(answer)
    }

    fn give_up(&mut self, lost: &LostSides) -> Result<(), OutsideFault>
        requires takes { TakesGivingUp (opened_of self.old) }
        requires rising { AreRising lost.now }
        ensures was_honest { honest_of self.new → honest_of self.old }
        ensures keywords { F.keywords self.new.far ≡ F.keywords self.old.far }
        ensures opened { OnOk result (AreGivenUp lost.now (opened_of self.old) (opened_of self.new)) }
        ensures held { result ≡ Ok tt → honest_of self.new → IsHeld (opened_of self.new) (seen_of self.new).device }
        ensures call { BookCall FromBook (GivesUpTo lost.now) (GivesUpHalf lost.now) self.old self.new result }
        ensures why { IsErrOf result OutsideFault.Stopped → BySyncedBook self.old self.new }
        ensures tallied { Tallied (ended no_copies) result self.old.tally self.new.tally }
        ensures synced { IsSyncedFirst ⊥ self.old self.new }
    {
        if self.tally.is_broken() {
            return Err(OutsideFault::Stopped);
        }
        let answer = give_up_synced(&mut self.near, &mut self.book, lost);
        self.tally.end(answer)
    }

    fn open_box(&mut self, side: Side) -> Result<u32, OutsideFault>
        ensures was_honest { honest_of self.new → honest_of self.old }
        ensures keywords { F.keywords self.new.far ≡ F.keywords self.old.far }
        ensures opened { IfOk result (λ validity. opened_of self.new ≡ with_box side validity (opened_of self.old)) }
        ensures call { BoxOpens (λ validity d. validity ≡ (box d side).validity) self.old self.new result }
        ensures why { IfErr result (ByBox side (OrRefusal (CannotOpen side self.old)) self.old self.new) }
        ensures tallied { Tallied (ended no_copies) result self.old.tally self.new.tally }
    {
        if self.tally.is_broken() {
            return Err(OutsideFault::Stopped);
        }
        match side {
            Side::Far => {
                let answer = self.far.open();
                note_opened(&mut self.far_validities, &answer);
                self.tally.end_opening(Side::Far, answer)
            }
            Side::Near => {
                let answer = self.near.open();
                note_opened(&mut self.near_validities, &answer);
                self.tally.end_opening(Side::Near, answer)
            }
        }
    }

    fn admit(&mut self) -> Result<(), OutsideFault>
        requires is_open { IsOpen Side.Near (opened_of self.old) }
        ensures was_honest { honest_of self.new → honest_of self.old }
        ensures keywords { F.keywords self.new.far ≡ F.keywords self.old.far }
        ensures opened { opened_of self.new ≡ opened_of self.old }
        ensures call { PairCall {T = Unit {0}} (λ _. 0) FromOpening (λ _. Admits (F.alone && N.alone) (seen_of self.old).device.near.waiting)
            (LeavesBy {T = Unit {0}} (λ _. Admits (F.alone && N.alone) (seen_of self.old).device.near.waiting) (AdmitsPart (F.alone && N.alone)))
            self.old self.new result }
        ensures why { IfErr result (ByBox Side.Near (OrRefusal (NoRoom Side.Near (λ b. length b.waiting))) self.old self.new) }
        ensures tallied { Tallied (ended no_copies) result self.old.tally self.new.tally }
    {
        if self.tally.is_broken() {
            return Err(OutsideFault::Stopped);
        }
        let answer = self.near.admit();
        self.tally.end_opening(Side::Near, answer)
    }

    fn list_far(&mut self) -> Result<Listing, OutsideFault>
        requires is_open { IsOpen Side.Far (opened_of self.old) }
        ensures was_honest { honest_of self.new → honest_of self.old }
        ensures keywords { F.keywords self.new.far ≡ F.keywords self.old.far }
        ensures opened { IfOk result (λ listing. opened_of self.new ≡ with_listing Side.Far listing.validity
            (shown_far listing.next (device_of self.new)) (opened_of self.old)) }
        ensures unlisted { OnErr result (opened_of self.new ≡ opened_of self.old) }
        ensures numbers { IfOk result HasNumbers }
        ensures within { honest_of self.new → IfOk result (ListsWithin (F.keywords self.old.far)) }
        ensures call { BoxOpens (ListsFar (F.alone && N.alone) (seen_of self.old).device.far.next) self.old self.new result }
        ensures why { IfErr result (ByBox Side.Far (OrRefusal Never) self.old self.new) }
        ensures tallied { Tallied (ended no_copies) result self.old.tally self.new.tally }
    {
        let listing = self.look_far()?;
        self.note_far_listing(&listing);
        Ok(listing)
    }

    fn look_far(&mut self) -> Result<Listing, OutsideFault>
        requires is_open { IsOpen Side.Far (opened_of self.old) }
        ensures was_honest { honest_of self.new → honest_of self.old }
        ensures keywords { F.keywords self.new.far ≡ F.keywords self.old.far }
        ensures opened { opened_of self.new ≡ opened_of self.old }
        ensures numbers { IfOk result HasNumbers }
        ensures within { honest_of self.new → IfOk result (ListsWithin (F.keywords self.old.far)) }
        ensures call { BoxOpens (ListsFar (F.alone && N.alone) (seen_of self.old).device.far.next) self.old self.new result }
        ensures why { IfErr result (ByBox Side.Far (OrRefusal Never) self.old self.new) }
        ensures tallied { Tallied (ended no_copies) result self.old.tally self.new.tally }
    {
        if self.tally.is_broken() {
            return Err(OutsideFault::Stopped);
        }
        let answer = self.far.list(&Spared::none(self.alloc));
        self.tally.end_opening(Side::Far, answer)
    }

    fn list_near(&mut self, spared: &Spared) -> Result<Listing, OutsideFault>
        requires is_open { IsOpen Side.Near (opened_of self.old) }
        ensures was_honest { honest_of self.new → honest_of self.old }
        ensures keywords { F.keywords self.new.far ≡ F.keywords self.old.far }
        ensures opened { IfOk result (λ listing. opened_of self.new ≡ with_listing Side.Near listing.validity (device_of self.new)
            (opened_of self.old)) }
        ensures unlisted { OnErr result (opened_of self.new ≡ opened_of self.old) }
        ensures numbers { IfOk result HasNumbers }
        ensures within { honest_of self.new → IfOk result (ListsWithin (F.keywords self.old.far)) }
        ensures call { BoxOpens (ListsNear (spares spared.now)) self.old self.new result }
        ensures why { IfErr result (ByBox Side.Near (OrRefusal Never) self.old self.new) }
        ensures tallied { Tallied (ended no_copies) result self.old.tally self.new.tally }
    {
        let listing = self.look_near(spared)?;
        self.note_near_listing(&listing);
        Ok(listing)
    }

    fn look_near(&mut self, spared: &Spared) -> Result<Listing, OutsideFault>
        requires is_open { IsOpen Side.Near (opened_of self.old) }
        ensures was_honest { honest_of self.new → honest_of self.old }
        ensures keywords { F.keywords self.new.far ≡ F.keywords self.old.far }
        ensures opened { opened_of self.new ≡ opened_of self.old }
        ensures numbers { IfOk result HasNumbers }
        ensures within { honest_of self.new → IfOk result (ListsWithin (F.keywords self.old.far)) }
        ensures call { BoxOpens (ListsNear (spares spared.now)) self.old self.new result }
        ensures why { IfErr result (ByBox Side.Near (OrRefusal Never) self.old self.new) }
        ensures tallied { Tallied (ended no_copies) result self.old.tally self.new.tally }
    {
        if self.tally.is_broken() {
            return Err(OutsideFault::Stopped);
        }
        let answer = self.near.list(spared);
        self.tally.end_opening(Side::Near, answer)
    }

    fn find_mark(&mut self, side: Side, mark: Tuid, from: u32) -> Result<Option<Uid>, OutsideFault>
        requires is_open { IsOpen side (opened_of self.old) }
        ensures was_honest { honest_of self.new → honest_of self.old }
        ensures keywords { F.keywords self.new.far ≡ F.keywords self.old.far }
        ensures opened { opened_of self.new ≡ opened_of self.old }
        ensures call { BoxRead (λ found d. found ≡ marked_from mark from (box d side)) self.old self.new result }
        ensures why { IfErr result (ByBox side Never self.old self.new) }
        ensures tallied { Tallied (ended no_copies) result self.old.tally self.new.tally }
    {
        if self.tally.is_broken() {
            return Err(OutsideFault::Stopped);
        }
        match side {
            Side::Far => {
                let answer = self.far.find_mark(mark, from);
                self.tally.end_at(Side::Far, answer)
            }
            Side::Near => {
                let answer = self.near.find_mark(mark, from);
                self.tally.end_at(Side::Near, answer)
            }
        }
    }

    fn carry(
        &mut self,
        direction: Direction,
        uid: Uid,
        mark: Tuid,
        flags: Flags,
    ) -> Result<Carried, OutsideFault>
        requires far_open { IsOpen Side.Far (opened_of self.old) }
        requires near_open { IsOpen Side.Near (opened_of self.old) }
        ensures was_honest { honest_of self.new → honest_of self.old }
        ensures keywords { F.keywords self.new.far ≡ F.keywords self.old.far }
        ensures opened { opened_of self.new ≡ opened_of self.old }
        ensures call { PairCall copies_made FromBox (Carry direction uid (kept (F.keywords self.old.far) flags) mark)
            (LeavesBy (Carry direction uid (kept (F.keywords self.old.far) flags) mark) (SetsAside (target direction))) self.old self.new result }
        ensures why { IfErr result (ByCopy direction self.old self.new) }
        ensures tallied { Tallied (ended copies_made) result self.old.tally self.new.tally }
    {
        if self.tally.is_broken() {
            return Err(OutsideFault::Stopped);
        }
        match direction {
            Direction::Pull => {
                let answer = copy(
                    Direction::Pull,
                    &mut self.far,
                    &mut self.near,
                    uid,
                    mark,
                    flags,
                );
                self.tally.end_carry(answer)
            }
            Direction::Push => {
                let answer = copy(
                    Direction::Push,
                    &mut self.near,
                    &mut self.far,
                    uid,
                    mark,
                    flags,
                );
                self.tally.end_carry(answer)
            }
        }
    }

    fn add_flags(&mut self, side: Side, uid: Uid, flags: Flags) -> Result<(), OutsideFault>
        requires is_open { IsOpen side (opened_of self.old) }
        ensures was_honest { honest_of self.new → honest_of self.old }
        ensures keywords { F.keywords self.new.far ≡ F.keywords self.old.far }
        ensures opened { opened_of self.new ≡ opened_of self.old }
        ensures call { BoxChange (Turns side uid (flags_added uid (kept (F.keywords self.old.far) flags))) (Names side uid) self.old self.new result }
        ensures why { IfErr result (ByBox side Never self.old self.new) }
        ensures tallied { Tallied (ended_naming side uid) result self.old.tally self.new.tally }
    {
        if self.tally.is_broken() {
            return Err(OutsideFault::Stopped);
        }
        match side {
            Side::Far => {
                let answer = self.far.add_flags(uid, flags);
                self.tally.end_naming(Side::Far, uid, answer)
            }
            Side::Near => {
                let answer = self.near.add_flags(uid, flags);
                self.tally.end_naming(Side::Near, uid, answer)
            }
        }
    }

    fn remove_flags(&mut self, side: Side, uid: Uid, flags: Flags) -> Result<(), OutsideFault>
        requires is_open { IsOpen side (opened_of self.old) }
        ensures was_honest { honest_of self.new → honest_of self.old }
        ensures keywords { F.keywords self.new.far ≡ F.keywords self.old.far }
        ensures opened { opened_of self.new ≡ opened_of self.old }
        ensures call { BoxChange (Turns side uid (flags_removed uid (kept (F.keywords self.old.far) flags))) (Names side uid) self.old self.new result }
        ensures why { IfErr result (ByBox side Never self.old self.new) }
        ensures tallied { Tallied (ended_naming side uid) result self.old.tally self.new.tally }
    {
        if self.tally.is_broken() {
            return Err(OutsideFault::Stopped);
        }
        match side {
            Side::Far => {
                let answer = self.far.remove_flags(uid, flags);
                self.tally.end_naming(Side::Far, uid, answer)
            }
            Side::Near => {
                let answer = self.near.remove_flags(uid, flags);
                self.tally.end_naming(Side::Near, uid, answer)
            }
        }
    }

    fn expunge(&mut self, side: Side, uid: Uid) -> Result<(), OutsideFault>
        requires is_open { IsOpen side (opened_of self.old) }
        ensures was_honest { honest_of self.new → honest_of self.old }
        ensures keywords { F.keywords self.new.far ≡ F.keywords self.old.far }
        ensures opened { opened_of self.new ≡ opened_of self.old }
        ensures call { BoxChange (Turns side uid (removed uid)) (Names side uid) self.old self.new result }
        ensures why { IfErr result (ByBox side Never self.old self.new) }
        ensures tallied { Tallied (ended_naming side uid) result self.old.tally self.new.tally }
    {
        if self.tally.is_broken() {
            return Err(OutsideFault::Stopped);
        }
        match side {
            Side::Far => {
                let answer = self.far.expunge(uid);
                self.tally.end_naming(Side::Far, uid, answer)
            }
            Side::Near => {
                let answer = self.near.expunge(uid);
                self.tally.end_naming(Side::Near, uid, answer)
            }
        }
    }

    fn stop(&mut self) -> OutsideFault
        ensures was_honest { honest_of self.new → honest_of self.old }
        ensures keywords { F.keywords self.new.far ≡ F.keywords self.old.far }
        ensures fault { result ≡ OutsideFault.Stopped }
        ensures stopped { seen_of self.new ≡ stopped (seen_of self.old) }
        ensures opened { opened_of self.new ≡ opened_of self.old }
    {
        if !self.tally.is_broken() {
            self.tally.stop();
        }
        OutsideFault::Stopped
    }

    fn reopen(&mut self)
        ensures seen { seen_of self.new ≡ opened_again (seen_of self.old) }
        ensures was_honest { honest_of self.new → honest_of self.old }
        ensures keywords { F.keywords self.new.far ≡ F.keywords self.old.far }
        ensures opened { opened_of self.new ≡ None }
        ensures far { F.seen self.new.far ≡ record (F.seen self.old.far) { is_broken = false } }
        ensures near { N.seen self.new.near ≡ record (N.seen self.old.near) { is_broken = false } }
        ensures book { standing_of self.new.book ≡ record (standing_of self.old.book) { is_ready = true } }
        ensures tally { self.new.tally ≡ counted_again (device_of self.old) self.old.tally }
        ensures whole { IsWhole self.new }
    {
        self.far.reopen();
        self.near.reopen();
        self.book.reopen();
        self.tally.reopen(&self.far, &self.near, &self.book);
    }
}
