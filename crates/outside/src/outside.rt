//! All that a run calls: the calls of both boxes and of the book.

ghost use Rattle.std.specs.Prelude.{◌≡◌, ℕ, List, ◌∷◌, [], Bool, Option, None, Some, Ok, IfOk, OnErr, OnOk};
ghost use Rattle.std.specs.Option.{option_map};

use crate::fault::OutsideFault;
use book::lost_sides::LostSides;
use mailcore::flags::Flags;
use mailcore::listing::Listing;
use mailcore::side::{Direction, Side};
use mailcore::spared::Spared;
use mailcore::tuid::Tuid;
use mailcore::uid::Uid;
use rules::plan::Plan;
use rules::state::SyncState;
use sync_state::journal::Journal;

/// What became of a message that was to be copied.
#[derive(Clone, Copy, PartialEq, Eq)]
pub enum Carried {
    /// It is not there.
    Absent,
    /// It is there, but not fit to be copied.
    Unfit,
    /// A copy was made. Its UID, if the box reported it.
    Made(Option<Uid>),
}

/// Both boxes and the book. After a fault each call answers `Stopped` and changes nothing, until `reopen`.
///
/// What its calls do is said where server, folder and shelf keep their word; which faults they count holds of each outside.
pub trait Outside {
    ghost use Rattle.mailcore.specs.declared.keywords.Keyword.{Keyword};
    ghost use Rattle.mailcore.specs.KeywordNames.{kept};
    ghost use Rattle.mailcore.specs.Operations.{flags_added, flags_removed, marked_from};
    ghost use Rattle.mailcore.specs.Sides.{target};
    ghost use Rattle.mailcore.specs.Spared.{spares};
    ghost use Rattle.sync_state.specs.declared.journal.Logged.TheVariants.{Void};
    ghost use Rattle.book.specs.declared.book.Pending.TheVariants.{Missing, Useless};
    ghost use Rattle.book.specs.Books.{IsSound, mended, torn, Turns as TurnsJournal, TurnsHalf};
    ghost use Rattle.book.specs.BookLogs.{begun, as_done, logged_more};
    ghost use Rattle.book.specs.Commits.{CommitsHalf, CommitsTo};
    ghost use Rattle.book.specs.GivingUp.{GivesUpHalf, GivesUpTo};
    ghost use Rattle.book.specs.LostSides.{AreRising};
    ghost use Rattle.outside.specs.Arrivals.{Arrives};
    ghost use Rattle.outside.specs.Asked.{Asked, Begun, Cleared, Copied, Read, Removed, Set, after_look};
    ghost use Rattle.outside.specs.Devices.{box};
    ghost use Rattle.outside.specs.Calls.{Call, Changes, FromBook, FromBox, FromOpening, FromShelf, LeavesBy, Opens, Reads, Seen, Writes, opened_again, stopped};
    ghost use Rattle.outside.specs.Opened.{IsBook, IsHeld, IsOpen, IsRead, Opened, AreCommitted, AreGivenUp, TakesCommit, TakesDiscard, TakesGivingUp, TakesLog, TakesPlan, journal_of, shown_far, state_of, turned, with_box, with_listing};
    ghost use Rattle.outside.specs.BookCalls.{FromLog, LeavesUnread, OfBook, ReadsBook};
    ghost use Rattle.outside.specs.MailboxOperations.{HasNumbers, ListsWithin, removed};
    ghost use Rattle.outside.specs.BoxCalls.{Admits, AdmitsPart, Carry, ListsFar, ListsNear, Names, SetsAside, Turns, copies_made};

    /// Server, folder and shelf have behaved as specified so far.
    ghost honest: { Self → Type 0 };

    /// The marks that nobody else writes.
    ghost ours: { List ℕ → Bool };

    /// Nobody else adds messages.
    ghost alone: { Bool };

    /// The letters of flags that have a name in IMAP, by the run's map. Both mailboxes have these flags and the six alone: others that a
    /// set has are left out.
    ghost keywords: { Self → List Keyword };

    /// The device, whether a call has failed since it was opened, what was counted, and how the device was each time it was opened again.
    ghost seen: { Self → Seen };

    /// What was read of the shelf, once it was, which UIDVALIDITY each open box has answered last, and which devices were listed.
    ghost opened: { Self → Option Opened };

    /// A record of what an outside is asked for. Which record it is, an implementer says; what is proved over any outside holds for every
    /// one, the list of all that was asked among them.
    ghost Record: { Type 0 };

    /// The record after one thing more.
    ghost noted: { Record → Asked → Record };

    /// The record of what this outside was asked for.
    ghost asked: { Self → Record };

    /// Reads the shelf. `BadState` and `BadJournal`: its files hold no book, and this is the first line that shows it.
    fn open_book(&mut self) -> Result<(), OutsideFault>
        ensures was_honest { honest self.new → honest self.old }
        ensures keywords { keywords self.new ≡ keywords self.old }
        ensures asked { asked self.new ≡ noted (asked self.old) (Read (journal_of (opened self.new))) }
        ensures book { OnOk result (IsBook (opened self.new)) }
        ensures call { Call (honest self.new) (Arrives ours alone) (λ _. 0) FromShelf (λ _. ReadsBook (opened self.new)) LeavesUnread
            (seen self.old) (seen self.new) result };

    /// What the last run recorded.
    fn state(&self) -> &SyncState
        requires read { IsRead (opened self.now) }
        ensures state { state_of (opened self.now) ≡ Some result.now }
        ensures sound { IsSound result.now };

    /// The plan of the next run and which of its steps are logged, if it is pending.
    fn pending(&self) -> Option<&Journal>
        requires read { IsRead (opened self.now) }
        ensures { option_map (λ journal. journal.now) result ≡ journal_of (opened self.now) };

    /// Removes the journal, if there is one. It holds no plan of the next run.
    fn discard(&mut self) -> Result<(), OutsideFault>
        requires takes { TakesDiscard (opened self.old) }
        ensures was_honest { honest self.new → honest self.old }
        ensures keywords { keywords self.new ≡ keywords self.old }
        ensures asked { asked self.new ≡ asked self.old }
        ensures opened { OnOk result (opened self.new ≡ turned (λ _. Missing) (opened self.old)) }
        ensures call { Writes (honest self.new) (Arrives ours alone) FromBook (OfBook (λ p. TurnsJournal p Missing) (opened self.old))
            (OfBook (λ p. TurnsHalf p Missing) (opened self.old)) (seen self.old) (seen self.new) result };

    /// Takes a torn last line off the journal, if there is one.
    fn mend(&mut self) -> Result<(), OutsideFault>
        requires read { IsRead (opened self.old) }
        ensures was_honest { honest self.new → honest self.old }
        ensures keywords { keywords self.new ≡ keywords self.old }
        ensures asked { asked self.new ≡ asked self.old }
        ensures opened { OnOk result (opened self.new ≡ turned mended (opened self.old)) }
        ensures call { Writes (honest self.new) (Arrives ours alone) FromBook (OfBook (λ p. TurnsJournal p (mended p)) (opened self.old))
            (OfBook (λ p. TurnsHalf p p) (opened self.old)) (seen self.old) (seen self.new) result };

    /// Writes the whole plan of the next run, of which no step is logged.
    fn begin(&mut self, plan: Plan) -> Result<(), OutsideFault>
        requires takes { TakesPlan (opened self.old) plan }
        ensures was_honest { honest self.new → honest self.old }
        ensures keywords { keywords self.new ≡ keywords self.old }
        ensures asked { asked self.new ≡ noted (asked self.old) (Begun plan) }
        ensures opened { OnOk result (opened self.new ≡ turned (λ _. begun plan) (opened self.old)) }
        ensures call { Writes (honest self.new) (Arrives ours alone) FromBook
            (OfBook (λ _. TurnsJournal Missing (begun plan)) (opened self.old)) (OfBook (λ _. TurnsHalf Missing Useless) (opened self.old))
            (seen self.old) (seen self.new) result };

    /// Logs the step of this number, counted from 1, as done. A new message has a copy, whose UID this is.
    ///
    /// `BadState(0)`: that UID is taken.
    fn done(&mut self, step: usize, copy: Option<Uid>) -> Result<(), OutsideFault>
        requires takes { TakesLog (opened self.old) step (as_done copy) }
        ensures was_honest { honest self.new → honest self.old }
        ensures keywords { keywords self.new ≡ keywords self.old }
        ensures asked { asked self.new ≡ asked self.old }
        ensures opened { OnOk result (opened self.new ≡ turned (λ p. logged_more p (as_done copy)) (opened self.old)) }
        ensures call { Writes (honest self.new) (Arrives ours alone) (FromLog (opened self.old) (as_done copy))
            (OfBook (λ p. TurnsJournal p (logged_more p (as_done copy))) (opened self.old))
            (OfBook (λ p. TurnsHalf p (torn p)) (opened self.old)) (seen self.old) (seen self.new) result };

    /// Logs the step of this number, counted from 1, as void.
    fn void(&mut self, step: usize) -> Result<(), OutsideFault>
        requires takes { TakesLog (opened self.old) step Void }
        ensures was_honest { honest self.new → honest self.old }
        ensures keywords { keywords self.new ≡ keywords self.old }
        ensures asked { asked self.new ≡ asked self.old }
        ensures opened { OnOk result (opened self.new ≡ turned (λ p. logged_more p Void) (opened self.old)) }
        ensures call { Writes (honest self.new) (Arrives ours alone) FromBook
            (OfBook (λ p. TurnsJournal p (logged_more p Void)) (opened self.old)) (OfBook (λ p. TurnsHalf p (torn p)) (opened self.old))
            (seen self.old) (seen self.new) result };

    /// Puts the state that the finished plan makes in place of the old one, and then removes the journal.
    fn commit(&mut self) -> Result<(), OutsideFault>
        requires takes { TakesCommit (opened self.old) }
        ensures was_honest { honest self.new → honest self.old }
        ensures keywords { keywords self.new ≡ keywords self.old }
        ensures asked { asked self.new ≡ asked self.old }
        ensures opened { OnOk result (AreCommitted (opened self.old) (opened self.new)) }
        ensures held { result ≡ Ok tt → honest self.new → IsHeld (opened self.new) (seen self.new).device }
        ensures call { Writes (honest self.new) (Arrives ours alone) FromBook (OfBook CommitsTo (opened self.old))
            (OfBook CommitsHalf (opened self.old)) (seen self.old) (seen self.new) result };

    /// Puts the state that is left of the pending plan in place of the old one, with an entry for each copy that is logged, and then
    /// removes the journal. An entry that loses a side keeps the other one alone.
    fn give_up(&mut self, lost: &LostSides) -> Result<(), OutsideFault>
        requires takes { TakesGivingUp (opened self.old) }
        requires rising { AreRising lost.now }
        ensures was_honest { honest self.new → honest self.old }
        ensures keywords { keywords self.new ≡ keywords self.old }
        ensures asked { asked self.new ≡ asked self.old }
        ensures opened { OnOk result (AreGivenUp lost.now (opened self.old) (opened self.new)) }
        ensures held { result ≡ Ok tt → honest self.new → IsHeld (opened self.new) (seen self.new).device }
        ensures call { Writes (honest self.new) (Arrives ours alone) FromBook (OfBook (GivesUpTo lost.now) (opened self.old))
            (OfBook (GivesUpHalf lost.now) (opened self.old)) (seen self.old) (seen self.new) result };

    /// Selects the far mailbox, or opens the near one, and reports its UIDVALIDITY.
    fn open_box(&mut self, side: Side) -> Result<u32, OutsideFault>
        ensures was_honest { honest self.new → honest self.old }
        ensures keywords { keywords self.new ≡ keywords self.old }
        ensures asked { asked self.new ≡ asked self.old }
        ensures opened { IfOk result (λ validity. opened self.new ≡ with_box side validity (opened self.old)) }
        ensures call { Opens (honest self.new) (Arrives ours alone) (λ validity d. validity ≡ (box d side).validity) (seen self.old)
            (seen self.new) result };

    /// Gives the waiting near files their UIDs: all that waited before the call. Those that come later may wait for the next plan.
    fn admit(&mut self) -> Result<(), OutsideFault>
        requires is_open { IsOpen Side.Near (opened self.old) }
        ensures was_honest { honest self.new → honest self.old }
        ensures keywords { keywords self.new ≡ keywords self.old }
        ensures asked { asked self.new ≡ asked self.old }
        ensures opened { opened self.new ≡ opened self.old }
        ensures call { Call {T = Unit {0}} (honest self.new) (Arrives ours alone) (λ _. 0) FromOpening
            (λ _. Admits alone (seen self.old).device.near.waiting)
            (LeavesBy {T = Unit {0}} (λ _. Admits alone (seen self.old).device.near.waiting) (AdmitsPart alone)) (seen self.old)
            (seen self.new) result };

    /// What the far mailbox lists.
    fn list_far(&mut self) -> Result<Listing, OutsideFault>
        requires is_open { IsOpen Side.Far (opened self.old) }
        ensures was_honest { honest self.new → honest self.old }
        ensures keywords { keywords self.new ≡ keywords self.old }
        ensures asked { asked self.new ≡ asked self.old }
        ensures opened { IfOk result (λ listing. opened self.new ≡ with_listing Side.Far listing.validity
            (shown_far listing.next (seen self.new).device) (opened self.old)) }
        ensures unlisted { OnErr result (opened self.new ≡ opened self.old) }
        ensures numbers { IfOk result HasNumbers }
        ensures within { honest self.new → IfOk result (ListsWithin (keywords self.old)) }
        ensures call { Opens (honest self.new) (Arrives ours alone) (ListsFar alone (seen self.old).device.far.next) (seen self.old)
            (seen self.new) result };

    /// The same for who looks after a run: this is no listing of the run.
    fn look_far(&mut self) -> Result<Listing, OutsideFault>
        requires is_open { IsOpen Side.Far (opened self.old) }
        ensures was_honest { honest self.new → honest self.old }
        ensures keywords { keywords self.new ≡ keywords self.old }
        ensures asked { asked self.new ≡ asked self.old }
        ensures opened { opened self.new ≡ opened self.old }
        ensures numbers { IfOk result HasNumbers }
        ensures within { honest self.new → IfOk result (ListsWithin (keywords self.old)) }
        ensures call { Opens (honest self.new) (Arrives ours alone) (ListsFar alone (seen self.old).device.far.next) (seen self.old)
            (seen self.new) result };

    /// What the near mailbox lists. Messages that are spared are said to be fit, and are not read.
    fn list_near(&mut self, spared: &Spared) -> Result<Listing, OutsideFault>
        requires is_open { IsOpen Side.Near (opened self.old) }
        ensures was_honest { honest self.new → honest self.old }
        ensures keywords { keywords self.new ≡ keywords self.old }
        ensures asked { asked self.new ≡ asked self.old }
        ensures opened { IfOk result (λ listing. opened self.new ≡ with_listing Side.Near listing.validity (seen self.new).device
            (opened self.old)) }
        ensures unlisted { OnErr result (opened self.new ≡ opened self.old) }
        ensures numbers { IfOk result HasNumbers }
        ensures within { honest self.new → IfOk result (ListsWithin (keywords self.old)) }
        ensures call { Opens (honest self.new) (Arrives ours alone) (ListsNear (spares spared.now)) (seen self.old) (seen self.new) result };

    /// The same for who looks after a run: this is no listing of the run.
    fn look_near(&mut self, spared: &Spared) -> Result<Listing, OutsideFault>
        requires is_open { IsOpen Side.Near (opened self.old) }
        ensures was_honest { honest self.new → honest self.old }
        ensures keywords { keywords self.new ≡ keywords self.old }
        ensures asked { asked self.new ≡ asked self.old }
        ensures opened { opened self.new ≡ opened self.old }
        ensures numbers { IfOk result HasNumbers }
        ensures within { honest self.new → IfOk result (ListsWithin (keywords self.old)) }
        ensures call { Opens (honest self.new) (Arrives ours alone) (ListsNear (spares spared.now)) (seen self.old) (seen self.new) result };

    /// The least UID of at least `from` whose message has the mark.
    fn find_mark(&mut self, side: Side, mark: Tuid, from: u32) -> Result<Option<Uid>, OutsideFault>
        requires is_open { IsOpen side (opened self.old) }
        ensures was_honest { honest self.new → honest self.old }
        ensures keywords { keywords self.new ≡ keywords self.old }
        ensures asked { asked self.new ≡ after_look noted side mark from (asked self.old) result }
        ensures opened { opened self.new ≡ opened self.old }
        ensures call { Reads (honest self.new) (Arrives ours alone) (λ found d. found ≡ marked_from mark from (box d side)) (seen self.old)
            (seen self.new) result };

    /// Copies the message of the direction's source with this UID to its target, under this mark and with these flags.
    fn carry(
        &mut self,
        direction: Direction,
        uid: Uid,
        mark: Tuid,
        flags: Flags,
    ) -> Result<Carried, OutsideFault>
        requires far_open { IsOpen Side.Far (opened self.old) }
        requires near_open { IsOpen Side.Near (opened self.old) }
        ensures was_honest { honest self.new → honest self.old }
        ensures keywords { keywords self.new ≡ keywords self.old }
        ensures asked { asked self.new ≡ noted (asked self.old) (Copied direction uid flags mark) }
        ensures opened { opened self.new ≡ opened self.old }
        ensures call { Call (honest self.new) (Arrives ours alone) copies_made FromBox
            (Carry direction uid (kept (keywords self.old) flags) mark)
            (LeavesBy (Carry direction uid (kept (keywords self.old) flags) mark) (SetsAside (target direction)))
            (seen self.old) (seen self.new) result };

    /// Sets these flags of a message. Nothing is done where it is not there.
    fn add_flags(&mut self, side: Side, uid: Uid, flags: Flags) -> Result<(), OutsideFault>
        requires is_open { IsOpen side (opened self.old) }
        ensures was_honest { honest self.new → honest self.old }
        ensures keywords { keywords self.new ≡ keywords self.old }
        ensures asked { asked self.new ≡ noted (asked self.old) (Set side uid flags) }
        ensures opened { opened self.new ≡ opened self.old }
        ensures call { Changes {T = Unit {0}} (honest self.new) (Arrives ours alone)
            (λ _. Turns side uid (flags_added uid (kept (keywords self.old) flags))) (Names side uid) (seen self.old) (seen self.new) result };

    /// Clears these flags of a message. Nothing is done where it is not there.
    fn remove_flags(&mut self, side: Side, uid: Uid, flags: Flags) -> Result<(), OutsideFault>
        requires is_open { IsOpen side (opened self.old) }
        ensures was_honest { honest self.new → honest self.old }
        ensures keywords { keywords self.new ≡ keywords self.old }
        ensures asked { asked self.new ≡ noted (asked self.old) (Cleared side uid flags) }
        ensures opened { opened self.new ≡ opened self.old }
        ensures call { Changes {T = Unit {0}} (honest self.new) (Arrives ours alone)
            (λ _. Turns side uid (flags_removed uid (kept (keywords self.old) flags))) (Names side uid) (seen self.old) (seen self.new) result };

    /// Removes a message, if it is there and marked as deleted (RFC 9051, section 6.4.9).
    fn expunge(&mut self, side: Side, uid: Uid) -> Result<(), OutsideFault>
        requires far_open { IsOpen Side.Far (opened self.old) }
        requires is_open { IsOpen side (opened self.old) }
        ensures was_honest { honest self.new → honest self.old }
        ensures keywords { keywords self.new ≡ keywords self.old }
        ensures asked { asked self.new ≡ noted (asked self.old) (Removed side uid) }
        ensures opened { opened self.new ≡ opened self.old }
        ensures call { Changes {T = Unit {0}} (honest self.new) (Arrives ours alone) (λ _. Turns side uid (removed uid))
            (Names side uid) (seen self.old) (seen self.new) result };

    /// Stops as a call does that stops before it has an effect: whoever calls it does not let the run go on.
    fn stop(&mut self) -> OutsideFault
        ensures was_honest { honest self.new → honest self.old }
        ensures keywords { keywords self.new ≡ keywords self.old }
        ensures asked { asked self.new ≡ asked self.old }
        ensures fault { result ≡ OutsideFault.Stopped }
        ensures stopped { seen self.new ≡ stopped (seen self.old) }
        ensures opened { opened self.new ≡ opened self.old };

    /// Opens all again, so that calls are answered again. It keeps both mailboxes and the shelf, and nothing else.
    fn reopen(&mut self)
        ensures seen { seen self.new ≡ opened_again (seen self.old) }
        ensures was_honest { honest self.new → honest self.old }
        ensures keywords { keywords self.new ≡ keywords self.old }
        ensures asked { asked self.new ≡ asked self.old }
        ensures opened { opened self.new ≡ None };
}
