//! A mailbox of a run.

ghost use Rattle.std.specs.Prelude.{◌≡◌, ℕ, List, Bool, OnOk, IfOk, IfErr, true, false, length};

use crate::box_fault::BoxFault;
use device::whose::Whose;
use mailcore::copy_pieces::CopyPieces;
use mailcore::flags::Flags;
use mailcore::listing::Listing;
use mailcore::spared::Spared;
use mailcore::tuid::Tuid;
use mailcore::uid::Uid;

/// A mailbox of a run: closed, or open, and then its calls can be made.
///
/// After a fault the caller makes no call but `reopen`. Between two calls, and before a call has its effect, others may add messages.
/// What a call does is stated where the device below behaves as specified; why it stops is stated always.
pub trait Mailbox {
    ghost use Rattle.device.specs.Calls.{Nothing};
    ghost use Rattle.mailcore.specs.declared.keywords.Keyword.{Keyword};
    ghost use Rattle.mailcore.specs.declared.side.Side.{Side};
    ghost use Rattle.mailcore.specs.KeywordNames.{kept};
    ghost use Rattle.mailcore.specs.Operations.{flags_added, flags_removed};
    ghost use Rattle.mailcore.specs.CopyPieces.{text_left};
    ghost use Rattle.mailcore.specs.Spared.{spares};
    ghost use Rattle.outside.specs.MailboxOperations.{removed, Admits, AdmitsPart, Answers, Appends, AppendsPart, Finds, HasNumbers, IsCopyText, Lists, ListsWithin, Loads, NoRoom, ReportsValidity, Turns};
    ghost use Rattle.outside.specs.declared.box_fault.BoxFault.{BoxFault};
    ghost use Rattle.outside.specs.BoxArrivals.{Arrives};
    ghost use Rattle.outside.specs.MailboxCalls.{Call, IsPlain, Never, Seen};

    /// Which mailbox of a pair it is: what its line ends and fitness are, who gives its UIDs, and how it says no.
    ghost side: { Side };

    /// The device below has behaved as specified so far.
    ghost honest: { Self → Type 0 };

    /// The marks that nobody else writes.
    ghost ours: { List ℕ → Bool };

    /// Nobody else adds messages.
    ghost alone: { Bool };

    /// The letters of flags that have a name in IMAP, by the run's map. A mailbox has these flags and the six alone: others that a set has
    /// are left out.
    ghost keywords: { Self → List Keyword };

    /// Its messages and what waits, whether a call has failed, and how many calls of the device below have stopped.
    ghost seen: { Self → Seen };

    /// Its calls can be made.
    ghost is_open: { Self → Bool };

    /// The bytes that `load` read last.
    ghost body: { Self → List ℕ };

    /// Between these two moments the other end has ended the session: a server said `* BYE`, or the tags are used up.
    ghost ended: { Self → Self → Type 0 };

    /// It cannot be opened, for this reason.
    ghost unfit: { Self → BoxFault → Type 0 };

    /// All that was changed since the device below was opened outlives a loss of power, or that is the other end's affair.
    ghost is_synced: { Self → Bool };

    /// So does what an earlier process had changed.
    ghost is_settled: { Self → Bool };

    /// Opens the mailbox, anew where it is open, and returns its UIDVALIDITY.
    fn open(&mut self) -> Result<u32, BoxFault>
        requires whole { (seen self.old).is_broken ≡ false }
        ensures was_honest { honest self.new → honest self.old }
        ensures keywords { keywords self.new ≡ keywords self.old }
        ensures open { OnOk result (is_open self.new ≡ true) }
        ensures call { Call (honest self.new) (ended self.old self.new) (Arrives side ours alone) (λ fault _. unfit self.old fault)
            (Answers ReportsValidity) Nothing (seen self.old) (seen self.new) result };

    /// What it lists. Near messages that are spared are said to be fit, and are not read.
    fn list(&mut self, spared: &Spared) -> Result<Listing, BoxFault>
        requires whole { (seen self.old).is_broken ≡ false }
        requires open { is_open self.old ≡ true }
        ensures was_honest { honest self.new → honest self.old }
        ensures keywords { keywords self.new ≡ keywords self.old }
        ensures open { is_open self.new ≡ true }
        ensures numbers { IfOk result HasNumbers }
        ensures within { honest self.new → IfOk result (ListsWithin (keywords self.old)) }
        ensures call { Call (honest self.new) (ended self.old self.new) (Arrives side ours alone) Never
            (Answers (Lists side alone (seen self.old).stored.store.next (spares spared.now))) Nothing (seen self.old) (seen self.new) result };

    /// The least UID of at least `from` whose message has the mark.
    fn find_mark(&mut self, mark: Tuid, from: u32) -> Result<Option<Uid>, BoxFault>
        requires whole { (seen self.old).is_broken ≡ false }
        requires open { is_open self.old ≡ true }
        ensures was_honest { honest self.new → honest self.old }
        ensures keywords { keywords self.new ≡ keywords self.old }
        ensures open { is_open self.new ≡ true }
        ensures call { Call (honest self.new) (ended self.old self.new) (Arrives side ours alone) Never (Answers (Finds mark from)) Nothing
            (seen self.old) (seen self.new) result };

    /// Reads the bytes of a message, which `body` then lends, and says whether it is there.
    fn load(&mut self, uid: Uid) -> Result<bool, BoxFault>
        requires whole { (seen self.old).is_broken ≡ false }
        requires open { is_open self.old ≡ true }
        ensures was_honest { honest self.new → honest self.old }
        ensures keywords { keywords self.new ≡ keywords self.old }
        ensures open { is_open self.new ≡ true }
        ensures call { Call (honest self.new) (ended self.old self.new) (Arrives side ours alone) Never (Answers (Loads uid (body self.new)))
            Nothing (seen self.old) (seen self.new) result };

    /// The bytes that `load` read last.
    fn body(&self) -> &[u8]
        requires open { is_open self.now ≡ true }
        ensures { result.now ≡ body self.now };

    /// Adds a copy with these flags, and returns its UID, if it is known.
    fn append_copy(&mut self, copy: CopyPieces<'_>, flags: Flags) -> Result<Option<Uid>, BoxFault>
        requires whole { (seen self.old).is_broken ≡ false }
        requires open { is_open self.old ≡ true }
        requires copy { IsCopyText side (text_left copy) }
        ensures was_honest { honest self.new → honest self.old }
        ensures keywords { keywords self.new ≡ keywords self.old }
        ensures open { is_open self.new ≡ true }
        ensures call { Call (honest self.new) (ended self.old self.new) (Arrives side ours alone) (NoRoom side (λ _. 1))
            (Appends side (text_left copy.entry) (kept (keywords self.old) flags)) (AppendsPart side)
            (seen self.old) (seen self.new) result };

    /// Sets these flags of a message. Nothing is done where it is not there.
    fn add_flags(&mut self, uid: Uid, flags: Flags) -> Result<(), BoxFault>
        requires whole { (seen self.old).is_broken ≡ false }
        requires open { is_open self.old ≡ true }
        ensures was_honest { honest self.new → honest self.old }
        ensures keywords { keywords self.new ≡ keywords self.old }
        ensures open { is_open self.new ≡ true }
        ensures call { Call {T = Unit {0}} (honest self.new) (ended self.old self.new) (Arrives side ours alone) Never
            (λ _. Turns (flags_added uid (kept (keywords self.old) flags))) Nothing (seen self.old) (seen self.new) result };

    /// Clears these flags of a message. Nothing is done where it is not there.
    fn remove_flags(&mut self, uid: Uid, flags: Flags) -> Result<(), BoxFault>
        requires whole { (seen self.old).is_broken ≡ false }
        requires open { is_open self.old ≡ true }
        ensures was_honest { honest self.new → honest self.old }
        ensures keywords { keywords self.new ≡ keywords self.old }
        ensures open { is_open self.new ≡ true }
        ensures call { Call {T = Unit {0}} (honest self.new) (ended self.old self.new) (Arrives side ours alone) Never
            (λ _. Turns (flags_removed uid (kept (keywords self.old) flags))) Nothing (seen self.old) (seen self.new) result };

    /// Removes a message, if it is there and marked as deleted (RFC 9051, section 6.4.9).
    fn expunge(&mut self, uid: Uid) -> Result<(), BoxFault>
        requires whole { (seen self.old).is_broken ≡ false }
        requires open { is_open self.old ≡ true }
        ensures was_honest { honest self.new → honest self.old }
        ensures keywords { keywords self.new ≡ keywords self.old }
        ensures open { is_open self.new ≡ true }
        ensures call { Call {T = Unit {0}} (honest self.new) (ended self.old self.new) (Arrives side ours alone) Never
            (λ _. Turns (removed uid)) Nothing (seen self.old) (seen self.new) result };

    /// Gives what waits its UIDs: all that waited before the call. What others deliver meanwhile may be left for the next time. At a server
    /// nothing waits.
    fn admit(&mut self) -> Result<(), BoxFault>
        requires whole { (seen self.old).is_broken ≡ false }
        requires open { is_open self.old ≡ true }
        ensures was_honest { honest self.new → honest self.old }
        ensures keywords { keywords self.new ≡ keywords self.old }
        ensures open { is_open self.new ≡ true }
        ensures call { Call {T = Unit {0}} (honest self.new) (ended self.old self.new) (Arrives side ours alone)
            (NoRoom side (λ b. length b.waiting)) (λ _. Admits alone (seen self.old).stored.waiting) (AdmitsPart alone) (seen self.old)
            (seen self.new) result };

    /// Makes what was changed outlive a loss of power, where that is not the other end's affair. Nothing is done where it is closed.
    fn sync(&mut self, whose: Whose) -> Result<(), BoxFault>
        requires whole { (seen self.old).is_broken ≡ false }
        ensures was_honest { honest self.new → honest self.old }
        ensures keywords { keywords self.new ≡ keywords self.old }
        ensures open { is_open self.new ≡ is_open self.old }
        ensures synced { OnOk result (is_open self.old ≡ true → is_synced self.new ≡ true) }
        ensures settled { OnOk result (is_open self.old ≡ true → whose ≡ Whose.All → is_settled self.new ≡ true) }
        ensures reported { IfErr result IsPlain }
        ensures call { Call {T = Unit {0}} (honest self.new) (ended self.old self.new) (Arrives side ours alone) Never
            (λ _ b b'. b' ≡ b) Nothing (seen self.old) (seen self.new) result };

    /// Closes the mailbox and opens the device below again, so that calls are answered again. Its messages stay.
    fn reopen(&mut self)
        ensures was_honest { honest self.new → honest self.old }
        ensures keywords { keywords self.new ≡ keywords self.old }
        ensures seen { seen self.new ≡ record (seen self.old) { is_broken = false } }
        ensures closed { is_open self.new ≡ false };
}
