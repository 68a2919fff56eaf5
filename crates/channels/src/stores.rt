//! The stores that channels are synchronised over.

ghost use Rattle.std.specs.Prelude.{◌≡◌, List, [], None, Option, true, IfOk};
ghost use Rattle.rules.specs.Options.{covers};
ghost use Rattle.channels.specs.Boxes.{Rises};
ghost use Rattle.rules.specs.declared.options.Options.{Options};
ghost use Rattle.channels.specs.Answered.{Answered, CauseAnswered, PathsAnswered, with_answer};
ghost use Rattle.channels.specs.Asked.{Asked, Ended, FarListed, FoundNew, Made, NearListed, Outcome, Place, names_of, outcome_by, outcome_of_making, outcome_of_state, place_of};
ghost use Rattle.channels.specs.Listings.{IsNoListing};
ghost use Rattle.channels.specs.Lendings.{Choice, LendsFor, LendsNone, Lent, LentPlace, lent_by};
ghost use Rattle.channels.specs.Openings.{first_on};

use crate::channel_box::{ChannelBox, ChannelStores};
use crate::notice::Notice;
use crate::stop_cause::StopCause;
use crate::store_fault::{ListFault, StoreFault};
use config::config::{ImapStore, MaildirStore};
use mailcore::keywords::Keywords;
use mailcore::mailbox_name::MailboxName;
use mailcore::side::Side;
use outside::outside::Outside;
use runner::progress::Progress;

/// Stores whose mailboxes can be listed, and nothing else: through this trait no mailbox is made or synchronised.
///
/// A record grows with each thing that they are asked for. Which record it is, an implementer says; what is proved over any stores holds
/// for every one, the list of all that was asked among them.
pub trait BoxLists {
    /// A record of what stores are asked for.
    ghost Record: { Type 0 };

    /// The record after one thing more.
    ghost noted: { Record → Asked → Record };

    /// The record of what these stores were asked for.
    ghost asked: { Self → Record };

    /// What these stores answered of the runs over their mailboxes, each answer in turn. None: this is not known.
    ghost answered: { Self → Option (List Answered) } = { λ _. None };

    /// In all that was done over mailboxes so far, servers and disks have behaved as specified. What is said of mailboxes that were lent
    /// (`lent`) holds where this does. Stores that leave it out say nothing of them: no clause of theirs, nor of what is proved over them,
    /// then says what became of a mailbox.
    ghost honest: { Self → Type 0 } = { λ _. ⊥ };

    /// Each mailbox that was lent so far, the last first. Stores that are honest say it.
    ghost lent: { Self → List LentPlace } = { λ _. [] };

    /// The opening from which a run is looked at, by the device at which it finds a mailbox and by its options. What is proved over any stores
    /// holds for every choice, so for each opening at which a mailbox stood. Without a choice it is that of a first run.
    ghost opening: { Choice } = { first_on };

    /// The names of the mailboxes of a far store, INBOX among them if it is there. Names beyond the limits are left out, and noted: 1 to
    /// 255 printable ASCII characters without `* % " \`, and no empty part, `.` or `..` between slashes. Each stands once, in the order of
    /// their bytes (`boxes::in_order`).
    fn far_boxes(&mut self, store: &ImapStore) -> Result<Vec<MailboxName>, ListFault>
        ensures rising { IfOk result (λ names. Rises names.items) }
        ensures asked { asked self.new ≡ noted (asked self.old) (FarListed store.now (names_of result)) }
        ensures answered { answered self.new ≡ answered self.old }
        ensures lent { LendsNone honest lent self.old self.new };

    /// The names of the mailboxes of a near store, INBOX among them if it is there, within the same limits and
    /// in the same order.
    fn near_boxes(&mut self, store: &MaildirStore) -> Result<Vec<MailboxName>, ListFault>
        ensures rising { IfOk result (λ names. Rises names.items) }
        ensures asked { asked self.new ≡ noted (asked self.old) (NearListed store.now (names_of result)) }
        ensures answered { answered self.new ≡ answered self.old }
        ensures lent { LendsNone honest lent self.old self.new };

    /// What is to be reported beside faults of the calls before. Of the mailboxes that are left out these are those that this channel could
    /// choose (`ChannelStores::could_choose`): the others stay noted for a later channel. Each is reported once, and each mailbox and file
    /// that is left out once in a run. Where memory is wanting, some may be missing.
    fn notices(&mut self, of: ChannelStores<'_>) -> Vec<Notice>
        ensures asked { asked self.new ≡ asked self.old }
        ensures answered { answered self.new ≡ answered self.old }
        ensures lent { LendsNone honest lent self.old self.new };

    /// What the server that was asked last said in its last NO, BAD or BYE, or the front of what it sent where that is no answer: one
    /// line of at most 200 bytes, of which those that are no plain characters stand as a backslash and two digits. It is given once. None:
    /// it said nothing, or memory is wanting.
    fn server_words(&mut self) -> Option<String>
        ensures asked { asked self.new ≡ asked self.old }
        ensures answered { answered self.new ≡ answered self.old }
        ensures lent { LendsNone honest lent self.old self.new };
}

/// What is done over a mailbox while it is open.
pub trait Work {
    /// What it comes to.
    type Answer;

    /// What it may do to the mailbox, and by which map keywords have a letter in it.
    ghost options: { Self → Options };

    /// What is noted of it, by the mailbox and how it ended.
    ghost asking: { Self → Place → Outcome → Asked };

    /// That is no listing.
    ghost is_no_listing: { (work : Self) (place : Place) (outcome : Outcome) → IsNoListing (asking work place outcome) };

    /// How it ended.
    ghost ends: { Self.Answer → Outcome };

    /// What it does to a mailbox that is lent, where server, folder and shelf have behaved as specified, and what it comes to.
    ghost did: { Self → Lent → Self.Answer → Type 0 };

    /// The map by which keywords have a letter in it.
    fn keywords(&self) -> &Keywords
        ensures { result.now ≡ (options self.now).keywords };

    /// Does it, over both sides of the mailbox and its state, and reports how far it is. Both sides go by its map of keywords.
    fn over<O: Outside, P: Progress>(self, outside: &mut O, progress: &P) -> Self::Answer
        requires map { O.keywords outside.old ≡ (options self).keywords }
        ensures did { O.honest outside.new → did self (lent_by O.Outside outside.old outside.new) result };
}

/// Stores whose mailboxes can be synchronised.
pub trait Stores: BoxLists {
    /// Whether the near folder of a mailbox has the state of a former run.
    fn has_state(&mut self, place: ChannelBox<'_>) -> Result<bool, StoreFault>
        ensures asked { Self.asked self.new ≡ Self.noted (Self.asked self.old) (FoundNew (place_of place.entry) (outcome_of_state result)) }
        ensures answered { Self.answered self.new ≡ Self.answered self.old }
        ensures lent { LendsNone Self.honest Self.lent self.old self.new };

    /// Makes this side of a mailbox, which is absent there. Only a side that the channel's Create covers is made.
    ///
    /// After a fault it is not known whether it was made: a server may have made it, and its answer was lost. The other side is as it
    /// was, made or not, since no call of these removes a mailbox.
    fn make(&mut self, side: Side, place: ChannelBox<'_>) -> Result<(), StoreFault>
        requires { covers place.of.channel.now.create side ≡ true }
        ensures asked { Self.asked self.new ≡ Self.noted (Self.asked self.old) (Made side (place_of place.entry) (outcome_of_making result)) }
        ensures answered { Self.answered self.new ≡ Self.answered self.old }
        ensures lent { LendsNone Self.honest Self.lent self.old self.new };

    /// Opens both sides of a mailbox, lends it, and does this over it. Its lock is held as long. After a fault no mailbox was lent.
    fn work_over<W: Work + Drop>(
        &mut self,
        place: ChannelBox<'_>,
        work: W,
    ) -> Result<W::Answer, StoreFault>
        ensures asked { Self.asked self.new ≡ Self.noted (Self.asked self.old)
            (W.asking work (place_of place.entry) (outcome_by W.ends result)) }
        ensures answered { Self.answered self.new ≡ Self.answered self.old }
        ensures lent { LendsFor Self.honest Self.lent (place_of place.entry) (W.did work) self.old self.new result };

    /// What stopped the run over the mailbox that was opened last, if it was stopped and this is known. It is given once.
    fn stop_cause(&mut self) -> Option<StopCause>
        ensures asked { Self.asked self.new ≡ Self.asked self.old }
        ensures answered { Self.answered self.new ≡ with_answer (Self.answered self.old) (CauseAnswered result) }
        ensures lent { LendsNone Self.honest Self.lent self.old self.new };

    /// The paths of the near files that the run over the mailbox that was opened last left out: they wait for a UID, and their names are no
    /// UTF-8, or too long with one. They are given once. Where memory is wanting, some may be missing.
    fn left_out(&mut self) -> Vec<String>
        ensures asked { Self.asked self.new ≡ Self.asked self.old }
        ensures answered { Self.answered self.new ≡ with_answer (Self.answered self.old) (PathsAnswered result.items) }
        ensures lent { LendsNone Self.honest Self.lent self.old self.new };

    /// Ends what stands at servers: nothing more is asked.
    fn end(&mut self)
        ensures asked { Self.asked self.new ≡ Self.noted (Self.asked self.old) Ended }
        ensures answered { Self.answered self.new ≡ Self.answered self.old }
        ensures lent { LendsNone Self.honest Self.lent self.old self.new };
}
