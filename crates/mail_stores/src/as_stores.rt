//! The real stores, as channels ask them: what they are asked for is noted for contracts alone.

ghost use Rattle.std.specs.Prelude.{◌≡◌, ◌∷◌};
ghost use Rattle.channels.specs.Asked.{Asked, Outcome, outcome_by, place_of};
ghost use Rattle.channels.specs.Lendings.{LendsFor};
ghost use Rattle.channels.specs.Listings.{IsNoListing};
ghost use Rattle.mail_stores.specs.Loans.{HaveKept, lent_of};
ghost use Rattle.mail_stores.specs.Records.{StoresRecord, noted};
ghost use Rattle.std.specs.Int.NonZero.{non_zero_u32_get};

use crate::asked_history::{note, note_at};
use crate::last_box::LastBox;
use crate::mail_stores::MailStores;
use crate::openings::Openings;
use crate::reported::lock_fault;
use crate::store_link::LinkOver;
use channels::channel_box::{ChannelBox, ChannelStores};
use channels::notice::Notice;
use channels::stop_cause::StopCause;
use channels::store_fault::{ListFault, StoreFault};
use channels::stores::{BoxLists, Stores, Work};
use config::config::{ImapStore, MaildirStore};
use imap_client::waits::Waits;
use mailcore::mailbox_name::MailboxName;
use mailcore::side::Side;
use near_places::lock::LockFiles;
use runner::progress::Progress;
use std::net::Net;
use std::rt::Clock;

impl<
    R: Net + LockFiles + Clock + AllocGlobal + Clone + Drop,
    P: Progress + Waits + Copy,
    C,
    L: LinkOver<R, P> + Drop,
> MailStores<R, P, C, L> {
    /// Opens both sides of a mailbox, lends it, and does this over it.
    fn work_at<W: Work + Drop>(
        &mut self,
        place: ChannelBox<'_>,
        work: W,
    ) -> Result<W::Answer, StoreFault>
        ensures asked { self.new.past.asked ≡ self.old.past.asked }
        ensures reach { self.new.open.reach ≡ self.old.open.reach }
        ensures lent { LendsFor HaveKept lent_of (place_of place.entry) (W.did work) self.old.past.loans self.new.past.loans result }
    {
        self.open.last = LastBox::none(self.open.reach.rt.alloc());
        self.open.ask(place.of.far_store);
        match self.work_in(place, work) {
            Ok(answer) => Ok(answer),
            Err(fault) => Err(lock_fault(fault)),
        }
    }

    /// The same. It is noted as what was asked so, by how it ended.
    fn work_noted<W: Work + Drop>(
        &mut self,
        place: ChannelBox<'_>,
        work: W,
    ) -> Result<W::Answer, StoreFault>
        ghost asking: { Outcome → Asked }
        requires asks { (outcome : Outcome) → IsNoListing (asking outcome) }
        ensures asked { self.new.past.asked.asked ≡ asking (outcome_by W.ends result) ∷ self.old.past.asked.asked }
        ensures reach { self.new.open.reach ≡ self.old.open.reach }
        ensures lent { LendsFor HaveKept lent_of (place_of place.entry) (W.did work) self.old.past.loans self.new.past.loans result }
    {
        let answer = self.work_at(place, work);
        note(&mut self.past.asked, &(), &answer);
        answer
    }
}

impl<
    R: Net + LockFiles + Clock + AllocGlobal + Clone + Drop,
    P: Progress + Waits + Copy,
    C: Openings,
    L: LinkOver<R, P> + Drop,
> BoxLists for MailStores<R, P, C, L> {
    ghost Record = { StoresRecord };

    ghost noted = { noted };

    ghost asked = { λ stores. record { home = stores.open.reach.home; fresh = non_zero_u32_get stores.open.reach.fresh; things = stores.past.asked.asked } };

    ghost honest = { λ stores. HaveKept stores.past.loans };

    ghost lent = { λ stores. lent_of stores.past.loans };

    ghost opening = { C.opening };

    fn far_boxes(&mut self, store: &ImapStore) -> Result<Vec<MailboxName>, ListFault> {
        match self.open.far_names(store) {
            Ok((names, over)) => {
                let listed = Ok(names);
                self.past.listed = self.past.listed.and(&over);
                note(&mut self.past.asked, store, &listed);
                listed
            }
            Err(fault) => {
                let unlisted = Err(fault);
                note(&mut self.past.asked, store, &unlisted);
                unlisted
            }
        }
    }

    fn near_boxes(&mut self, store: &MaildirStore) -> Result<Vec<MailboxName>, ListFault> {
        match self.open.near_names(store) {
            Ok((names, looks)) => {
                let found = Ok(names);
                self.past.found = self.past.found.and(&looks);
                note(&mut self.past.asked, store, &found);
                found
            }
            Err(fault) => {
                let refused = Err(fault);
                note(&mut self.past.asked, store, &refused);
                refused
            }
        }
    }

    fn notices(&mut self, of: ChannelStores<'_>) -> Vec<Notice> {
        self.open.hear();
        self.open.notices.take(of)
    }

    fn server_words(&mut self) -> Option<String> {
        let alloc = self.open.reach.rt.alloc();
        self.open
            .asked
            .as_ref()?
            .words(alloc, &self.open.reach.notes.words)
    }
}

impl<
    R: Net + LockFiles + Clock + AllocGlobal + Clone + Drop,
    P: Progress + Waits + Copy,
    C: Openings,
    L: LinkOver<R, P> + Drop,
> Stores for MailStores<R, P, C, L> {
    fn has_state(&mut self, place: ChannelBox<'_>) -> Result<bool, StoreFault> {
        let found = self.open.reach.has_state(place).map_err(lock_fault);
        note_at(&mut self.past.asked, place, Side::Near, &found);
        found
    }

    fn make(&mut self, side: Side, place: ChannelBox<'_>) -> Result<(), StoreFault> {
        let made = self.open.make_side(side, place);
        note_at(&mut self.past.asked, place, side, &made);
        made
    }

    fn work_over<W: Work + Drop>(
        &mut self,
        place: ChannelBox<'_>,
        work: W,
    ) -> Result<W::Answer, StoreFault> {
        self.work_noted(place, work)
    }

    fn stop_cause(&mut self) -> Option<StopCause> {
        self.open.last.cause.take()
    }

    fn left_out(&mut self) -> Vec<String> {
        let alloc = self.open.reach.rt.alloc();
        std::mem::replace(&mut self.open.last.left_out, Vec::new(alloc))
    }

    fn end(&mut self) {
        self.open.sessions.end();
        note(&mut self.past.asked, &(), &());
    }
}
