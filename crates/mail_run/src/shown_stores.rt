//! Stores of which a terminal shows which server is asked, and which mailbox is at work.

ghost use Rattle.std.specs.Prelude.{◌≡◌};

use crate::screen::Screen;
use channels::channel_box::{ChannelBox, ChannelStores};
use channels::notice::Notice;
use channels::stop_cause::StopCause;
use channels::store_fault::{ListFault, StoreFault};
use channels::stores::{BoxLists, Stores, Work};
use config::config::{ImapStore, MaildirStore};
use mailcore::mailbox_name::MailboxName;
use mailcore::side::Side;
use std::io::Write;

/// Stores, and the line on a terminal that shows which of their servers is asked, and which of their mailboxes is at work.
#[derive(Drop)]
pub(crate) struct ShownStores<'a, S: Stores + Drop, T: Write + Copy> {
    stores: S,
    screen: &'a Screen<T>,
}

impl<'a, S: Stores + Drop, T: Write + Copy> ShownStores<'a, S, T> {
    /// These stores.
    pub(crate) fn new(stores: S, screen: &'a Screen<T>) -> Self
        ensures { result.stores ≡ stores }
    {
        ShownStores { stores, screen }
    }

    /// Gives them back.
    pub(crate) fn into_stores(self) -> S
        ensures { result ≡ self.entry.stores }
    {
        let ShownStores { stores, .. } = self;
        stores
    }
}

impl<S: Stores + Drop, T: Write + Copy> BoxLists for ShownStores<'_, S, T> {
    ghost Record = { S.Record };

    ghost noted = { S.noted };

    ghost asked = { λ shown. S.asked shown.stores };

    ghost answered = { λ shown. S.answered shown.stores };

    ghost honest = { λ shown. S.honest shown.stores };

    ghost lent = { λ shown. S.lent shown.stores };

    ghost opening = { S.opening };

    fn far_boxes(&mut self, store: &ImapStore) -> Result<Vec<MailboxName>, ListFault> {
        self.screen.show_store(store);
        let names = self.stores.far_boxes(store);
        self.screen.wipe();
        names
    }

    fn near_boxes(&mut self, store: &MaildirStore) -> Result<Vec<MailboxName>, ListFault> {
        self.stores.near_boxes(store)
    }

    fn notices(&mut self, of: ChannelStores<'_>) -> Vec<Notice> {
        self.stores.notices(of)
    }

    fn server_words(&mut self) -> Option<String> {
        self.stores.server_words()
    }
}

impl<S: Stores + Drop, T: Write + Copy> Stores for ShownStores<'_, S, T> {
    fn has_state(&mut self, place: ChannelBox<'_>) -> Result<bool, StoreFault> {
        self.stores.has_state(place)
    }

    fn make(&mut self, side: Side, place: ChannelBox<'_>) -> Result<(), StoreFault> {
        if side == Side::Far {
            self.screen.show(place);
        }
        self.stores.make(side, place)
    }

    #[tactic(auto, using(channels::proofs::LendLemmas::lends_through))]
    fn work_over<W: Work + Drop>(
        &mut self,
        place: ChannelBox<'_>,
        work: W,
    ) -> Result<W::Answer, StoreFault> {
        self.screen.show(place);
        self.stores.work_over(place, work)
    }

    fn stop_cause(&mut self) -> Option<StopCause> {
        self.stores.stop_cause()
    }

    fn left_out(&mut self) -> Vec<String> {
        self.stores.left_out()
    }

    fn end(&mut self) {
        self.screen.show_end();
        self.stores.end();
        self.screen.wipe();
    }
}
