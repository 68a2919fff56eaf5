//! What the selected mailbox lists (RFC 9051, section 6.4.5).

ghost use Rattle.std.specs.Prelude.{◌≡◌, ◌≤◌, ◌<◌, Some, true, false, map, IfOk};
ghost use Rattle.imap_session.specs.Mailboxes.{FarMailbox};
ghost use Rattle.imap_session.specs.Servers.{selected};
ghost use Rattle.imap_session.specs.Visits.{Among};
ghost use Rattle.imap_link.specs.Outcomes.{Outcome, Never};
ghost use Rattle.mailcore.specs.declared.side.Side.TheVariants.{Far};
ghost use Rattle.mailcore.specs.Listed.{item_of};
ghost use Rattle.mailcore.specs.Operations.{Shows};
ghost use Rattle.mailcore.specs.Ranges.{AreInRange};
ghost use Rattle.mailcore.specs.Stores.{IsStore};
ghost use Rattle.imap_answers.specs.Listings.{ListsFrom};
ghost use Rattle.imap_client.specs.Logins.{Remains};
ghost use Rattle.imap_client.specs.Seen.{HasMap, KeepsMap, seen_through};
ghost use Rattle.mailcore.specs.KeywordNames.{IsMap};
ghost use Rattle.imap_answers.specs.Readings.{Reports};
ghost use Rattle.imap_client.specs.States.{EndsSo};

use crate::call::Call;
use crate::far_box::FarBox;
use crate::session::Session;
use imap_answers::items::next_above;
use imap_answers::reported::Rows;
use imap_link::fault::FarFault;
use imap_link::link::Link;
use mailcore::keywords::Keywords;
use mailcore::listing::{Items, Listing};

impl<L: Link> Session<L> {
    ghost use Rattle.imap_client.specs.Sessions.{state_of, server_of};

    /// The messages of the selected mailbox, where flags have the names of this map. What is reported about them is taken reply by reply,
    /// as it is heard.
    pub(crate) fn items(&mut self, keywords: &Keywords) -> Result<Items, FarFault>
        requires map { IsMap keywords.now }
        ensures was_honest { L.honest self.new.wire.link → L.honest self.old.wire.link }
        ensures letters { L.honest self.new.wire.link → KeepsMap (server_of self.old) (server_of self.new) }
        ensures counts { L.stops self.old.wire.link ≤ L.stops self.new.wire.link }
        ensures stuck { self.old.is_ready ≡ false → self.new ≡ self.old }
        ensures ends { EndsSo 1 (state_of self.old) (state_of self.new) result }
        ensures remains { L.honest self.new.wire.link → Among L.visitors (λ s t. (m : FarMailbox) → selected s ≡ Some m → Remains s t)
            (server_of self.old) (server_of self.new) }
        ensures outcome { L.honest self.new.wire.link → HasMap keywords.now (server_of self.old)
            → Among L.visitors (λ s t. (m : FarMailbox) → selected s ≡ Some m → IsStore m.store → AreInRange m.store.messages
            → Outcome (Reports (λ items. items ≡ map (item_of Far) (seen_through keywords.now m.store).messages)) Never Remains result s t)
            (server_of self.old) (server_of self.new) }
    {
        let alloc = self.wire.alloc;
        let mut rows = Rows::new(alloc, keywords);
        self.ask_into(&Call::Listing, &mut rows)?;
        let items = rows.items(alloc)?;
        self.done();
        Ok(items)
    }
}

impl<L: Link> FarBox<L> {
    ghost use Rattle.imap_client.specs.Sessions.{state_of, server_of};

    /// What the mailbox lists, with those flags that have a name: one UID FETCH. It does not report UIDNEXT: the next UID is the one that
    /// was reported last, by SELECT or for a message that was added, or one above the greatest UID that is listed, if that is more.
    ///
    /// `Protocol`: a message is reported without its flags or its size, or under 4294967295, too.
    pub fn list(&mut self) -> Result<Listing, FarFault>
        ensures was_honest { L.honest self.new.session.wire.link → L.honest self.old.session.wire.link }
        ensures letters { L.honest self.new.session.wire.link → KeepsMap (server_of self.old.session) (server_of self.new.session) }
        ensures counts { L.stops self.old.session.wire.link ≤ L.stops self.new.session.wire.link }
        ensures stuck { self.old.session.is_ready ≡ false → self.new.session ≡ self.old.session }
        ensures ends { EndsSo 1 (state_of self.old.session) (state_of self.new.session) result }
        ensures same { (self.new.name ≡ self.old.name) × (self.new.validity ≡ self.old.validity) × (self.new.next ≡ self.old.next)
            × (self.new.is_selected ≡ self.old.is_selected) }
        ensures keywords { self.new.keywords ≡ self.old.keywords }
        ensures remains { L.honest self.new.session.wire.link → Among L.visitors (λ s t. (m : FarMailbox) → selected s ≡ Some m → Remains s t)
            (server_of self.old.session) (server_of self.new.session) }
        ensures numbers { IfOk result (λ listing. (0 < listing.validity) × (0 < listing.next)) }
        ensures outcome { L.honest self.new.session.wire.link → HasMap self.old.keywords (server_of self.old.session) → self.old.is_selected ≡ true
            → Among L.visitors (λ s t. (m : FarMailbox) → selected s ≡ Some m → IsStore m.store → AreInRange m.store.messages
            → Outcome (Reports (ListsFrom self.old.next (seen_through self.old.keywords m.store))) Never Remains result s t)
            (server_of self.old.session) (server_of self.new.session) }
        ensures shows { L.honest self.new.session.wire.link → HasMap self.old.keywords (server_of self.old.session) → self.old.is_selected ≡ true
            → Among L.visitors (λ s t. (m : FarMailbox) → selected s ≡ Some m → IsStore m.store → AreInRange m.store.messages
            → self.old.next ≡ m.store.next → IfOk result (λ listing. Shows Far (seen_through self.old.keywords m.store) listing))
            (server_of self.old.session) (server_of self.new.session) }
    {
        let items = self.session.items(&self.keywords)?;
        let next = next_above(self.next, items.as_slice());
        Ok(Listing {
            validity: self.validity,
            next,
            items,
        })
    }
}
