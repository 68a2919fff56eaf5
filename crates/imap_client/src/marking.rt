//! Where a mark stands in the selected mailbox: the mark of a message is in its first 22 octets (RFC 9051, section 6.4.5).

ghost use Rattle.std.specs.Prelude.{◌≡◌, ◌<◌, ◌≤◌, Some, true, false};
ghost use Rattle.imap_session.specs.Mailboxes.{FarMailbox};
ghost use Rattle.imap_session.specs.Servers.{selected};
ghost use Rattle.imap_session.specs.Visits.{Among};
ghost use Rattle.imap_link.specs.Outcomes.{Outcome, Never};
ghost use Rattle.mailcore.specs.Operations.{marked_from};
ghost use Rattle.mailcore.specs.Ranges.{AreInRange};
ghost use Rattle.mailcore.specs.Stores.{IsStore};
ghost use Rattle.imap_client.specs.Logins.{Remains};
ghost use Rattle.imap_answers.specs.Readings.{Reports};
ghost use Rattle.imap_client.specs.Seen.{KeepsMap};
ghost use Rattle.imap_client.specs.States.{EndsSo};
ghost use Rattle.mailcore.specs.Passed.{ArePassed};

use crate::call::Call;
use crate::far_box::FarBox;
use crate::session::Session;
use imap_answers::marks::MarkSearch;
use imap_link::fault::FarFault;
use imap_link::link::Link;
use mailcore::passed_marks::PassedMarks;
use mailcore::tuid::Tuid;
use mailcore::uid::Uid;

impl<L: Link> Session<L> {
    ghost use Rattle.imap_client.specs.Sessions.{state_of, server_of};

    /// Where the mark stands in the selected mailbox, after the messages that were passed; those that are shown are passed then. The
    /// next UID of the mailbox is at least `next`. The mark is sought reply by reply, as they are heard.
    pub(crate) fn mark(
        &mut self,
        mark: Tuid,
        passed: &mut PassedMarks,
        next: u32,
    ) -> Result<Option<Uid>, FarFault>
        requires { 0 < passed.old.below }
        ensures was_honest { L.honest self.new.wire.link → L.honest self.old.wire.link }
        ensures letters { L.honest self.new.wire.link → KeepsMap (server_of self.old) (server_of self.new) }
        ensures counts { L.stops self.old.wire.link ≤ L.stops self.new.wire.link }
        ensures stuck { self.old.is_ready ≡ false → self.new ≡ self.old }
        ensures ends { EndsSo 1 (state_of self.old) (state_of self.new) result }
        ensures remains { L.honest self.new.wire.link → Among L.visitors (λ s t. (m : FarMailbox) → selected s ≡ Some m → Remains s t)
            (server_of self.old) (server_of self.new) }
        ensures outcome { L.honest self.new.wire.link → Among L.visitors (λ s t. (m : FarMailbox) → selected s ≡ Some m → IsStore m.store
            → AreInRange m.store.messages → Outcome (Reports (λ found. found ≡ marked_from mark passed.old.below m.store)) Never Remains result s t)
            (server_of self.old) (server_of self.new) }
        ensures passed { L.honest self.new.wire.link → Among L.visitors (λ s t. (m : FarMailbox) → selected s ≡ Some m → Remains s t
            × (next ≤ m.store.next → ArePassed m.store.next m.store.messages passed.old → self.new.is_ready ≡ true
            → ArePassed m.store.next m.store.messages passed.new)) (server_of self.old) (server_of self.new) }
    {
        let from = passed.below;
        let mut search = MarkSearch::new(self.wire.alloc, mark, from);
        self.ask_into(&Call::Heads(from), &mut search)?;
        let found = search.end(passed, next)?;
        self.done();
        Ok(found)
    }
}

impl<L: Link> FarBox<L> {
    ghost use Rattle.imap_client.specs.Sessions.{state_of, server_of};

    /// The least UID of at least `from` whose message has the mark: one UID FETCH of the first 22 octets. It asks for the messages
    /// after those of which earlier searches know that they do not have it. A message below these that the server sends, since `*`
    /// names the last one, never counts.
    ///
    /// `Protocol`: the server shows more than 22 octets of a message, or shows the mark under 4294967295, too.
    pub fn find_mark(&mut self, mark: Tuid, from: u32) -> Result<Option<Uid>, FarFault>
        ensures was_honest { L.honest self.new.session.wire.link → L.honest self.old.session.wire.link }
        ensures letters { L.honest self.new.session.wire.link → KeepsMap (server_of self.old.session) (server_of self.new.session) }
        ensures counts { L.stops self.old.session.wire.link ≤ L.stops self.new.session.wire.link }
        ensures stuck { self.old.session.is_ready ≡ false → self.new.session ≡ self.old.session }
        ensures ends { EndsSo 1 (state_of self.old.session) (state_of self.new.session) result }
        ensures same { (self.new.name ≡ self.old.name) × (self.new.validity ≡ self.old.validity) × (self.new.next ≡ self.old.next)
            × (self.new.is_selected ≡ self.old.is_selected) }
        ensures keywords { self.new.keywords ≡ self.old.keywords }
        ensures remains { L.honest self.new.session.wire.link → Among L.visitors (λ s t. (m : FarMailbox) → selected s ≡ Some m → Remains s t)
            (server_of self.old.session) (server_of self.new.session) }
        ensures outcome { L.honest self.new.session.wire.link → Among L.visitors (λ s t. (m : FarMailbox) → selected s ≡ Some m
            → IsStore m.store → AreInRange m.store.messages
            → Outcome (Reports (λ found. found ≡ marked_from mark from m.store)) Never Remains result s t)
            (server_of self.old.session) (server_of self.new.session) }
    {
        self.passed.keep_if(self.is_selected);
        self.passed.begin(mark, from.max(1));
        self.session.mark(mark, &mut self.passed, self.next)
    }
}
