//! The bytes of one message of the selected mailbox (RFC 9051, section 6.4.5).

ghost use Rattle.std.specs.Prelude.{◌≡◌, ◌≤◌, Some, None, false, if◌then◌else◌};
ghost use Rattle.std.specs.Option.{option_map};
ghost use Rattle.imap_session.specs.Mailboxes.{FarMailbox};
ghost use Rattle.imap_session.specs.Servers.{selected};
ghost use Rattle.imap_session.specs.Visits.{Among};
ghost use Rattle.imap_link.specs.Outcomes.{Outcome, Never};
ghost use Rattle.mailcore.specs.Operations.{bytes_of};
ghost use Rattle.mailcore.specs.Ranges.{AreInRange};
ghost use Rattle.mailcore.specs.Stores.{IsStore};
ghost use Rattle.imap_answers.specs.Bodies.{found_at};
ghost use Rattle.imap_client.specs.Logins.{Remains};
ghost use Rattle.imap_answers.specs.Readings.{Reports};
ghost use Rattle.imap_client.specs.Seen.{KeepsMap};
ghost use Rattle.imap_client.specs.States.{EndsSo};

use crate::call::Call;
use crate::far_box::FarBox;
use crate::session::Session;
use imap_answers::bodies::{FoundBody, body_reported};
use imap_link::fault::FarFault;
use imap_link::link::Link;
use mailcore::uid::Uid;

impl<L: Link> Session<L> {
    ghost use Rattle.imap_client.specs.Sessions.{state_of, server_of};

    /// Where the bytes of a message of the selected mailbox stand in the replies that were read, or none where it is not there.
    pub(crate) fn body(&mut self, uid: Uid) -> Result<Option<FoundBody>, FarFault>
        ensures was_honest { L.honest self.new.wire.link → L.honest self.old.wire.link }
        ensures letters { L.honest self.new.wire.link → KeepsMap (server_of self.old) (server_of self.new) }
        ensures counts { L.stops self.old.wire.link ≤ L.stops self.new.wire.link }
        ensures stuck { self.old.is_ready ≡ false → self.new ≡ self.old }
        ensures ends { EndsSo 1 (state_of self.old) (state_of self.new) result }
        ensures remains { L.honest self.new.wire.link → Among L.visitors (λ s t. (m : FarMailbox) → selected s ≡ Some m → Remains s t)
            (server_of self.old) (server_of self.new) }
        ensures outcome { L.honest self.new.wire.link → Among L.visitors (λ s t. (m : FarMailbox) → selected s ≡ Some m → IsStore m.store
            → AreInRange m.store.messages
            → Outcome (Reports (λ found. found_at self.new.wire.heard.read found ≡ bytes_of uid m.store)) Never Remains result s t)
            (server_of self.old) (server_of self.new) }
    {
        self.ask(&Call::Body(uid))?;
        let body = body_reported(self.wire.alloc, self.wire.heard.read_part(), uid)?;
        self.done();
        Ok(body)
    }
}

impl<L: Link> FarBox<L> {
    ghost use Rattle.std.specs.Prelude.{⊤};
    ghost use mathlib.Core.Option.{none};
    ghost use Rattle.std.specs.Borrow.{sem, follows_so};
    ghost use Rattle.imap_client.specs.Sessions.{state_of, server_of};
    ghost use Rattle.imap_client.specs.Fetches.{body_of};
    ghost use Rattle.imap_client.specs.contracts.far_box.FarBox.{the_row};

    /// The bytes of a message, or none where it is not there: one UID FETCH. They are lent until the next call.
    ///
    /// `Protocol`: the server reports them as NIL, or quoted with a backslash, too.
    pub fn fetch(&mut self, uid: Uid) -> Result<Option<&[u8]>, FarFault>
        ensures* following { sem 𝓛 (follows_so (the_row L.row L.Link) (the_row L.row L.Link) self.entry.ghost_name none (λ _ _. ⊤)
            (λ after. (L.honest after.session.wire.link → L.honest self.old.session.wire.link)
            × (L.honest after.session.wire.link → KeepsMap (server_of self.old.session) (server_of after.session))
            × (self.old.session.is_ready ≡ false → after.session ≡ self.old.session)
            × EndsSo 1 (state_of self.old.session) (state_of after.session) result
            × ((after.name ≡ self.old.name) × (after.validity ≡ self.old.validity) × (after.next ≡ self.old.next)
            × (after.is_selected ≡ self.old.is_selected))
            × (after.keywords ≡ self.old.keywords)
            × (L.honest after.session.wire.link → Among L.visitors (λ s t. (m : FarMailbox) → selected s ≡ Some m → Remains s t)
            (server_of self.old.session) (server_of after.session))
            × (L.honest after.session.wire.link → Among L.visitors (λ s t. (m : FarMailbox) → selected s ≡ Some m → IsStore m.store
            → AreInRange m.store.messages
            → Outcome (Reports (λ found. option_map (λ b. b.now) found ≡ bytes_of uid m.store)) Never Remains result s t)
            (server_of self.old.session) (server_of after.session)))) }
    {
        if self.load(uid)? {
            Ok(Some(self.body()))
        } else {
            Ok(None)
        }
    }

    /// Fetches the bytes of a message, which `body` then lends, and says whether it is there.
    pub fn load(&mut self, uid: Uid) -> Result<bool, FarFault>
        ensures was_honest { L.honest self.new.session.wire.link → L.honest self.old.session.wire.link }
        ensures letters { L.honest self.new.session.wire.link → KeepsMap (server_of self.old.session) (server_of self.new.session) }
        ensures counts { L.stops self.old.session.wire.link ≤ L.stops self.new.session.wire.link }
        ensures stuck { self.old.session.is_ready ≡ false → self.new.session ≡ self.old.session }
        ensures ends { EndsSo 1 (state_of self.old.session) (state_of self.new.session) result }
        ensures same { (self.new.name ≡ self.old.name) × (self.new.validity ≡ self.old.validity) × (self.new.next ≡ self.old.next)
            × (self.new.is_selected ≡ self.old.is_selected) }
        ensures keywords { self.new.keywords ≡ self.old.keywords }
        ensures remains { L.honest self.new.session.wire.link → Among L.visitors (λ s t. (m : FarMailbox) → selected s ≡ Some m → Remains s t)
            (server_of self.old.session) (server_of self.new.session) }
        ensures outcome { L.honest self.new.session.wire.link → Among L.visitors (λ s t. (m : FarMailbox) → selected s ≡ Some m
            → IsStore m.store → AreInRange m.store.messages
            → Outcome (Reports (λ is_there. (if is_there then Some (body_of self.new) else None) ≡ bytes_of uid m.store)) Never Remains result s t)
            (server_of self.old.session) (server_of self.new.session) }
    {
        let found = self.session.body(uid)?;
        match found {
            Some(body) => {
                self.body = body;
                Ok(true)
            }
            None => Ok(false),
        }
    }

    /// The bytes that `load` fetched last, which are lent from the replies to it.
    pub fn body(&self) -> &[u8]
        ensures { result.now ≡ body_of self.now }
    {
        self.body.lent(self.session.wire.heard.read_part())
    }
}
