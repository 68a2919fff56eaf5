//! A session whose user has logged in.

ghost use Rattle.std.specs.Prelude.{◌≡◌, true, IfOk};
ghost use Rattle.imap_answers.specs.MailboxNames.{ReportsNames};
ghost use Rattle.imap_client.specs.Creations.{CannotMake, Makes};
ghost use Rattle.imap_client.specs.Logins.{Remains};
ghost use Rattle.imap_client.specs.Requests.{IsWord};
ghost use Rattle.imap_client.specs.Sessions.{server_of, state_of};
ghost use Rattle.imap_client.specs.States.{EndsSo};
ghost use Rattle.imap_link.specs.Outcomes.{Never, Outcome};
ghost use Rattle.imap_session.specs.Servers.{is_logged_in};
ghost use Rattle.imap_session.specs.Visits.{Among};
ghost use Rattle.mail_sides.specs.Chosen.{LogsIn};
ghost use Rattle.std.proofs.Props.{props};

use crate::entering::log_in;
use imap_client::far_box::FarBox;
use imap_client::session::Session;
use imap_link::fault::FarFault;
use imap_link::link::Link;
use mailcore::keywords::Keywords;
use mailcore::mailbox_name::MailboxName;
use std::alloc::Global;

/// A session whose user has logged in. Where a mailbox is selected in it, nothing more is asked of that one.
///
/// After `Refused` it goes on. After every other fault each call answers `Stopped` and sends nothing.
#[derive(Drop)]
pub struct LoggedIn<L: Link> {
    pub(crate) session: Session<L>,
    pub ghost logged_in: { L.honest session.wire.link → is_logged_in (L.line session.wire.link).end.server.condition ≡ true } by { Prim.hlevel props },
}

impl<L: Link + Drop> LoggedIn<L> {
    /// Connects, and logs in.
    ///
    /// The faults are those of `Session::open` and `Session::login`: after `Refused` the server does not take the user with this password.
    pub fn open(alloc: Global, link: L, user: &[u8], password: &[u8]) -> Result<Self, FarFault>
        requires user { IsWord user.now }
        requires password { IsWord password.now }
        ensures was_honest { IfOk result (λ s. L.honest s.session.wire.link → L.honest link) }
        ensures ok { IfOk result (λ s. L.honest s.session.wire.link → Among L.visitors LogsIn (L.line link).end.server (server_of s.session)) }
        ensures ready { IfOk result (λ s. (s.session.is_ready ≡ true) × (L.stops s.session.wire.link ≡ L.stops link)) }
    {
        let mut far = FarBox::closed(Session::closed(alloc, link), Keywords::new(alloc));
        log_in(&mut far, user, password)?;
        Ok(LoggedIn {
            session: far.into_session(),
        })
    }

    /// The names of all mailboxes, in the order in which the server lists them. Names outside the limits are skipped.
    ///
    /// `Refused`: the server lists none.
    pub fn list(&mut self) -> Result<Vec<MailboxName>, FarFault>
        ensures was_honest { L.honest self.new.session.wire.link → L.honest self.old.session.wire.link }
        ensures ends { EndsSo 1 (state_of self.old.session) (state_of self.new.session) result }
        ensures outcome { L.honest self.new.session.wire.link
            → Among L.visitors (Outcome (λ names. ReportsNames names.items) Never Remains result)
            (server_of self.old.session) (server_of self.new.session) }
    {
        self.session.list()
    }

    /// Makes a mailbox of this name, which is empty.
    ///
    /// `Refused`: there is one of this name, the name is none, or no UIDVALIDITY is left; the session goes on.
    pub fn create(&mut self, name: &[u8]) -> Result<(), FarFault>
        requires { IsWord name.now }
        ensures was_honest { L.honest self.new.session.wire.link → L.honest self.old.session.wire.link }
        ensures ends { EndsSo 1 (state_of self.old.session) (state_of self.new.session) result }
        ensures outcome { L.honest self.new.session.wire.link → Among L.visitors (Outcome (λ _. Makes name.now) (CannotMake name.now)
            (Makes name.now) result) (server_of self.old.session) (server_of self.new.session) }
    {
        self.session.create(name)
    }

    /// Whether it goes on: no call has failed but with `Refused`.
    pub fn is_ready(&self) -> bool
        ensures { result ≡ self.now.session.is_ready }
    {
        self.session.is_ready()
    }

    /// The link below.
    pub fn link(&self) -> &L
        ensures { result.now ≡ self.now.session.wire.link }
    {
        self.session.link()
    }

    /// The session below.
    pub fn into_session(self) -> Session<L>
        ensures { result ≡ self.session }
    {
        self.session
    }
}
