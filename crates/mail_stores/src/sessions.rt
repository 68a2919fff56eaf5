//! The session that stands at a server between the mailboxes of its store.

ghost use Rattle.std.specs.Prelude.{◌≡◌, IfOk, IfSome};
ghost use Rattle.imap_client.specs.Requests.{IsWord};
ghost use Rattle.mail_stores.specs.Listed.{Hears};

use crate::store_link::StoreLink;
use device::history::History;
use imap_link::fault::FarFault;
use imap_link::link::Link;
use mail_sides::logged_in::LoggedIn;
use mailcore::keywords::Keywords;
use mailcore::mailbox_name::MailboxName;
use std::alloc::Global;

/// The names that a session has listed, and the session after that and before, which contracts alone read.
pub(crate) type FarListing<L> = (Vec<MailboxName>, History<LoggedIn<L>>);

/// A session at the server of an IMAP store, whose user has logged in.
#[derive(Drop)]
pub(crate) struct StoreSession<L: Link> {
    /// The name of the store.
    store: String,
    session: LoggedIn<L>,
}

/// The sessions at servers. One stands at a time.
#[derive(Drop)]
pub(crate) struct Sessions<L: Link> {
    standing: Option<StoreSession<L>>,
}

impl<L: Link + Drop> Sessions<L> {
    /// None stands.
    pub(crate) fn new() -> Self {
        Sessions { standing: None }
    }

    /// Whether a session stands at the server of this store.
    pub(crate) fn stands_at(&self, store: &str) -> bool {
        self.standing
            .as_ref()
            .is_some_and(|stands| stands.store.as_str() == store)
    }

    /// Takes out the session of the store of this name. One of another is ended.
    fn take_of(&mut self, store: &str) -> Option<LoggedIn<L>> {
        let stands = self.standing.take()?;
        if stands.store.as_str() == store {
            Some(stands.session)
        } else {
            log_out(stands.session);
            None
        }
    }

    /// The session at the server of this store stands then, if it goes on.
    pub(crate) fn keep(&mut self, alloc: Global, store: &str, session: LoggedIn<L>) {
        if !session.is_ready() {
            return;
        }
        if let Ok(store) = String::from_str(alloc, store) {
            self.standing = Some(StoreSession { store, session });
        }
    }

    /// The names of the mailboxes at the server of this store, which this session lists. It stands then, if it goes on.
    pub(crate) fn list(
        &mut self,
        alloc: Global,
        store: &str,
        session: LoggedIn<L>,
    ) -> Result<FarListing<L>, FarFault>
        ensures { IfOk result (λ listed. Hears session listed.0.items listed.1.items) }
    {
        let mut session = session;
        let before = History::new().and(&session);
        let answer = session.list();
        let over = before.and(&session);
        self.keep(alloc, store, session);
        match answer {
            Ok(names) => Ok((names, over)),
            Err(fault) => Err(fault),
        }
    }

    /// Makes a mailbox at the server of this store, over this session. It stands then, if it goes on.
    pub(crate) fn create(
        &mut self,
        alloc: Global,
        store: &str,
        session: LoggedIn<L>,
        name: &[u8],
    ) -> Result<(), FarFault>
        requires { IsWord name.now }
    {
        let mut session = session;
        let made = session.create(name);
        self.keep(alloc, store, session);
        made
    }

    /// Ends the session that stands.
    pub(crate) fn end(&mut self) {
        if let Some(stands) = self.standing.take() {
            log_out(stands.session);
        }
    }
}

impl<L: StoreLink + Drop> Sessions<L> {
    /// Takes out the session at the server of this store, which has this address, by whichever map of keywords that is seen: to list
    /// mailboxes and to make them. Any other is ended.
    pub(crate) fn take_at(&mut self, store: &str, address: &str) -> Option<LoggedIn<L>>
        ensures { IfSome result (λ s. L.address s.session.wire.link ≡ address.now) }
    {
        let session = self.take_of(store)?;
        if session.link().address() == address {
            Some(session)
        } else {
            log_out(session);
            None
        }
    }

    /// The same, if the server is seen by this map of keywords.
    pub(crate) fn take_by(
        &mut self,
        store: &str,
        address: &str,
        keywords: &Keywords,
    ) -> Option<LoggedIn<L>>
        ensures keywords { IfSome result (λ s. L.map s.session.wire.link ≡ keywords.now) }
        ensures address { IfSome result (λ s. L.address s.session.wire.link ≡ address.now) }
    {
        let session = self.take_at(store, address)?;
        if session.link().keywords().is_same(keywords) {
            Some(session)
        } else {
            log_out(session);
            None
        }
    }
}

/// Ends a session. That the server does not answer is no fault.
fn log_out<L: Link + Drop>(session: LoggedIn<L>) {
    let _ = session.into_session().logout();
}
