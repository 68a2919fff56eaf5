//! The far mailbox of a run.

ghost use Rattle.std.specs.Prelude.{◌≡◌, true, false, not, IfOk, IfSome, OnErr, OnOk, is_some};
ghost use Rattle.std.proofs.Props.{props};
ghost use Rattle.imap_client.specs.Seen.{HasMap};
ghost use Rattle.imap_client.specs.Sessions.{server_of, state_of};
ghost use Rattle.imap_link.specs.Outcomes.{Never, Outcome};
ghost use Rattle.outside.specs.MailboxOperations.{HasNumbers, ListsWithin};
ghost use Rattle.imap_session.specs.Servers.{is_logged_in};
ghost use Rattle.imap_session.specs.Visits.{Among};
ghost use Rattle.mail_sides.specs.Chosen.{KeepsMailboxes, ListsAll, Misses, ReportsValidity, box_at, store_at};
ghost use Rattle.mail_sides.specs.FarStops.{Ends};
ghost use Rattle.mail_sides.specs.Stages.{RefusesAll, Unopened, is_open_at, is_reached};

use crate::account::Account;
use crate::entering::log_in;
use crate::far_reported::reported_by;
use crate::logged_in::LoggedIn;
use crate::stage::Stage;
use device::whose::Whose;
use imap_client::far_box::FarBox;
use imap_client::session::Session;
use imap_link::fault::FarFault;
use imap_link::link::Link;
use mailcore::copy_pieces::CopyPieces;
use mailcore::flags::Flags;
use mailcore::keywords::Keywords;
use mailcore::listing::Listing;
use mailcore::spared::Spared;
use mailcore::tuid::Tuid;
use mailcore::uid::Uid;
use outside::box_fault::BoxFault;
use outside::far_next::FarNext;
use outside::mailbox::Mailbox;
use std::alloc::Global;

/// The mailbox of an account at a server: closed, or open.
#[derive(Drop)]
pub struct FarSide<L: Link> {
    account: Account,
    far: FarBox<L>,
    stage: Stage,
    // No command was sent since the mailbox was selected, so that its next UID is known.
    is_fresh: bool,
    pub ghost named: { far.is_selected ≡ true → far.name.items ≡ account.mailbox.items },
    pub ghost logged_in: { is_reached stage ≡ true → far.session.is_ready ≡ true → L.honest far.session.wire.link
        → is_logged_in (L.line far.session.wire.link).end.server.condition ≡ true } by { Prim.hlevel props },
    pub ghost fresh: { is_fresh ≡ true → L.honest far.session.wire.link
        → far.next ≡ (store_at account.mailbox.items (L.line far.session.wire.link).end.server.mailboxes).next } by { Prim.hlevel props },
    pub ghost letters: { L.honest far.session.wire.link → HasMap far.keywords (L.line far.session.wire.link).end.server } by { Prim.hlevel props },
}

impl<L: Link + Drop> FarSide<L> {
    ghost use Rattle.mail_sides.specs.FarSides.{honest_of, next_of, seen_of, server_at};

    /// That of this account, over this link. It is closed. By this map flags have names: that of the server.
    pub fn new(alloc: Global, account: Account, link: L, keywords: Keywords) -> Self
        requires letters { L.honest link → HasMap keywords (L.line link).end.server }
        ensures seen { seen_of result
            ≡ record { stored = box_at keywords account.mailbox.items (L.line link).end.server; is_broken = false; stops = L.stops link } }
        ensures was_honest { honest_of result → L.honest link }
        ensures honest { L.honest link → honest_of result }
        ensures link { result.far.session.wire.link ≡ link }
        ensures account { result.account ≡ account }
        ensures keywords { result.far.keywords ≡ keywords }
        ensures closed { is_open_at result.stage ≡ false }
    {
        FarSide {
            account,
            far: FarBox::closed(Session::closed(alloc, link), keywords),
            stage: Stage::Closed,
            is_fresh: false,
        }
    }

    /// That of this account, over a session of its user. It is closed. By this map flags have names: that of the server.
    pub fn over(account: Account, session: LoggedIn<L>, keywords: Keywords) -> Self
        requires letters { L.honest session.session.wire.link → HasMap keywords (server_of session.session) }
        ensures seen { seen_of result ≡ record {
          stored = box_at keywords account.mailbox.items (server_of session.session);
          is_broken = not session.session.is_ready;
          stops = L.stops session.session.wire.link;
        } }
        ensures was_honest { honest_of result → L.honest session.session.wire.link }
        ensures honest { L.honest session.session.wire.link → honest_of result }
        ensures session { result.far.session ≡ session.session }
        ensures account { result.account ≡ account }
        ensures keywords { result.far.keywords ≡ keywords }
        ensures closed { is_open_at result.stage ≡ false }
    {
        FarSide {
            account,
            far: FarBox::closed(session.into_session(), keywords),
            stage: Stage::LoggedIn,
            is_fresh: false,
        }
    }

    /// The UIDNEXT of the mailbox, where it is open and no command was sent since it was selected.
    pub fn next(&self) -> Option<u32>
        ensures next { honest_of self.now → IfSome result (λ next. next ≡ (seen_of self.now).stored.store.next) }
        ensures known { result ≡ next_of self.now }
    {
        if self.is_fresh {
            Some(self.far.next())
        } else {
            None
        }
    }

    /// Gives the account back, the link, and the map by which flags have names: where the link has behaved as specified, the server's.
    pub fn into_parts(self) -> (Account, L, Keywords)
        ensures account { result.0 ≡ self.account }
        ensures link { result.1 ≡ self.far.session.wire.link }
        ensures keywords { result.2 ≡ self.far.keywords }
        ensures letters { L.honest result.1 → HasMap result.2 (L.line result.1).end.server }
    {
        let FarSide { account, far, .. } = self;
        let (session, keywords) = far.into_parts();
        (account, session.into_link(), keywords)
    }

    /// Gives the session back, if its user has logged in and it goes on.
    pub fn into_session(self) -> Option<LoggedIn<L>>
        ensures session { IfSome result (λ s. s.session ≡ self.far.session) }
        ensures ready { IfSome result (λ s. s.session.is_ready ≡ true) }
        ensures some { is_reached self.stage ≡ true → self.far.session.is_ready ≡ true → is_some result ≡ true }
        ensures letters { IfSome result (λ s. L.honest s.session.wire.link → HasMap self.far.keywords (server_of s.session)) }
    {
        let FarSide { far, stage, .. } = self;
        let session = far.into_session();
        if stage != Stage::Closed && session.is_ready() {
            Some(LoggedIn { session })
        } else {
            None
        }
    }

    // Connects and logs in, where nobody has.
    fn log_in(&mut self) -> Result<(), FarFault>
        requires whole { (seen_of self.old).is_broken ≡ false }
        ensures mailbox { self.new.account.mailbox.items ≡ self.old.account.mailbox.items }
        ensures keywords { self.new.far.keywords ≡ self.old.far.keywords }
        ensures was_honest { honest_of self.new → honest_of self.old }
        ensures reached { OnOk result (is_reached self.new.stage ≡ true) }
        ensures ends { Ends (state_of self.old.far.session) (state_of self.new.far.session) result }
        ensures outcome { honest_of self.new → Among L.visitors (Outcome (λ _. KeepsMailboxes)
            (Unopened self.old.stage self.old.account.user.items self.old.account.password.items) KeepsMailboxes result)
            (server_at self.old) (server_at self.new) }
    {
        match self.stage {
            Stage::Closed => {
                self.is_fresh = false;
                log_in(&mut self.far, &self.account.user, &self.account.password)?;
                self.stage = Stage::LoggedIn;
                Ok(())
            }
            Stage::LoggedIn | Stage::Open => Ok(()),
        }
    }

    // Selects the mailbox, over the session as it stands, and returns its UIDVALIDITY.
    fn select(&mut self) -> Result<u32, FarFault>
        requires reached { is_reached self.old.stage ≡ true }
        requires ready { self.old.far.session.is_ready ≡ true }
        ensures mailbox { self.new.account.mailbox.items ≡ self.old.account.mailbox.items }
        ensures keywords { self.new.far.keywords ≡ self.old.far.keywords }
        ensures was_honest { honest_of self.new → honest_of self.old }
        ensures open { OnOk result (is_open_at self.new.stage ≡ true) }
        ensures selected { OnOk result (self.new.far.is_selected ≡ true) }
        ensures fresh { OnOk result (self.new.is_fresh ≡ true) }
        ensures stays { OnErr result (self.new.stage ≡ self.old.stage) }
        ensures ends { Ends (state_of self.old.far.session) (state_of self.new.far.session) result }
        ensures outcome { honest_of self.new → Among L.visitors
            (Outcome (ReportsValidity self.old.account.mailbox.items) (Misses self.old.account.mailbox.items) KeepsMailboxes result)
            (server_at self.old) (server_at self.new) }
    {
        self.is_fresh = false;
        self.far.enter(&self.account.mailbox)?;
        self.stage = Stage::Open;
        self.is_fresh = true;
        Ok(self.far.validity())
    }

    // Logs in, where nobody has, and selects the mailbox.
    fn reach(&mut self) -> Result<u32, FarFault>
        requires whole { (seen_of self.old).is_broken ≡ false }
        ensures mailbox { self.new.account.mailbox.items ≡ self.old.account.mailbox.items }
        ensures keywords { self.new.far.keywords ≡ self.old.far.keywords }
        ensures was_honest { honest_of self.new → honest_of self.old }
        ensures open { OnOk result (is_open_at self.new.stage ≡ true) }
        ensures selected { OnOk result (self.new.far.is_selected ≡ true) }
        ensures ends { Ends (state_of self.old.far.session) (state_of self.new.far.session) result }
        ensures outcome { honest_of self.new → Among L.visitors (Outcome (ReportsValidity self.old.account.mailbox.items)
            (RefusesAll self.old.stage self.old.account.user.items self.old.account.password.items self.old.account.mailbox.items)
            KeepsMailboxes result) (server_at self.old) (server_at self.new) }
    {
        self.log_in()?;
        self.select()
    }

    // Selects the mailbox again, where a command was sent since it was.
    fn refresh(&mut self) -> Result<(), FarFault>
        requires whole { (seen_of self.old).is_broken ≡ false }
        requires open { is_open_at self.old.stage ≡ true }
        ensures mailbox { self.new.account.mailbox.items ≡ self.old.account.mailbox.items }
        ensures keywords { self.new.far.keywords ≡ self.old.far.keywords }
        ensures was_honest { honest_of self.new → honest_of self.old }
        ensures open { is_open_at self.new.stage ≡ true }
        ensures selected { OnOk result (self.new.far.is_selected ≡ true) }
        ensures fresh { OnOk result (self.new.is_fresh ≡ true) }
        ensures ends { Ends (state_of self.old.far.session) (state_of self.new.far.session) result }
        ensures outcome { honest_of self.new → Among L.visitors (Outcome (λ _. KeepsMailboxes) Never KeepsMailboxes result)
            (server_at self.old) (server_at self.new) }
    {
        if self.is_fresh {
            return Ok(());
        }
        self.select()?;
        Ok(())
    }

    // What the mailbox lists. Where a command was sent since it was selected, it is selected again, which gives its next UID.
    fn list_anew(&mut self) -> Result<Listing, FarFault>
        requires whole { (seen_of self.old).is_broken ≡ false }
        requires open { is_open_at self.old.stage ≡ true }
        ensures mailbox { self.new.account.mailbox.items ≡ self.old.account.mailbox.items }
        ensures keywords { self.new.far.keywords ≡ self.old.far.keywords }
        ensures was_honest { honest_of self.new → honest_of self.old }
        ensures open { is_open_at self.new.stage ≡ true }
        ensures selected { OnOk result (self.new.far.is_selected ≡ true) }
        ensures numbers { IfOk result HasNumbers }
        ensures within { honest_of self.new → IfOk result (ListsWithin self.old.far.keywords) }
        ensures ends { Ends (state_of self.old.far.session) (state_of self.new.far.session) result }
        ensures outcome { honest_of self.new → Among L.visitors (Outcome (ListsAll self.old.far.keywords L.visitors.alone
            (store_at self.old.account.mailbox.items (server_at self.old).mailboxes).next self.old.account.mailbox.items) Never KeepsMailboxes result)
            (server_at self.old) (server_at self.new) }
    {
        self.refresh()?;
        self.is_fresh = false;
        self.far.list()
    }
}

impl<L: Link + Drop> FarNext for FarSide<L> {
    ghost use Rattle.mail_sides.specs.FarSides.{next_of};

    ghost uidnext = { next_of };

    fn far_next(&self) -> Option<u32> {
        self.next()
    }
}

impl<L: Link + Drop> Mailbox for FarSide<L> {
    ghost use Rattle.mailcore.specs.declared.side.Side.TheVariants.{Far};
    ghost use Rattle.imap_client.specs.Sessions.{state_of};
    ghost use Rattle.mail_sides.specs.FarSides.{Unfit, honest_of, seen_of};
    ghost use Rattle.imap_client.specs.Fetches.{body_of};
    ghost use Rattle.mail_sides.specs.FarStops.{HasEnded};

    ghost side = { Far };

    ghost honest = { honest_of };

    ghost ours = { L.visitors.ours };

    ghost alone = { L.visitors.alone };

    ghost keywords = { λ side. side.far.keywords };

    // nothing waits at a server, so that there is nothing to admit
    ghost seen = { seen_of };

    ghost is_open = { λ side. is_open_at side.stage };

    ghost body = { λ side. body_of side.far };

    ghost ended = { λ _ side. HasEnded (state_of side.far.session) };

    ghost unfit = { Unfit };

    // the server's affair
    ghost is_synced = { λ _. true };

    ghost is_settled = { λ _. true };

    fn open(&mut self) -> Result<u32, BoxFault> {
        reported_by(self.reach())
    }

    fn list(&mut self, _spared: &Spared) -> Result<Listing, BoxFault> {
        reported_by(self.list_anew())
    }

    fn find_mark(&mut self, mark: Tuid, from: u32) -> Result<Option<Uid>, BoxFault> {
        self.is_fresh = false;
        reported_by(self.far.find_mark(mark, from))
    }

    fn load(&mut self, uid: Uid) -> Result<bool, BoxFault> {
        self.is_fresh = false;
        reported_by(self.far.load(uid))
    }

    fn body(&self) -> &[u8] {
        self.far.body()
    }

    fn append_copy(&mut self, copy: CopyPieces<'_>, flags: Flags) -> Result<Option<Uid>, BoxFault> {
        self.is_fresh = false;
        reported_by(self.far.append_copy(copy, flags))
    }

    fn add_flags(&mut self, uid: Uid, flags: Flags) -> Result<(), BoxFault> {
        self.is_fresh = false;
        reported_by(self.far.add_flags(uid, flags))
    }

    fn remove_flags(&mut self, uid: Uid, flags: Flags) -> Result<(), BoxFault> {
        self.is_fresh = false;
        reported_by(self.far.remove_flags(uid, flags))
    }

    fn expunge(&mut self, uid: Uid) -> Result<(), BoxFault> {
        self.is_fresh = false;
        reported_by(self.far.expunge(&[uid]))
    }

    fn admit(&mut self) -> Result<(), BoxFault> {
        Ok(())
    }

    fn sync(&mut self, _whose: Whose) -> Result<(), BoxFault> {
        Ok(())
    }

    // A session that goes on, and in which no mailbox was selected since its user logged in, is kept.
    fn reopen(&mut self) {
        self.is_fresh = false;
        if self.stage != Stage::LoggedIn || !self.far.is_ready() {
            self.stage = Stage::Closed;
        }
    }
}
