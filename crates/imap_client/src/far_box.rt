//! A far mailbox: a session, and the mailbox that is selected in it.

ghost use Rattle.std.specs.Prelude.{◌≡◌, ◌<◌, ◌≤◌, ◌+◌, true, false, List, Some, length, IfOk, IfErr, IsErrOf, OnErr, OnOk, Ok, Err};
ghost use Rattle.imap_commands.specs.declared.command.StoreMode.TheVariants as modes;
ghost use Rattle.imap_replies.specs.declared.reply.Reply.{Reply};
ghost use Rattle.imap_session.specs.Heard.{AreReplies};
ghost use Rattle.imap_session.specs.Mailboxes.{FarMailbox};
ghost use Rattle.imap_session.specs.Servers.{is_before_login, is_logged_in, selected};
ghost use Rattle.imap_session.specs.NamedMessages.{stored, swept};
ghost use Rattle.imap_session.specs.Visits.{Among};
ghost use Rattle.imap_link.specs.Exchanges.{Restarts};
ghost use Rattle.imap_link.specs.Outcomes.{Outcome, Never};
ghost use Rattle.mailcore.specs.KeywordNames.{IsMap, kept};
ghost use Rattle.mailcore.specs.Stores.{Store};
ghost use Rattle.imap_client.specs.Calls.{CanAsk, each_one};
ghost use Rattle.imap_client.specs.Boxes.{IsSelected, Passes, Selects, Chooses, NoMailbox, Becomes, Changing, one_uid, commands_for};
ghost use Rattle.imap_answers.specs.Openings.{opening_of, IsPositive};
ghost use Rattle.imap_client.specs.Logins.{Authenticates, Rejects, StaysIn};
ghost use Rattle.imap_client.specs.Requests.{IsWord};
ghost use Rattle.imap_client.specs.Seen.{HasMap, KeepsMap};
ghost use Rattle.imap_answers.specs.Spoken.{Speaks};
ghost use Rattle.imap_client.specs.States.{EndsSo, Opened, SendStops};
ghost use Rattle.imap_client.specs.Tags.{tag_text};
ghost use Rattle.imap_client.specs.Transcripts.{EndsBy, LoginHears, of_select, opened};
ghost use Rattle.std.proofs.Props.{props};

use crate::call::Call;
use crate::session::Session;
use imap_answers::bodies::FoundBody;
use imap_answers::opening::Opening;
use imap_answers::reading::read_replies;
use imap_commands::command::StoreMode;
use imap_link::fault::FarFault;
use imap_link::link::Link;
use mailcore::flags::Flags;
use mailcore::keywords::Keywords;
use mailcore::passed_marks::PassedMarks;
use mailcore::uid::Uid;

/// A far mailbox: a session, and the mailbox that is selected in it. It is closed where none is.
///
/// After `Refused` it goes on. After every other fault each call answers `Stopped` and sends nothing, until `reconnect`.
#[derive(Drop)]
pub struct FarBox<L: Link> {
    pub(crate) session: Session<L>,
    // The mailbox is selected. Where it is not, what follows says nothing.
    pub(crate) is_selected: bool,
    pub(crate) name: Vec<u8>,
    pub(crate) validity: u32,
    // A UID that is above those of all messages that the server has reported: those that were there when the mailbox was selected, and
    // those that were added since, where their UIDs were reported.
    pub(crate) next: u32,
    // Where the bytes of the message that was fetched last stand in the replies that were read last.
    pub(crate) body: FoundBody,
    // The messages that searches for a mark went past since the mailbox was selected.
    pub(crate) passed: PassedMarks,
    // By it the flags of messages have names.
    pub(crate) keywords: Keywords,
    pub ghost named: { IsWord name.items },
    pub ghost selected: { is_selected ≡ true → session.is_ready ≡ true → L.honest session.wire.link
        → IsSelected name.items validity next (L.line session.wire.link).end.server } by { Prim.hlevel props },
    pub ghost numbers: { (0 < validity) × (0 < next) },
    pub ghost map: { IsMap keywords },
    pub ghost are_passed: { is_selected ≡ true → session.is_ready ≡ true → L.honest session.wire.link
        → Passes passed (L.line session.wire.link).end.server } by { Prim.hlevel props },
}

/// What is known of a mailbox that was selected.
#[derive(Drop)]
pub(crate) struct SelectedBox {
    name: Vec<u8>,
    validity: u32,
    next: u32,
    ghost numbers: { (0 < validity) × (0 < next) },
}

impl<L: Link> Session<L> {
    ghost use Rattle.imap_client.specs.Sessions.{state_of, server_of};

    /// Selects the mailbox of this name, and moves the session into it. By this map flags have names. Beside a fault the session comes
    /// back, and the map is dropped.
    ///
    /// `Refused`: there is no such mailbox. `ReadOnly`: it cannot be changed, or cannot keep each flag that has a name.
    /// `Protocol`: UIDNEXT or UIDVALIDITY was not reported, too.
    pub fn select(
        self,
        name: &[u8],
        keywords: Keywords,
    ) -> Result<FarBox<L>, (FarFault, Session<L>)>
        requires { IsWord name.now }
        ensures was_honest { IfOk result (λ b. L.honest b.session.wire.link → L.honest self.wire.link) }
        ensures still_honest { IfErr result (λ e. L.honest e.1.wire.link → L.honest self.wire.link) }
        ensures ok { IfOk result (λ b. EndsSo 1 (state_of self) (state_of b.session) (Ok b)) }
        ensures err { IfErr result (λ e. EndsSo {T = FarBox L L.Link} 1 (state_of self) (state_of e.1) (Err e.0)) }
        ensures selected { IfOk result (λ b. b.is_selected ≡ true) }
        ensures name { IfOk result (λ b. b.name.items ≡ name.now) }
        ensures keywords { IfOk result (λ b. b.keywords ≡ keywords) }
        ensures selects { IfOk result (λ b. L.honest b.session.wire.link
            → Among L.visitors (Selects name.now b.validity b.next) (server_of self) (server_of b.session)) }
        ensures fails { IfErr result (λ e. L.honest e.1.wire.link → HasMap keywords (server_of self) → is_logged_in (server_of self).condition ≡ true
            → Among L.visitors (Outcome {T = FarBox L L.Link} (λ b. Never) (NoMailbox name.now) (Chooses name.now) (Err e.0))
            (server_of self) (server_of e.1)) }
        ensures heard { IfOk result (λ b. EndsBy (of_select keywords (self.tags + 1) (λ x. opened x.validity x.next)) (Ok b)
            self.transcript b.session.transcript) }
        ensures heard_err { IfErr result (λ e. EndsBy {T = FarBox L L.Link} (of_select keywords (self.tags + 1) (λ x. opened x.validity x.next)) (Err e.0)
            self.transcript e.1.transcript) }
    {
        let mut session = self;
        match session.choose(name, &keywords) {
            Ok(chosen) => {
                let SelectedBox {
                    name,
                    validity,
                    next,
                } = chosen;
                let passed = PassedMarks::new(session.wire.alloc);
                Ok(FarBox {
                    session,
                    is_selected: true,
                    name,
                    validity,
                    next,
                    body: FoundBody::At { from: 0, len: 0 },
                    passed,
                    keywords,
                })
            }
            Err(fault) => Err((fault, session)),
        }
    }

    // Selects the mailbox of this name.
    fn choose(&mut self, name: &[u8], keywords: &Keywords) -> Result<SelectedBox, FarFault>
        requires { IsWord name.now }
        ensures was_honest { L.honest self.new.wire.link → L.honest self.old.wire.link }
        ensures letters { L.honest self.new.wire.link → KeepsMap (server_of self.old) (server_of self.new) }
        ensures stays_in { L.honest self.new.wire.link → StaysIn (server_of self.old) (server_of self.new) }
        ensures counts { L.stops self.old.wire.link ≤ L.stops self.new.wire.link }
        ensures stuck { self.old.is_ready ≡ false → self.new ≡ self.old }
        ensures ends { EndsSo 1 (state_of self.old) (state_of self.new) result }
        ensures map { IsMap keywords.now }
        ensures name { IfOk result (λ c. c.name.items ≡ name.now) }
        ensures chosen { IfOk result (λ c. L.honest self.new.wire.link
            → Among L.visitors (Selects name.now c.validity c.next) (server_of self.old) (server_of self.new)) }
        ensures outcome { L.honest self.new.wire.link → HasMap keywords.now (server_of self.old) → is_logged_in (server_of self.old).condition ≡ true
            → Among L.visitors (Outcome (λ c. Selects name.now c.validity c.next) (NoMailbox name.now) (Chooses name.now) result)
            (server_of self.old) (server_of self.new) }
        ensures heard { EndsBy (of_select keywords.now (self.old.tags + 1) (λ x. opened x.validity x.next)) result
            self.old.transcript self.new.transcript }
    {
        is_map(keywords);
        self.ask(&Call::Select(name))?;
        let opening = self.opening(keywords)?;
        let Some(next) = opening.next else {
            return Err(FarFault::Protocol);
        };
        let Some(validity) = opening.validity else {
            return Err(FarFault::Protocol);
        };
        let name = Vec::from_slice(self.wire.alloc, name)?;
        self.done();
        if opening.is_read_only {
            return Err(FarFault::ReadOnly);
        }
        Ok(SelectedBox {
            name,
            validity,
            next,
        })
    }

    // What the replies that were read say of a mailbox.
    fn opening(&self, keywords: &Keywords) -> Result<Opening, FarFault>
        requires { Speaks self.now.wire.heard.read }
        ensures reported { IfOk result (λ o. (rs : List Reply) → AreReplies rs self.now.wire.heard.read → o ≡ opening_of keywords.now rs) }
        ensures positive { IfOk result IsPositive }
        ensures err { IfErr result (λ fault. fault ≡ FarFault.NoMemory) }
    {
        let replies = read_replies(self.wire.alloc, self.wire.heard.read_part())?;
        Ok(Opening::of(&replies, keywords))
    }

    // Sends nothing. `Stopped`: the session has failed.
    fn rest(&self) -> Result<(), FarFault>
        ensures ends { EndsSo 0 (state_of self.now) (state_of self.now) result }
        ensures err { IfErr result (λ fault. fault ≡ FarFault.Stopped) }
    {
        if self.is_ready {
            Ok(())
        } else {
            Err(FarFault::Stopped)
        }
    }

    // Sends this, and waits until it was done.
    pub(crate) fn change(&mut self, call: &Call<'_>) -> Result<(), FarFault>
        requires { CanAsk call.now }
        ensures was_honest { L.honest self.new.wire.link → L.honest self.old.wire.link }
        ensures letters { L.honest self.new.wire.link → KeepsMap (server_of self.old) (server_of self.new) }
        ensures counts { L.stops self.old.wire.link ≤ L.stops self.new.wire.link }
        ensures stuck { self.old.is_ready ≡ false → self.new ≡ self.old }
        ensures ends { EndsSo 1 (state_of self.old) (state_of self.new) result }
        ensures outcome { L.honest self.new.wire.link → Among L.visitors (λ s t. (m : FarMailbox) → selected s ≡ Some m
            → (change : Store → Store) → Changing s call.now change → Outcome (λ _. Becomes change) Never (Becomes change) result s t)
            (server_of self.old) (server_of self.new) }
    {
        self.ask(call)?;
        self.done();
        Ok(())
    }
}

impl<L: Link> FarBox<L> {
    ghost use Rattle.imap_client.specs.Sessions.{state_of, server_of};

    /// A box over this session that is closed: no mailbox is selected through it. By this map flags have names.
    pub fn closed(session: Session<L>, keywords: Keywords) -> Self
        ensures session { result.session ≡ session }
        ensures keywords { result.keywords ≡ keywords }
        ensures closed { result.is_selected ≡ false }
    {
        let alloc = session.wire.alloc;
        is_map(&keywords);
        FarBox {
            session,
            is_selected: false,
            name: Vec::new(alloc),
            validity: 1,
            next: 1,
            body: FoundBody::At { from: 0, len: 0 },
            passed: PassedMarks::new(alloc),
            keywords,
        }
    }

    /// Starts a new connection, as `Session::reconnect` does. The box is closed then.
    pub fn reconnect(&mut self) -> Result<(), FarFault>
        ensures was_honest { L.honest self.new.session.wire.link → L.honest self.old.session.wire.link }
        ensures letters { L.honest self.new.session.wire.link → KeepsMap (server_of self.old.session) (server_of self.new.session) }
        ensures closed { self.new.is_selected ≡ false }
        ensures keywords { self.new.keywords ≡ self.old.keywords }
        ensures ready { OnOk result (Opened (L.stops self.old.session.wire.link) (state_of self.new.session)) }
        ensures outcome { L.honest self.new.session.wire.link
            → Outcome (λ _. Restarts) Never Restarts result (server_of self.old.session) (server_of self.new.session) }
        ensures failed { OnErr result (self.new.session.is_ready ≡ false) }
        ensures counts { L.stops self.old.session.wire.link ≤ L.stops self.new.session.wire.link }
        ensures stopped { IsErrOf result FarFault.Stopped
            → SendStops (tag_text 1) (state_of self.old.session) (state_of self.new.session) }
    {
        self.is_selected = false;
        self.session.reconnect()
    }

    /// Logs in, as `Session::login` does. The box is closed then.
    pub fn login(&mut self, user: &[u8], password: &[u8]) -> Result<(), FarFault>
        requires user { IsWord user.now }
        requires password { IsWord password.now }
        ensures was_honest { L.honest self.new.session.wire.link → L.honest self.old.session.wire.link }
        ensures letters { L.honest self.new.session.wire.link → KeepsMap (server_of self.old.session) (server_of self.new.session) }
        ensures counts { L.stops self.old.session.wire.link ≤ L.stops self.new.session.wire.link }
        ensures stuck { self.old.session.is_ready ≡ false → self.new.session ≡ self.old.session }
        ensures closed { self.new.is_selected ≡ false }
        ensures keywords { self.new.keywords ≡ self.old.keywords }
        ensures ends { EndsSo 3 (state_of self.old.session) (state_of self.new.session) result }
        ensures outcome { L.honest self.new.session.wire.link → is_before_login (server_of self.old.session).condition ≡ true
            → Among L.visitors (Outcome (λ _. Authenticates user.now password.now) (Rejects user.now password.now)
            (Authenticates user.now password.now) result) (server_of self.old.session) (server_of self.new.session) }
        ensures heard { LoginHears self.old.session.tags result self.old.session.transcript self.new.session.transcript }
    {
        self.is_selected = false;
        self.session.login(user, password)
    }

    /// Selects the mailbox of this name, over the session as it stands. After a fault the box is closed.
    ///
    /// Faults: as those of `Session::select`.
    pub fn enter(&mut self, name: &[u8]) -> Result<(), FarFault>
        requires { IsWord name.now }
        ensures was_honest { L.honest self.new.session.wire.link → L.honest self.old.session.wire.link }
        ensures letters { L.honest self.new.session.wire.link → KeepsMap (server_of self.old.session) (server_of self.new.session) }
        ensures stays_in { L.honest self.new.session.wire.link → StaysIn (server_of self.old.session) (server_of self.new.session) }
        ensures counts { L.stops self.old.session.wire.link ≤ L.stops self.new.session.wire.link }
        ensures stuck { self.old.session.is_ready ≡ false → self.new.session ≡ self.old.session }
        ensures selected { OnOk result (self.new.is_selected ≡ true) }
        ensures closed { OnErr result (self.new.is_selected ≡ false) }
        ensures name { OnOk result (self.new.name.items ≡ name.now) }
        ensures keywords { self.new.keywords ≡ self.old.keywords }
        ensures ends { EndsSo 1 (state_of self.old.session) (state_of self.new.session) result }
        ensures selects { OnOk result (L.honest self.new.session.wire.link
            → Among L.visitors (Selects name.now self.new.validity self.new.next) (server_of self.old.session) (server_of self.new.session)) }
        ensures outcome { L.honest self.new.session.wire.link → HasMap self.old.keywords (server_of self.old.session)
            → is_logged_in (server_of self.old.session).condition ≡ true
            → Among L.visitors (Outcome (λ _. Selects name.now self.new.validity self.new.next) (NoMailbox name.now) (Chooses name.now) result)
            (server_of self.old.session) (server_of self.new.session) }
        ensures heard { EndsBy (of_select self.old.keywords (self.old.session.tags + 1) (λ _. opened self.new.validity self.new.next)) result
            self.old.session.transcript self.new.session.transcript }
    {
        self.is_selected = false;
        let SelectedBox {
            name,
            validity,
            next,
        } = self.session.choose(name, &self.keywords)?;
        self.name = name;
        self.validity = validity;
        self.next = next;
        self.passed = PassedMarks::new(self.session.wire.alloc);
        self.is_selected = true;
        Ok(())
    }

    /// Whether the session goes on.
    pub fn is_ready(&self) -> bool
        ensures { result ≡ self.now.session.is_ready }
    {
        self.session.is_ready()
    }

    /// The UIDVALIDITY that was reported when the mailbox was selected.
    pub fn validity(&self) -> u32
        ensures { result ≡ self.now.validity }
    {
        self.validity
    }

    /// The least UID that the next message can get, as far as it is known: UIDNEXT as SELECT reported it (RFC 9051, section 2.3.1.1), or
    /// one above the UID that was reported for a copy since.
    pub fn next(&self) -> u32
        ensures { result ≡ self.now.next }
    {
        self.next
    }

    /// Gives the session back, without taking memory.
    pub fn into_session(self) -> Session<L>
        ensures { result ≡ self.session }
    {
        let FarBox { session, .. } = self;
        session
    }

    /// Gives the session and the map of keywords back, without taking memory.
    pub fn into_parts(self) -> (Session<L>, Keywords)
        ensures session { result.0 ≡ self.session }
        ensures keywords { result.1 ≡ self.keywords }
    {
        let FarBox {
            session,
            keywords,
            ..
        } = self;
        (session, keywords)
    }

    /// Sets those of these flags of a message that have a name. A message that is not there is skipped.
    pub fn add_flags(&mut self, uid: Uid, flags: Flags) -> Result<(), FarFault>
        ensures was_honest { L.honest self.new.session.wire.link → L.honest self.old.session.wire.link }
        ensures letters { L.honest self.new.session.wire.link → KeepsMap (server_of self.old.session) (server_of self.new.session) }
        ensures counts { L.stops self.old.session.wire.link ≤ L.stops self.new.session.wire.link }
        ensures stuck { self.old.session.is_ready ≡ false → self.new.session ≡ self.old.session }
        ensures ends { EndsSo 1 (state_of self.old.session) (state_of self.new.session) result }
        ensures same { (self.new.name ≡ self.old.name) × (self.new.validity ≡ self.old.validity) × (self.new.next ≡ self.old.next)
            × (self.new.is_selected ≡ self.old.is_selected) }
        ensures keywords { self.new.keywords ≡ self.old.keywords }
        ensures outcome { L.honest self.new.session.wire.link → HasMap self.old.keywords (server_of self.old.session)
            → Among L.visitors (λ s t. (m : FarMailbox) → selected s ≡ Some m
            → Outcome (λ _. Becomes (stored modes.Add (kept self.old.keywords flags) (one_uid uid))) Never
            (Becomes (stored modes.Add (kept self.old.keywords flags) (one_uid uid))) result s t)
            (server_of self.old.session) (server_of self.new.session) }
    {
        let call = Call::Store(uid, StoreMode::Add, flags, &self.keywords);
        self.session.change(&call)
    }

    /// Clears these flags of a message, as `add_flags` sets them.
    pub fn remove_flags(&mut self, uid: Uid, flags: Flags) -> Result<(), FarFault>
        ensures was_honest { L.honest self.new.session.wire.link → L.honest self.old.session.wire.link }
        ensures letters { L.honest self.new.session.wire.link → KeepsMap (server_of self.old.session) (server_of self.new.session) }
        ensures counts { L.stops self.old.session.wire.link ≤ L.stops self.new.session.wire.link }
        ensures stuck { self.old.session.is_ready ≡ false → self.new.session ≡ self.old.session }
        ensures ends { EndsSo 1 (state_of self.old.session) (state_of self.new.session) result }
        ensures same { (self.new.name ≡ self.old.name) × (self.new.validity ≡ self.old.validity) × (self.new.next ≡ self.old.next)
            × (self.new.is_selected ≡ self.old.is_selected) }
        ensures keywords { self.new.keywords ≡ self.old.keywords }
        ensures outcome { L.honest self.new.session.wire.link → HasMap self.old.keywords (server_of self.old.session)
            → Among L.visitors (λ s t. (m : FarMailbox) → selected s ≡ Some m
            → Outcome (λ _. Becomes (stored modes.Remove (kept self.old.keywords flags) (one_uid uid))) Never
            (Becomes (stored modes.Remove (kept self.old.keywords flags) (one_uid uid))) result s t)
            (server_of self.old.session) (server_of self.new.session) }
    {
        let call = Call::Store(uid, StoreMode::Remove, flags, &self.keywords);
        self.session.change(&call)
    }

    /// Removes those of these messages that have `\Deleted`, at most 5000: one UID EXPUNGE, or nothing for an empty list.
    pub fn expunge(&mut self, uids: &[Uid]) -> Result<(), FarFault>
        requires { length uids.now ≤ 5000 }
        ensures was_honest { L.honest self.new.session.wire.link → L.honest self.old.session.wire.link }
        ensures letters { L.honest self.new.session.wire.link → KeepsMap (server_of self.old.session) (server_of self.new.session) }
        ensures counts { L.stops self.old.session.wire.link ≤ L.stops self.new.session.wire.link }
        ensures stuck { self.old.session.is_ready ≡ false → self.new.session ≡ self.old.session }
        ensures ends { EndsSo (commands_for uids.now) (state_of self.old.session) (state_of self.new.session) result }
        ensures same { (self.new.name ≡ self.old.name) × (self.new.validity ≡ self.old.validity) × (self.new.next ≡ self.old.next)
            × (self.new.is_selected ≡ self.old.is_selected) }
        ensures keywords { self.new.keywords ≡ self.old.keywords }
        ensures outcome { L.honest self.new.session.wire.link → Among L.visitors (λ s t. (m : FarMailbox) → selected s ≡ Some m
            → Outcome (λ _. Becomes (swept (each_one uids.now))) Never (Becomes (swept (each_one uids.now))) result s t)
            (server_of self.old.session) (server_of self.new.session) }
    {
        if uids.is_empty() {
            self.session.rest()
        } else {
            self.session.change(&Call::Expunge(uids))
        }
    }
}

/// A map of keywords keeps what a map keeps.
fn is_map(keywords: &Keywords)
    ensures { IsMap keywords.now }
{
    let _keywords = keywords.as_slice();
}
