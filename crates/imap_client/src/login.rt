//! What a session sends before its calls: CAPABILITY, LOGIN, ENABLE (RFC 9051, sections 6.1.1, 6.2.3 and 6.3.1).

ghost use Rattle.std.specs.Prelude.{◌≡◌, ◌≤◌, ◌+◌, List, true, false, IfOk, IfErr};
ghost use Rattle.std.specs.List.{list_any};
ghost use Rattle.imap_replies.specs.declared.reply.Reply.{Reply};
ghost use Rattle.imap_session.specs.Heard.{AreReplies};
ghost use Rattle.imap_session.specs.Servers.{is_before_login, is_logged_in};
ghost use Rattle.imap_session.specs.Visits.{Among};
ghost use Rattle.imap_link.specs.Outcomes.{Outcome, Never};
ghost use Rattle.imap_client.specs.Logins.{reports_rev2, Authenticates, Rejects, Remains};
ghost use Rattle.imap_client.specs.Requests.{IsWord};
ghost use Rattle.imap_client.specs.Transcripts.{EndsBy, of_abilities, of_login, of_enable, LoginHears};
ghost use Rattle.imap_answers.specs.Spoken.{Speaks};
ghost use Rattle.imap_client.specs.Seen.{KeepsMap};
ghost use Rattle.imap_client.specs.States.{EndsSo};

use crate::call::Call;
use crate::session::Session;
use imap_answers::reading::read_replies;
use imap_link::fault::FarFault;
use imap_link::link::Link;
use imap_link::sink::NoSink;
use imap_replies::reply::Reply;
use imap_replies::word::Status;

impl<L: Link> Session<L> {
    ghost use Rattle.imap_client.specs.Sessions.{state_of, server_of};

    /// Asks what the server can do, logs in, and enables IMAP4rev2. User and password are bytes that can be quoted, at
    /// most 1024 each.
    ///
    /// `Refused`: the server does not take the user with this password; the session goes on. `NoRev2`: the server does not
    /// name IMAP4rev2 among what it can do, or does not enable it.
    pub fn login(&mut self, user: &[u8], password: &[u8]) -> Result<(), FarFault>
        requires user { IsWord user.now }
        requires password { IsWord password.now }
        ensures was_honest { L.honest self.new.wire.link → L.honest self.old.wire.link }
        ensures letters { L.honest self.new.wire.link → KeepsMap (server_of self.old) (server_of self.new) }
        ensures counts { L.stops self.old.wire.link ≤ L.stops self.new.wire.link }
        ensures stuck { self.old.is_ready ≡ false → self.new ≡ self.old }
        ensures ends { EndsSo 3 (state_of self.old) (state_of self.new) result }
        ensures outcome { L.honest self.new.wire.link → is_before_login (server_of self.old).condition ≡ true
            → Among L.visitors (Outcome (λ _. Authenticates user.now password.now) (Rejects user.now password.now)
            (Authenticates user.now password.now) result) (server_of self.old) (server_of self.new) }
        ensures heard { LoginHears self.old.tags result self.old.transcript self.new.transcript }
    {
        self.ask_abilities()?;
        self.authenticate(user, password)?;
        self.enable()
    }

    // Asks what the server can do.
    fn ask_abilities(&mut self) -> Result<(), FarFault>
        ensures was_honest { L.honest self.new.wire.link → L.honest self.old.wire.link }
        ensures letters { L.honest self.new.wire.link → KeepsMap (server_of self.old) (server_of self.new) }
        ensures counts { L.stops self.old.wire.link ≤ L.stops self.new.wire.link }
        ensures stuck { self.old.is_ready ≡ false → self.new ≡ self.old }
        ensures ends { EndsSo 1 (state_of self.old) (state_of self.new) result }
        ensures outcome { L.honest self.new.wire.link
            → Among L.visitors (Outcome (λ _. Remains) Never Remains result) (server_of self.old) (server_of self.new) }
        ensures heard { EndsBy (of_abilities (self.old.tags + 1)) result self.old.transcript self.new.transcript }
    {
        self.ask(&Call::Capability)?;
        let speaks = self.speaks_rev2()?;
        if !speaks {
            return Err(FarFault::NoRev2);
        }
        self.done();
        Ok(())
    }

    // Whether the replies that were read name IMAP4rev2.
    fn speaks_rev2(&self) -> Result<bool, FarFault>
        requires { Speaks self.now.wire.heard.read }
        ensures reported { IfOk result (λ reported. (rs : List Reply) → AreReplies rs self.now.wire.heard.read → reported ≡ list_any reports_rev2 rs) }
        ensures err { IfErr result (λ fault. fault ≡ FarFault.NoMemory) }
    {
        let replies = read_replies(self.wire.alloc, self.wire.heard.read_part())?;
        Ok(any_reports_rev2(&replies))
    }

    // Logs in.
    fn authenticate(&mut self, user: &[u8], password: &[u8]) -> Result<(), FarFault>
        requires user { IsWord user.now }
        requires password { IsWord password.now }
        ensures was_honest { L.honest self.new.wire.link → L.honest self.old.wire.link }
        ensures letters { L.honest self.new.wire.link → KeepsMap (server_of self.old) (server_of self.new) }
        ensures counts { L.stops self.old.wire.link ≤ L.stops self.new.wire.link }
        ensures stuck { self.old.is_ready ≡ false → self.new ≡ self.old }
        ensures ends { EndsSo 1 (state_of self.old) (state_of self.new) result }
        ensures outcome { L.honest self.new.wire.link → is_before_login (server_of self.old).condition ≡ true
            → Among L.visitors (Outcome (λ _. Authenticates user.now password.now) (Rejects user.now password.now)
            (Authenticates user.now password.now) result) (server_of self.old) (server_of self.new) }
        ensures heard { EndsBy (of_login (self.old.tags + 1)) result self.old.transcript self.new.transcript }
    {
        self.ask(&Call::Login(user, password))?;
        self.done();
        Ok(())
    }

    // Enables IMAP4rev2.
    fn enable(&mut self) -> Result<(), FarFault>
        ensures was_honest { L.honest self.new.wire.link → L.honest self.old.wire.link }
        ensures letters { L.honest self.new.wire.link → KeepsMap (server_of self.old) (server_of self.new) }
        ensures counts { L.stops self.old.wire.link ≤ L.stops self.new.wire.link }
        ensures stuck { self.old.is_ready ≡ false → self.new ≡ self.old }
        ensures ends { EndsSo 1 (state_of self.old) (state_of self.new) result }
        ensures outcome { L.honest self.new.wire.link → is_logged_in (server_of self.old).condition ≡ true
            → Among L.visitors (Outcome (λ _. Remains) Never Remains result) (server_of self.old) (server_of self.new) }
        ensures heard { EndsBy (of_enable (self.old.tags + 1)) result self.old.transcript self.new.transcript }
    {
        let status = self.ask_status(&Call::Enable, &mut NoSink {})?;
        match status {
            Status::Ok => {
                self.done();
                Ok(())
            }
            _ => Err(FarFault::NoRev2),
        }
    }
}

/// Whether one of the replies names IMAP4rev2 among what the server can do.
fn any_reports_rev2(replies: &[Reply<'_>]) -> bool
    ensures { result ≡ list_any reports_rev2 replies.now }
{
    replies.iter().any(|reply| reports_rev2(reply))
}

/// Whether the reply names IMAP4rev2 among what the server can do.
fn reports_rev2(reply: &Reply<'_>) -> bool
    ensures { result ≡ reports_rev2 reply.now }
{
    match reply {
        Reply::Capability(Some(names)) => names.contains(b"IMAP4rev2"),
        _ => false,
    }
}
