//! Calls on the mailboxes of a server (RFC 9051, sections 6.3.4 and 6.3.9).

ghost use Rattle.std.specs.Prelude.{◌≡◌, ◌≤◌, List, true, false, IfOk, IfErr};
ghost use Rattle.std.specs.List.{list_all};
ghost use Rattle.mailcore.specs.MailboxNames.{is_mailbox_name};
ghost use Rattle.imap_replies.specs.declared.reply.Reply.{Reply};
ghost use Rattle.imap_session.specs.Heard.{AreReplies};
ghost use Rattle.imap_session.specs.Servers.{is_logged_in};
ghost use Rattle.imap_session.specs.Visits.{Among};
ghost use Rattle.imap_link.specs.Outcomes.{Outcome, Never};
ghost use Rattle.imap_client.specs.Creations.{Makes, CannotMake};
ghost use Rattle.imap_client.specs.Logins.{Remains};
ghost use Rattle.imap_answers.specs.MailboxNames.{ReportsNames, names_in};
ghost use Rattle.imap_client.specs.Requests.{IsWord};
ghost use Rattle.imap_answers.specs.Spoken.{Speaks};
ghost use Rattle.imap_client.specs.States.{EndsSo};

use crate::call::Call;
use crate::session::Session;
use imap_answers::names::names_in;
use imap_answers::reading::read_replies;
use imap_link::fault::FarFault;
use imap_link::link::Link;
use mailcore::mailbox_name::MailboxName;

impl<L: Link> Session<L> {
    ghost use Rattle.imap_client.specs.Sessions.{state_of, server_of};

    /// Makes a mailbox of this name, which is empty.
    ///
    /// `Refused`: there is one of this name, the name is none, or no UIDVALIDITY is left; the session goes on.
    pub fn create(&mut self, name: &[u8]) -> Result<(), FarFault>
        requires { IsWord name.now }
        ensures was_honest { L.honest self.new.wire.link → L.honest self.old.wire.link }
        ensures counts { L.stops self.old.wire.link ≤ L.stops self.new.wire.link }
        ensures stuck { self.old.is_ready ≡ false → self.new ≡ self.old }
        ensures ends { EndsSo 1 (state_of self.old) (state_of self.new) result }
        ensures outcome { L.honest self.new.wire.link → is_logged_in (server_of self.old).condition ≡ true
            → Among L.visitors (Outcome (λ _. Makes name.now) (CannotMake name.now) (Makes name.now) result)
            (server_of self.old) (server_of self.new) }
    {
        self.ask(&Call::Create(name))?;
        self.done();
        Ok(())
    }

    /// The names of all mailboxes, in the order in which the server returns them. Names outside the limits are skipped.
    ///
    /// `Refused`: the server returns none.
    pub fn list(&mut self) -> Result<Vec<MailboxName>, FarFault>
        ensures was_honest { L.honest self.new.wire.link → L.honest self.old.wire.link }
        ensures counts { L.stops self.old.wire.link ≤ L.stops self.new.wire.link }
        ensures stuck { self.old.is_ready ≡ false → self.new ≡ self.old }
        ensures ends { EndsSo 1 (state_of self.old) (state_of self.new) result }
        ensures limits { IfOk result (λ names. list_all is_mailbox_name names.items ≡ true) }
        ensures outcome { L.honest self.new.wire.link → is_logged_in (server_of self.old).condition ≡ true
            → Among L.visitors (Outcome (λ names. ReportsNames names.items) Never Remains result) (server_of self.old) (server_of self.new) }
    {
        self.ask(&Call::Names)?;
        let names = self.names()?;
        self.done();
        Ok(names)
    }

    // The names that the replies that were read return.
    fn names(&self) -> Result<Vec<MailboxName>, FarFault>
        requires { Speaks self.now.wire.heard.read }
        ensures reported { IfOk result (λ names. (rs : List Reply) → AreReplies rs self.now.wire.heard.read → names.items ≡ names_in rs) }
        ensures limits { IfOk result (λ names. list_all is_mailbox_name names.items ≡ true) }
        ensures err { IfErr result (λ fault. fault ≡ FarFault.NoMemory) }
    {
        let replies = read_replies(self.wire.alloc, self.wire.heard.read_part())?;
        let names = names_in(self.wire.alloc, &replies)?;
        Ok(names)
    }
}
