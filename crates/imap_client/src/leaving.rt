//! The end of a session (RFC 9051, section 6.1.3: LOGOUT).

ghost use Rattle.std.specs.Prelude.{◌≡◌, true, false, IfOk, IfErr, Ok, Err};
ghost use Rattle.imap_commands.specs.declared.command.Request.TheVariants as requests;
ghost use Rattle.imap_session.specs.Ends.{ends_of};
ghost use Rattle.imap_session.specs.Visits.{Among};
ghost use Rattle.imap_link.specs.Outcomes.{Outcome, Never};
ghost use Rattle.imap_client.specs.Leaving.{Leaves, LeftSo, LeavesSo};
ghost use Rattle.imap_client.specs.Stillness.{IsStill};

use crate::sending::text_of;
use crate::session::Session;
use imap_commands::command::{Command, Request};
use imap_link::fault::FarFault;
use imap_link::link::Link;
use imap_link::sink::NoSink;
use imap_link::uses::Uses;
use imap_replies::word::Status;

impl<L: Link> Session<L> {
    ghost use Rattle.imap_session.specs.Lines.{reported_server};
    ghost use Rattle.imap_client.specs.Sessions.{state_of, server_of};

    /// Ends the session: the server reads nothing more on this connection. The link comes back, beside a fault too.
    ///
    /// The server says `* BYE` before its answer, which is no stop here.
    pub fn logout(self) -> Result<L, (FarFault, L)>
        ensures was_honest { IfOk result (λ l. L.honest l → L.honest self.wire.link) }
        ensures still_honest { IfErr result (λ e. L.honest e.1 → L.honest self.wire.link) }
        ensures steady { IfOk result (λ l. (self.is_ready ≡ true) × (L.stops l ≡ L.stops self.wire.link)) }
        ensures leaves { IfOk result (λ l. L.honest l → Among L.visitors Leaves (server_of self) (reported_server (L.line l))) }
        ensures fails { IfErr result (λ e. L.honest e.1 → Among L.visitors (Outcome {T = Unit {0}} (λ _. Leaves) Never Leaves (Err e.0)) (server_of self)
            (reported_server (L.line e.1))) }
    {
        let mut session = self;
        match session.log_out() {
            Ok(()) => Ok(session.into_link()),
            Err(fault) => Err((fault, session.into_link())),
        }
    }

    // Sends LOGOUT, and waits for its answer. The session has failed then.
    fn log_out(&mut self) -> Result<(), FarFault>
        ensures was_honest { L.honest self.new.wire.link → L.honest self.old.wire.link }
        ensures stuck { self.old.is_ready ≡ false → self.new ≡ self.old }
        ensures over { self.new.is_ready ≡ false }
        ensures ends { LeavesSo (state_of self.old) (state_of self.new) result }
        ensures outcome { L.honest self.new.wire.link → Among L.visitors (Outcome (λ _. Leaves) Never Leaves result)
            (server_of self.old) (server_of self.new) }
    {
        self.begin()?;
        let command = self.command(Request::Logout)?;
        self.leave(&command)
    }

    // Sends the command, and waits for its answer.
    fn leave(&mut self, command: &Command) -> Result<(), FarFault>
        requires logout { command.now.request ≡ requests.Logout }
        requires begun { self.old.is_ready ≡ false }
        requires idle { L.honest self.old.wire.link → IsStill (ends_of (L.line self.old.wire.link) self.old.wire.heard.unread) }
        ensures was_honest { L.honest self.new.wire.link → L.honest self.old.wire.link }
        ensures same { (self.new.is_ready ≡ self.old.is_ready) × (self.new.tags ≡ self.old.tags) }
        ensures left { LeftSo command.now.tag (state_of self.old) (state_of self.new) result }
        ensures outcome { L.honest self.new.wire.link → Among L.visitors (Outcome (λ _. Leaves) Never Leaves result)
            (server_of self.old) (server_of self.new) }
    {
        let text = text_of(self.wire.alloc, command)?;
        let uses = Uses::answer_alone();
        let status = self
            .wire
            .finish(&command.tag, &text, true, uses, &mut NoSink {})?;
        match status {
            Status::Ok => Ok(()),
            Status::No => Err(FarFault::Refused),
            Status::Bad => Err(FarFault::Protocol),
        }
    }
}
