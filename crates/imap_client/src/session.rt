//! A session with a server.

ghost use Rattle.std.specs.Prelude.{◌≡◌, ◌≤◌, ◌⊎◌, ◌+◌, ◌++◌, [], true, false, IfOk, IfErr, OnOk, OnErr, IsErrOf};
ghost use Rattle.imap_replies.specs.declared.word.Status.TheVariants as statuses;
ghost use Rattle.imap_session.specs.Ends.{ends_of, is_logout};
ghost use Rattle.imap_link.specs.ReplyBuffers.{empty};
ghost use Rattle.imap_client.specs.Stillness.{IsStill};
ghost use Rattle.imap_link.specs.Buffers.{IsAnswerText};
ghost use Rattle.imap_client.specs.Tags.{tag_text};
ghost use Rattle.imap_client.specs.Requests.{IsPlain};
ghost use Rattle.imap_client.specs.Exchanged.{command_at, AnsweredSo, Exchanged};
ghost use Rattle.imap_client.specs.Calls.{request_of, CanAsk};
ghost use Rattle.imap_client.specs.Logins.{StaysIn};
ghost use Rattle.imap_client.specs.Seen.{KeepsMap};
ghost use Rattle.imap_client.specs.States.{Opened, SendStops, SentSo, Judged, ExchangedSo, AskedSo};
ghost use Rattle.imap_link.specs.Faults.{IsHearing};
ghost use Rattle.imap_link.specs.Sinks.{any_replies};
ghost use Rattle.imap_link.specs.Outcomes.{Outcome, Never};
ghost use Rattle.imap_link.specs.Exchanges.{Restarts};
ghost use Rattle.imap_session.specs.Visits.{Among};
ghost use Rattle.imap_client.specs.Transcripts.{EndsBy, of_any, of_command};

use crate::call::Call;
use crate::sending::text_of;
use crate::tags::tag_of;
use crate::transcript::Transcript;
use imap_commands::command::{Command, Request};
use imap_link::fault::FarFault;
use imap_link::link::Link;
use imap_link::reply_buf::ReplyBuf;
use imap_link::sink::{NoSink, ReplySink};
use imap_link::uses::Uses;
use imap_link::wire::{PIECE, Wire};
use imap_replies::word::Status;
use std::alloc::Global;
use wire_tokens::tag::Tag;

/// A session with a server, over a link.
///
/// After `Refused` and `ReadOnly` it goes on. After every other fault each call answers `Stopped` and sends nothing,
/// until `reconnect`.
#[derive(Drop)]
pub struct Session<L: Link> {
    pub(crate) wire: Wire<L>,
    // How many tags were used on this connection.
    tags: u64,
    // Each answer to a command that was sent in one part, as it was read.
    transcript: Transcript,
    pub(crate) is_ready: bool,
    pub ghost idle: { is_ready ≡ true → L.honest wire.link → IsStill (ends_of (L.line wire.link) wire.heard.unread) },
}

impl<L: Link> Session<L> {
    ghost use Rattle.imap_session.specs.Lines.{reported_server};
    ghost use Rattle.imap_client.specs.Sessions.{state_of, server_of};

    /// A session over the link, of which no connection was made. Each call answers `Stopped`, until `reconnect`.
    pub fn closed(alloc: Global, link: L) -> Session<L>
        ensures link { result.wire.link ≡ link }
        ensures ready { result.is_ready ≡ false }
        ensures tags { result.tags ≡ 0 }
        ensures heard { result.wire.heard ≡ empty }
        ensures transcript { result.transcript ≡ [] }
    {
        Session {
            wire: Wire {
                link,
                heard: ReplyBuf::new(alloc),
                piece: [0; PIECE],
                alloc,
            },
            tags: 0,
            transcript: Transcript::new(),
            is_ready: false,
        }
    }

    /// A session over the link, in a new connection, whose greeting was heard. Beside a fault the link comes back.
    ///
    /// `Stopped`: the link stops, the bytes end, or the server greets with `* BYE`. `Protocol`: it greets with anything
    /// else than `* OK`. `TooLong`, `NoMemory`.
    pub fn open(alloc: Global, link: L) -> Result<Session<L>, (FarFault, L)>
        ensures ok { IfOk result (λ s. (L.honest s.wire.link → L.honest link) × Opened (L.stops link) (state_of s)) }
        ensures server { IfOk result (λ s. L.honest s.wire.link → Restarts (reported_server (L.line link)) (server_of s)) }
        ensures err { IfErr result (λ e. (L.honest e.1 → L.honest link) × IsHearing e.0 × (L.stops link ≤ L.stops e.1)) }
        ensures left { IfErr result (λ e. L.honest e.1 → Outcome (λ (_ : Unit {0}). Restarts) Never Restarts (Err e.0)
            (reported_server (L.line link)) (reported_server (L.line e.1))) }
    {
        let mut session = Session::closed(alloc, link);
        match session.reconnect() {
            Ok(()) => Ok(session),
            Err(fault) => Err((fault, session.into_link())),
        }
    }

    /// Starts a new connection and hears its greeting. Tags begin anew, and nobody is logged in.
    ///
    /// Faults as of `open`. After each the session has failed.
    pub fn reconnect(&mut self) -> Result<(), FarFault>
        ensures was_honest { L.honest self.new.wire.link → L.honest self.old.wire.link }
        ensures letters { L.honest self.new.wire.link → KeepsMap (server_of self.old) (server_of self.new) }
        ensures ready { OnOk result (Opened (L.stops self.old.wire.link) (state_of self.new)) }
        ensures outcome { L.honest self.new.wire.link → Outcome (λ _. Restarts) Never Restarts result (server_of self.old) (server_of self.new) }
        ensures known { IfErr result IsHearing }
        ensures failed { OnErr result (self.new.is_ready ≡ false) }
        ensures counts { L.stops self.old.wire.link ≤ L.stops self.new.wire.link }
        ensures stopped { IsErrOf result FarFault.Stopped → SendStops (tag_text 1) (state_of self.old) (state_of self.new) }
    {
        self.is_ready = false;
        self.tags = 0;
        let tag = tag_of(self.wire.alloc, 1)?;
        self.wire.connect(&tag)?;
        self.is_ready = true;
        Ok(())
    }

    /// Whether it goes on: it was connected, and no call has failed since but with `Refused` or `ReadOnly`.
    pub fn is_ready(&self) -> bool
        ensures { result ≡ self.now.is_ready }
    {
        self.is_ready
    }

    /// The link below.
    pub fn link(&self) -> &L
        ensures { result.now ≡ self.now.wire.link }
    {
        &self.wire.link
    }

    /// Gives the link back, without taking memory.
    pub fn into_link(self) -> L
        ensures { result ≡ self.wire.link }
    {
        let Session { wire, .. } = self;
        let Wire { link, .. } = wire;
        link
    }

    // A call begins: the session counts as failed until it has ended well.
    pub(crate) fn begin(&mut self) -> Result<(), FarFault>
        ensures same { (self.new.wire ≡ self.old.wire) × (self.new.tags ≡ self.old.tags) }
        ensures transcript { self.new.transcript ≡ self.old.transcript }
        ensures begun { self.new.is_ready ≡ false }
        ensures stuck { self.old.is_ready ≡ false → self.new ≡ self.old }
        ensures ready { OnOk result (self.old.is_ready ≡ true) }
        ensures failed { IfErr result (λ fault. (fault ≡ FarFault.Stopped) × (self.old.is_ready ≡ false)) }
        ensures idle { OnOk result (L.honest self.new.wire.link → IsStill (ends_of (L.line self.new.wire.link) self.new.wire.heard.unread)) }
    {
        if !self.is_ready {
            return Err(FarFault::Stopped);
        }
        self.is_ready = false;
        Ok(())
    }

    // The next tag. `Stopped`: there is none left.
    pub(crate) fn next_tag(&mut self) -> Result<Tag, FarFault>
        ensures same { (self.new.wire ≡ self.old.wire) × (self.new.is_ready ≡ self.old.is_ready) }
        ensures transcript { self.new.transcript ≡ self.old.transcript }
        ensures tag { IfOk result (λ tag. (tag ≡ tag_text (self.old.tags + 1)) × (self.new.tags ≡ self.old.tags + 1)) }
        ensures stopped { IsErrOf result FarFault.Stopped → (self.old.tags ≡ 18446744073709551615) × (self.new.tags ≡ self.old.tags) }
        ensures err { IfErr result (λ fault. (fault ≡ FarFault.Stopped) ⊎ (fault ≡ FarFault.NoMemory)) }
    {
        let Some(tags) = self.tags.checked_add(1) else {
            return Err(FarFault::Stopped);
        };
        self.tags = tags;
        let tag = tag_of(self.wire.alloc, tags)?;
        Ok(tag)
    }

    // The command with the next tag. `Stopped`: there is none left.
    pub(crate) fn command(&mut self, request: Request) -> Result<Command, FarFault>
        ensures same { (self.new.wire ≡ self.old.wire) × (self.new.is_ready ≡ self.old.is_ready) }
        ensures transcript { self.new.transcript ≡ self.old.transcript }
        ensures command { IfOk result (λ c. (c ≡ command_at (self.old.tags + 1) request) × (self.new.tags ≡ self.old.tags + 1)) }
        ensures stopped { IsErrOf result FarFault.Stopped → (self.old.tags ≡ 18446744073709551615) × (self.new.tags ≡ self.old.tags) }
        ensures err { IfErr result (λ fault. (fault ≡ FarFault.Stopped) ⊎ (fault ≡ FarFault.NoMemory)) }
    {
        let tag = self.next_tag()?;
        Ok(Command { tag, request })
    }

    // Sends a command of one line and waits for its answer, which was read then. The sink takes what is reported about messages.
    fn send<S: ReplySink>(&mut self, command: &Command, sink: &mut S) -> Result<Status, FarFault>
        requires plain { IsPlain command.now.request }
        requires stays { is_logout command.now.request ≡ false }
        requires begun { self.old.is_ready ≡ false }
        requires idle { L.honest self.old.wire.link → IsStill (ends_of (L.line self.old.wire.link) self.old.wire.heard.unread) }
        ensures was_honest { L.honest self.new.wire.link → L.honest self.old.wire.link }
        ensures counts { L.stops self.old.wire.link ≤ L.stops self.new.wire.link }
        ensures tags { self.new.tags ≡ self.old.tags }
        ensures sent { SentSo command.now.tag (state_of self.old) (state_of self.new) result }
        ensures outcome { L.honest self.new.wire.link → Among L.visitors (AnsweredSo command.now (λ reported. S.took sink.old reported sink.new) result
            self.new.wire.heard.read) (server_of self.old) (server_of self.new) }
        ensures idle { OnOk result (L.honest self.new.wire.link → IsStill (ends_of (L.line self.new.wire.link) self.new.wire.heard.unread)) }
        ensures answer { IfOk result (λ status. IsAnswerText command.now.tag status self.new.wire.heard.read) }
        ensures heard { EndsBy (of_any self.new.wire.heard.read) result self.old.transcript self.new.transcript }
    {
        let text = text_of(self.wire.alloc, command)?;
        let uses = Uses::of(&command.request);
        let status = self.wire.finish(&command.tag, &text, false, uses, sink)?;
        self.transcript.note(&self.wire.heard);
        Ok(status)
    }

    // What the status of an answer makes of it: after NO the session goes on.
    pub(crate) fn judge(&mut self, status: Status) -> Result<(), FarFault>
        requires begun { self.old.is_ready ≡ false }
        requires idle { L.honest self.old.wire.link → IsStill (ends_of (L.line self.old.wire.link) self.old.wire.heard.unread) }
        ensures wire { self.new.wire ≡ self.old.wire }
        ensures tags { self.new.tags ≡ self.old.tags }
        ensures judged { Judged status self.new.is_ready result }
        ensures transcript { self.new.transcript ≡ self.old.transcript }
    {
        match status {
            Status::Ok => Ok(()),
            Status::No => {
                self.is_ready = true;
                Err(FarFault::Refused)
            }
            Status::Bad => Err(FarFault::Protocol),
        }
    }

    // Sends the command with the next tag, and waits for its answer.
    fn exchange<S: ReplySink>(&mut self, request: Request, sink: &mut S) -> Result<Status, FarFault>
        requires plain { IsPlain request }
        requires stays { is_logout request ≡ false }
        requires begun { self.old.is_ready ≡ false }
        requires idle { L.honest self.old.wire.link → IsStill (ends_of (L.line self.old.wire.link) self.old.wire.heard.unread) }
        ensures was_honest { L.honest self.new.wire.link → L.honest self.old.wire.link }
        ensures letters { L.honest self.new.wire.link → KeepsMap (server_of self.old) (server_of self.new) }
        ensures stays_in { L.honest self.new.wire.link → StaysIn (server_of self.old) (server_of self.new) }
        ensures counts { L.stops self.old.wire.link ≤ L.stops self.new.wire.link }
        ensures asked { ExchangedSo (state_of self.old) (state_of self.new) result }
        ensures outcome { L.honest self.new.wire.link → Among L.visitors (AnsweredSo (command_at (self.old.tags + 1) request)
            (λ reported. S.took sink.old reported sink.new) result self.new.wire.heard.read) (server_of self.old) (server_of self.new) }
        ensures idle { OnOk result (L.honest self.new.wire.link → IsStill (ends_of (L.line self.new.wire.link) self.new.wire.heard.unread)) }
        ensures answer { IfOk result (λ status. IsAnswerText (tag_text self.new.tags) status self.new.wire.heard.read) }
        ensures heard { EndsBy (of_any self.new.wire.heard.read) result self.old.transcript self.new.transcript }
    {
        let command = self.command(request)?;
        self.send(&command, sink)
    }

    /// Begins a call that sends this: sends it and waits for its answer, whatever its status. What was read then is the replies
    /// that the call keeps, and the tagged one; the sink has taken what is reported about messages. The session counts as failed until
    /// `done`.
    pub(crate) fn ask_status<S: ReplySink>(
        &mut self,
        call: &Call<'_>,
        sink: &mut S,
    ) -> Result<Status, FarFault>
        requires { CanAsk call.now }
        ensures was_honest { L.honest self.new.wire.link → L.honest self.old.wire.link }
        ensures letters { L.honest self.new.wire.link → KeepsMap (server_of self.old) (server_of self.new) }
        ensures stays_in { L.honest self.new.wire.link → StaysIn (server_of self.old) (server_of self.new) }
        ensures counts { L.stops self.old.wire.link ≤ L.stops self.new.wire.link }
        ensures stuck { self.old.is_ready ≡ false → self.new ≡ self.old }
        ensures asked { AskedSo (state_of self.old) (state_of self.new) result }
        ensures outcome { L.honest self.new.wire.link → Among L.visitors (AnsweredSo (command_at (self.old.tags + 1) (request_of call.now))
            (λ reported. S.took sink.old reported sink.new) result self.new.wire.heard.read) (server_of self.old) (server_of self.new) }
        ensures idle { OnOk result (L.honest self.new.wire.link → IsStill (ends_of (L.line self.new.wire.link) self.new.wire.heard.unread)) }
        ensures answer { IfOk result (λ status. IsAnswerText (tag_text self.new.tags) status self.new.wire.heard.read) }
        ensures heard { EndsBy (of_any self.new.wire.heard.read) result self.old.transcript self.new.transcript }
    {
        self.begin()?;
        let request = call.request(self.wire.alloc)?;
        self.exchange(request, sink)
    }

    /// The same, where an answer that is not OK is a fault.
    pub(crate) fn ask_into<S: ReplySink>(
        &mut self,
        call: &Call<'_>,
        sink: &mut S,
    ) -> Result<(), FarFault>
        requires { CanAsk call.now }
        ensures was_honest { L.honest self.new.wire.link → L.honest self.old.wire.link }
        ensures letters { L.honest self.new.wire.link → KeepsMap (server_of self.old) (server_of self.new) }
        ensures stays_in { L.honest self.new.wire.link → StaysIn (server_of self.old) (server_of self.new) }
        ensures counts { L.stops self.old.wire.link ≤ L.stops self.new.wire.link }
        ensures stuck { self.old.is_ready ≡ false → self.new ≡ self.old }
        ensures asked { AskedSo (state_of self.old) (state_of self.new) result }
        ensures outcome { L.honest self.new.wire.link → Among L.visitors (Exchanged (command_at (self.old.tags + 1) (request_of call.now))
            (λ reported. S.took sink.old reported sink.new) result self.new.wire.heard.read) (server_of self.old) (server_of self.new) }
        ensures idle { OnOk result (L.honest self.new.wire.link → IsStill (ends_of (L.line self.new.wire.link) self.new.wire.heard.unread)) }
        ensures answer { OnOk result (IsAnswerText (tag_text self.new.tags) statuses.Ok self.new.wire.heard.read) }
        ensures heard { EndsBy (of_command (self.old.tags + 1) self.new.wire.heard.read) result self.old.transcript self.new.transcript }
    {
        let status = self.ask_status(call, sink)?;
        self.judge(status)
    }

    /// The same, where the replies go to no sink.
    pub(crate) fn ask(&mut self, call: &Call<'_>) -> Result<(), FarFault>
        requires { CanAsk call.now }
        ensures was_honest { L.honest self.new.wire.link → L.honest self.old.wire.link }
        ensures letters { L.honest self.new.wire.link → KeepsMap (server_of self.old) (server_of self.new) }
        ensures stays_in { L.honest self.new.wire.link → StaysIn (server_of self.old) (server_of self.new) }
        ensures counts { L.stops self.old.wire.link ≤ L.stops self.new.wire.link }
        ensures stuck { self.old.is_ready ≡ false → self.new ≡ self.old }
        ensures asked { AskedSo (state_of self.old) (state_of self.new) result }
        ensures outcome { L.honest self.new.wire.link → Among L.visitors (Exchanged (command_at (self.old.tags + 1) (request_of call.now)) any_replies
            result self.new.wire.heard.read) (server_of self.old) (server_of self.new) }
        ensures idle { OnOk result (L.honest self.new.wire.link → IsStill (ends_of (L.line self.new.wire.link) self.new.wire.heard.unread)) }
        ensures answer { OnOk result (IsAnswerText (tag_text self.new.tags) statuses.Ok self.new.wire.heard.read) }
        ensures heard { EndsBy (of_command (self.old.tags + 1) self.new.wire.heard.read) result self.old.transcript self.new.transcript }
    {
        self.ask_into(call, &mut NoSink {})
    }

    /// Ends a call. What was read of its answer stays until the next command is sent.
    pub(crate) fn done(&mut self)
        requires idle { L.honest self.old.wire.link → IsStill (ends_of (L.line self.old.wire.link) self.old.wire.heard.unread) }
        ensures wire { self.new.wire ≡ self.old.wire }
        ensures ready { self.new.is_ready ≡ true }
        ensures tags { self.new.tags ≡ self.old.tags }
        ensures transcript { self.new.transcript ≡ self.old.transcript }
    {
        self.is_ready = true;
    }
}
