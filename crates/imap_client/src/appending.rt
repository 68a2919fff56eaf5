//! Messages are added to a far mailbox (RFC 9051, section 6.3.12).

ghost use Rattle.std.specs.Prelude.{◌≡◌, ◌≤◌, ◌+◌, ◌++◌, ℕ, List, Some, true, false, IfOk, IfErr, OnErr, OnOk};
ghost use Rattle.mailcore.specs.CopyPieces.{text_left};
ghost use Rattle.mailcore.specs.KeywordNames.{kept};
ghost use Rattle.wire_reader.specs.Spelling.{crlf};
ghost use Rattle.imap_commands.specs.declared.command.Command.{Command};
ghost use Rattle.imap_commands.specs.Messages.{IsMessage};
ghost use Rattle.imap_replies.specs.declared.reply.Reply.{Reply};
ghost use Rattle.imap_replies.specs.declared.word.Status.TheVariants as statuses;
ghost use Rattle.imap_session.specs.Heard.{AreReplies};
ghost use Rattle.imap_session.specs.Mailboxes.{FarMailbox};
ghost use Rattle.imap_session.specs.Servers.{selected};
ghost use Rattle.imap_session.specs.Visits.{Among};
ghost use Rattle.imap_session.specs.Ends.{ends_of};
ghost use Rattle.imap_link.specs.Buffers.{IsAnswerText};
ghost use Rattle.imap_link.specs.Outcomes.{Outcome};
ghost use Rattle.imap_link.specs.Sinks.{any_replies};
ghost use Rattle.imap_link.specs.Sending.{AfterVisits};
ghost use Rattle.imap_client.specs.Appending.{Adds, AddsSome, NoUidLeft, next_known, CanAdd, request_to_add, InTwo, IsInTwo, IsFront, WaitsOr};
ghost use Rattle.imap_client.specs.Boxes.{IsSelected};
ghost use Rattle.imap_client.specs.Seen.{HasMap, KeepsMap, flags_sent};
ghost use Rattle.imap_client.specs.Exchanged.{command_at, Exchanged};
ghost use Rattle.imap_answers.specs.Given.{given_in};
ghost use Rattle.imap_answers.specs.Spoken.{Speaks};
ghost use Rattle.imap_client.specs.States.{EndsSo, SentSo, AskedSo};
ghost use Rattle.imap_client.specs.Stillness.{IsStill};
ghost use Rattle.imap_client.specs.Tags.{tag_text};

use crate::addition::Addition;
use crate::far_box::FarBox;
use crate::session::Session;
use imap_answers::given::{Given, given_in, uid_reported};
use imap_answers::reading::read_replies;
use imap_link::fault::FarFault;
use imap_link::link::Link;
use imap_link::uses::Uses;
use imap_link::wire::LastReply;
use mailcore::copy_pieces::CopyPieces;
use mailcore::flags::Flags;
use mailcore::uid::Uid;
use wire_tokens::tag::Tag;

impl<L: Link> Session<L> {
    ghost use Rattle.imap_client.specs.Sessions.{state_of, line_of, server_of};

    // Sends the front of a command, and waits until the server asks for its literal. If the server answers instead, it refuses the command
    // or breaks the protocol.
    fn offer(&mut self, tag: &Tag, front: &[u8]) -> Result<(), FarFault>
        requires front { IsFront tag.now front.now }
        requires begun { self.old.is_ready ≡ false }
        requires idle { L.honest self.old.wire.link → IsStill (ends_of (L.line self.old.wire.link) self.old.wire.heard.unread) }
        ensures was_honest { L.honest self.new.wire.link → L.honest self.old.wire.link }
        ensures counts { L.stops self.old.wire.link ≤ L.stops self.new.wire.link }
        ensures tags { self.new.tags ≡ self.old.tags }
        ensures sent { SentSo tag.now (state_of self.old) (state_of self.new) result }
        ensures outcome { L.honest self.new.wire.link → AfterVisits L.visitors (λ line. (rest : List ℕ) (c : Command)
            → InTwo tag.now front.now rest c → WaitsOr c front.now result line (line_of self.new) self.new.wire.heard.unread) (line_of self.old) }
    {
        match self.wire.ask(tag, front)? {
            LastReply::Go => Ok(()),
            LastReply::Answer(status) => {
                self.judge(status)?;
                Err(FarFault::Protocol)
            }
        }
    }

    // Sends a command in two parts, the second, a message and the line end, once it is asked for, and waits for its answer, which was
    // read then.
    fn deliver(&mut self, tag: &Tag, front: &[u8], octets: CopyPieces<'_>) -> Result<(), FarFault>
        requires parts { IsInTwo tag.now front.now (text_left octets ++ crlf) }
        requires begun { self.old.is_ready ≡ false }
        requires idle { L.honest self.old.wire.link → IsStill (ends_of (L.line self.old.wire.link) self.old.wire.heard.unread) }
        ensures was_honest { L.honest self.new.wire.link → L.honest self.old.wire.link }
        ensures counts { L.stops self.old.wire.link ≤ L.stops self.new.wire.link }
        ensures tags { self.new.tags ≡ self.old.tags }
        ensures sent { SentSo tag.now (state_of self.old) (state_of self.new) result }
        ensures outcome { L.honest self.new.wire.link → (c : Command) → InTwo tag.now front.now (text_left octets.entry ++ crlf) c
            → Among L.visitors (Exchanged c any_replies result self.new.wire.heard.read) (server_of self.old) (server_of self.new) }
        ensures idle { OnOk result (L.honest self.new.wire.link → IsStill (ends_of (L.line self.new.wire.link) self.new.wire.heard.unread)) }
        ensures answer { OnOk result (IsAnswerText tag.now statuses.Ok self.new.wire.heard.read) }
    {
        self.offer(tag, front)?;
        let status = self.wire.finish_copy(tag, octets, Uses::answer_alone())?;
        self.judge(status)
    }

    // Begins a call that adds this: sends it and waits for its answer, which was read then. The session counts as failed
    // until `done`.
    fn ask_to_add(&mut self, addition: &Addition<'_>) -> Result<(), FarFault>
        requires { CanAdd addition.now }
        ensures was_honest { L.honest self.new.wire.link → L.honest self.old.wire.link }
        ensures letters { L.honest self.new.wire.link → KeepsMap (server_of self.old) (server_of self.new) }
        ensures counts { L.stops self.old.wire.link ≤ L.stops self.new.wire.link }
        ensures stuck { self.old.is_ready ≡ false → self.new ≡ self.old }
        ensures asked { AskedSo (state_of self.old) (state_of self.new) result }
        ensures outcome { L.honest self.new.wire.link → Among L.visitors (Exchanged (command_at (self.old.tags + 1)
            (request_to_add addition.now)) any_replies result self.new.wire.heard.read) (server_of self.old) (server_of self.new) }
        ensures idle { OnOk result (L.honest self.new.wire.link → IsStill (ends_of (L.line self.new.wire.link) self.new.wire.heard.unread)) }
        ensures answer { OnOk result (IsAnswerText (tag_text self.new.tags) statuses.Ok self.new.wire.heard.read) }
    {
        self.begin()?;
        let tag = self.next_tag()?;
        let front = addition.front(self.wire.alloc, &tag)?;
        self.deliver(&tag, &front, addition.octets)
    }

    // What the replies that were read report about a message that was added.
    fn given(&self) -> Result<Option<Given>, FarFault>
        requires { Speaks self.now.wire.heard.read }
        ensures reported { IfOk result (λ given. (rs : List Reply) → AreReplies rs self.now.wire.heard.read → given ≡ given_in rs) }
        ensures err { IfErr result (λ fault. fault ≡ FarFault.NoMemory) }
    {
        let replies = read_replies(self.wire.alloc, self.wire.heard.read_part())?;
        Ok(given_in(&replies))
    }

    // Adds this to the selected mailbox, which has this validity, and a next UID of at least this.
    fn add(
        &mut self,
        addition: &Addition<'_>,
        validity: u32,
        next: u32,
    ) -> Result<Option<Uid>, FarFault>
        requires { CanAdd addition.now }
        ensures was_honest { L.honest self.new.wire.link → L.honest self.old.wire.link }
        ensures letters { L.honest self.new.wire.link → KeepsMap (server_of self.old) (server_of self.new) }
        ensures counts { L.stops self.old.wire.link ≤ L.stops self.new.wire.link }
        ensures stuck { self.old.is_ready ≡ false → self.new ≡ self.old }
        ensures ends { EndsSo 1 (state_of self.old) (state_of self.new) result }
        ensures outcome { L.honest self.new.wire.link → Among L.visitors (λ s t. IsSelected addition.now.name.now validity next s
            → (m : FarMailbox) → selected s ≡ Some m
            → Outcome (Adds m (flags_sent addition.now.keywords.now addition.now.flags s) (text_left addition.now.octets)) (NoUidLeft m)
            (AddsSome m (flags_sent addition.now.keywords.now addition.now.flags s) (text_left addition.now.octets)) result s t)
            (server_of self.old) (server_of self.new) }
    {
        self.ask_to_add(addition)?;
        let given = self.given()?;
        let reported = uid_reported(given, validity, next)?;
        self.done();
        Ok(reported)
    }
}

impl<L: Link> FarBox<L> {
    ghost use Rattle.imap_client.specs.Sessions.{state_of, server_of};

    /// Adds a message of 1 to 16777238 bytes, none of them NUL, with those of these flags that have a name. Returns its UID if the server
    /// reports it.
    ///
    /// The server gets the message once it has asked for it. `Refused`: it has no UID left. `Protocol`: it says that the message was added
    /// before it has asked for it, or reports a UID of another UIDVALIDITY, or one that was given before, too.
    pub fn append(&mut self, bytes: &[u8], flags: Flags) -> Result<Option<Uid>, FarFault>
        requires { IsMessage bytes.now }
        ensures was_honest { L.honest self.new.session.wire.link → L.honest self.old.session.wire.link }
        ensures letters { L.honest self.new.session.wire.link → KeepsMap (server_of self.old.session) (server_of self.new.session) }
        ensures counts { L.stops self.old.session.wire.link ≤ L.stops self.new.session.wire.link }
        ensures stuck { self.old.session.is_ready ≡ false → self.new.session ≡ self.old.session }
        ensures ends { EndsSo 1 (state_of self.old.session) (state_of self.new.session) result }
        ensures same { (self.new.name ≡ self.old.name) × (self.new.validity ≡ self.old.validity)
            × (self.new.is_selected ≡ self.old.is_selected) }
        ensures keywords { self.new.keywords ≡ self.old.keywords }
        ensures next { IfOk result (λ reported. self.new.next ≡ next_known self.old.next reported) }
        ensures unknown { OnErr result (self.new.next ≡ self.old.next) }
        ensures outcome { L.honest self.new.session.wire.link → HasMap self.old.keywords (server_of self.old.session) → self.old.is_selected ≡ true
            → Among L.visitors (λ s t. (m : FarMailbox) → selected s ≡ Some m → Outcome (Adds m (kept self.old.keywords flags) bytes.now) (NoUidLeft m)
            (AddsSome m (kept self.old.keywords flags) bytes.now) result s t)
            (server_of self.old.session) (server_of self.new.session) }
    {
        self.append_copy(CopyPieces::whole(bytes), flags)
    }

    /// Adds a copy as `append` adds a message. Its text is not held whole.
    pub fn append_copy(
        &mut self,
        copy: CopyPieces<'_>,
        flags: Flags,
    ) -> Result<Option<Uid>, FarFault>
        requires { IsMessage (text_left copy) }
        ensures was_honest { L.honest self.new.session.wire.link → L.honest self.old.session.wire.link }
        ensures letters { L.honest self.new.session.wire.link → KeepsMap (server_of self.old.session) (server_of self.new.session) }
        ensures counts { L.stops self.old.session.wire.link ≤ L.stops self.new.session.wire.link }
        ensures stuck { self.old.session.is_ready ≡ false → self.new.session ≡ self.old.session }
        ensures ends { EndsSo 1 (state_of self.old.session) (state_of self.new.session) result }
        ensures same { (self.new.name ≡ self.old.name) × (self.new.validity ≡ self.old.validity)
            × (self.new.is_selected ≡ self.old.is_selected) }
        ensures keywords { self.new.keywords ≡ self.old.keywords }
        ensures next { IfOk result (λ reported. self.new.next ≡ next_known self.old.next reported) }
        ensures unknown { OnErr result (self.new.next ≡ self.old.next) }
        ensures outcome { L.honest self.new.session.wire.link → HasMap self.old.keywords (server_of self.old.session) → self.old.is_selected ≡ true
            → Among L.visitors (λ s t. (m : FarMailbox) → selected s ≡ Some m
            → Outcome (Adds m (kept self.old.keywords flags) (text_left copy.entry)) (NoUidLeft m)
            (AddsSome m (kept self.old.keywords flags) (text_left copy.entry)) result s t)
            (server_of self.old.session) (server_of self.new.session) }
    {
        let addition = Addition {
            name: &self.name,
            flags,
            keywords: &self.keywords,
            octets: copy,
        };
        let reported = self.session.add(&addition, self.validity, self.next)?;
        if let Some(uid) = reported {
            self.next = uid.get() + 1;
        }
        Ok(reported)
    }
}
