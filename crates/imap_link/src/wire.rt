//! What is heard over a link, kept in a buffer, and commands that are sent over it.

ghost use Rattle.std.specs.Prelude.{◌≡◌, ◌<◌, ◌≤◌, ◌⊎◌, ◌++◌, ◌∷◌, ℕ, List, [], length, max, IfOk, IfErr, OnOk, IsErrOf, if◌then◌else◌};
ghost use Rattle.mailcore.specs.CopyPieces.{text_left};
ghost use Rattle.wire_reader.specs.Spelling.{crlf};
ghost use Rattle.imap_replies.specs.declared.reply.Reply.{Reply};
ghost use Rattle.imap_session.specs.Servers.{Quiet};
ghost use Rattle.imap_session.specs.Lines.{reported_server};
ghost use Rattle.imap_session.specs.Ends.{IsIdle};
ghost use Rattle.imap_link.specs.ReplyBuffers.{held_in, drops_last};
ghost use Rattle.imap_link.specs.Fronts.{IsFaulty};
ghost use Rattle.imap_link.specs.Faults.{IsStop, IsHearing};
ghost use Rattle.imap_link.specs.Buffers.{Reads, GoesOn, Keeps, Reports, SaysBye, Expects, IsAnswerText, Came, IsReported, Following, IsBounded};
ghost use Rattle.imap_link.specs.Sinks.{TakesReply, any_replies};
ghost use Rattle.imap_link.specs.UsedReplies.{answer_alone};
ghost use Rattle.imap_link.specs.Outcomes.{Outcome, Never};
ghost use Rattle.imap_link.specs.Exchanges.{Exchanges, StaysIdle, AsksFor, Restarts};
ghost use Rattle.imap_link.specs.Sending.{AfterVisits};
ghost use Rattle.imap_link.specs.Wires.{ends_in, HearsWhole};

use crate::fault::FarFault;
use crate::kind::{ReplyKind, kind_of};
use crate::link::Link;
use crate::reply_buf::ReplyBuf;
use crate::sink::{NoSink, ReplySink};
use crate::uses::Uses;
use imap_replies::word::Status;
use mailcore::copy_pieces::CopyPieces;
use std::alloc::Global;
use wire_reader::answer::Read;
use wire_tokens::tag::Tag;

/// At most so many bytes are asked of a link at once.
pub const PIECE: usize = 4096;

/// What a sender waits for. It is the last reply of those that were read.
#[derive(Clone, Copy, PartialEq, Eq)]
pub enum LastReply {
    /// The tagged reply to the command.
    Answer(Status),
    /// `+`: the literal of the command is asked for.
    Go,
}

/// A link, and what came over it that was not dropped yet.
///
/// The replies to a command stay in the part of the buffer that was read until the next command is sent: those that its call keeps, and
/// the last one. The others are dropped once they were heard.
#[derive(Drop)]
pub struct Wire<L: Link> {
    /// The link.
    pub link: L,
    /// What came.
    pub heard: ReplyBuf,
    /// Where the link writes what comes next, so that it need not be cleared each time.
    pub piece: [u8; PIECE],
    /// Where memory is taken.
    pub alloc: Global,
}

impl<L: Link> Wire<L> {
    /// Waits for more bytes.
    fn more(&mut self) -> Result<(), FarFault>
        ensures was_honest { L.honest self.new.link → L.honest self.old.link }
        ensures counts { L.stops self.old.link ≤ L.stops self.new.link }
        ensures steady { OnOk result (L.stops self.new.link ≡ L.stops self.old.link) }
        ensures quiet { L.honest self.new.link → Quiet (L.line self.old.link).end.server (L.line self.new.link).end.server }
        ensures same { OnOk result (L.honest self.new.link → Keeps (ends_in L.line self.old) (ends_in L.line self.new)) }
        ensures read { self.new.heard.read ≡ self.old.heard.read }
        ensures grows { (bytes : List ℕ) × (length bytes ≤ 4096) × (self.new.heard.unread ≡ self.old.heard.unread ++ bytes) }
        ensures fault { IfErr result IsStop }
        ensures stopped { IsErrOf result FarFault.Stopped → L.stops self.old.link < L.stops self.new.link }
    {
        let count = self.link.recv(&mut self.piece)?;
        if count == 0 {
            return Err(FarFault::Stopped);
        }
        self.heard.put(&self.piece[..count])?;
        Ok(())
    }

    #[tactic(auto, using(crate::proofs::Late::late_more))]
    /// Waits until a whole reply was read; returns its length.
    fn whole(&mut self) -> Result<usize, FarFault>
        ensures was_honest { L.honest self.new.link → L.honest self.old.link }
        ensures counts { L.stops self.old.link ≤ L.stops self.new.link }
        ensures steady { OnOk result (L.stops self.new.link ≡ L.stops self.old.link) }
        ensures quiet { L.honest self.new.link → Quiet (L.line self.old.link).end.server (L.line self.new.link).end.server }
        ensures late { Following self.old.heard.read (max 4096 (length self.old.heard.unread)) (held_in self.new.heard) }
        ensures heard { IfOk result (λ len. HearsWhole L.honest L.line len self.old self.new) }
        ensures fault { IfErr result (λ fault. L.honest self.new.link → IsStop fault ⊎ IsFaulty (ends_in L.line self.old).coming) }
        ensures known { IfErr result IsHearing }
        ensures stopped { IsErrOf result FarFault.Stopped → L.stops self.old.link < L.stops self.new.link }
    {
        for _ in 0..u64::MAX {
            match self.heard.step()? {
                Read::Whole((), len) => return Ok(len),
                _ => self.more()?,
            }
        }
        Err(FarFault::NoMemory)
    }

    /// Waits until a whole reply was read, and has it taken; returns its kind, whether the call keeps it, and its length.
    fn hear<S: ReplySink>(
        &mut self,
        tag: &Tag,
        uses: Uses,
        sink: &mut S,
    ) -> Result<(ReplyKind, bool, usize), FarFault>
        ensures was_honest { L.honest self.new.link → L.honest self.old.link }
        ensures counts { L.stops self.old.link ≤ L.stops self.new.link }
        ensures steady { OnOk result (L.stops self.new.link ≡ L.stops self.old.link) }
        ensures quiet { L.honest self.new.link → Quiet (L.line self.old.link).end.server (L.line self.new.link).end.server }
        ensures late { Following self.old.heard.read (max 4096 (length self.old.heard.unread)) (held_in self.new.heard) }
        ensures heard { IfOk result (λ r. Reads uses tag.now r.0 r.1 r.2
            (λ reply. TakesReply S.took reply sink.old sink.new)
            (λ text. L.honest self.new.link → GoesOn (ends_in L.line self.old) (ends_in L.line self.new) text)
            self.old.heard.read self.new.heard.read) }
        ensures fault { IfErr result (λ fault. L.honest self.new.link → IsStop fault ⊎ IsFaulty (ends_in L.line self.old).coming) }
        ensures known { IfErr result IsHearing }
        ensures stopped { IsErrOf result FarFault.Stopped → L.stops self.old.link < L.stops self.new.link }
    {
        let len = self.whole()?;
        let reply = self.heard.last(len)?;
        sink.take(&reply)?;
        Ok((kind_of(&reply, tag), uses.takes(&reply), len))
    }

    /// Waits until what a sender waits for was read, after those of the replies before it that the call keeps. `* BYE` is skipped if the
    /// command ends the connection; otherwise it is a stop.
    fn wait<S: ReplySink>(
        &mut self,
        tag: &Tag,
        ends: bool,
        uses: Uses,
        sink: &mut S,
    ) -> Result<LastReply, FarFault>
        requires forgotten { self.old.heard.read ≡ [] }
        ensures was_honest { L.honest self.new.link → L.honest self.old.link }
        ensures counts { L.stops self.old.link ≤ L.stops self.new.link }
        ensures steady { OnOk result (L.stops self.new.link ≡ L.stops self.old.link) }
        ensures quiet { L.honest self.new.link → Quiet (L.line self.old.link).end.server (L.line self.new.link).end.server }
        ensures reported { IfOk result (λ reported. Reports tag.now self.new.heard.read reported) }
        ensures came { IfOk result (λ reported. Came uses (λ reported. S.took sink.old reported sink.new)
            (IsReported tag.now reported) self.new.heard.read (λ text. L.honest self.new.link → GoesOn (ends_in L.line self.old) (ends_in L.line self.new) text)) }
        ensures fault { IfErr result (λ fault. L.honest self.new.link → Expects tag.now (ends_in L.line self.old).coming → IsStop fault) }
        ensures bounded { IsBounded uses (max 4096 (length self.old.heard.unread)) self.new.heard }
        ensures known { IfErr result IsHearing }
        ensures stopped { IsErrOf result FarFault.Stopped → (L.stops self.old.link < L.stops self.new.link) ⊎ SaysBye tag.now self.new.heard.read }
    {
        for _ in 0..u64::MAX {
            let (kind, is_used, len) = self.hear(tag, uses, sink)?;
            match kind {
                ReplyKind::Hello | ReplyKind::Passed => keep_or_drop(&mut self.heard, is_used, len),
                ReplyKind::Bye => {
                    if !ends {
                        return Err(FarFault::Stopped);
                    }
                    keep_or_drop(&mut self.heard, is_used, len);
                }
                ReplyKind::Go => return Ok(LastReply::Go),
                ReplyKind::Mine(status) => return Ok(LastReply::Answer(status)),
                ReplyKind::Stray => return Err(FarFault::Protocol),
            }
        }
        Err(FarFault::NoMemory)
    }

    /// Sends what is missing of a command, and waits for the replies to it. What was read then is those that the call keeps, and the tagged
    /// one; the sink has taken what is reported about messages. Returns how the command ended.
    ///
    /// `Protocol`: the server asks for a literal where none waits, too.
    pub fn finish<S: ReplySink>(
        &mut self,
        tag: &Tag,
        rest: &[u8],
        ends: bool,
        uses: Uses,
        sink: &mut S,
    ) -> Result<Status, FarFault>
        ensures was_honest { L.honest self.new.link → L.honest self.old.link }
        ensures counts { L.stops self.old.link ≤ L.stops self.new.link }
        ensures steady { OnOk result (L.stops self.new.link ≡ L.stops self.old.link) }
        ensures outcome { L.honest self.new.link → AfterVisits L.visitors
            (λ line. Exchanges uses tag.now rest.now (λ reported. S.took sink.old reported sink.new) result
            line self.old.heard.unread (L.line self.new.link) self.new.heard.read) (L.line self.old.link) }
        ensures idle { OnOk result (L.honest self.new.link → StaysIdle uses tag.now rest.now
            (L.line self.old.link) self.old.heard.unread (L.line self.new.link) self.new.heard.unread) }
        ensures answer { IfOk result (λ status. IsAnswerText tag.now status self.new.heard.read) }
        ensures bounded { IsBounded uses (max 4096 (length self.old.heard.unread)) self.new.heard }
        ensures known { IfErr result IsHearing }
        ensures stopped { IsErrOf result FarFault.Stopped → (L.stops self.old.link < L.stops self.new.link) ⊎ SaysBye tag.now self.new.heard.read }
    {
        self.heard.forget();
        self.link.send(rest)?;
        match self.wait(tag, ends, uses, sink)? {
            LastReply::Answer(status) => Ok(status),
            LastReply::Go => Err(FarFault::Protocol),
        }
    }

    /// Sends a copy that a command waits for, and the end of the command, and waits for the replies to it, as `finish` does.
    pub fn finish_copy(
        &mut self,
        tag: &Tag,
        copy: CopyPieces<'_>,
        uses: Uses,
    ) -> Result<Status, FarFault>
        ensures was_honest { L.honest self.new.link → L.honest self.old.link }
        ensures counts { L.stops self.old.link ≤ L.stops self.new.link }
        ensures steady { OnOk result (L.stops self.new.link ≡ L.stops self.old.link) }
        ensures outcome { L.honest self.new.link → AfterVisits L.visitors
            (λ line. Exchanges uses tag.now (text_left copy.entry ++ crlf) any_replies result
            line self.old.heard.unread (L.line self.new.link) self.new.heard.read) (L.line self.old.link) }
        ensures idle { OnOk result (L.honest self.new.link → StaysIdle uses tag.now (text_left copy.entry ++ crlf)
            (L.line self.old.link) self.old.heard.unread (L.line self.new.link) self.new.heard.unread) }
        ensures answer { IfOk result (λ status. IsAnswerText tag.now status self.new.heard.read) }
        ensures bounded { IsBounded uses (max 4096 (length self.old.heard.unread)) self.new.heard }
        ensures known { IfErr result IsHearing }
        ensures stopped { IsErrOf result FarFault.Stopped → (L.stops self.old.link < L.stops self.new.link) ⊎ SaysBye tag.now self.new.heard.read }
    {
        self.heard.forget();
        self.link.send_copy(self.alloc, copy)?;
        match self.wait(tag, false, uses, &mut NoSink {})? {
            LastReply::Answer(status) => Ok(status),
            LastReply::Go => Err(FarFault::Protocol),
        }
    }

    /// Sends the front of a command, up to where its literal is asked for, and waits for `+`, or for the reply to the
    /// command.
    pub fn ask(&mut self, tag: &Tag, front: &[u8]) -> Result<LastReply, FarFault>
        ensures was_honest { L.honest self.new.link → L.honest self.old.link }
        ensures counts { L.stops self.old.link ≤ L.stops self.new.link }
        ensures steady { OnOk result (L.stops self.new.link ≡ L.stops self.old.link) }
        ensures outcome { L.honest self.new.link → AfterVisits L.visitors (λ line. AsksFor front.now result
            line self.old.heard.unread (L.line self.new.link) self.new.heard.unread) (L.line self.old.link) }
        ensures reported { IfOk result (λ reported. Reports tag.now self.new.heard.read reported) }
        ensures bounded { IsBounded answer_alone (max 4096 (length self.old.heard.unread)) self.new.heard }
        ensures known { IfErr result IsHearing }
        ensures stopped { IsErrOf result FarFault.Stopped → (L.stops self.old.link < L.stops self.new.link) ⊎ SaysBye tag.now self.new.heard.read }
    {
        self.heard.forget();
        self.link.send(front)?;
        self.wait(tag, false, Uses::answer_alone(), &mut NoSink {})
    }

    /// Starts a new connection and hears its greeting, `* OK`. What an earlier connection left is dropped.
    ///
    /// The tag is one that the connection has not used. `Stopped`: the server greets with `* BYE`, too. `Protocol`: it
    /// greets with something else (RFC 9051, section 7.1; `* PREAUTH` is refused too).
    pub fn connect(&mut self, tag: &Tag) -> Result<(), FarFault>
        ensures was_honest { L.honest self.new.link → L.honest self.old.link }
        ensures counts { L.stops self.old.link ≤ L.stops self.new.link }
        ensures steady { OnOk result (L.stops self.new.link ≡ L.stops self.old.link) }
        ensures outcome { L.honest self.new.link → Outcome (λ _. Restarts) Never Restarts result
            (reported_server (L.line self.old.link)) (reported_server (L.line self.new.link)) }
        ensures idle { OnOk result (L.honest self.new.link → IsIdle (ends_in L.line self.new)) }
        ensures known { IfErr result IsHearing }
        ensures stopped { IsErrOf result FarFault.Stopped → (L.stops self.old.link < L.stops self.new.link) ⊎ SaysBye tag.now self.new.heard.read }
    {
        self.heard = ReplyBuf::new(self.alloc);
        self.link.reconnect()?;
        let (kind, _, _) = self.hear(tag, Uses::answer_alone(), &mut NoSink {})?;
        match kind {
            ReplyKind::Hello => Ok(()),
            ReplyKind::Bye => Err(FarFault::Stopped),
            _ => Err(FarFault::Protocol),
        }
    }
}

/// The last reply that was read, of so many bytes, is kept, or dropped.
fn keep_or_drop(heard: &mut ReplyBuf, is_kept: bool, len: usize)
    requires { len ≤ length heard.old.read }
    ensures { heard.new ≡ (if is_kept then heard.old else drops_last len heard.old) }
{
    if !is_kept {
        heard.drop_last(len);
    }
}
