//! Reading of commands from the bytes of a connection, in any pieces.

ghost use Rattle.std.specs.Prelude.{◌≡◌};

use crate::condition::ConnectionState;
use crate::dropped::Dropped;
use crate::fault::{LineFault, say_fault, tag_before};
use crate::line::LineBuf;
use crate::service::Service;
use crate::unread::Unread;
use crate::writing::{say_bye, say_go};
use imap_commands::command::Command;
use imap_commands::reading::read_command;
use std::alloc::AllocError;
use wire_reader::answer::{Read, WireFault};

impl Service {
    ghost use Rattle.std.specs.Prelude.{◌≡◌, ◌<◌, false, length, OnErr, IfOk};
    ghost use Rattle.wire_reader.specs.Scanning.{start, scanned};
    ghost use Rattle.imap_session.specs.Servers.{is_over};
    ghost use Rattle.imap_session.specs.Serving.{FeedsSome, ends};
    ghost use Rattle.imap_server.specs.declared.unread.Unread.TheVariants as kinds;
    ghost use Rattle.imap_server.specs.Unreads.{Waits, IsSound, IsNothing, end_of, fault_of};
    ghost use Rattle.imap_server.specs.Taking.{ReportsShort, reporting, Took, TookSome, AnswersPlace, DropsLine, dropped_answer};
    ghost use Rattle.imap_server.specs.Writing.{Answered, AnsweredBy};

    /// Reads bytes of the connection, and answers what they complete.
    ///
    /// `AllocError`: memory ran out; what was answered before is done.
    pub(crate) fn read(
        &mut self,
        unread: Unread,
        bytes: &[u8],
        out: &mut Vec<u8>,
    ) -> Result<Unread, AllocError>
        requires { IsSound self.old unread }
        ensures ok { IfOk result (λ after. Took (end_of self.old unread) bytes.now out.old.items out.new.items self.new after) }
        ensures err { OnErr result (FeedsSome (end_of self.old unread) bytes.now self.new) }
    {
        let mut unread = unread;
        let mut done = 0;
        while done < bytes.len() {
            let (after, count) = self.read_some(unread, &bytes[done..], out)?;
            unread = after;
            done += count;
        }
        Ok(unread)
    }

    /// Reads some of the bytes, and returns how many.
    fn read_some(
        &mut self,
        unread: Unread,
        bytes: &[u8],
        out: &mut Vec<u8>,
    ) -> Result<(Unread, usize), AllocError>
        requires sound { IsSound self.old unread }
        requires some { 0 < length bytes.now }
        ensures ok { IfOk result (λ r. TookSome (end_of self.old unread) bytes.now out.old.items out.new.items self.new r.0 r.1) }
        ensures err { OnErr result (self.new ≡ self.old) }
    {
        if self.is_over() {
            self.set_news(false);
            return Ok((unread, bytes.len()));
        }
        match unread {
            Unread::Line(line) => self.read_line(line, bytes, out),
            Unread::Dropped(dropped) => self.read_dropped(dropped, bytes, out),
        }
    }

    /// Reads some of the bytes after the begin of a line.
    fn read_line(
        &mut self,
        line: LineBuf,
        bytes: &[u8],
        out: &mut Vec<u8>,
    ) -> Result<(Unread, usize), AllocError>
        requires waits { Waits line.bytes.items line.scanner }
        requires some { 0 < length bytes.now }
        requires reads { is_over self.old.condition ≡ false }
        ensures ok { IfOk result (λ r. TookSome (end_of self.old (kinds.Line line)) bytes.now out.old.items out.new.items self.new r.0 r.1) }
        ensures err { OnErr result (self.new ≡ self.old) }
    {
        let mut line = line;
        match line.take(bytes)? {
            None => Ok((Unread::Line(line), bytes.len())),
            Some(count) => {
                let after = self.read_place(line, out)?;
                Ok((after, count))
            }
        }
    }

    /// Reads a line that ends with a place: a command, the begin of one, or a fault.
    fn read_place(&mut self, line: LineBuf, out: &mut Vec<u8>) -> Result<Unread, AllocError>
        requires { line.scanner ≡ scanned start line.bytes.items }
        ensures ok { IfOk result (λ after. AnswersPlace self.old line.bytes.items out.old.items out.new.items self.new after) }
        ensures err { OnErr result (self.new ≡ self.old) }
    {
        match read_command(self.alloc, line.bytes.as_slice()) {
            Ok(Read::Whole(command, _)) => self.answer_command(command, out),
            Ok(Read::WantsLiteral(_)) => {
                say_go(out)?;
                Ok(Unread::Line(line))
            }
            Ok(Read::Partial) => Ok(Unread::Line(line)),
            Err(WireFault::Syntax(at)) => {
                let (front, rest) = line.bytes.split_at(at);
                self.drop_line(LineFault::Syntax(tag_before(front)), rest, out)
            }
            Err(WireFault::LiteralTooLong(at)) => {
                let (front, rest) = line.bytes.split_at(at);
                match tag_before(front) {
                    Some(tag) => self.drop_line(LineFault::LiteralTooLong(tag), rest, out),
                    None => unreachable!(),
                }
            }
            Err(WireFault::LineTooLong) => self.end(out),
            Err(WireFault::NoMemory) => Err(AllocError),
        }
    }

    /// Answers a command; nothing is unread after it.
    fn answer_command(&mut self, command: Command, out: &mut Vec<u8>) -> Result<Unread, AllocError>
        ensures ok { IfOk result (λ after. IsNothing after × AnsweredBy (ReportsShort self.old command) out.old.items out.new.items self.new) }
        ensures err { OnErr result (self.new ≡ self.old) }
    {
        let nothing = Unread::Line(LineBuf::new(self.alloc));
        self.has_map();
        self.say_news(out)?;
        self.answer_reported(command, out)?;
        Ok(nothing)
    }

    /// Drops a line with this fault, which these bytes follow, the byte with the fault first.
    fn drop_line(
        &mut self,
        fault: LineFault,
        rest: &[u8],
        out: &mut Vec<u8>,
    ) -> Result<Unread, AllocError>
        ensures ok { IfOk result (λ after. DropsLine self.old (fault_of fault) rest.now out.old.items out.new.items self.new after) }
        ensures err { OnErr result (self.new ≡ self.old) }
    {
        let mut dropped = Dropped::new(fault);
        match dropped.pass(rest) {
            Some(_) => self.end_line(dropped, out),
            None => Ok(Unread::Dropped(dropped)),
        }
    }

    /// Reads some of the bytes after a line that is dropped.
    fn read_dropped(
        &mut self,
        dropped: Dropped,
        bytes: &[u8],
        out: &mut Vec<u8>,
    ) -> Result<(Unread, usize), AllocError>
        requires some { 0 < length bytes.now }
        requires reads { is_over self.old.condition ≡ false }
        ensures ok { IfOk result (λ r. TookSome (end_of self.old (kinds.Dropped dropped)) bytes.now out.old.items out.new.items self.new r.0 r.1) }
        ensures err { OnErr result (self.new ≡ self.old) }
    {
        let mut dropped = dropped;
        match dropped.pass(bytes) {
            Some(count) => {
                let after = self.end_line(dropped, out)?;
                Ok((after, count))
            }
            None => Ok((Unread::Dropped(dropped), bytes.len())),
        }
    }

    /// Answers a line with a fault, whose end was met.
    fn end_line(&mut self, dropped: Dropped, out: &mut Vec<u8>) -> Result<Unread, AllocError>
        ensures ok { IfOk result (λ after. IsNothing after × Answered (reporting (dropped_answer (fault_of dropped.fault) dropped.last) self.old)
            out.old.items out.new.items self.new) }
        ensures err { OnErr result (self.new ≡ self.old) }
    {
        if dropped.loses_octets() {
            return self.end(out);
        }
        self.say_news(out)?;
        say_fault(dropped.fault, out)?;
        self.set_news(false);
        Ok(self.nothing())
    }

    /// Ends the connection, since what follows can't be read.
    fn end(&mut self, out: &mut Vec<u8>) -> Result<Unread, AllocError>
        ensures ok { IfOk result (λ after. IsNothing after × Answered (reporting ends self.old) out.old.items out.new.items self.new) }
        ensures err { OnErr result (self.new ≡ self.old) }
    {
        self.say_news(out)?;
        say_bye(b"too long", out)?;
        self.set_news(false);
        self.enter(ConnectionState::LoggedOut);
        Ok(self.nothing())
    }

    /// Nothing is unread.
    fn nothing(&self) -> Unread
        ensures { IsNothing result }
    {
        Unread::Line(LineBuf::new(self.alloc))
    }
}
