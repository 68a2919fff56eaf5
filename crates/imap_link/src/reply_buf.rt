//! A buffer of replies.

ghost use Rattle.std.specs.Prelude.{◌≡◌, ◌≤◌, ◌-◌, ◌+◌, ◌++◌, [], length, take, drop, Ok, IfOk, IfErr, OnOk, OnErr};
ghost use Rattle.imap_replies.specs.declared.reply.Reply.{Reply};
ghost use Rattle.imap_replies.specs.Replies.{ReplyText, seen};
ghost use Rattle.wire_reader.specs.Answers.{Answers, TakesEach, WaitsForMore};
ghost use Rattle.wire_reader.specs.declared.side.Speaker.TheVariants.{Replies};
ghost use Rattle.wire_reader.specs.declared.answer.Read.TheVariants.{Partial};
ghost use Rattle.imap_link.specs.ReplyBuffers.{empty, held_in, drops_last, reads, Moves};
ghost use Rattle.imap_link.specs.Fronts.{Begun, IsWhole, Looks, Spells};

use crate::moving::{keep, move_down};
use crate::search::Search;
use imap_replies::reading::read_reply;
use imap_replies::reply::Reply;
use std::alloc::Global;
use std::marker::Model;
use wire_reader::answer::{Read, WireFault};

/// What came from a server: replies that were read and are kept until `forget`, and the bytes after them.
///
/// Replies are read where they lie, and no reply has a vector of its own. Each byte is scanned once, whatever the pieces are
/// in which it comes. Bytes that were dropped make room once they are more than half of all.
#[derive(Drop)]
pub struct ReplyBuf {
    bytes: Vec<u8>,
    // Where the part that was read begins.
    start: usize,
    // Where it ends. What stands between it and `next` was dropped.
    end: usize,
    // Where the bytes begin that were not read.
    next: usize,
    search: Search,
    alloc: Global,
}

impl Model for ReplyBuf {
    ghost use Rattle.std.specs.Prelude.{◌≤◌, ◌-◌, take, drop, length};
    ghost use Rattle.imap_link.specs.ReplyBuffers.{Buffer};
    ghost use Rattle.imap_link.specs.Searches.{IsSearched};

    ghost Value = { Buffer };

    ghost view = { λ b. record { read = take (b.end - b.start) (drop b.start b.bytes.items); unread = drop b.next b.bytes.items } };

    ghost invariant = { λ b. (b.start ≤ b.end) × (b.end ≤ b.next) × (b.next ≤ length b.bytes.items) × IsSearched b.search (drop b.next b.bytes.items) };
}

impl ReplyBuf {
    /// One in which nothing came.
    pub fn new(alloc: Global) -> ReplyBuf
        ensures { result ≡ empty }
    {
        ReplyBuf {
            bytes: Vec::new(alloc),
            start: 0,
            end: 0,
            next: 0,
            search: Search::new(),
            alloc,
        }
    }

    /// Adds bytes that came.
    ///
    /// `NoMemory`: nothing is added.
    pub fn put(&mut self, piece: &[u8]) -> Result<(), WireFault>
        ensures ok { OnOk result (self.new ≡ record { read = self.old.read; unread = self.old.unread ++ piece.now }) }
        ensures err { OnErr result (self.new ≡ self.old) }
        ensures fault { IfErr result (λ fault. fault ≡ WireFault.NoMemory) }
    {
        self.slide();
        match self.bytes.extend_from_slice(piece) {
            Ok(()) => Ok(()),
            Err(_) => Err(WireFault::NoMemory),
        }
    }

    /// Moves the bytes that are kept to the front, where those that were dropped are more than half of all.
    fn slide(&mut self)
        ensures { self.new ≡ self.old }
    {
        let dropped = self.start + (self.next - self.end);
        if dropped > self.bytes.len() / 2 {
            self.pack();
        }
    }

    /// Moves the bytes that are kept to the front.
    fn pack(&mut self)
        ensures { self.new ≡ self.old }
    {
        let len = self.end - self.start;
        keep(&mut self.bytes, self.start, self.end, self.next);
        self.start = 0;
        self.end = len;
        self.next = len;
    }

    /// Reads the next reply, but returns its length alone; `last` reads its text.
    ///
    /// A line that breaks the protocol is reported once it has ended. Until then the answer is `Partial`, where `next` reports the fault at
    /// once. After a fault the same fault is reported again, and after `NoMemory` it can be tried again.
    pub fn step(&mut self) -> Result<Read<()>, WireFault>
        ensures looks { Looks self.old.unread result }
        ensures begun { Begun self.old.unread result }
        ensures moves { Moves result self.old self.new }
    {
        let answer = self.found()?;
        if let Read::Whole((), len) = answer {
            self.advance(len);
        }
        Ok(answer)
    }

    /// Reads the next reply, and lends it: what `read_reply` answers on the bytes that were not read. The bytes of a whole reply are read
    /// then, as `step` reads them.
    ///
    /// `WireFault`: no reply begins so, at which of these bytes, also in a line that has not ended; or `NoMemory`, and nothing is read.
    pub fn next(&mut self) -> Result<Read<Reply<'_>>, WireFault>
        ensures answers { Answers Replies seen ReplyText self.old.unread result }
        ensures takes { TakesEach seen ReplyText self.old.unread result }
        ensures waits { WaitsForMore ReplyText self.old.unread result }
    {
        self.close_gap();
        match self.found() {
            Ok(Read::Whole((), len)) => {
                let end = self.next + len;
                let reply = reply_of(self.alloc, &self.bytes[self.next..end])?;
                self.end = end;
                self.next = end;
                self.search = Search::new();
                Ok(Read::Whole(reply, len))
            }
            Err(WireFault::NoMemory) => Err(WireFault::NoMemory),
            _ => read_reply(self.alloc, &self.bytes[self.next..]),
        }
    }

    /// What `step` returns, without reading: a look at the front of the bytes that were not read.
    fn found(&mut self) -> Result<Read<()>, WireFault>
        ensures looks { Looks self.old.unread result }
        ensures begun { Begun self.old.unread result }
        ensures same { self.new ≡ self.old }
    {
        let mut search = self.search;
        let answer = search.look(self.alloc, &self.bytes[self.next..])?;
        if let Read::Partial = answer {
            self.search = search;
        }
        Ok(answer)
    }

    /// Leaves no dropped bytes between the part that was read and what follows.
    fn close_gap(&mut self)
        ensures same { self.new ≡ self.old }
    {
        if self.end < self.next {
            self.pack();
        }
    }

    /// Adds the first so many of the bytes that were not read to the part that was.
    fn advance(&mut self, len: usize)
        requires { len ≤ length self.old.unread }
        ensures { self.new ≡ reads len self.old }
    {
        self.skip_gap();
        move_down(&mut self.bytes, self.next, self.end, len);
        self.end += len;
        self.next += len;
        self.search = Search::new();
    }

    /// Where nothing is kept of the part that was read, it goes to what is read next, which then need not be moved.
    fn skip_gap(&mut self)
        ensures { self.new ≡ self.old }
    {
        if self.start == self.end {
            self.start = self.next;
            self.end = self.next;
        }
    }

    /// The last reply of the part that was read, of so many bytes.
    ///
    /// `NoMemory`: memory ran out.
    pub fn last(&self, len: usize) -> Result<Reply<'_>, WireFault>
        requires { IsWhole (drop (length self.now.read - len) self.now.read) len }
        ensures ok { IfOk result (λ reply. (r : Reply) → Spells r (drop (length self.now.read - len) self.now.read) → reply ≡ r) }
        ensures fault { IfErr result (λ fault. fault ≡ WireFault.NoMemory) }
    {
        reply_of(self.alloc, self.last_bytes(len))
    }

    /// The last so many bytes of the part that was read.
    fn last_bytes(&self, len: usize) -> &[u8]
        requires { len ≤ length self.now.read }
        ensures { result.now ≡ drop (length self.now.read - len) self.now.read }
    {
        &self.bytes[self.end - len..self.end]
    }

    /// Drops so many bytes at the end of the part that was read.
    pub fn drop_last(&mut self, len: usize)
        requires { len ≤ length self.old.read }
        ensures { self.new ≡ drops_last len self.old }
    {
        self.end -= len;
    }

    /// What was read since the last `forget`, without what `drop_last` dropped.
    pub fn read_part(&self) -> &[u8]
        ensures { result.now ≡ self.now.read }
    {
        &self.bytes[self.start..self.end]
    }

    /// Drops what was read.
    pub fn forget(&mut self)
        ensures { self.new ≡ record { read = []; unread = self.old.unread } }
    {
        self.end = self.start;
        self.skip_gap();
    }

    /// How many bytes are kept: those that were read, and those that were not.
    pub fn held(&self) -> usize
        ensures { result ≡ length (held_in self.now) }
    {
        self.end - self.start + (self.bytes.len() - self.next)
    }
}

/// The reply of which this is the whole text.
///
/// `NoMemory`: memory ran out.
fn reply_of(alloc: Global, text: &[u8]) -> Result<Reply<'_>, WireFault>
    requires { IsWhole text.now (length text.now) }
    ensures ok { IfOk result (λ reply. (r : Reply) → Spells r text.now → reply ≡ r) }
    ensures fault { IfErr result (λ fault. fault ≡ WireFault.NoMemory) }
{
    match read_reply(alloc, text) {
        Ok(Read::Whole(reply, _)) => Ok(reply),
        _ => Err(WireFault::NoMemory),
    }
}
