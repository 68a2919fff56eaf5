//! A link to a server in memory.

ghost use Rattle.std.specs.Prelude.{◌≡◌, ◌<◌, ◌≤◌, ◌^◌, ◌++◌, ℕ, Bool, true, None, List, length, take, IsOk, IfOk, IfErr, OnOk, OnErr, IsErrOf, IfSome, Ok, Err};
ghost use Rattle.imap_replies.specs.declared.reply.Reply.{Reply};
ghost use Rattle.imap_session.specs.Heard.{AreReplies};
ghost use Rattle.imap_session.specs.Serving.{FeedsSome};
ghost use Rattle.imap_session.specs.Servers.{Quiet};
ghost use Rattle.imap_session.specs.Lines.{Sends, Receives, Starts};
ghost use Rattle.imap_session.specs.Visits.{Visits};
ghost use Rattle.imap_link.specs.Sending.{visited};
ghost use Rattle.mailcore.specs.Visitors.{AreOctets, IsForeign, others_but};
ghost use Rattle.mailcore.specs.Content.{mark_of};
ghost use Rattle.imap_server.specs.Boxes.{AreServed};
ghost use Rattle.std.proofs.Props.{props};

use crate::acts::MessageDeed;
use crate::command::Nth;
use crate::muting::muted;
use crate::schedule::Schedule;
use crate::unread::UnreadReplies;
use device::stop_count::StopCount;
use imap_link::link::{Link, LinkFault};
use imap_server::server::{Server, ServerFault};
use mailcore::flags::Flags;
use mailcore::uid::Uid;
use std::alloc::{AllocError, Global};

/// At most so many bytes are received at once, where nobody says otherwise.
pub(crate) const PIECE_BYTES: usize = 4096;

/// A link to a server in memory, which stops where its schedule says.
///
/// It is honest, whatever the schedule: what is sent is fed to the server up to where the link stops, and what the server says
/// is handed out in order, up to there, where the schedule says so without APPENDUID. Nothing is connected before `reconnect`. Where the server has said all that it will say
/// before more is sent, `recv` answers `Stopped`.
#[derive(Drop)]
pub struct MemLink {
    alloc: Global,
    server: Server,
    unread: UnreadReplies,
    schedule: Schedule,
    /// At most so many bytes are received at once.
    piece: usize,
    is_open: bool,
    stops: StopCount,
    pub ghost served: { AreServed server.server.mailboxes } by { Prim.hlevel props },
}

impl MemLink {
    ghost use Rattle.mem_link.specs.MemLinks.{line_of, stops_of};
    ghost use Rattle.mem_link.specs.Losing.{StopsNowhere, LosesNothing, IsOpen, SendsAll};
    ghost use Rattle.mem_link.specs.Muting.{Hears, IsHeard};
    ghost use Rattle.mem_link.specs.Acted.{acted};

    /// A link to this server, with these stops. The mailboxes of every server that was made are served.
    pub fn new(alloc: Global, server: Server, schedule: Schedule) -> MemLink
        requires { AreServed server.server.mailboxes }
        ensures server { (line_of result).end.server ≡ server.server }
        ensures stops { stops_of result ≡ 0 }
        ensures loses_nothing { StopsNowhere schedule → LosesNothing result }
    {
        MemLink {
            alloc,
            server,
            unread: UnreadReplies::new(alloc),
            schedule,
            piece: PIECE_BYTES,
            is_open: false,
            stops: StopCount::new(),
        }
    }

    /// The same link, of which at most so many bytes, and at least one, are received at once.
    pub fn in_pieces(self, piece: usize) -> MemLink
        ensures line { line_of result ≡ line_of self }
        ensures stops { stops_of result ≡ stops_of self }
        ensures loses_nothing { LosesNothing self → LosesNothing result }
    {
        let mut link = self;
        link.piece = piece.max(1);
        link
    }

    /// How many calls have stopped, up to the top of its type.
    pub fn stops(&self) -> usize
        ensures { stops_of self.now < 2 ^ 64 → result ≡ stops_of self.now }
    {
        self.stops.get()
    }

    /// The server, with its mailboxes as they stand.
    pub fn server(&self) -> &Server
        ensures { result.now.server ≡ (line_of self.now).end.server }
    {
        &self.server
    }

    /// The server, which nothing links to any more.
    pub fn into_server(self) -> Server
        ensures { result.server ≡ (line_of self).end.server }
    {
        let MemLink { server, .. } = self;
        server
    }

    /// Ends the connection: nothing more is sent or received.
    fn break_off(&mut self)
        ensures server { self.new.server.server ≡ self.old.server.server }
        ensures stops { self.new.stops ≡ self.old.stops }
        ensures loses_nothing { LosesNothing self.old → LosesNothing self.new }
    {
        self.schedule.break_off(self.unread.len());
        self.server.hang_up();
        self.unread.greet(b"");
        self.is_open = false;
    }

    /// The link stops. Gives what the call answers.
    pub(crate) fn stop(&mut self) -> LinkFault
        ensures fault { result ≡ LinkFault.Stopped }
        ensures server { self.new.server.server ≡ self.old.server.server }
        ensures counted { self.old.stops < self.new.stops }
        ensures loses_nothing { LosesNothing self.old → LosesNothing self.new }
    {
        self.break_off();
        self.stops.push();
        LinkFault::Stopped
    }

    /// The link finds no memory, and stops. Gives what the call answers.
    fn lack(&mut self) -> LinkFault
        ensures fault { result ≡ LinkFault.NoMemory }
        ensures server { self.new.server.server ≡ self.old.server.server }
        ensures stops { self.new.stops ≡ self.old.stops }
        ensures loses_nothing { LosesNothing self.old → LosesNothing self.new }
    {
        self.break_off();
        LinkFault::NoMemory
    }

    /// The command that begins with these bytes, if they are sent next and something is connected.
    pub(crate) fn coming(&self, bytes: &[u8]) -> Option<Nth> {
        if self.is_open {
            self.schedule.coming(bytes)
        } else {
            None
        }
    }

    /// Others add a message to the mailbox of this name, if the server can take it.
    pub(crate) fn arrive(
        &mut self,
        mailbox: &[u8],
        flags: Flags,
        message: &[u8],
    ) -> Result<(), LinkFault>
        ensures line { OnOk result (line_of self.new ≡ visited (line_of self.old) (line_of self.new).end.server) }
        ensures visits { (ours : List ℕ → Bool) → IsForeign ours (mark_of message.now)
            → Visits (others_but ours) (line_of self.old).end.server (line_of self.new).end.server }
        ensures steady { OnOk result (self.new.stops ≡ self.old.stops) }
        ensures counted { result ≡ Err LinkFault.Stopped → self.old.stops < self.new.stops }
        ensures no_less { self.old.stops ≤ self.new.stops }
    {
        known_octets(message);
        match self.server.arrive(mailbox, flags, message) {
            Ok(None) => Ok(()),
            Ok(Some(uid)) => {
                // That it is a UID is known from this.
                let _number = uid.get();
                Ok(())
            }
            Err(ServerFault::NoMemory) => Err(self.lack()),
            Err(ServerFault::Closed) => Err(self.stop()),
        }
    }

    /// Another client does this to the message with this UID in the mailbox of this name, and to no other.
    pub(crate) fn act(
        &mut self,
        mailbox: &[u8],
        uid: Uid,
        deed: MessageDeed,
    ) -> Result<(), LinkFault>
        ensures line { OnOk result (line_of self.new ≡ visited (line_of self.old) (acted mailbox.now uid deed (line_of self.old).end.server)) }
        ensures err { OnErr result ((line_of self.new).end.server ≡ (line_of self.old).end.server) }
        ensures stops { self.new.stops ≡ self.old.stops }
        ensures fault { IfErr result (λ fault. fault ≡ LinkFault.NoMemory) }
    {
        let done = match deed {
            MessageDeed::Flag { set, clear } => self.server.flag(mailbox, uid, set, clear),
            MessageDeed::Remove => self.server.remove(mailbox, uid),
        };
        match done {
            Ok(()) => Ok(()),
            Err(AllocError) => Err(self.lack()),
        }
    }

    /// Counts bytes that are sent. Where the link stops, or has stopped, gives how many of them the server reads.
    pub(crate) fn begin(&mut self, bytes: &[u8]) -> Option<usize>
        ensures front { IfSome result (λ front. front ≤ length bytes.now) }
        ensures line { line_of self.new ≡ line_of self.old }
        ensures stops { self.new.stops ≡ self.old.stops }
        ensures none { LosesNothing self.old → IsOpen self.old → result ≡ None }
        ensures open { result ≡ None → self.new.is_open ≡ true }
        ensures still_open { IsOpen self.old → IsOpen self.new }
        ensures loses_nothing { LosesNothing self.old → LosesNothing self.new }
    {
        if self.is_open {
            self.schedule.send(bytes)
        } else {
            Some(0)
        }
    }

    /// What comes of an answer of the server: the answer, or the same without APPENDUID.
    #[tactic(auto, using(crate::proofs::MutingLemmas::heard_muted, crate::proofs::MutingLemmas::heard_all))]
    fn heard(&self, answer: Vec<u8>) -> Result<Vec<u8>, AllocError>
        ensures heard { IfOk result (λ out. (said : List Reply) → AreReplies said answer.items → IsHeard said out.items) }
        ensures all { LosesNothing self.now → IfOk result (λ out. out.items ≡ answer.items) }
    {
        if self.schedule.is_muted() {
            muted(self.alloc, &answer)
        } else {
            Ok(answer)
        }
    }

    /// The server answers so, and what comes of it is unread then.
    fn hear(&mut self, answer: Vec<u8>) -> Result<(), AllocError>
        ensures heard { OnOk result (Hears answer.items self.old.unread self.new.unread) }
        ensures all { LosesNothing self.old → OnOk result (self.new.unread ≡ self.old.unread ++ answer.items) }
        ensures server { self.new.server ≡ self.old.server }
        ensures stops { self.new.stops ≡ self.old.stops }
        ensures open { self.new.is_open ≡ self.old.is_open }
        ensures loses_nothing { LosesNothing self.old → LosesNothing self.new }
    {
        let heard = self.heard(answer)?;
        self.schedule.answer(self.unread.len(), &heard);
        self.unread.push(heard)
    }

    /// Feeds bytes to the server, whose answer is unread then.
    pub(crate) fn give(&mut self, bytes: &[u8]) -> Result<(), LinkFault>
        ensures all { LosesNothing self.old → OnOk result (SendsAll bytes.now (line_of self.old) (line_of self.new)) }
        ensures ok { OnOk result (Sends bytes.now (line_of self.old) (line_of self.new)) }
        ensures err { OnErr result (FeedsSome (line_of self.old).end bytes.now (line_of self.new).end.server) }
        ensures steady { OnOk result (self.new.stops ≡ self.old.stops) }
        ensures counted { result ≡ Err LinkFault.Stopped → self.old.stops < self.new.stops }
        ensures no_less { self.old.stops ≤ self.new.stops }
        ensures open { OnOk result (self.old.is_open ≡ true → IsOpen self.new) }
        ensures fault { IsOpen self.old → IfErr result (λ fault. fault ≡ LinkFault.NoMemory) }
        ensures loses_nothing { LosesNothing self.old → LosesNothing self.new }
    {
        match self.server.feed(bytes) {
            Ok(answer) => match self.hear(answer) {
                Ok(()) => Ok(()),
                Err(AllocError) => Err(self.lack()),
            },
            Err(ServerFault::NoMemory) => Err(self.lack()),
            Err(ServerFault::Closed) => Err(self.stop()),
        }
    }
}

impl Link for MemLink {
    ghost use Rattle.mem_link.specs.MemLinks.{line_of, stops_of};
    ghost use Rattle.mem_link.specs.Served.{served_are_sound};
    ghost use Rattle.mem_link.specs.Losing.{LosesNothing, IsOpen, SendsAll};
    ghost use Rattle.imap_link.specs.Sending.{nobody, SendsThen, SomeThen};

    ghost honest = { λ _. Unit {0} };

    ghost line = { line_of };

    ghost stops = { stops_of };

    ghost visitors = { nobody };

    ghost sound = { λ m _. served_are_sound m.server.server.mailboxes m.served };

    // It is fed to the server as a whole, or the answer is a fault. Nobody else is there.
    #[tactic(auto, using(crate::proofs::Visiting::nobody_sends, crate::proofs::Visiting::nobody_feeds))]
    fn send(&mut self, bytes: &[u8]) -> Result<(), LinkFault>
        ensures all { LosesNothing self.old → OnOk result (SendsAll bytes.now (line_of self.old) (line_of self.new)) }
        ensures sends { OnOk result (Sends bytes.now (line_of self.old) (line_of self.new)) }
        ensures feeds { OnErr result (FeedsSome (line_of self.old).end bytes.now (line_of self.new).end.server) }
        ensures ok { OnOk result (SendsThen nobody bytes.now (line_of self.old) (line_of self.new)) }
        ensures err { OnErr result (SomeThen nobody (line_of self.old) bytes.now (line_of self.new).end.server) }
        ensures counts { stops_of self.old ≤ stops_of self.new }
        ensures steady { OnOk result (stops_of self.new ≡ stops_of self.old) }
        ensures stopped { IsErrOf result LinkFault.Stopped → stops_of self.old < stops_of self.new }
        // Where nothing is lost, memory alone is a reason not to.
        ensures fault { LosesNothing self.old → IsOpen self.old → IfErr result (λ fault. fault ≡ LinkFault.NoMemory) }
        ensures open { OnOk result (IsOpen self.new) }
        ensures loses_nothing { LosesNothing self.old → LosesNothing self.new }
    {
        match self.begin(bytes) {
            None => self.give(bytes),
            Some(front) => {
                self.give(&bytes[..front])?;
                Err(self.stop())
            }
        }
    }

    // At least one byte, or a fault.
    fn recv(&mut self, piece: &mut [u8]) -> Result<usize, LinkFault>
        requires { 0 < length piece.old }
        ensures within { IfOk result (λ n. n ≤ length piece.new) }
        ensures some { IfOk result (λ n. 0 < n) }
        ensures ok { IfOk result (λ n. Receives (take n piece.new) (line_of self.old) (line_of self.new)) }
        ensures err { OnErr result (Quiet (line_of self.old).end.server (line_of self.new).end.server) }
        ensures counts { stops_of self.old ≤ stops_of self.new }
        ensures steady { OnOk result (stops_of self.new ≡ stops_of self.old) }
        ensures stopped { IsErrOf result LinkFault.Stopped → stops_of self.old < stops_of self.new }
        // Where nothing is lost, the end of what the server said is the only reason to stop.
        ensures comes { LosesNothing self.old → 0 < length (line_of self.old).unseen → IsOk result }
        ensures open { IsOpen self.old → OnOk result (IsOpen self.new) }
        ensures loses_nothing { LosesNothing self.old → LosesNothing self.new }
    {
        let most = self.piece.min(self.schedule.room());
        let count = self.unread.take(piece, most);
        if count == 0 {
            return Err(self.stop());
        }
        self.schedule.receive(count);
        Ok(count)
    }

    // It always answers.
    fn reconnect(&mut self) -> Result<(), LinkFault>
        ensures always { IsOk result }
        ensures ok { Starts (line_of self.old) (line_of self.new) }
        ensures steady { stops_of self.new ≡ stops_of self.old }
        ensures open { IsOpen self.new }
        ensures loses_nothing { LosesNothing self.old → LosesNothing self.new }
    {
        self.break_off();
        self.unread.greet(self.server.connect());
        self.is_open = true;
        Ok(())
    }
}

/// Bytes are below 256.
fn known_octets(_bytes: &[u8])
    ensures { AreOctets _bytes.now }
{}
