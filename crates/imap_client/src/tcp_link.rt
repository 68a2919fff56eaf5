//! A link over TCP.

ghost use Rattle.std.specs.Prelude.{◌≡◌, ◌<◌, ◌≤◌, ◌++◌, [], length, take, false, is_ok, Ok, None, IfOk, IfSome, OnOk, OnErr, IsErrOf, string_bytes};
ghost use Rattle.mailcore.specs.CopyPieces.{text_left};
ghost use Rattle.wire_reader.specs.Spelling.{crlf};
ghost use Rattle.imap_client.specs.LineRecords.{Hands, HandsSome, begun, noted};

use crate::line_record::{LineCall, LineRecord};
use device::stop_count::StopCount;
use imap_link::link::{Link, LinkFault};
use imap_link::wire::PIECE;
use mailcore::copy_pieces::CopyPieces;
use std::alloc::{AllocError, Global};
use std::cell::Cell;
use std::io;
use std::io::{BufWriter, ErrorKind, Read, Write};
use std::net::{Net, TcpStream};
use std::rc::Rc;

/// What the system said when a server could not be reached. A link notes it, and who holds the link asks for it.
pub type Unreached = Rc<Cell<Option<ErrorKind>>>;

/// A link over TCP, without encryption, to a server at an address `host:port`.
///
/// Each call of the system is noted with its answer, and both ends of the connection are read off this record. Whether the answers are
/// those of a connection to a server as docs/SESSION.md defines it no proof can say: that is a premise (`honest`) of what is proved.
#[derive(Drop)]
pub struct TcpLink<R: Net + AllocGlobal + Clone + Drop> {
    rt: R,
    address: String,
    stream: Option<R::Stream>,
    stops: StopCount,
    unreached: Unreached,
    calls: LineRecord,
}

impl<R: Net + AllocGlobal + Clone + Drop> TcpLink<R> {
    /// A link to the server at this address. Nothing is connected before `reconnect`.
    ///
    /// `AllocError`: memory ran out.
    pub fn new(rt: R, address: &str) -> Result<Self, AllocError>
        ensures unasked { IfOk result (λ link. link.calls.events ≡ []) }
        ensures address { IfOk result (λ link. string_bytes link.address ≡ address.now) }
    {
        let unreached = Rc::new(rt.alloc(), Cell::new(None))?;
        TcpLink::noting(rt, address, unreached)
    }

    /// The same, where what the system says is noted there.
    pub fn noting(rt: R, address: &str, unreached: Unreached) -> Result<Self, AllocError>
        ensures unasked { IfOk result (λ link. link.calls.events ≡ []) }
        ensures address { IfOk result (λ link. string_bytes link.address ≡ address.now) }
    {
        let address = String::from_str(rt.alloc(), address)?;
        Ok(TcpLink {
            rt,
            address,
            stream: None,
            stops: StopCount::new(),
            unreached,
            calls: LineRecord::new(),
        })
    }

    /// The address of the server.
    pub fn address(&self) -> &str
        ensures { result.now ≡ string_bytes self.now.address }
    {
        self.address.as_str()
    }

    // Counts a stop. The connection is given up.
    fn stopped(&mut self) -> LinkFault
        ensures fault { result ≡ LinkFault.Stopped }
        ensures counted { self.old.stops < self.new.stops }
        ensures calls { self.new.calls ≡ self.old.calls }
    {
        self.stream = None;
        self.stops.push();
        LinkFault::Stopped
    }

    // Begins a message to the server, and hands these bytes to the system.
    #[tactic(auto, using(crate::proofs::Recorded::some_none))]
    fn hand(&mut self, bytes: &[u8]) -> io::Result<()>
        ensures ok { OnOk result (Hands bytes.now (begun self.old.calls) self.new.calls) }
        ensures err { OnErr result (HandsSome bytes.now (begun self.old.calls) self.new.calls) }
        ensures stops { self.new.stops ≡ self.old.stops }
    {
        self.calls.note(&LineCall::Begun, &[]);
        match &mut self.stream {
            Some(stream) => write(stream, &mut self.calls, bytes),
            None => Err(io::Error::from(ErrorKind::NotConnected)),
        }
    }

    // Begins a message to the server, and hands a copy and a line end to the system.
    #[tactic(auto, using(crate::proofs::Recorded::some_none))]
    fn hand_copy(&mut self, alloc: Global, copy: CopyPieces<'_>) -> io::Result<()>
        ensures ok { OnOk result (Hands (text_left copy.entry ++ crlf) (begun self.old.calls) self.new.calls) }
        ensures err { OnErr result (HandsSome (text_left copy.entry ++ crlf) (begun self.old.calls) self.new.calls) }
        ensures stops { self.new.stops ≡ self.old.stops }
    {
        self.calls.note(&LineCall::Begun, &[]);
        match &mut self.stream {
            Some(stream) => write_copy(alloc, stream, &mut self.calls, copy),
            None => Err(io::Error::from(ErrorKind::NotConnected)),
        }
    }

    // Ends a message to the server, of which the system said this.
    fn end_message(&mut self, answer: io::Result<()>) -> Result<(), LinkFault>
        ensures sent { OnOk result ((answer ≡ Ok tt) × (self.new.calls ≡ noted LineCall.Sent [] self.old.calls)) }
        ensures unsent { OnErr result ((is_ok answer ≡ false) × (self.new.calls ≡ noted LineCall.Unsent [] self.old.calls)) }
        ensures counts { self.old.stops ≤ self.new.stops }
        ensures steady { OnOk result (self.new.stops ≡ self.old.stops) }
        ensures stopped { IsErrOf result LinkFault.Stopped → self.old.stops < self.new.stops }
    {
        let Err(error) = answer else {
            self.calls.note(&LineCall::Sent, &[]);
            return Ok(());
        };
        self.calls.note(&LineCall::Unsent, &[]);
        if error.kind() == ErrorKind::OutOfMemory {
            return Err(LinkFault::NoMemory);
        }
        Err(self.stopped())
    }

    // Reads the next bytes to the front of the piece, and returns how many. None: they have ended, or the system said an error.
    fn read(&mut self, piece: &mut [u8]) -> Option<usize>
        ensures within { IfSome result (λ n. (0 < n) × (n ≤ length piece.new)) }
        ensures came { IfSome result (λ n. self.new.calls ≡ noted LineCall.Received (take n piece.new) self.old.calls) }
        ensures none { result ≡ None → self.new.calls ≡ noted LineCall.Unreceived [] self.old.calls }
        ensures stops { self.new.stops ≡ self.old.stops }
    {
        let count = match &mut self.stream {
            Some(stream) => stream.read(piece).unwrap_or(0),
            None => 0,
        };
        if count == 0 {
            self.calls.note(&LineCall::Unreceived, &[]);
            return None;
        }
        self.calls.note(&LineCall::Received, &piece[..count]);
        Some(count)
    }
}

/// Hands bytes of a message to the system.
#[tactic(auto, using(crate::proofs::Recorded::hands_one, crate::proofs::Recorded::some_all))]
fn write<W: Write>(stream: &mut W, calls: &mut LineRecord, bytes: &[u8]) -> io::Result<()>
    ensures ok { OnOk result (Hands bytes.now calls.old calls.new) }
    ensures err { OnErr result (HandsSome bytes.now calls.old calls.new) }
{
    calls.note(&LineCall::Written, bytes);
    stream.write_all(bytes)
}

/// Hands the text of a copy to the system.
fn write_pieces<W: Write>(
    stream: &mut W,
    calls: &mut LineRecord,
    copy: CopyPieces<'_>,
) -> io::Result<()>
    ensures ok { OnOk result (Hands (text_left copy.entry) calls.old calls.new) }
    ensures err { OnErr result (HandsSome (text_left copy.entry) calls.old calls.new) }
{
    for piece in copy {
        write(stream, calls, piece)?;
    }
    Ok(())
}

/// Hands the text of a copy and a line end to the system, through one buffer.
#[tactic(auto, using(crate::proofs::Recorded::some_none, crate::proofs::Recorded::some_first, crate::proofs::Recorded::some_then, crate::proofs::Recorded::some_all, crate::proofs::Recorded::hands_both))]
fn write_copy<W: Write>(
    alloc: Global,
    stream: &mut W,
    calls: &mut LineRecord,
    copy: CopyPieces<'_>,
) -> io::Result<()>
    ensures ok { OnOk result (Hands (text_left copy.entry ++ crlf) calls.old calls.new) }
    ensures err { OnErr result (HandsSome (text_left copy.entry ++ crlf) calls.old calls.new) }
{
    let mut writer = BufWriter::with_capacity(alloc, PIECE, stream)?;
    write_pieces(&mut writer, calls, copy)?;
    write(&mut writer, calls, b"\r\n")?;
    writer.flush()
}

impl<R: Net + AllocGlobal + Clone + Drop> Link for TcpLink<R> {
    ghost use Rattle.imap_link.specs.Sending.{anybody};
    ghost use Rattle.imap_client.specs.LineEvents.{ended};
    ghost use Rattle.imap_client.specs.LineRecords.{Behaved, line_now};

    ghost honest = { λ l. Behaved l.calls };

    ghost line = { λ l. line_now l.calls };

    ghost stops = { λ l. l.stops };

    ghost visitors = { anybody };

    ghost sound = { λ l behaved. behaved.sound (ended l.calls.events) };

    fn send(&mut self, bytes: &[u8]) -> Result<(), LinkFault> {
        let answer = self.hand(bytes);
        self.end_message(answer)
    }

    fn send_copy(&mut self, alloc: Global, copy: CopyPieces<'_>) -> Result<(), LinkFault> {
        let answer = self.hand_copy(alloc, copy);
        self.end_message(answer)
    }

    fn recv(&mut self, piece: &mut [u8]) -> Result<usize, LinkFault> {
        match self.read(piece) {
            Some(count) => Ok(count),
            None => Err(self.stopped()),
        }
    }

    fn reconnect(&mut self) -> Result<(), LinkFault> {
        self.stream = None;
        match TcpStream::connect(&self.rt, self.address.as_str()) {
            Ok(stream) => {
                self.calls.note(&LineCall::Connected, &[]);
                self.stream = Some(stream);
                Ok(())
            }
            Err(error) => {
                self.calls.note(&LineCall::Unconnected, &[]);
                self.unreached.set(Some(error.kind()));
                Err(self.stopped())
            }
        }
    }
}
