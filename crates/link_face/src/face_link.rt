//! A link that hands out only replies of the profile.

ghost use Rattle.std.proofs.Props.{props};
ghost use Rattle.std.specs.Prelude.{◌≡◌, ◌<◌, ◌≤◌, ◌+◌, ◌++◌, false, true, length, take, Ok, IfOk, OnOk, OnErr, IsErrOf};
ghost use Rattle.imap_session.specs.Servers.{Quiet};
ghost use Rattle.imap_session.specs.Lines.{Receives, Starts};
ghost use Rattle.imap_link.specs.Sending.{SendsThen, SomeThen};
ghost use Rattle.link_face.specs.Faces.{faced, Keeps};
ghost use Rattle.link_face.specs.Said.{Speaks};
ghost use Rattle.link_face.specs.Turning.{Leaves, held_of};

use crate::face::Face;
use crate::words::Words;
use imap_link::link::{Link, LinkFault};
use mailcore::copy_pieces::CopyPieces;
use std::alloc::{AllocError, Global};
use std::rc::Rc;

/// At most so many bytes are asked of the link at once.
const PIECE_BYTES: usize = 16_384;

/// A link over another, from which a client hears only replies of the profile that it reads.
///
/// A reply of the profile is handed out byte for byte. Another is replaced by one that says the same to the client, or left out with
/// all its octets. A reply whose lines have more than `LINE_MAX` bytes, or whose literals have more than `LITERAL_MAX` octets
/// (`wire_reader::limit`), is a stop, and nothing more is read of that connection. So much is kept of a reply that has not come whole, and no more.
///
/// A client may keep the replies to a command until the tagged one, so as many bytes come in answer to one command, and a reply beyond
/// them is a stop, too: 16777216 of LIST replies, 33685548 of FETCH replies with a whole message, and 1048576 of others without a number, as
/// CAPABILITY and status responses. Other replies with a number, as the rows of a listing, are not counted.
///
/// In the answer to the list of messages (`UID FETCH .. (UID FLAGS RFC822.SIZE)`) the rows of one UID are joined. Where a message is reported by
/// half when the tagged OK comes, or one is left out of those that the mailbox had when the list was asked for, that is a stop, too.
///
/// The names of mailboxes are in modified UTF-7 for the client, and in UTF-8 for the server (RFC 9051, section 5.1): a LIST reply
/// whose name is another in modified UTF-7 is replaced, and a command that names a mailbox so is sent with the name in UTF-8.
///
/// It is honest as long as the other link is, and no name of a mailbox was turned: then nothing else is replaced or left out.
#[derive(Drop)]
pub struct FaceLink<L: Link> {
    link: L,
    face: Face,
    /// Where the link writes what comes next, so that it need not be cleared each time. Before the first bytes are asked for it has none.
    piece: Vec<u8>,
    /// Over an open connection comes what a server of the profile says, and nothing else.
    pub ghost hears: { face.is_open ≡ true → L.honest link → face.renamed ≡ false → ∥ Speaks face.incoming (L.line link) ∥₁ } by { Prim.hlevel props },
}

impl<L: Link> FaceLink<L> {
    /// A face of this link, over which nothing is read until `reconnect`. What the server says to people is noted there.
    pub fn new(alloc: Global, link: L, words: Rc<Words>) -> Self
        ensures { result.link ≡ link }
    {
        FaceLink {
            link,
            face: Face::new(alloc, words),
            piece: Vec::new(alloc),
        }
    }

    /// The link below.
    pub fn link(&self) -> &L
        ensures { result.now ≡ self.now.link }
    {
        &self.link
    }

    /// Sends these bytes as they are.
    fn pass(&mut self, bytes: &[u8]) -> Result<(), LinkFault>
        ensures was_honest { L.honest self.new.link → L.honest self.old.link }
        ensures ok { OnOk result (L.honest self.new.link → SendsThen L.visitors bytes.now (L.line self.old.link) (L.line self.new.link)) }
        ensures err { OnErr result (L.honest self.new.link → SomeThen L.visitors (L.line self.old.link) bytes.now (L.line self.new.link).end.server) }
        ensures counts { L.stops self.old.link ≤ L.stops self.new.link }
        ensures steady { OnOk result (L.stops self.new.link ≡ L.stops self.old.link) }
        ensures stopped { IsErrOf result LinkFault.Stopped → L.stops self.old.link < L.stops self.new.link }
        ensures held { held_of self.new.face ≡ held_of self.old.face }
        ensures renamed { self.new.face.renamed ≡ self.old.face.renamed }
        ensures own_stops { self.new.face.stops ≡ self.old.face.stops }
    {
        let was_open = self.face.is_open;
        self.face.is_open = false;
        let answer = self.link.send(bytes);
        self.face.is_open = was_open && answer.is_ok();
        answer
    }

    /// Takes the next bytes of the link, and returns whether there were any.
    fn more(&mut self) -> Result<bool, LinkFault>
        ensures was_honest { L.honest self.new.link → L.honest self.old.link }
        ensures counts { L.stops self.old.link ≤ L.stops self.new.link }
        ensures steady { result ≡ Ok true → L.stops self.new.link ≡ L.stops self.old.link }
        ensures stopped { IsErrOf result LinkFault.Stopped → L.stops self.old.link < L.stops self.new.link }
        ensures ended { result ≡ Ok false → L.stops self.old.link < L.stops self.new.link }
        ensures quiet { L.honest self.new.link → Quiet (L.line self.old.link).end.server (L.line self.new.link).end.server }
        ensures same { OnOk result (L.honest self.new.link
            → Keeps (faced (held_of self.old.face) (L.line self.old.link)) (faced (held_of self.new.face) (L.line self.new.link))) }
        ensures ready { self.new.face.ready ≡ self.old.face.ready }
        ensures renamed { self.new.face.renamed ≡ self.old.face.renamed }
        ensures own_stops { self.new.face.stops ≡ self.old.face.stops }
    {
        if self.piece.resize(PIECE_BYTES, 0).is_err() {
            return Err(LinkFault::NoMemory);
        }
        let was_open = self.face.is_open;
        self.face.is_open = false;
        let count = self.link.recv(&mut self.piece)?;
        if self.face.incoming.push(&self.piece[..count]).is_err() {
            return Err(LinkFault::NoMemory);
        }
        self.face.is_open = was_open;
        Ok(count > 0)
    }

    /// Waits until a reply is ready. Returns whether one is; if not, the bytes ended.
    fn wait(&mut self) -> Result<bool, LinkFault>
        ensures was_honest { L.honest self.new.link → L.honest self.old.link }
        ensures was_unchanged { self.new.face.renamed ≡ false → self.old.face.renamed ≡ false }
        ensures counts { L.stops self.old.link + self.old.face.stops ≤ L.stops self.new.link + self.new.face.stops }
        ensures steady { result ≡ Ok true → L.stops self.new.link + self.new.face.stops ≡ L.stops self.old.link + self.old.face.stops }
        ensures stopped { IsErrOf result LinkFault.Stopped → L.stops self.old.link + self.old.face.stops < L.stops self.new.link + self.new.face.stops }
        ensures ended { result ≡ Ok false → L.stops self.old.link + self.old.face.stops < L.stops self.new.link + self.new.face.stops }
        ensures quiet { L.honest self.new.link → Quiet (L.line self.old.link).end.server (L.line self.new.link).end.server }
        ensures same { OnOk result (L.honest self.new.link → self.new.face.renamed ≡ false
            → Keeps (faced (held_of self.old.face) (L.line self.old.link)) (faced (held_of self.new.face) (L.line self.new.link))) }
        ensures some { result ≡ Ok true → 0 < length self.new.face.ready }
        ensures ready { result ≡ Ok true → Leaves self.old.face.ready self.new.face.ready }
    {
        for _ in 0..u64::MAX {
            if self.face.turn()? {
                return Ok(true);
            }
            if !self.more()? {
                return Ok(false);
            }
        }
        Err(LinkFault::NoMemory)
    }
}

impl<L: Link> Link for FaceLink<L> {
    ghost use Rattle.std.specs.Prelude.{◌≡◌, ◌+◌, false};
    ghost use Rattle.link_face.specs.Faces.{faced};
    ghost use Rattle.link_face.specs.Turning.{held_of};

    ghost honest = { λ f. L.honest f.link × (f.face.renamed ≡ false) };

    ghost line = { λ f. faced (held_of f.face) (L.line f.link) };

    ghost stops = { λ f. L.stops f.link + f.face.stops };

    ghost visitors = { L.visitors };

    ghost sound = { λ f kept. L.sound f.link kept.0 };

    #[tactic(auto, using(imap_link::proofs::Unsent::nothing_sent, crate::proofs::Feeding::faced_sends))]
    fn send(&mut self, bytes: &[u8]) -> Result<(), LinkFault> {
        match self.face.to_send(bytes) {
            Ok(None) => self.pass(bytes),
            Ok(Some(turned)) => self.pass(&turned),
            Err(AllocError) => Err(LinkFault::NoMemory),
        }
    }

    fn send_copy(&mut self, alloc: Global, copy: CopyPieces<'_>) -> Result<(), LinkFault> {
        self.face.note_copy(copy);
        let was_open = self.face.is_open;
        self.face.is_open = false;
        let answer = self.link.send_copy(alloc, copy);
        self.face.is_open = was_open && answer.is_ok();
        answer
    }

    fn recv(&mut self, piece: &mut [u8]) -> Result<usize, LinkFault> {
        if self.wait()? {
            Ok(self.face.ready.take(piece))
        } else {
            Ok(0)
        }
    }

    fn reconnect(&mut self) -> Result<(), LinkFault> {
        self.face.clear();
        let answer = self.link.reconnect();
        self.face.is_open = answer.is_ok();
        answer
    }
}
