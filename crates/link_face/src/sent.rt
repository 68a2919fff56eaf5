//! What is sent to a server, as far as literals go (RFC 9051, section 4.3).

ghost use Rattle.std.specs.Prelude.{◌≡◌, ◌<◌, ◌++◌, length, nat_lt, MatchOption};
ghost use Rattle.mailcore.specs.CopyPieces.{text_left};
ghost use Rattle.wire_reader.specs.Spelling.{crlf};
ghost use Rattle.wire_reader.specs.Scanning.{start, scanned, owed_in};

use mailcore::copy_pieces::CopyPieces;
use wire_reader::scanner::Scanner;

/// What was sent over a connection.
#[derive(Clone, Copy)]
pub(crate) struct Sent {
    pub(crate) scanner: Scanner,
}

impl Sent {
    /// Nothing.
    pub(crate) fn new() -> Sent
        ensures { result.scanner ≡ start }
    {
        Sent {
            scanner: Scanner::new(),
        }
    }

    /// Whether octets of a literal are still to be sent.
    pub(crate) fn is_within_literal(&self) -> bool
        ensures { result ≡ nat_lt 0 (owed_in self.now.scanner.phase) }
    {
        0 < self.scanner.owed()
    }

    /// These bytes are sent.
    pub(crate) fn note(&mut self, bytes: &[u8])
        ensures { self.new.scanner ≡ scanned self.old.scanner bytes.now }
    {
        if self.scanner.pass_octets(bytes) {
            return;
        }
        let mut rest = bytes;
        while let Some(following) = self.pass_place(rest) {
            rest = following;
        }
    }

    /// The text of a copy and a line end are sent.
    pub(crate) fn note_copy(&mut self, copy: CopyPieces<'_>)
        ensures { self.new.scanner ≡ scanned self.old.scanner (text_left copy.entry ++ crlf) }
    {
        for piece in copy {
            self.note(piece);
        }
        self.note(b"\r\n");
    }

    /// The bytes up to the next place of the scanner are sent, or all if there is none; gives those after it.
    #[tactic(auto, using(crate::proofs::SentLemmas::within_place, crate::proofs::SentLemmas::shorter, crate::proofs::SentLemmas::scanned_on))]
    fn pass_place<'b>(&mut self, bytes: &'b [u8]) -> Option<&'b [u8]>
        ensures { MatchOption result (self.new.scanner ≡ scanned self.old.scanner bytes.now)
            (λ following. (scanned self.new.scanner following.now ≡ scanned self.old.scanner bytes.now) × (length following.now < length bytes.now)) }
    {
        let count = self.scanner.advance(bytes)?;
        Some(&bytes[count..])
    }
}
