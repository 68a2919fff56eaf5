//! Where to look for the end of a reply that comes in pieces.

ghost use Rattle.std.specs.Prelude.{◌≡◌, ℕ, List, Ok};
ghost use Rattle.wire_reader.specs.declared.answer.Read.TheVariants.{Partial};
ghost use Rattle.imap_link.specs.Fronts.{Begun, BeginsReply, Looks};
ghost use Rattle.imap_link.specs.Searches.{IsSearched, Finds};

use imap_replies::reading::read_reply;
use std::alloc::Global;
use wire_reader::answer::{Read, WireFault};
use wire_reader::scanner::Scanner;

/// How far a reply has been looked at. A reply ends at a place of its scanner alone
/// (`imap_replies::places::replies_end_at_places`), so it is read at these places, however small the pieces are in which
/// it comes, and not once for each piece.
#[derive(Clone, Copy)]
pub(crate) struct Search {
    scanner: Scanner,
    scanned: usize,
}

impl Search {
    /// One for the begin of a reply.
    pub(crate) fn new() -> Search
        ensures { (bytes : List ℕ) → IsSearched result bytes }
    {
        Search {
            scanner: Scanner::new(),
            scanned: 0,
        }
    }

    /// The number of bytes up to the next place; none where no further place has come.
    fn next_place(&mut self, bytes: &[u8]) -> Option<usize>
        requires { IsSearched self.old bytes.now }
        ensures { Finds self.old self.new bytes.now result }
    {
        match self.scanner.advance(&bytes[self.scanned..]) {
            Some(count) => {
                self.scanned += count;
                Some(self.scanned)
            }
            None => {
                self.scanned = bytes.len();
                None
            }
        }
    }

    /// Looks at the front of the bytes, of which those before were looked at already: at each further place.
    ///
    /// After a fault it has gone past the bytes at which the fault was reported.
    pub(crate) fn look(&mut self, alloc: Global, bytes: &[u8]) -> Result<Read<()>, WireFault>
        requires { IsSearched self.old bytes.now }
        ensures looks { Looks bytes.now result }
        ensures begun { Begun bytes.now result }
        ensures searched { result ≡ Ok Partial → IsSearched self.new bytes.now }
    {
        for _ in 0..bytes.len() {
            let Some(end) = self.next_place(bytes) else {
                return Ok(Read::Partial);
            };
            match read_length(alloc, &bytes[..end])? {
                Read::Partial => {}
                answer => return Ok(answer),
            }
        }
        Ok(Read::Partial)
    }
}

/// Reads the reply at the front of the bytes; returns its length alone.
fn read_length(alloc: Global, bytes: &[u8]) -> Result<Read<()>, WireFault>
    ensures looks { Looks bytes.now result }
    ensures begins { result ≡ Ok Partial → BeginsReply bytes.now }
{
    match read_reply(alloc, bytes) {
        Ok(Read::Whole(_, len)) => Ok(Read::Whole((), len)),
        Ok(Read::WantsLiteral(_)) => Ok(Read::Partial),
        Ok(Read::Partial) => Ok(Read::Partial),
        Err(fault) => Err(fault),
    }
}
