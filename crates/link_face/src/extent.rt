//! How far a reply goes (RFC 9051, sections 2.2.2 and 4.3): to its end, if it is one of the profile, and else to the end of a line that no
//! literal follows.

ghost use Rattle.std.specs.Prelude.{ℕ, List, IfOk};
ghost use Rattle.link_face.specs.Extents.{EndsLine, FindsPlace, GoesOn, IsSought, Looks, LooksAt};

use crate::front::{Front, front_of};
use crate::head::{is_line, is_number};
use memchr::memrchr;
use std::alloc::{AllocError, Global};
use wire_reader::limit::{LINE_MAX, LITERAL_MAX};
use wire_reader::scanner::Scanner;

/// The greatest number of bytes of a reply: of its lines and of all its literals.
const REPLY_MAX: usize = LINE_MAX as usize + LITERAL_MAX as usize;

/// How far the reply at the front of bytes goes.
#[derive(Clone, Copy, PartialEq, Eq)]
pub(crate) enum Extent {
    /// Its end has not come.
    Begun,
    /// It has so many bytes, is one of the profile, and is heard as it came.
    Heard(usize),
    /// It has so many bytes, and is a LIST reply of the profile that is not heard as it came.
    Listed(usize),
    /// It has so many bytes. No server of the profile says it.
    Whole(usize),
    /// Its lines have more than `LINE_MAX` bytes, or its literals more than `LITERAL_MAX` octets.
    TooLong,
}

/// How far a reply has been looked at. Each of its bytes is looked at once, however small the pieces are in which it comes. A reply of the
/// profile is read where a line ends.
#[derive(Clone, Copy)]
pub(crate) struct ReplyExtent {
    scanner: Scanner,
    scanned: usize,
}

impl ReplyExtent {
    /// One for the begin of a reply.
    pub(crate) fn new() -> ReplyExtent
        ensures { (bytes : List ℕ) → IsSought result bytes }
    {
        ReplyExtent {
            scanner: Scanner::new(),
            scanned: 0,
        }
    }

    /// Looks at bytes, of which those before were looked at already. What ends a reply is found again by the next look.
    ///
    /// `AllocError`: memory ran out.
    pub(crate) fn look(&mut self, alloc: Global, bytes: &[u8]) -> Result<Extent, AllocError>
        requires { IsSought self.old bytes.now }
        ensures sought { IsSought self.new bytes.now }
        ensures looks { IfOk result (Looks bytes.now) }
    {
        for _ in 0..bytes.len() {
            let mut next = *self;
            let Some(end) = next.next_place(bytes) else {
                *self = next;
                return Ok(Extent::Begun);
            };
            match next.extent_at(alloc, &bytes[..end])? {
                Extent::Begun => *self = next,
                extent => return Ok(extent),
            }
        }
        Ok(Extent::Begun)
    }

    /// The number of bytes up to the next place of the scanner.
    fn next_place(&mut self, bytes: &[u8]) -> Option<usize>
        requires { IsSought self.old bytes.now }
        ensures { FindsPlace self.old self.new bytes.now result }
    {
        match self.scanner.advance(&bytes[self.scanned..]) {
            Some(count) => {
                self.scanned += count;
                Some(self.scanned)
            }
            None => {
                self.scanned = bytes.len();
                None
            }
        }
    }

    /// How far the reply goes that begins with these bytes, which end at a place.
    #[tactic(auto, using(crate::proofs::SoughtLemmas::no_line_end, crate::proofs::SoughtLemmas::goes_on_at, crate::proofs::SoughtLemmas::ends_line_at))]
    fn extent_at(&self, alloc: Global, bytes: &[u8]) -> Result<Extent, AllocError>
        ensures { IfOk result (LooksAt bytes.now) }
    {
        if self.scanner.is_over() {
            return Ok(Extent::TooLong);
        }
        if !bytes.ends_with(b"\n") {
            return Ok(Extent::Begun);
        }
        match front_of(alloc, bytes)? {
            Front::Heard => Ok(Extent::Heard(bytes.len())),
            Front::Listed => Ok(Extent::Listed(bytes.len())),
            Front::Begun => Ok(self.begun_extent(bytes)),
            Front::Other => Ok(self.line_extent(bytes)),
        }
    }

    /// How far the reply of the profile goes that is begun with these bytes.
    fn begun_extent(&self, bytes: &[u8]) -> Extent
        ensures { GoesOn result }
    {
        match self.line_extent(bytes) {
            Extent::TooLong => Extent::TooLong,
            _ => Extent::Begun,
        }
    }

    /// How far the reply goes that begins with these bytes, which end a line.
    fn line_extent(&self, bytes: &[u8]) -> Extent
        ensures { EndsLine bytes.now result }
    {
        match literal_digits(bytes) {
            Some(digits) if !is_line(bytes) => self.before_literal(bytes, digits),
            _ => Extent::Whole(bytes.len()),
        }
    }

    /// How far the reply goes that begins with these bytes, which end with the length of a literal in these digits.
    fn before_literal(&self, bytes: &[u8], digits: &[u8]) -> Extent
        ensures { GoesOn result }
    {
        if self.has_room(bytes.len(), digits) {
            Extent::Begun
        } else {
            Extent::TooLong
        }
    }

    /// Whether there is room for a literal whose length has these digits, after so many bytes of the reply.
    fn has_room(&self, len: usize, digits: &[u8]) -> bool {
        let owed = self.scanner.owed() as usize;
        if owed == 0 {
            digits.iter().all(|b| *b == b'0')
        } else {
            owed <= LITERAL_MAX as usize && len.saturating_add(owed) <= REPLY_MAX
        }
    }
}

/// The digits of the length of a literal, where the line ends with one.
fn literal_digits(line: &[u8]) -> Option<&[u8]> {
    let line = line.strip_suffix(b"}\r\n")?;
    let line = line.strip_suffix(b"+").unwrap_or(line);
    let brace = memrchr(b'{', line)?;
    let digits = line.get(brace + 1..)?;
    if is_number(digits) {
        Some(digits)
    } else {
        None
    }
}
