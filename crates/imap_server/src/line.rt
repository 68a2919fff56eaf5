//! The begin of a line.

use std::alloc::{AllocError, Global};
use wire_reader::scanner::Scanner;

/// The begin of a line, and how far it was scanned: to its end.
#[derive(Drop)]
pub(crate) struct LineBuf {
    pub(crate) bytes: Vec<u8>,
    scanner: Scanner,
}

impl LineBuf {
    ghost use Rattle.std.specs.Prelude.{◌≡◌, ◌++◌, [], IfOk};
    ghost use Rattle.wire_reader.specs.Scanning.{start, scanned, first_place, up_to};

    /// A line of which nothing was read.
    pub(crate) fn new(alloc: Global) -> LineBuf
        ensures empty { result.bytes.items ≡ [] }
        ensures start { result.scanner ≡ start }
    {
        LineBuf {
            bytes: Vec::new(alloc),
            scanner: Scanner::new(),
        }
    }

    /// Takes the next bytes, up to and with the first place among them; returns how many these are, or that none of the bytes
    /// is a place, and then all are taken.
    ///
    /// `AllocError`: memory ran out, and the line is as it was.
    pub(crate) fn take(&mut self, bytes: &[u8]) -> Result<Option<usize>, AllocError>
        ensures place { IfOk result (λ found. found ≡ first_place self.old.scanner bytes.now) }
        ensures taken { IfOk result (λ found. self.new.bytes.items ≡ self.old.bytes.items ++ up_to found bytes.now) }
        ensures scanned { IfOk result (λ found. self.new.scanner ≡ scanned self.old.scanner (up_to found bytes.now)) }
    {
        let mut scanner = self.scanner;
        let place = scanner.advance(bytes);
        let count = place.unwrap_or(bytes.len());
        self.bytes.extend_from_slice(&bytes[..count])?;
        self.scanner = scanner;
        Ok(place)
    }
}
