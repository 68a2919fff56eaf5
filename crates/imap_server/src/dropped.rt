//! A line with a fault, of which no more is kept than its end needs.

use crate::fault::LineFault;

/// A line that is dropped up to its end.
#[derive(Drop)]
pub(crate) struct Dropped {
    /// What is wrong with it.
    pub(crate) fault: LineFault,
    // the last three bytes from the fault on, with zeros before them where there are fewer
    last: [u8; 3],
}

impl Dropped {
    ghost use Rattle.std.specs.Prelude.{◌≡◌, ◌<◌, ◌≤◌, ◌∷◌, [], length, IfSome};
    ghost use Rattle.imap_server.specs.Dropping.{Passes, loses_octets};
    ghost use Rattle.imap_server.specs.Unreads.{fault_of};

    /// The line, before the byte with the fault.
    pub(crate) fn new(fault: LineFault) -> Dropped
        ensures fault { result.fault ≡ fault }
        ensures last { result.last ≡ 0 ∷ 0 ∷ 0 ∷ [] }
    {
        Dropped {
            fault,
            last: [0, 0, 0],
        }
    }

    /// Skips bytes up to the line end. Returns how many these are, with the line end, or `None` if the line goes on; then all are skipped.
    pub(crate) fn pass(&mut self, bytes: &[u8]) -> Option<usize>
        ensures passes { Passes self.old.last bytes.now result self.new.last }
        ensures count { IfSome result (λ n. (0 < n) × (n ≤ length bytes.now)) }
        ensures same { self.new.fault ≡ self.old.fault }
    {
        for (i, &b) in bytes.iter().enumerate() {
            if b == b'\n' && self.last[2] == b'\r' {
                return Some(i + 1);
            }
            self.last = [self.last[1], self.last[2], b];
        }
        None
    }

    /// Whether octets of a literal follow that is too long: the line ended with `+}`, so that nobody waits.
    pub(crate) fn loses_octets(&self) -> bool
        ensures { result ≡ loses_octets (fault_of self.now.fault) self.now.last }
    {
        match self.fault {
            LineFault::Syntax(_) => false,
            LineFault::LiteralTooLong(_) => self.last == *b"+}\r",
        }
    }
}
