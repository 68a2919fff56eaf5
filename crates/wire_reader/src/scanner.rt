//! Where the answer of a reader on a growing text can change, found in one pass over its bytes.

ghost use Rattle.std.specs.Prelude.{◌≡◌, ◌<◌, ◌≤◌, ◌≢◌, ◌++◌, ◌∷◌, All, MatchOption, length, take, true, false};
ghost use Rattle.wire_reader.specs.declared.lexical.Phase.TheVariants.{In, Plain};
ghost use Rattle.wire_reader.specs.Scanning.{start, after, scanned, is_place, first_place, up_to, owed_in, is_over};
ghost use Rattle.wire_reader.specs.Advancing.{Advances, Nul, is_plain};

use crate::answer::front;
use crate::lexical::{Phase, is_in, next};
use crate::limit::LINE_MAX;
use memchr::{memchr, memchr2};

/// How far a line has been scanned.
///
/// A reader of whole lines that waits for more of a line need not be called at each byte that comes. What it answers
/// changes at some bytes alone, its places: a LF outside the octets of literals (also the one after `{n}`, where the
/// sender may wait, or a text may end); a NUL among those octets; and the 65537th byte outside them.
#[derive(Clone, Copy, PartialEq, Eq)]
pub struct Scanner {
    phase: Phase,
    outside: u32,
}

impl Scanner {
    /// One for the begin of a line.
    pub fn new() -> Scanner
        ensures { result ≡ start }
    {
        Scanner {
            phase: Phase::Plain,
            outside: 0,
        }
    }

    /// How many octets of the literal under way are still to come; 0 where none is under way.
    pub fn owed(&self) -> u32
        ensures { result ≡ owed_in self.now.phase }
    {
        match self.phase {
            Phase::In(n) => n,
            _ => 0,
        }
    }

    /// Whether more than 65536 bytes stand outside literals.
    pub fn is_over(&self) -> bool
        ensures { result ≡ is_over self.now }
    {
        self.outside > LINE_MAX
    }

    /// Scans the next bytes of the line, up to and with the first place among them. Returns how many these are, or `None` if none of the
    /// bytes is a place; then all are scanned.
    pub fn advance(&mut self, bytes: &[u8]) -> Option<usize>
        ensures place { result ≡ first_place self.old bytes.now }
        ensures moves { self.new ≡ scanned self.old (up_to result bytes.now) }
    {
        let mut done = 0;
        while done < bytes.len() {
            let (count, is_place) = self.advance_some(&bytes[done..]);
            done += count;
            if is_place {
                return Some(done);
            }
        }
        None
    }

    /// Scans octets of a literal of which more are still to come than these, without a look at them. False, and nothing is scanned, where
    /// the bytes are no such octets.
    #[tactic(auto, using(crate::proofs::Scanned::octets_passed))]
    pub fn pass_octets(&mut self, octets: &[u8]) -> bool
        ensures octets { result ≡ true → self.new ≡ scanned self.old octets.now }
        ensures others { result ≡ false → self.new ≡ self.old }
    {
        match self.phase {
            Phase::In(n) if octets.len() < n as usize => {
                self.phase = Phase::In(n - octets.len() as u32);
                true
            }
            _ => false,
        }
    }

    /// Scans some of the bytes, of which there is at least one. Returns how many, and whether the last of these is a place.
    fn advance_some(&mut self, bytes: &[u8]) -> (usize, bool)
        requires { 0 < length bytes.now }
        ensures { Advances self.old bytes.now result self.new }
    {
        match self.phase {
            Phase::In(n) if n > 1 => self.skip_octets(n, bytes),
            Phase::Plain if self.outside < LINE_MAX => self.skip_plain(bytes),
            _ => (1, self.step(bytes[0])),
        }
    }

    /// Scans bytes outside literals, up to the first at which a line or a length of a literal may end or begin; that one where it stands first.
    fn skip_plain(&mut self, bytes: &[u8]) -> (usize, bool)
        requires some { 0 < length bytes.now }
        requires plain { self.old.phase ≡ Plain }
        requires room { self.old.outside < 65536 }
        ensures { Advances self.old bytes.now result self.new }
    {
        let count = plain_length(front((LINE_MAX - self.outside) as usize, bytes));
        if count == 0 {
            return (1, self.step(bytes[0]));
        }
        self.outside += count as u32;
        (count, false)
    }

    /// Scans octets of a literal of which so many are still to come, but not the last of them.
    fn skip_octets(&mut self, n: u32, bytes: &[u8]) -> (usize, bool)
        requires some { 0 < length bytes.now }
        requires more { 1 < n }
        requires inside { self.old.phase ≡ In n }
        ensures { Advances self.old bytes.now result self.new }
    {
        let (count, is_nul) = to_nul(front(n as usize - 1, bytes));
        self.phase = Phase::In(n - count as u32);
        (count, is_nul)
    }

    /// Scans a byte. Returns whether it is a place.
    fn step(&mut self, b: u8) -> bool
        ensures place { result ≡ is_place self.old b }
        ensures moves { self.new ≡ after self.old b }
    {
        let inside = is_in(self.phase);
        let is_full = self.outside >= LINE_MAX;
        self.phase = next(self.phase, b);
        if !inside && self.outside <= LINE_MAX {
            self.outside += 1;
        }
        if inside {
            b == 0
        } else {
            b == b'\n' || is_full
        }
    }
}

/// How many of these bytes stand before the first LF and the first `{`.
fn plain_length(bytes: &[u8]) -> usize
    ensures within { result ≤ length bytes.now }
    ensures plain { All (λ b. is_plain b ≡ true) (take result bytes.now) }
{
    match memchr2(b'\n', b'{', bytes) {
        Some(at) => at,
        None => bytes.len(),
    }
}

/// The number of these octets up to and with the first that is 0, and that there is one; or the number of all.
pub(crate) fn to_nul(octets: &[u8]) -> (usize, bool)
    ensures { Nul octets.now result }
{
    match memchr(0, octets) {
        Some(at) => (at + 1, true),
        None => (octets.len(), false),
    }
}
