//! The two sides of a pair of mailboxes, and the directions between them.

ghost use Rattle.std.specs.Prelude.{◌≡◌, ◌≢◌, IfSome, IfNone};
ghost use Rattle.mailcore.specs.Sides.{other, source, target, towards};
ghost use Rattle.mailcore.specs.Words.{direction_word, side_word};

use std::fmt;

/// A side of a pair of mailboxes.
#[derive(Clone, Copy, Debug, PartialEq, Eq)]
pub enum Side {
    /// The IMAP mailbox.
    Far,
    /// The Maildir mailbox.
    Near,
}

impl Side {
    /// The other side.
    pub fn other(self) -> Side
        ensures { result ≡ other self }
    {
        match self {
            Side::Far => Side::Near,
            Side::Near => Side::Far,
        }
    }

    /// The direction that leads to this side.
    pub fn towards(self) -> Direction
        ensures { result ≡ towards self }
    {
        match self {
            Side::Far => Direction::Push,
            Side::Near => Direction::Pull,
        }
    }

    /// Its word in texts and on printed lines (docs/FORMATS.md).
    pub fn as_str(self) -> &'static str
        ensures { result.now ≡ side_word self }
    {
        match self {
            Side::Far => "far",
            Side::Near => "near",
        }
    }

    /// The side with this word, or none if no side has it.
    pub fn from_word(word: &[u8]) -> Option<Side>
        ensures some { IfSome result (λ side. side_word side ≡ word.now) }
        ensures none { IfNone result ((side : Side) → side_word side ≢ word.now) }
    {
        if word == b"far".as_slice() {
            Some(Side::Far)
        } else if word == b"near".as_slice() {
            Some(Side::Near)
        } else {
            None
        }
    }
}

/// Its word.
impl fmt::Display for Side {
    ghost use Rattle.std.specs.Prelude.{Some};

    ghost output = { λ side. Some (side_word side) };

    fn fmt<W: fmt::Write>(&self, f: &mut fmt::Formatter<W>) -> fmt::Result {
        f.write_str(self.as_str())
    }
}

/// A direction of propagation.
#[derive(Clone, Copy, PartialEq, Eq)]
pub enum Direction {
    /// From far to near.
    Pull,
    /// From near to far.
    Push,
}

impl Direction {
    /// The side that it leads from.
    pub fn source(self) -> Side
        ensures { result ≡ source self }
    {
        match self {
            Direction::Pull => Side::Far,
            Direction::Push => Side::Near,
        }
    }

    /// The side that it leads to.
    pub fn target(self) -> Side
        ensures { result ≡ target self }
    {
        match self {
            Direction::Pull => Side::Near,
            Direction::Push => Side::Far,
        }
    }

    /// Its word in texts and on printed lines (docs/FORMATS.md).
    pub fn as_str(self) -> &'static str
        ensures { result.now ≡ direction_word self }
    {
        match self {
            Direction::Pull => "pull",
            Direction::Push => "push",
        }
    }

    /// The direction with this word, or none if no direction has it.
    pub fn from_word(word: &[u8]) -> Option<Direction>
        ensures some { IfSome result (λ direction. direction_word direction ≡ word.now) }
        ensures none { IfNone result ((direction : Direction) → direction_word direction ≢ word.now) }
    {
        if word == b"pull".as_slice() {
            Some(Direction::Pull)
        } else if word == b"push".as_slice() {
            Some(Direction::Push)
        } else {
            None
        }
    }
}

/// Its word.
impl fmt::Display for Direction {
    ghost use Rattle.std.specs.Prelude.{Some};

    ghost output = { λ direction. Some (direction_word direction) };

    fn fmt<W: fmt::Write>(&self, f: &mut fmt::Formatter<W>) -> fmt::Result {
        f.write_str(self.as_str())
    }
}

/// What ends the lines of a stored message.
#[derive(Clone, Copy, PartialEq, Eq)]
pub enum LineEnd {
    /// LF alone, as in a near store.
    Lf,
    /// CR LF, as in a far store (RFC 9051, section 2.3.1: messages are those of RFC 5322).
    CrLf,
}
