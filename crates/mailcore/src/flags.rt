//! Flags of messages, and sets of them.

ghost use Rattle.std.specs.Prelude.{◌≡◌, ◌≢◌, ◌<◌, ◌+◌, ◌^◌, ◌==◌, ℕ, true, length, IfSome, IfNone};
ghost use Rattle.mailcore.specs.FlagSet.{FLAGS, common, has, minus, union};
ghost use Rattle.mailcore.specs.FlagNames.{place, letter, letters_of, imap_name, flag_named};
ghost use Rattle.mailcore.specs.KeywordNames.{flags_named, is_keyword_letter, kept, place_of};

use crate::keywords::Keywords;
use std::marker::Model;

/// A flag that is synchronised (RFC 9051, section 2.3.2).
#[derive(Clone, Copy, PartialEq, Eq)]
pub enum Flag {
    /// `\Draft`, letter D.
    Draft,
    /// `\Flagged`, letter F.
    Flagged,
    /// The keyword `$Forwarded`, letter P (passed on).
    Forwarded,
    /// `\Answered`, letter R (replied).
    Answered,
    /// `\Seen`, letter S.
    Seen,
    /// `\Deleted`, letter T (trashed).
    Deleted,
}

impl Flag {
    /// All flags, in the order of their letters.
    pub const ALL: [Flag; 6] = [
        Flag::Draft,
        Flag::Flagged,
        Flag::Forwarded,
        Flag::Answered,
        Flag::Seen,
        Flag::Deleted,
    ];

    /// All flags, in the order in which their names are written in IMAP.
    pub const WRITTEN: [Flag; 6] = [
        Flag::Answered,
        Flag::Deleted,
        Flag::Draft,
        Flag::Flagged,
        Flag::Seen,
        Flag::Forwarded,
    ];

    /// Its letter in Maildir names, state texts and plans.
    pub fn letter(self) -> u8
        ensures { result ≡ letter self }
    {
        match self {
            Flag::Draft => b'D',
            Flag::Flagged => b'F',
            Flag::Forwarded => b'P',
            Flag::Answered => b'R',
            Flag::Seen => b'S',
            Flag::Deleted => b'T',
        }
    }

    /// Its name in IMAP, which compares without case.
    pub fn imap_name(self) -> &'static [u8]
        ensures { result.now ≡ imap_name self }
    {
        match self {
            Flag::Draft => b"\\Draft",
            Flag::Flagged => b"\\Flagged",
            Flag::Forwarded => b"$Forwarded",
            Flag::Answered => b"\\Answered",
            Flag::Seen => b"\\Seen",
            Flag::Deleted => b"\\Deleted",
        }
    }

    /// The flag with this name in IMAP.
    pub fn named(name: &[u8]) -> Option<Flag>
        ensures { result ≡ flag_named name.now }
    {
        match Flag::ALL
            .iter()
            .find(|flag| name.eq_ignore_ascii_case(flag.imap_name()))
        {
            Some(flag) => Some(*flag),
            None => None,
        }
    }

    /// The place of its letter among the letters of flags.
    fn place(self) -> u32
        ensures place { result ≡ place self }
        ensures within { result < FLAGS }
    {
        match self {
            Flag::Draft => 0,
            Flag::Flagged => 1,
            Flag::Forwarded => 2,
            Flag::Answered => 3,
            Flag::Seen => 4,
            Flag::Deleted => 5,
        }
    }
}

/// The letters of flags, in the order of ASCII: of those that IMAP names, and of keywords.
const LETTERS: [u8; 32] = *b"DFPRSTabcdefghijklmnopqrstuvwxyz";

/// A set of flags.
#[derive(Clone, Copy, PartialEq, Eq)]
pub struct Flags {
    bits: u32,
}

impl Model for Flags {
    ghost use Rattle.std.specs.Prelude.{ℕ, ◌<◌, ◌^◌};

    ghost Value = { ℕ };

    ghost use Rattle.mailcore.specs.FlagSet.{FLAGS};

    ghost view = { λ f. f.bits };

    ghost invariant = { λ f. f.bits < 2 ^ FLAGS };

    ghost inverse = { λ n. record { bits = n } };
}

impl Flags {
    /// No flag.
    pub fn none() -> Self
        ensures { result ≡ 0 }
    {
        Flags { bits: 0 }
    }

    /// The set of this flag alone.
    pub fn only(flag: Flag) -> Self
        ensures { result ≡ 2 ^ place flag }
    {
        Flags::at(flag.place())
    }

    /// The set of the flag at a place alone.
    fn at(place: u32) -> Self
        requires within { place < FLAGS }
        ensures { result ≡ 2 ^ place }
    {
        Flags { bits: 1 << place }
    }

    /// Whether the flag is in the set.
    pub fn has(self, flag: Flag) -> bool
        ensures { result ≡ has self (place flag) }
    {
        self.has_at(flag.place())
    }

    /// Whether the flag at a place is in the set.
    fn has_at(self, place: u32) -> bool
        requires within { place < FLAGS }
        ensures { result ≡ has self place }
    {
        self.bits & Flags::at(place).bits != 0
    }

    /// The flags of both sets.
    pub fn union(self, other: Flags) -> Self
        ensures { result ≡ union self other }
    {
        Flags {
            bits: self.bits | other.bits,
        }
    }

    /// The flags that are not in the other set.
    pub fn minus(self, other: Flags) -> Self
        ensures { result ≡ minus self other }
    {
        Flags {
            bits: self.bits ^ (self.bits & other.bits),
        }
    }

    /// The flags that are in both sets.
    pub fn common(self, other: Flags) -> Self
        ensures { result ≡ common self other }
    {
        Flags {
            bits: self.bits & other.bits,
        }
    }

    /// Its flags that have a name in IMAP by this map.
    pub fn kept(self, keywords: &Keywords) -> Self
        ensures { result ≡ kept keywords.now self }
    {
        self.common(keywords.known())
    }

    /// Whether the set has no flag.
    pub fn is_empty(self) -> bool
        ensures { result ≡ (self == 0) }
    {
        self.bits == 0
    }

    /// Its flags as the bits of a number.
    pub fn bits(self) -> u32
        ensures bits { result ≡ self }
        ensures set { result < 2 ^ FLAGS }
    {
        self.bits
    }

    /// The set with these letters, or none unless they are letters of flags and strictly rise in ASCII.
    pub fn from_letters(letters: &[u8]) -> Option<Flags>
        ensures some { IfSome result (λ f. letters.now ≡ letters_of f) }
        ensures set { IfSome result (λ f. f < 2 ^ FLAGS) }
        ensures none { IfNone result ((f : ℕ) → f < 2 ^ FLAGS → letters_of f ≢ letters.now) }
    {
        let mut found = Flags::none();
        let mut rest = letters;
        for place in 0..32 {
            if rest.first() == Some(&LETTERS[place as usize]) {
                found = found.union(Flags::at(place));
                rest = &rest[1..];
            }
        }
        if rest.is_empty() { Some(found) } else { None }
    }

    /// Its letters, in the order of ASCII.
    pub fn letters(self) -> Letters
        ensures { result ≡ letters_of self }
    {
        Letters {
            flags: self,
            place: 0,
            left: &LETTERS,
        }
    }

    /// The set of the flag with this IMAP name, one of the six or a keyword of the map, or the empty set if no flag has it: other flags
    /// are ignored.
    pub fn from_imap(name: &[u8], keywords: &Keywords) -> Flags
        ensures { result ≡ flags_named keywords.now name.now }
    {
        if let Some(flag) = Flag::named(name) {
            return Flags::only(flag);
        }
        match keywords.letter_of(name) {
            Some(letter) => Flags::of_keyword(letter),
            None => Flags::none(),
        }
    }

    /// Whether the keyword with this letter is in the set.
    pub fn has_keyword(self, letter: u8) -> bool
        requires { is_keyword_letter letter ≡ true }
        ensures { result ≡ has self (place_of letter) }
    {
        self.has_at(u32::from(letter - 91))
    }

    /// The set of the keyword with this letter.
    pub(crate) fn of_keyword(letter: u8) -> Flags
        requires { is_keyword_letter letter ≡ true }
        ensures { result ≡ 2 ^ place_of letter }
    {
        Flags::at(u32::from(letter - 91))
    }
}

/// The letters of a set, in the order of ASCII.
#[derive(Drop)]
pub struct Letters {
    flags: Flags,
    // The place of the first letter that is left.
    place: u32,
    left: &'static [u8],
    ghost places: { place + length left.now ≡ FLAGS },
}

impl Model for Letters {
    ghost use Rattle.std.specs.Prelude.{ℕ, List};

    ghost Value = { List ℕ };

    ghost use Rattle.mailcore.specs.FlagNames.{letters_from};

    ghost view = { λ l. letters_from l.place l.left.now l.flags };
}

impl Iterator for Letters {
    type Item = u8;

    ghost use Rattle.std.specs.Iterator.{YieldsFirst, item_count};

    ghost next_gives = { YieldsFirst (λ l. l) };

    ghost remaining = { item_count (λ l. l) };

    fn next(&mut self) -> Option<u8> {
        while let [letter, others @ ..] = self.left {
            let is_in = self.flags.has_at(self.place);
            self.place += 1;
            self.left = others;
            if is_in {
                return Some(*letter);
            }
        }
        None
    }
}
