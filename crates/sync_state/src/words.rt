//! The words of states and journals: numbers, UIDs, flags, marks, directions and sides.

ghost use Rattle.std.specs.Prelude.{◌≡◌, ◌≢◌, ◌<◌, ◌^◌, ◌++◌, ◌∷◌, ℕ, IfSome, IfNone, decimal};
ghost use Rattle.mailcore.specs.FlagNames.{letters_of};
ghost use Rattle.mailcore.specs.FlagSet.{FLAGS};
ghost use Rattle.mailcore.specs.Mark.{IsMark};
ghost use Rattle.mailcore.specs.Words.{flags_word, direction_word, side_word};
ghost use Rattle.sync_state.specs.Adding.{Adds};
ghost use Rattle.sync_state.specs.Words.{IsUid, IsPositive, IsRun, IsUidOrNone};

use crate::fields::{Fields, Word};
use mailcore::flags::Flags;
use mailcore::side::{Direction, Side};
use mailcore::tuid::Tuid;
use mailcore::uid::Uid;
use mailcore::words::{read_flags, read_highest, read_positive, read_side_uid, read_uid};
use std::alloc::AllocError;
use texts::number::{push_number, read_number};

/// A UIDVALIDITY or UIDNEXT, 1 to 4294967295.
#[derive(Clone, Copy)]
pub struct Positive(pub u32);

impl Fields for Positive {
    ghost use Rattle.sync_state.specs.NumberLaws.{positive-injective};

    ghost fits = { λ n. IsPositive n.0 };

    ghost spelling = { λ n. decimal n.0 };

    ghost injective = { positive-injective };

    fn read(text: &[u8]) -> Option<Positive> {
        Some(Positive(read_positive(text)?))
    }

    fn push_to(self, text: &mut Vec<u8>) -> Result<(), AllocError> {
        push_number(text, u64::from(self.0))
    }
}

impl Word for Positive {
    ghost use Rattle.sync_state.specs.NumberLaws.{positive-lacks};

    ghost one_word = { positive-lacks };
}

/// The highest UID that was taken over, 0 to 4294967294.
#[derive(Clone, Copy)]
pub struct Highest(pub u32);

impl Fields for Highest {
    ghost use Rattle.std.specs.Prelude.{◌+◌};
    ghost use Rattle.sync_state.specs.NumberLaws.{highest-injective};

    ghost fits = { λ n. n.0 + 1 < 2 ^ 32 };

    ghost spelling = { λ n. decimal n.0 };

    ghost injective = { highest-injective };

    fn read(text: &[u8]) -> Option<Highest> {
        Some(Highest(read_highest(text)?))
    }

    fn push_to(self, text: &mut Vec<u8>) -> Result<(), AllocError> {
        push_number(text, u64::from(self.0))
    }
}

impl Word for Highest {
    ghost use Rattle.sync_state.specs.NumberLaws.{highest-lacks};

    ghost one_word = { highest-lacks };
}

/// The number of a run that was made, from 1 on.
#[derive(Clone, Copy)]
pub struct RunNumber(pub u64);

impl Fields for RunNumber {
    ghost use Rattle.sync_state.specs.NumberLaws.{run-injective};

    ghost fits = { λ n. IsRun n.0 };

    ghost spelling = { λ n. decimal n.0 };

    ghost injective = { run-injective };

    fn read(text: &[u8]) -> Option<RunNumber> {
        match read_number(text, u64::MAX)? {
            0 => None,
            number => Some(RunNumber(number)),
        }
    }

    fn push_to(self, text: &mut Vec<u8>) -> Result<(), AllocError> {
        push_number(text, self.0)
    }
}

/// A number of 64 bits.
#[derive(Clone, Copy)]
pub struct Number(pub u64);

impl Fields for Number {
    ghost use Rattle.sync_state.specs.NumberLaws.{number-injective};

    ghost fits = { λ n. n.0 < 2 ^ 64 };

    ghost spelling = { λ n. decimal n.0 };

    ghost injective = { number-injective };

    fn read(text: &[u8]) -> Option<Number> {
        Some(Number(read_number(text, u64::MAX)?))
    }

    fn push_to(self, text: &mut Vec<u8>) -> Result<(), AllocError> {
        push_number(text, self.0)
    }
}

impl Word for Number {
    ghost use Rattle.sync_state.specs.NumberLaws.{number-lacks};

    ghost one_word = { number-lacks };
}

impl Fields for Uid {
    ghost use Rattle.sync_state.specs.NumberLaws.{uid-injective};

    ghost fits = { IsUid };

    ghost spelling = { decimal };

    ghost injective = { uid-injective };

    fn read(text: &[u8]) -> Option<Uid> {
        read_uid(text)
    }

    fn push_to(self, text: &mut Vec<u8>) -> Result<(), AllocError> {
        push_number(text, u64::from(self.get()))
    }
}

impl Word for Uid {
    ghost use Rattle.sync_state.specs.NumberLaws.{uid-lacks};

    ghost one_word = { uid-lacks };
}

/// The UID of a side of an entry, where 0 stands for a side that has vanished.
impl Fields for Option<Uid> {
    ghost use Rattle.std.specs.Prelude.{unwrap_or};
    ghost use Rattle.sync_state.specs.WordLaws.{side-injective};

    ghost fits = { IsUidOrNone };

    ghost spelling = { λ uid. decimal (unwrap_or uid 0) };

    ghost injective = { side-injective };

    fn read(text: &[u8]) -> Option<Option<Uid>> {
        read_side_uid(text)
    }

    fn push_to(self, text: &mut Vec<u8>) -> Result<(), AllocError> {
        push_number(text, self.map_or(0, |uid| u64::from(uid.get())))
    }
}

impl Word for Option<Uid> {
    ghost use Rattle.sync_state.specs.WordLaws.{side-lacks};

    ghost one_word = { side-lacks };
}

/// Flags: their letters in the order of ASCII, or `-` for none.
impl Fields for Flags {
    ghost use Rattle.mailcore.proofs.FlagWords.{flags_word-injective};

    ghost fits = { λ flags. flags < 2 ^ FLAGS };

    ghost spelling = { flags_word };

    ghost injective = { flags_word-injective };

    fn read(text: &[u8]) -> Option<Flags> {
        read_flags(text)
    }

    fn push_to(self, text: &mut Vec<u8>) -> Result<(), AllocError> {
        if self.is_empty() {
            text.push(b'-')?;
            return Ok(());
        }
        push_letters(text, self)
    }
}

/// Adds the letters of flags.
pub(crate) fn push_letters(text: &mut Vec<u8>, flags: Flags) -> Result<(), AllocError>
    ensures { Adds result text.old.items (letters_of flags) text.new.items }
{
    for letter in flags.letters() {
        text.push(letter)?;
    }
    Ok(())
}

impl Word for Flags {
    ghost use Rattle.sync_state.specs.WordLaws.{flags-word-lacks};

    ghost one_word = { flags-word-lacks };
}

impl Fields for Tuid {
    ghost use Rattle.sync_state.specs.WordLaws.{mark-injective};

    ghost fits = { IsMark };

    ghost spelling = { λ mark. mark };

    ghost injective = { mark-injective };

    fn read(text: &[u8]) -> Option<Tuid> {
        Tuid::read(text)
    }

    fn push_to(self, text: &mut Vec<u8>) -> Result<(), AllocError> {
        text.extend_from_slice(&self.text())
    }
}

/// `pull` or `push`.
impl Fields for Direction {
    ghost use Rattle.sync_state.specs.WordLaws.{direction-fits-injective};

    ghost fits = { λ _. Unit {0} };

    ghost spelling = { direction_word };

    ghost injective = { direction-fits-injective };

    fn read(text: &[u8]) -> Option<Direction> {
        Direction::from_word(text)
    }

    fn push_to(self, text: &mut Vec<u8>) -> Result<(), AllocError> {
        text.extend_from_slice(self.as_str().as_bytes())
    }
}

impl Word for Direction {
    ghost use Rattle.sync_state.specs.WordLaws.{direction-fits-lacks};

    ghost one_word = { direction-fits-lacks };
}

/// `far` or `near`.
impl Fields for Side {
    ghost use Rattle.sync_state.specs.WordLaws.{side-fits-injective};

    ghost fits = { λ _. Unit {0} };

    ghost spelling = { side_word };

    ghost injective = { side-fits-injective };

    fn read(text: &[u8]) -> Option<Side> {
        Side::from_word(text)
    }

    fn push_to(self, text: &mut Vec<u8>) -> Result<(), AllocError> {
        text.extend_from_slice(self.as_str().as_bytes())
    }
}

impl Word for Side {
    ghost use Rattle.sync_state.specs.WordLaws.{side-fits-lacks};

    ghost one_word = { side-fits-lacks };
}

/// Flags that are set: `+` and their letters, at least one.
#[derive(Clone, Copy)]
pub struct Plus(pub Flags);

impl Fields for Plus {
    ghost use Rattle.sync_state.specs.NumberLaws.{plus-injective};

    ghost fits = { λ p. (p.0 < 2 ^ FLAGS) × (p.0 ≢ 0) };

    ghost spelling = { λ p. 43 ∷ letters_of p.0 };

    ghost injective = { plus-injective };

    fn read(text: &[u8]) -> Option<Plus> {
        Some(Plus(read_letters(text, b'+')?))
    }

    fn push_to(self, text: &mut Vec<u8>) -> Result<(), AllocError> {
        text.push(b'+')?;
        push_letters(text, self.0)
    }
}

impl Word for Plus {
    ghost use Rattle.sync_state.specs.NumberLaws.{plus-lacks};

    ghost one_word = { plus-lacks };
}

/// Flags that are cleared: `-` and their letters, at least one.
#[derive(Clone, Copy)]
pub struct Minus(pub Flags);

impl Fields for Minus {
    ghost use Rattle.sync_state.specs.NumberLaws.{minus-injective};

    ghost fits = { λ p. (p.0 < 2 ^ FLAGS) × (p.0 ≢ 0) };

    ghost spelling = { λ p. 45 ∷ letters_of p.0 };

    ghost injective = { minus-injective };

    fn read(text: &[u8]) -> Option<Minus> {
        Some(Minus(read_letters(text, b'-')?))
    }

    fn push_to(self, text: &mut Vec<u8>) -> Result<(), AllocError> {
        text.push(b'-')?;
        push_letters(text, self.0)
    }
}

/// The flags with these letters, at least one, after a sign.
#[tactic(auto, using(mailcore::proofs::FlagWords::no_letters, mailcore::proofs::FlagWords::letters_none))]
fn read_letters(text: &[u8], sign: u8) -> Option<Flags>
    ensures some { IfSome result (λ flags. (flags < 2 ^ FLAGS) × (flags ≢ 0) × (text.now ≡ sign ∷ letters_of flags)) }
    ensures none { IfNone result ((flags : ℕ) → flags < 2 ^ FLAGS → flags ≢ 0 → text.now ≢ sign ∷ letters_of flags) }
{
    let (first, letters) = text.split_first()?;
    if *first != sign {
        return None;
    }
    let flags = Flags::from_letters(letters)?;
    if flags.is_empty() { None } else { Some(flags) }
}
