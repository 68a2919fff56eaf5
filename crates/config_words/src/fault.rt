//! The faults of a configuration.

ghost use Rattle.std.specs.Prelude.{◌≡◌};
ghost use Rattle.config_words.specs.Faults.{number_of, precedes};

use mailcore::keywords::KeywordFault;
use std::alloc::{AllocError, AllocFailed};
use thiserror::Error;

/// What is wrong with a line of a configuration. Of several faults of one line the one with the lowest number is reported.
#[derive(Clone, Copy, Debug, PartialEq, Eq, Error)]
pub enum FaultKind {
    /// The line does not begin with a keyword.
    #[error("unknown keyword")]
    UnknownKeyword,
    /// The keyword does not take these arguments, or one has a tab or more than 1024 bytes.
    #[error("wrong arguments")]
    WrongArguments,
    /// A quote is not closed, or a byte is neither a tab nor one of 32 to 126.
    #[error("quote not closed or other byte")]
    BadText,
    /// The keyword does not stand in this section.
    #[error("keyword outside its section")]
    OutsideSection,
    /// The keyword stood in this section before.
    #[error("keyword twice")]
    KeywordTwice,
    /// No store or channel has this name.
    #[error("unknown name")]
    UnknownName,
    /// A store of this kind has this name already, or a channel or group has.
    #[error("name defined twice")]
    DefinedTwice,
    /// The section that begins here lacks a keyword.
    #[error("required keyword missing")]
    KeywordMissing,
    /// The Sync words assert a cell twice.
    #[error("cell asserted twice")]
    CellTwice,
    /// Memory ran out.
    #[error("no memory")]
    NoMemory,
    /// A line above gives this letter or this name, in the same section or, as this one, before any.
    #[error("letter or name given twice")]
    KeywordGiven,
}

impl FaultKind {
    /// Its number, as `mbsync` prints it.
    pub fn number(self) -> u8
        ensures { result ≡ number_of self }
    {
        match self {
            FaultKind::UnknownKeyword => 1,
            FaultKind::WrongArguments => 2,
            FaultKind::BadText => 3,
            FaultKind::OutsideSection => 4,
            FaultKind::KeywordTwice => 5,
            FaultKind::UnknownName => 6,
            FaultKind::DefinedTwice => 7,
            FaultKind::KeywordMissing => 8,
            FaultKind::CellTwice => 9,
            FaultKind::NoMemory => 10,
            FaultKind::KeywordGiven => 11,
        }
    }
}

impl From<AllocError> for FaultKind {
    ghost use Rattle.std.specs.Prelude.{◌≡◌};
    ghost use Rattle.config_words.specs.declared.fault.FaultKind.TheVariants.{NoMemory};

    ghost from_gives = { λ _ e. e ≡ NoMemory };

    fn from(_fault: AllocError) -> FaultKind {
        FaultKind::NoMemory
    }
}

impl<T: Drop> From<AllocFailed<T>> for FaultKind {
    ghost use Rattle.std.specs.Prelude.{◌≡◌};
    ghost use Rattle.config_words.specs.declared.fault.FaultKind.TheVariants.{NoMemory};

    ghost from_gives = { λ _ e. e ≡ NoMemory };

    fn from(_fault: AllocFailed<T>) -> FaultKind {
        FaultKind::NoMemory
    }
}

impl From<KeywordFault> for FaultKind {
    ghost use Rattle.std.specs.Prelude.{◌≡◌};
    ghost use Rattle.config_words.specs.Faults.{kind_of};

    ghost from_gives = { λ fault kind. kind ≡ kind_of fault };

    fn from(fault: KeywordFault) -> FaultKind {
        match fault {
            KeywordFault::BadLetter | KeywordFault::BadName => FaultKind::WrongArguments,
            KeywordFault::Repeated => FaultKind::KeywordGiven,
            KeywordFault::NoMemory => FaultKind::NoMemory,
        }
    }
}

/// Why a text was not read as a configuration.
#[derive(Clone, Copy, Debug, PartialEq, Eq, Error)]
#[error("line {line}: {kind}")]
pub struct ConfigFault {
    /// The first faulty line, counted from 1. Where memory ran out, the line that was being read.
    pub line: usize,
    /// What is wrong with it.
    pub kind: FaultKind,
}

impl ConfigFault {
    /// Whether it is reported before another: on a lower line, or on the same line with a number that is no higher.
    pub fn precedes(self, other: ConfigFault) -> bool
        ensures { result ≡ precedes self other }
    {
        self.line < other.line
            || (self.line == other.line && self.kind.number() <= other.kind.number())
    }
}
