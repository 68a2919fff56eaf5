//! The versions of the texts of states and journals.

ghost use Rattle.std.specs.Prelude.{◌≡◌, ◌↔◌, ◌<◌, ◌^◌, true};
ghost use Rattle.sync_state.specs.Words.{version_word};
ghost use Rattle.sync_state.specs.Versions.{HasLetters, NoteLetters, StepLetters};

use crate::fields::Fields;
use mailcore::flags::Flags;
use rules::plan::{Note, Step};
use std::alloc::AllocError;

/// The version of a text, which its first line says.
#[derive(Clone, Copy, PartialEq, Eq)]
pub enum Version {
    /// The letters D F P R S T alone, and no keywords.
    One,
    /// The letters of all flags, and keywords. This version is written.
    Two,
}

impl Version {
    /// Whether it has a letter for each of these flags.
    pub fn has_letters(self, flags: Flags) -> bool
        ensures { HasLetters self flags ↔ (result ≡ true) }
    {
        let bits = flags.bits();
        match self {
            Version::One => bits < 64,
            Version::Two => true,
        }
    }

    /// Whether it has a letter for each flag of this step.
    pub fn has_letters_of_step(self, step: &Step) -> bool
        ensures { StepLetters self step.now ↔ (result ≡ true) }
    {
        match *step {
            Step::New { flags, .. } => self.has_letters(flags),
            Step::Flags { set, cleared, .. } => self.has_letters(set) && self.has_letters(cleared),
            Step::Gone { .. } | Step::Expunge { .. } => true,
        }
    }

    /// Whether it has a letter for each flag of this note.
    pub fn has_letters_of_note(self, note: &Note) -> bool
        ensures { NoteLetters self note.now ↔ (result ≡ true) }
    {
        match *note {
            Note::Record { flags, .. } => self.has_letters(flags),
            Note::Drop { .. } => true,
        }
    }
}

/// `1` or `2`.
impl Fields for Version {
    ghost use Rattle.sync_state.specs.WordLaws.{version-fits-injective};

    ghost fits = { λ _. Unit {0} };

    ghost spelling = { version_word };

    ghost injective = { version-fits-injective };

    fn read(text: &[u8]) -> Option<Version> {
        if text == b"1".as_slice() {
            Some(Version::One)
        } else if text == b"2".as_slice() {
            Some(Version::Two)
        } else {
            None
        }
    }

    fn push_to(self, text: &mut Vec<u8>) -> Result<(), AllocError> {
        match self {
            Version::One => text.push(b'1')?,
            Version::Two => text.push(b'2')?,
        }
        Ok(())
    }
}
