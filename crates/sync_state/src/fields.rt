//! What stands in a line: words with one space between.

ghost use Rattle.std.specs.Prelude.{◌≡◌, ◌≢◌, ◌++◌, ◌∷◌, [], ℕ, List, All, IfSome, IfNone};
ghost use Rattle.sync_state.specs.Adding.{Adds};

use std::alloc::AllocError;
use texts::cut::cut;

/// Values that have a spelling in a line. Different values have different spellings.
pub trait Fields: Copy {
    /// The values that a text may hold.
    ghost fits: { Self → Type 0 };

    /// How a value is written.
    ghost spelling: { Self → List ℕ };

    /// The value that is spelled so, or none if there is none.
    fn read(text: &[u8]) -> Option<Self>
        ensures some { IfSome result (λ a. fits a × (text.now ≡ spelling a)) }
        ensures none { IfNone result ((a : Self) → fits a → text.now ≢ spelling a) };

    /// Adds the spelling. `AllocError`: a growth was refused, and some of it may stand there.
    fn push_to(self, text: &mut Vec<u8>) -> Result<(), AllocError>
        ensures { Adds result text.old.items (spelling self) text.new.items };

    ghost injective: { (a b : Self) → fits a → fits b → spelling a ≡ spelling b → a ≡ b };
}

/// Values that are spelled by one word.
pub trait Word: Fields {
    ghost one_word: { (a : Self) → Self.fits a → All (λ b. b ≢ 32) (Self.spelling a) };
}

/// No field.
impl Fields for () {
    ghost use Rattle.std.specs.Prelude.{refl};

    ghost fits = { λ _. Unit {0} };

    ghost spelling = { λ _. [] };

    ghost injective = { λ _ _ _ _ _. refl };

    fn read(text: &[u8]) -> Option<()> {
        if text.is_empty() { Some(()) } else { None }
    }

    fn push_to(self, _text: &mut Vec<u8>) -> Result<(), AllocError> {
        Ok(())
    }
}

/// A word, a space and what follows it.
impl<A: Word, B: Fields> Fields for (A, B) {
    ghost use Rattle.sync_state.specs.Cuts.{spaced-injective};

    ghost fits = { λ p. A.fits p.0 × B.fits p.1 };

    ghost spelling = { λ p. A.spelling p.0 ++ 32 ∷ B.spelling p.1 };

    ghost injective = { spaced-injective A.fits A.spelling B.fits B.spelling A.one_word A.injective B.injective };

    fn read(text: &[u8]) -> Option<(A, B)> {
        let (first, second) = cut(text, b' ')?;
        Some((A::read(first)?, B::read(second)?))
    }

    fn push_to(self, text: &mut Vec<u8>) -> Result<(), AllocError> {
        self.0.push_to(text)?;
        text.push(b' ')?;
        self.1.push_to(text)
    }
}

/// The value whose spelling stands in a line after `start`, or none if the line is no such one.
pub fn after<T: Fields>(line: &[u8], start: &[u8]) -> Option<T>
    ensures some { IfSome result (λ value. T.fits value × (line.now ≡ start.now ++ T.spelling value)) }
    ensures none { IfNone result ((value : T) → T.fits value → line.now ≢ start.now ++ T.spelling value) }
{
    T::read(line.strip_prefix(start)?)
}
