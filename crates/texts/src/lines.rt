//! The lines of a text, one after another.

ghost use Rattle.std.specs.Prelude.{◌≡◌, ◌≢◌, ◌+◌, ◌<◌, ◌≤◌, ◌^◌, ◌++◌, ◌∷◌, ℕ, List, [], All, length, IfNone, IfSome, OnSome};

use crate::cut::cut;

/// A line of a text, or what is left to read of it.
#[derive(Clone, Copy)]
pub struct Line<'a> {
    /// Its number, from 1.
    pub number: usize,
    /// Its bytes, without the LF.
    pub text: &'a [u8],
}

/// The lines of a text that are not taken yet.
#[derive(Drop)]
pub struct Lines<'a> {
    /// How many lines are taken.
    pub taken: usize,
    /// The text after them.
    pub rest: &'a [u8],
    ghost countable: { taken + length rest.now + 1 < 2 ^ 64 },
}

impl<'a> Lines<'a> {
    ghost use Rattle.texts.specs.Lines.{IsLine, line_count, lines_of};

    /// All lines of this text.
    pub fn new(text: &'a [u8]) -> Self
        ensures { (result.taken ≡ 0) × (result.rest.now ≡ text.now) }
    {
        Lines {
            taken: 0,
            rest: text,
        }
    }

    /// Takes the next line if it is whole: an LF ends it. Else takes nothing.
    pub fn next_line(&mut self) -> Option<Line<'a>>
        ensures some { IfSome result (λ line. All (λ b. b ≢ 10) line.text.now × (self.old.rest.now ≡ line.text.now ++ 10 ∷ self.new.rest.now)) }
        ensures taken { IfSome result (λ line. (line.number ≡ self.old.taken + 1) × (self.new.taken ≡ self.old.taken + 1)) }
        ensures shorter { OnSome result (length self.new.rest.now < length self.old.rest.now) }
        ensures none { IfNone result (All (λ b. b ≢ 10) self.old.rest.now) }
        ensures unchanged { IfNone result (self.new ≡ self.old) }
    {
        let (text, rest) = cut(self.rest, b'\n')?;
        self.rest = rest;
        self.taken += 1;
        Some(Line {
            number: self.taken,
            text,
        })
    }

    /// Takes the next line if it is whole and begins with `start`, and gives what follows `start`. Else takes nothing.
    pub fn take_if(&mut self, start: &[u8]) -> Option<Line<'a>>
        ensures line { IfSome result (λ line. IsLine start.now line.text.now self.new.rest.now self.old.rest.now) }
        ensures missing { IfNone result ((text following : List ℕ) → ¬ IsLine start.now text following self.old.rest.now) }
        ensures taken { IfSome result (λ line. (line.number ≡ self.old.taken + 1) × (self.new.taken ≡ self.old.taken + 1)) }
        ensures shorter { OnSome result (length self.new.rest.now < length self.old.rest.now) }
        ensures count { line_count self.new ≤ line_count self.old }
        ensures none { IfNone result (self.new ≡ self.old) }
    {
        let following = self.rest.strip_prefix(start)?;
        let (text, rest) = cut(following, b'\n')?;
        self.rest = rest;
        self.taken += 1;
        Some(Line {
            number: self.taken,
            text,
        })
    }

    /// Takes the next line, which an LF or the end of the text ends, or none if all are taken.
    pub fn next_or_last(&mut self) -> Option<Line<'a>>
        ensures line { IfSome result (λ line. lines_of self.old.rest.now ≡ line.text.now ∷ lines_of self.new.rest.now) }
        ensures taken { IfSome result (λ line. (line.number ≡ self.old.taken + 1) × (self.new.taken ≡ self.old.taken + 1)) }
        ensures shorter { OnSome result (length self.new.rest.now < length self.old.rest.now) }
        ensures all { IfNone result (lines_of self.old.rest.now ≡ []) }
    {
        if self.rest.is_empty() {
            return None;
        }
        self.taken += 1;
        let number = self.taken;
        let Some((text, rest)) = cut(self.rest, b'\n') else {
            let text = self.rest;
            self.rest = &[];
            return Some(Line { number, text });
        };
        self.rest = rest;
        Some(Line { number, text })
    }
}
