//! The letters after `:2,` in a name, and the flags that they stand for.

ghost use Rattle.std.specs.Prelude.{◌≡◌, ◌==◌, IfOk};
ghost use Rattle.std.specs.List.{list_any};
ghost use Rattle.mailcore.specs.FlagNames.{all_flags, letter as letter_of, letters_of};
ghost use Rattle.maildir.specs.Letters.{flag_with, flags_in, has_letter, is_known_letter, letters_with, stays};

use mailcore::flags::{Flag, Flags};
use mailcore::keywords::{Keyword, Keywords};
use std::alloc::{AllocError, Global};

/// The letters of ASCII, in its order.
const LETTERS: &[u8; 52] = b"ABCDEFGHIJKLMNOPQRSTUVWXYZabcdefghijklmnopqrstuvwxyz";

/// The flags whose letters are there, those without a name in IMAP too; other letters stand for none.
#[tactic(auto, unfolding(crate::specs::Letters::flags_in))]
pub fn flags_in(letters: &[u8]) -> Flags
    ensures { result ≡ flags_in letters.now }
{
    letters.iter().fold(Flags::none(), |found, letter| {
        found.union(flag_with(*letter))
    })
}

/// The set of the flag with this letter, empty if none has it.
fn flag_with(letter: u8) -> Flags
    ensures { result ≡ flag_with letter }
{
    match Flags::from_letters(&[letter]) {
        Some(flag) => flag,
        None => Flags::none(),
    }
}

/// The letters of a name once its message has these flags. A letter that stands neither for one of the six nor for a keyword of the map
/// stays as it is.
///
/// `AllocError`: memory ran out.
#[tactic(auto, unfolding(crate::specs::Letters::letters_with))]
pub fn letters_with(
    alloc: Global,
    before: &[u8],
    flags: Flags,
    keywords: &Keywords,
) -> Result<Vec<u8>, AllocError>
    ensures { IfOk result (λ letters. letters.items ≡ letters_with keywords.now before.now flags) }
{
    LETTERS
        .iter()
        .copied()
        .filter(|&letter| stays(before, flags, letter, keywords))
        .collect(alloc)
}

/// Whether this letter is there once the message has these flags.
fn stays(before: &[u8], flags: Flags, letter: u8, keywords: &Keywords) -> bool
    ensures { result ≡ stays keywords.now before.now flags letter }
{
    if is_known_letter(letter, keywords) {
        is_letter_of(letter, flags)
    } else {
        has_letter(before, letter)
    }
}

/// Whether this is the letter of one of these flags.
fn is_letter_of(letter: u8, flags: Flags) -> bool
    ensures { result ≡ has_letter (letters_of flags) letter }
{
    for other in flags.letters() {
        if other == letter {
            return true;
        }
    }
    false
}

/// Whether this is the letter of one of the six, or of a keyword of the map.
fn is_known_letter(letter: u8, keywords: &Keywords) -> bool
    ensures { result ≡ is_known_letter keywords.now letter }
{
    is_letter_of_six(letter) || has_keyword(keywords.as_slice(), letter)
}

/// Whether this is the letter of one of the six.
fn is_letter_of_six(letter: u8) -> bool
    ensures { result ≡ list_any (λ flag. letter_of flag == letter) all_flags }
{
    Flag::ALL.iter().any(|flag| flag.letter() == letter)
}

/// Whether one of these keywords has this letter.
fn has_keyword(keywords: &[Keyword], letter: u8) -> bool
    ensures { result ≡ list_any (λ k. k.letter == letter) keywords.now }
{
    keywords.iter().any(|k| k.letter == letter)
}

/// Whether this letter is there.
fn has_letter(letters: &[u8], letter: u8) -> bool
    ensures { result ≡ has_letter letters.now letter }
{
    letters.iter().any(|&other| other == letter)
}
