//! The words of a line, with one space between.

ghost use Rattle.std.specs.Prelude.{◌≡◌, ◌≢◌, ◌++◌, ◌∷◌, ℕ, All, IfSome, IfNone, MatchOption};
ghost use Rattle.mailcore.specs.KeywordNames.{IsWithin};
ghost use Rattle.mailcore.specs.Words.{flags_word};

use mailcore::flags::Flags;
use mailcore::keywords::Keywords;
use mailcore::words::read_flags;

/// The first word of a text and what follows the space that ends it, or none if there is no space.
pub fn split_word(text: &[u8]) -> Option<(&[u8], &[u8])>
    ensures { MatchOption result (All (λ b. b ≢ 32) text.now)
        (λ parts. (text.now ≡ parts.0.now ++ 32 ∷ parts.1.now) × All (λ b. b ≢ 32) parts.0.now) }
{
    // A word is short: byte by byte its end is found before a search by `memchr` has begun.
    let place = text.iter().position(|&byte| byte == b' ')?;
    Some((&text[..place], &text[place + 1..]))
}

/// The flags of a message: a word of flags, in which each letter has a name in IMAP by this map.
pub fn read_named(word: &[u8], keywords: &Keywords) -> Option<Flags>
    ensures spelled { IfSome result (λ flags. flags_word flags ≡ word.now) }
    ensures within { IfSome result (IsWithin keywords.now) }
    ensures none { IfNone result ((flags : ℕ) → IsWithin keywords.now flags → flags_word flags ≢ word.now) }
{
    let flags = read_flags(word)?;
    if flags.kept(keywords) == flags {
        Some(flags)
    } else {
        None
    }
}
