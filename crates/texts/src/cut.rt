//! Texts cut at a byte.

ghost use Rattle.std.specs.Prelude.{◌≡◌, ◌≢◌, ◌++◌, ◌∷◌, All, MatchOption};
ghost use Rattle.std.specs.Option.{option_map};
ghost use Rattle.texts.specs.Cut.{cut_first, cut_last};

use memchr::{memchr, memrchr};

/// What stands before the first such byte of a text and what follows it, or none if the text has no such byte.
pub fn cut(text: &[u8], byte: u8) -> Option<(&[u8], &[u8])>
    ensures sides { MatchOption result (All (λ b. b ≢ byte) text.now)
        (λ parts. (text.now ≡ parts.0.now ++ byte ∷ parts.1.now) × All (λ b. b ≢ byte) parts.0.now) }
    ensures value { option_map (λ parts. (parts.0.now, parts.1.now)) result ≡ cut_first byte text.now }
{
    let place = memchr(byte, text)?;
    Some((&text[..place], &text[place + 1..]))
}

/// What stands before the last such byte of a text and what follows it, or none if the text has no such byte.
pub fn cut_at_last(text: &[u8], byte: u8) -> Option<(&[u8], &[u8])>
    ensures sides { MatchOption result (All (λ b. b ≢ byte) text.now)
        (λ parts. (text.now ≡ parts.0.now ++ byte ∷ parts.1.now) × All (λ b. b ≢ byte) parts.1.now) }
    ensures value { option_map (λ parts. (parts.0.now, parts.1.now)) result ≡ cut_last byte text.now }
{
    let place = memrchr(byte, text)?;
    Some((&text[..place], &text[place + 1..]))
}
