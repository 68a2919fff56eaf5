//! Counts in the lines of a trial: numbers of any length.

ghost use Rattle.std.specs.Prelude.{◌≡◌, ◌<◌, ◌^◌, ◌+◌, ℕ, Some, IfSome, decimal};

use texts::number::read_number;

/// The number that a word spells, of any length: one that takes more than 64 bits is read as the greatest of these, since so much is
/// never counted. None: the word is no number.
pub fn read_count(word: &[u8]) -> Option<u64>
    ensures spelled { IfSome result (λ n. n + 1 < 2 ^ 64 → decimal n ≡ word.now) }
    ensures each { (n : ℕ) → n < 2 ^ 64 → decimal n ≡ word.now → result ≡ Some n }
{
    match read_number(word, u64::MAX) {
        Some(number) => Some(number),
        None if is_number(word) => Some(u64::MAX),
        None => None,
    }
}

/// The same of a number that is not 0.
pub fn read_ordinal(word: &[u8]) -> Option<u64>
    ensures positive { IfSome result (λ n. 0 < n) }
    ensures spelled { IfSome result (λ n. n + 1 < 2 ^ 64 → decimal n ≡ word.now) }
{
    match read_count(word) {
        Some(0) => None,
        number => number,
    }
}

/// Whether these are the digits of a number without a leading zero.
fn is_number(word: &[u8]) -> bool {
    match word {
        [b'0'] => true,
        [b'1'..=b'9', rest @ ..] => rest.iter().all(|byte| byte.is_ascii_digit()),
        _ => false,
    }
}
