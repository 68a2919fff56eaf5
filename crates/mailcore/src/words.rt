//! The words of mail in texts: UIDs, other numbers of a mailbox, and flags. Each value has one spelling, and numbers are decimal.

ghost use Rattle.std.specs.Prelude.{◌≡◌, ◌≢◌, ◌+◌, ◌<◌, ◌^◌, ℕ, IfSome, IfNone, IsSome, Some, decimal, unwrap_or};
ghost use Rattle.mailcore.specs.FlagSet.{FLAGS};
ghost use Rattle.mailcore.specs.Words.{flags_word};

use crate::flags::Flags;
use crate::uid::Uid;
use texts::number::read_u32;

/// The greatest UID.
const LAST_UID: u32 = u32::MAX - 1;

/// A UIDVALIDITY or UIDNEXT, 1 to 4294967295 (RFC 9051, section 9, `nz-number`), or none if the word spells no such number.
pub fn read_positive(word: &[u8]) -> Option<u32>
    ensures spelled { IfSome result (λ n. (decimal n ≡ word.now) × (0 < n)) }
    ensures each { (n : ℕ) → 0 < n → n < 2 ^ 32 → decimal n ≡ word.now → result ≡ Some n }
{
    match read_u32(word, u32::MAX) {
        Some(0) => None,
        number => number,
    }
}

/// The highest UID that a side has given, or 0 if it has given none: 0 to 4294967294, or none if the word spells no such number.
pub fn read_highest(word: &[u8]) -> Option<u32>
    ensures spelled { IfSome result (λ n. (decimal n ≡ word.now) × (n + 1 < 2 ^ 32)) }
    ensures each { (n : ℕ) → n + 1 < 2 ^ 32 → decimal n ≡ word.now → result ≡ Some n }
{
    read_u32(word, LAST_UID)
}

/// A UID, or none if the word spells none.
pub fn read_uid(word: &[u8]) -> Option<Uid>
    ensures spelled { IfSome result (λ uid. decimal uid ≡ word.now) }
    ensures each { (uid : ℕ) → 0 < uid → uid + 1 < 2 ^ 32 → decimal uid ≡ word.now → result ≡ Some uid }
{
    Uid::new(read_u32(word, LAST_UID)?)
}

/// The UID of a side of an entry, where 0 stands for a side that has vanished, or none if the word spells neither.
pub fn read_side_uid(word: &[u8]) -> Option<Option<Uid>>
    ensures spelled { IfSome result (λ side. decimal (unwrap_or side 0) ≡ word.now) }
    ensures each { (uid : ℕ) → uid + 1 < 2 ^ 32 → decimal uid ≡ word.now → IsSome result }
{
    Some(Uid::new(read_u32(word, LAST_UID)?))
}

/// Flags: their letters in the order of ASCII, or `-` for none (docs/FORMATS.md). None if the word spells no flags.
pub fn read_flags(word: &[u8]) -> Option<Flags>
    ensures spelled { IfSome result (λ flags. flags_word flags ≡ word.now) }
    ensures set { IfSome result (λ flags. flags < 2 ^ FLAGS) }
    ensures none { IfNone result ((flags : ℕ) → flags < 2 ^ FLAGS → flags_word flags ≢ word.now) }
{
    if word == b"-".as_slice() {
        return Some(Flags::none());
    }
    // No letters are no word.
    if word.is_empty() {
        return None;
    }
    Flags::from_letters(word)
}
