//! Numbers in texts: decimal, without sign or leading zero.

ghost use Rattle.std.specs.Prelude.{◌≡◌, ◌≤◌, ◌++◌, ℕ, Some, IfSome, OnOk, OnErr, decimal};
ghost use Rattle.texts.specs.Number.{has_sign_or_leading_zero, number_of};

use fast_float::parse_u64;
use itoa::Buffer;
use std::alloc::AllocError;

/// The number that `bytes` spell, or none if they spell no number up to `limit`.
pub fn read_number(bytes: &[u8], limit: u64) -> Option<u64>
    ensures spelled { IfSome result (λ n. (decimal n ≡ bytes.now) × (n ≤ limit)) }
    ensures each { (n : ℕ) → n ≤ limit → decimal n ≡ bytes.now → result ≡ Some n }
{
    if has_sign_or_leading_zero(bytes) {
        return None;
    }
    let Ok(number) = parse_u64(bytes) else {
        return None;
    };
    if number <= limit { Some(number) } else { None }
}

/// The number of 32 bits that `bytes` spell, or none if they spell no number up to `limit`.
pub fn read_u32(bytes: &[u8], limit: u32) -> Option<u32>
    ensures value { result ≡ number_of limit bytes.now }
    ensures spelled { IfSome result (λ n. (decimal n ≡ bytes.now) × (n ≤ limit)) }
    ensures each { (n : ℕ) → n ≤ limit → decimal n ≡ bytes.now → result ≡ Some n }
{
    let number = read_number(bytes, u64::from(limit))?;
    u32::try_from(number).ok()
}

/// Whether `parse_u64` reads more here than a number: a plus, or zeros before a digit.
fn has_sign_or_leading_zero(bytes: &[u8]) -> bool
    ensures { result ≡ has_sign_or_leading_zero bytes.now }
{
    match bytes {
        [b'+', ..] => true,
        [b'0', rest @ ..] => !rest.is_empty(),
        _ => false,
    }
}

/// Adds the text of a number. `AllocError`: memory ran out, and nothing was added.
pub fn push_number(text: &mut Vec<u8>, number: u64) -> Result<(), AllocError>
    ensures ok { OnOk result (text.new.items ≡ text.old.items ++ decimal number) }
    ensures err { OnErr result (text.new.items ≡ text.old.items) }
{
    let mut digits = Buffer::new();
    text.extend_from_slice(digits.format(number).as_bytes())
}
