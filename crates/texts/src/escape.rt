//! The escaped text of bytes: bytes 32 to 126 except `"` and `\` stand for themselves, and each other byte is `\` and
//! two lower case hexadecimal digits.

ghost use Rattle.std.specs.Prelude.{◌≡◌, ◌≢◌, ◌<◌, ◌==◌, ◌||◌, ◌++◌, ℕ, List, ◌∷◌, All, IfOk, OnOk, IsErrOf, MatchOption, length, string_bytes};
ghost use Rattle.std.specs.List.{list_all};
ghost use Rattle.texts.specs.Escape.{escape_of, escaped, hex_digit, is_plain};

use crate::cut::cut;
use crate::fault::EscapeFault;
use std::alloc::{AllocError, Global};

/// The bytes whose escaped text this is. `NotEscaped`: there are none.
///
/// Memory is taken once, for as many bytes as the text has: there are no more.
pub fn unescape(alloc: Global, text: &[u8]) -> Result<Vec<u8>, EscapeFault>
    ensures bytes { IfOk result (λ bytes. escaped bytes.items ≡ text.now) }
    ensures not_escaped { IsErrOf result EscapeFault.NotEscaped → (bytes : List ℕ) → All (λ b. b < 256) bytes → escaped bytes ≢ text.now }
{
    let mut bytes = Vec::new(alloc);
    unescape_into(&mut bytes, text)?;
    Ok(bytes)
}

/// The same, in the place of what `bytes` holds: where it has room, no memory is taken. After an error it may hold anything.
pub fn unescape_into(bytes: &mut Vec<u8>, text: &[u8]) -> Result<(), EscapeFault>
    ensures bytes { OnOk result (escaped bytes.new.items ≡ text.now) }
    ensures not_escaped { IsErrOf result EscapeFault.NotEscaped → (bytes : List ℕ) → All (λ b. b < 256) bytes → escaped bytes ≢ text.now }
{
    if !has_only_text_bytes(text) {
        return Err(EscapeFault::NotEscaped);
    }
    bytes.clear();
    bytes.reserve(text.len())?;
    let mut rest = text;
    while let Some((plain, escape)) = cut_escape(rest) {
        bytes.extend_from_slice(plain)?;
        rest = push_escape(bytes, escape)?;
    }
    bytes.extend_from_slice(rest)?;
    Ok(())
}

/// What stands before the first `\` of a text and what follows it, or none if the text has none.
fn cut_escape(text: &[u8]) -> Option<(&[u8], &[u8])>
    ensures { MatchOption result (All (λ b. b ≢ 92) text.now)
        (λ parts. (text.now ≡ parts.0.now ++ 92 ∷ parts.1.now) × All (λ b. b ≢ 92) parts.0.now) }
{
    match text {
        // Escapes often follow one another, as at the end of a message's header: there is nothing to search then.
        [b'\\', following @ ..] => Some((&text[..0], following)),
        _ => cut(text, b'\\'),
    }
}

/// Whether each byte of a text stands for itself or is `\`, as in an escaped text.
fn has_only_text_bytes(text: &[u8]) -> bool
    ensures { result ≡ list_all (λ b. is_plain b || b == 92) text.now }
{
    // With no early exit, many bytes are tested at a time.
    text.iter().fold(true, |all, &byte| {
        all & (is_plain(byte) || byte == b'\\')
    })
}

/// Adds the byte of the escape whose `\` stands in front of this text, and gives what follows the escape.
/// `NotEscaped`: no escape stands there.
fn push_escape<'a>(bytes: &mut Vec<u8>, text: &'a [u8]) -> Result<&'a [u8], EscapeFault>
    ensures text { IfOk result (λ following. escaped bytes.new.items ++ following.now ≡ escaped bytes.old.items ++ 92 ∷ text.now) }
    ensures shorter { IfOk result (λ following. length following.now < length text.now) }
    ensures not_escaped { IsErrOf result EscapeFault.NotEscaped → (b : ℕ) → b < 256 → (rest : List ℕ) → escape_of b ++ rest ≢ 92 ∷ text.now }
{
    // Most escapes end a line of mail: both are taken at once.
    if let Some(following) = text.strip_prefix(b"0d\\0a") {
        bytes.extend_from_slice(b"\r\n")?;
        return Ok(following);
    }
    let Some((byte, following)) = split_escape(text) else {
        return Err(EscapeFault::NotEscaped);
    };
    bytes.push(byte).map_err(AllocError::from)?;
    Ok(following)
}

/// The byte of the escape whose `\` stands in front of this text, and what follows the escape, or none if no
/// escape stands there.
fn split_escape(text: &[u8]) -> Option<(u8, &[u8])>
    ensures { MatchOption result ((b : ℕ) → b < 256 → (rest : List ℕ) → escape_of b ++ rest ≢ 92 ∷ text.now)
        (λ first. escape_of first.0 ++ first.1.now ≡ 92 ∷ text.now) }
{
    let (&high, rest) = text.split_first()?;
    let (&low, rest) = rest.split_first()?;
    let byte = hex_value(high)? * 16 + hex_value(low)?;
    if is_plain(byte) {
        None
    } else {
        Some((byte, rest))
    }
}

/// The value of a lower case hexadecimal digit.
fn hex_value(digit: u8) -> Option<u8>
    ensures { MatchOption result ((d : ℕ) → d < 16 → hex_digit d ≢ digit) (λ d. (d < 16) × (hex_digit d ≡ digit)) }
{
    match digit {
        b'0'..=b'9' => Some(digit - b'0'),
        b'a'..=b'f' => Some(digit - b'a' + 10),
        _ => None,
    }
}

/// The lower case hexadecimal digit of a value.
fn hex_digit(value: u8) -> u8
    requires { value < 16 }
    ensures below_128 { result < 128 }
    ensures digit { result ≡ hex_digit value }
{
    if value < 10 {
        b'0' + value
    } else {
        b'a' + (value - 10)
    }
}

/// Whether a byte stands for itself.
fn is_plain(byte: u8) -> bool
    ensures { result ≡ is_plain byte }
{
    matches!(byte, b' '..=b'~') && byte != b'"' && byte != b'\\'
}

/// Adds the escaped text of these bytes.
pub fn push_escaped(text: &mut String, bytes: &[u8]) -> Result<(), AllocError>
    ensures { OnOk result (string_bytes text.new ≡ string_bytes text.old ++ escaped bytes.now) }
{
    for &byte in bytes {
        push_byte(text, byte)?;
    }
    Ok(())
}

/// Adds the escaped text of one byte.
fn push_byte(text: &mut String, byte: u8) -> Result<(), AllocError>
    ensures { OnOk result (string_bytes text.new ≡ string_bytes text.old ++ escape_of byte) }
{
    if is_plain(byte) {
        text.push(char::from(byte))
    } else {
        text.push('\\')?;
        text.push(char::from(hex_digit(byte / 16)))?;
        text.push(char::from(hex_digit(byte % 16)))
    }
}
