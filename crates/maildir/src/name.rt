//! The names of files in a Maildir folder.

ghost use Rattle.std.specs.Prelude.{◌≡◌, ◌++◌, IfOk, Some, None, decimal, codes, drop, nat_eq, if◌then◌else◌, ◌&&◌, [], unwrap_or};
ghost use Rattle.std.specs.List.{starts_with, list_all};
ghost use Rattle.std.specs.Option.{option_map, option_copied};
ghost use Rattle.maildir.specs.Names.{name_of, name_text, parts_of, uid_of, uid_at_end, letters_at_end, name_before, if_base, is_base};
ghost use Rattle.maildir.specs.Names.{is_base_byte, is_below, are_letters};
ghost use Rattle.maildir.specs.FlaggedNames.{letters_by_name};

use mailcore::uid::Uid;
use std::alloc::{AllocError, Global};
use texts::cut::{cut, cut_at_last};
use texts::number::{push_number, read_u32};

/// What the name of a file says: a base, then `,U=` and a UID or nothing, then `:2,` and letters or nothing.
///
/// The base has at least one byte, no `/`, NUL or `:`, and does not begin with `.`.
#[derive(Drop)]
pub struct Name<'a> {
    /// What stands before the UID and the letters.
    pub base: &'a [u8],
    /// The UID of the message, or none where the file waits for one.
    pub uid: Option<Uid>,
    /// The letters after `:2,`, strictly rising letters of ASCII, or none where `:2,` does not stand there.
    pub letters: Option<&'a [u8]>,
}

/// The name that these bytes spell, or none if they spell no name. Its parts are slices of the bytes; it takes no memory.
pub fn read_name(text: &[u8]) -> Option<Name<'_>>
    ensures { option_map parts_of result ≡ name_of text.now }
{
    let (front, letters) = split_letters(text)?;
    name_before(front, letters)
}

/// The letters of the name that these bytes spell: none where it has none, or they spell no name. Its UID is not read.
pub fn letters_in(text: &[u8]) -> &[u8]
    ensures { result.now ≡ letters_by_name text.now }
{
    match split_letters(text) {
        Some((front, letters)) => letters_before(front, letters),
        None => b"",
    }
}

/// These letters, if a base and a UID, or a base alone, stand before them.
fn letters_before<'a>(front: &'a [u8], letters: Option<&'a [u8]>) -> &'a [u8]
    ensures { result.now ≡ (if is_base front.now then unwrap_or (option_copied letters.entry) [] else []) }
{
    if is_base(front) {
        letters.unwrap_or(b"")
    } else {
        b""
    }
}

/// The text of a name, which is its spelling where it has one.
///
/// `AllocError`: memory ran out.
pub fn write_name(alloc: Global, name: &Name<'_>) -> Result<Vec<u8>, AllocError>
    ensures { IfOk result (λ text. text.items ≡ name_text (parts_of name.now)) }
{
    spell(alloc, name.base, name.uid, name.letters)
}

/// The text of the name with these parts, as `write_name` gives it.
///
/// `AllocError`: memory ran out.
pub fn spell(
    alloc: Global,
    base: &[u8],
    uid: Option<Uid>,
    letters: Option<&[u8]>,
) -> Result<Vec<u8>, AllocError>
    ensures { IfOk result (λ text. text.items ≡ name_text (record { base = base.now; uid = uid; letters = option_copied letters.entry })) }
{
    let mut text = Vec::from_slice(alloc, base)?;
    if let Some(uid) = uid {
        text.extend_from_slice(b",U=")?;
        push_number(&mut text, u64::from(uid.get()))?;
    }
    if let Some(letters) = letters {
        text.extend_from_slice(b":2,")?;
        text.extend_from_slice(letters)?;
    }
    Ok(text)
}

/// A text without the letters after its first colon, and these letters. It has none where it has no colon.
fn split_letters(text: &[u8]) -> Option<(&[u8], Option<&[u8]>)>
    ensures { option_map (λ parts. (parts.0.now, option_copied parts.1)) result ≡ letters_at_end text.now }
{
    match cut(text, b':') {
        Some((front, following)) => match read_letters(following) {
            Some(letters) => Some((front, Some(letters))),
            None => None,
        },
        None => Some((text, None)),
    }
}

/// The name with these letters.
fn name_before<'a>(front: &'a [u8], letters: Option<&'a [u8]>) -> Option<Name<'a>>
    ensures { option_map parts_of result ≡ name_before front.now (option_copied letters.entry) }
{
    match split_uid(front) {
        Some((base, uid)) => name_of_parts(base, Some(uid), letters),
        None => name_of_parts(front, None, letters),
    }
}

/// The name with these parts, or none where this is no base.
fn name_of_parts<'a>(
    base: &'a [u8],
    uid: Option<Uid>,
    letters: Option<&'a [u8]>,
) -> Option<Name<'a>>
    ensures { option_map parts_of result ≡ if_base (record { base = base.now; uid = uid; letters = option_copied letters.entry }) }
{
    if is_base(base) {
        Some(Name { base, uid, letters })
    } else {
        None
    }
}

/// The UID at the end of a text, after `,U=`, and what stands before that, which has at least one byte.
fn split_uid(text: &[u8]) -> Option<(&[u8], Uid)>
    ensures { option_map (λ parts. (parts.0.now, parts.1)) result ≡ uid_at_end text.now }
{
    let (base, rest) = cut_at_last(text, b',')?;
    if base.is_empty() {
        return None;
    }
    let digits = rest.strip_prefix(b"U=")?;
    match read_uid(digits) {
        Some(uid) => Some((base, uid)),
        None => None,
    }
}

/// The UID with this decimal text.
pub(crate) fn read_uid(digits: &[u8]) -> Option<Uid>
    ensures { result ≡ uid_of digits.now }
{
    Uid::new(read_u32(digits, u32::MAX)?)
}

/// The letters after `2,`.
fn read_letters(text: &[u8]) -> Option<&[u8]>
    ensures { option_copied result
        ≡ (if starts_with nat_eq text.now (codes "2,") && are_letters (drop 2 text.now) then Some (drop 2 text.now) else None) }
{
    let letters = text.strip_prefix(b"2,")?;
    if are_letters(letters) {
        Some(letters)
    } else {
        None
    }
}

/// Whether these are letters of ASCII and strictly rise.
fn are_letters(letters: &[u8]) -> bool
    ensures { result ≡ are_letters letters.now }
{
    let mut rest = letters;
    while let [letter, others @ ..] = rest {
        if !letter.is_ascii_alphabetic() || !is_below(*letter, others) {
            return false;
        }
        rest = others;
    }
    true
}

/// Whether the first of these bytes, if there is one, is above this byte.
fn is_below(byte: u8, others: &[u8]) -> bool
    ensures { result ≡ is_below byte others.now }
{
    match others.first() {
        Some(first) => byte < *first,
        None => true,
    }
}

/// Whether this can be the base of a name.
fn is_base(text: &[u8]) -> bool
    ensures { result ≡ is_base text.now }
{
    !text.is_empty() && text[0] != b'.' && are_base_bytes(text)
}

/// Whether these bytes may stand in a base.
fn are_base_bytes(text: &[u8]) -> bool
    ensures { result ≡ list_all is_base_byte text.now }
{
    text.iter().all(|&byte| is_base_byte(byte))
}

/// Whether this byte may stand in a base.
fn is_base_byte(byte: u8) -> bool
    ensures { result ≡ is_base_byte byte }
{
    !matches!(byte, b'/' | 0 | b':')
}
