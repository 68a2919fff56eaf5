//! Modified UTF-7 (RFC 3501, section 5.1.3), each way alone.

ghost use Rattle.std.specs.Prelude.{◌≡◌, ◌++◌, ◌∷◌, ℕ, List, [], None, Some, Ok, true, false, IfOk, OnOk, MatchOption, if◌then◌else◌};
ghost use Rattle.std.specs.List.{list_all};
ghost use Rattle.std.specs.Str.{chars};
ghost use Rattle.link_face.specs.Names.{is_printable, plain, written, is_name_text, near_name, read, far_name};
ghost use Rattle.link_face.specs.Reading.{name_with};

use crate::run::{append_run, append_utf16, run_value};
use std::alloc::{AllocError, Global};
use std::str;
use wire_strings::line_text::all_text;

/// A name in modified UTF-7. None: it is not UTF-8, or has a control character.
pub(crate) fn near_name(alloc: Global, far: &[u8]) -> Result<Option<Vec<u8>>, AllocError>
    ensures { IfOk result (λ found. MatchOption found (near_name far.now ≡ None) (λ near. near_name far.now ≡ Some near.items)) }
{
    let Some(text) = name_text(far) else {
        return Ok(None);
    };
    let chars = chars_of(alloc, text)?;
    Ok(Some(written(alloc, &chars)?))
}

/// These bytes as a text. None: they are not UTF-8, or have a control character.
#[tactic(auto, using(crate::proofs::Utf8Names::no_text, crate::proofs::Utf8Names::is_a_text))]
fn name_text(far: &[u8]) -> Option<&str>
    ensures { MatchOption result (is_name_text far.now ≡ false) (λ text. (text.now ≡ far.now) × (is_name_text far.now ≡ true)) }
{
    match str::from_utf8(far) {
        Ok(text) if all_text(far) => Some(text),
        _ => None,
    }
}

/// The characters of a text.
fn chars_of(alloc: Global, text: &str) -> Result<Vec<char>, AllocError>
    ensures { IfOk result (λ found. found.items ≡ chars text.now) }
{
    text.chars().collect(alloc)
}

/// These characters in modified UTF-7.
fn written(alloc: Global, chars: &[char]) -> Result<Vec<u8>, AllocError>
    ensures { IfOk result (λ near. near.items ≡ written [] chars.now) }
{
    let mut near = Vec::new(alloc);
    let mut run = Vec::new(alloc);
    for c in chars {
        match printable(*c) {
            Some(b) => {
                append_run(alloc, &mut run, &mut near)?;
                append_plain(b, &mut near)?;
            }
            None => append_utf16(*c, &mut run)?,
        }
    }
    append_run(alloc, &mut run, &mut near)?;
    Ok(near)
}

/// The byte of a character that is printable ASCII.
fn printable(c: char) -> Option<u8>
    ensures { result ≡ (if is_printable c then Some c else None) }
{
    if ' ' <= c && c <= '~' {
        Some(c as u8)
    } else {
        None
    }
}

/// Appends what stands for a printable byte.
fn append_plain(b: u8, near: &mut Vec<u8>) -> Result<(), AllocError>
    ensures { OnOk result (near.new.items ≡ near.old.items ++ plain b) }
{
    if b == b'&' {
        near.extend_from_slice(b"&-")
    } else {
        near.extend_from_slice(&[b])
    }
}

/// The name that is this one in modified UTF-7. None: it has other bytes than printable ASCII, a run in it has no end, or is no
/// base64 of UTF-16.
pub(crate) fn far_name(alloc: Global, near: &[u8]) -> Result<Option<Vec<u8>>, AllocError>
    ensures { IfOk result (λ found. MatchOption found (far_name near.now ≡ None) (λ far. far_name near.now ≡ Some far.items)) }
{
    if all_printable(near) {
        read(alloc, near)
    } else {
        Ok(None)
    }
}

fn all_printable(near: &[u8]) -> bool
    ensures { result ≡ list_all is_printable near.now }
{
    near.iter().all(|b| is_printable(*b))
}

fn is_printable(b: u8) -> bool
    ensures { result ≡ is_printable b }
{
    32 <= b && b <= 126
}

/// What these bytes stand for.
fn read(alloc: Global, near: &[u8]) -> Result<Option<Vec<u8>>, AllocError>
    ensures { IfOk result (λ found. MatchOption found (read false [] near.now ≡ None) (λ far. read false [] near.now ≡ Some far.items)) }
{
    let mut reader = Reader::new(alloc);
    for b in near {
        if !reader.take(*b)? {
            return Ok(None);
        }
    }
    Ok(reader.name())
}

/// A name in modified UTF-7 that is read byte by byte.
#[derive(Drop)]
struct Reader {
    alloc: Global,
    /// What was read of the name.
    far: Vec<u8>,
    /// What was read of a run.
    run: Vec<u8>,
    /// Whether a run has begun that has not ended.
    is_within: bool,
}

impl Reader {
    /// Nothing was read.
    fn new(alloc: Global) -> Reader
        ensures far { result.far.items ≡ [] }
        ensures run { result.run.items ≡ [] }
        ensures is_within { result.is_within ≡ false }
    {
        Reader {
            alloc,
            far: Vec::new(alloc),
            run: Vec::new(alloc),
            is_within: false,
        }
    }

    /// Reads a byte, and returns whether it may stand there.
    #[tactic(auto, using(crate::proofs::NameLemmas::joined_joined))]
    fn take(&mut self, b: u8) -> Result<bool, AllocError>
        ensures read { result ≡ Ok true → (bytes : List ℕ) → name_with self.old (b ∷ bytes) ≡ name_with self.new bytes }
        ensures refused { result ≡ Ok false → (bytes : List ℕ) → name_with self.old (b ∷ bytes) ≡ None }
    {
        if self.is_within {
            return self.take_within(b);
        }
        if b == b'&' {
            self.is_within = true;
            self.run.clear();
        } else {
            self.far.extend_from_slice(&[b])?;
        }
        Ok(true)
    }

    /// The same within a run.
    #[tactic(auto, using(crate::proofs::NameLemmas::joined_joined))]
    fn take_within(&mut self, b: u8) -> Result<bool, AllocError>
        requires { self.old.is_within ≡ true }
        ensures read { result ≡ Ok true → (bytes : List ℕ) → name_with self.old (b ∷ bytes) ≡ name_with self.new bytes }
        ensures refused { result ≡ Ok false → (bytes : List ℕ) → name_with self.old (b ∷ bytes) ≡ None }
    {
        if b != b'-' {
            self.run.extend_from_slice(&[b])?;
            return Ok(true);
        }
        let Some(text) = run_value(self.alloc, &self.run)? else {
            return Ok(false);
        };
        self.far.extend_from_slice(&text)?;
        self.is_within = false;
        Ok(true)
    }

    /// The name that was read. None: its last run has not ended.
    fn name(self) -> Option<Vec<u8>>
        ensures { MatchOption result (name_with self [] ≡ None) (λ far. name_with self [] ≡ Some far.items) }
    {
        if self.is_within { None } else { Some(self.far) }
    }
}
