//! Runs of characters in modified UTF-7 that do not stand for themselves: base64 of UTF-16 (RFC 3501, section 5.1.3).

ghost use Rattle.std.specs.Prelude.{◌≡◌, ◌++◌, ◌∷◌, ℕ, List, [], None, Some, map, IfOk, OnOk, MatchOption};
ghost use Rattle.std.specs.Result.{result_ok};
ghost use Rattle.std.specs.String.{string_bytes};
ghost use Rattle.base64.specs.Engines.{standard_no_pad};
ghost use Rattle.base64.specs.GeneralPurpose.{decode_of};
ghost use Rattle.link_face.specs.Names.{swapped, utf16_octets, run_text, units_after, text_of, run_value};
ghost use Rattle.link_face.specs.Reading.{units_with};

use base64::DecodeAllocError;
use base64::engine::general_purpose::STANDARD_NO_PAD;
use std::alloc::{AllocError, Global};

/// Appends the octets of a character in UTF-16, of each unit the high one first.
pub(crate) fn append_utf16(c: char, run: &mut Vec<u8>) -> Result<(), AllocError>
    ensures { OnOk result (run.new.items ≡ run.old.items ++ utf16_octets c) }
{
    let mut units = [0u16; 2];
    for unit in c.encode_utf16(&mut units).iter() {
        run.extend_from_slice(&[(*unit / 256) as u8, (*unit % 256) as u8])?;
    }
    Ok(())
}

/// Appends what stands for a run of characters with these octets, and empties it.
pub(crate) fn append_run(
    alloc: Global,
    run: &mut Vec<u8>,
    near: &mut Vec<u8>,
) -> Result<(), AllocError>
    ensures near { OnOk result (near.new.items ≡ near.old.items ++ run_text run.old.items) }
    ensures run { OnOk result (run.new.items ≡ []) }
{
    if run.is_empty() {
        return Ok(());
    }
    let base64 = STANDARD_NO_PAD.encode(alloc, run)?;
    let base64 = all_swapped(alloc, base64.as_bytes())?;
    near.extend_from_slice(b"&")?;
    near.extend_from_slice(&base64)?;
    near.extend_from_slice(b"-")?;
    run.clear();
    Ok(())
}

/// What these bytes between `&` and `-` stand for. None: they are no base64 of UTF-16.
pub(crate) fn run_value(alloc: Global, run: &[u8]) -> Result<Option<Vec<u8>>, AllocError>
    ensures { IfOk result (λ found. MatchOption found (run_value run.now ≡ None) (λ text. run_value run.now ≡ Some text.items)) }
{
    if run.is_empty() {
        return Ok(Some(Vec::from_slice(alloc, b"&")?));
    }
    let Some(octets) = octets_of(alloc, run)? else {
        return Ok(None);
    };
    let Some(units) = units_of(alloc, &octets)? else {
        return Ok(None);
    };
    text_of(alloc, &units)
}

/// The octets of this base64, if it is some.
fn octets_of(alloc: Global, run: &[u8]) -> Result<Option<Vec<u8>>, AllocError>
    ensures { IfOk result (λ found. MatchOption found (result_ok (decode_of standard_no_pad (map swapped run.now)) ≡ None)
        (λ octets. result_ok (decode_of standard_no_pad (map swapped run.now)) ≡ Some octets.items)) }
{
    let base64 = all_swapped(alloc, run)?;
    match STANDARD_NO_PAD.decode(alloc, &base64) {
        Ok(octets) => Ok(Some(octets)),
        Err(DecodeAllocError::DecodeError(_)) => Ok(None),
        Err(DecodeAllocError::OutOfMemory) => Err(AllocError),
    }
}

/// The units of UTF-16 of these octets. None: the last has one octet.
fn units_of(alloc: Global, octets: &[u8]) -> Result<Option<Vec<u16>>, AllocError>
    ensures { IfOk result (λ found. MatchOption found (units_after None octets.now ≡ None) (λ units. units_after None octets.now ≡ Some units.items)) }
{
    let mut units = Units::new(alloc);
    for octet in octets {
        units.take(*octet)?;
    }
    Ok(units.all())
}

/// Units of UTF-16, of each the high octet first.
#[derive(Drop)]
struct Units {
    whole: Vec<u16>,
    /// The first octet of the next one.
    high: Option<u8>,
}

impl Units {
    /// None.
    fn new(alloc: Global) -> Units
        ensures whole { result.whole.items ≡ [] }
        ensures high { result.high ≡ None }
    {
        Units {
            whole: Vec::new(alloc),
            high: None,
        }
    }

    /// Adds an octet.
    #[tactic(auto, using(crate::proofs::NameLemmas::joined_joined))]
    fn take(&mut self, octet: u8) -> Result<(), AllocError>
        ensures { OnOk result ((octets : List ℕ) → units_with self.old (octet ∷ octets) ≡ units_with self.new octets) }
    {
        match self.high {
            None => self.high = Some(octet),
            Some(high) => {
                self.whole
                    .extend_from_slice(&[256 * u16::from(high) + u16::from(octet)])?;
                self.high = None;
            }
        }
        Ok(())
    }

    /// All of them. None: the last has one octet.
    fn all(self) -> Option<Vec<u16>>
        ensures { MatchOption result (units_with self [] ≡ None) (λ units. units_with self [] ≡ Some units.items) }
    {
        match self.high {
            None => Some(self.whole),
            Some(_) => None,
        }
    }
}

/// The text of these units in UTF-8. None: a surrogate stands alone.
fn text_of(alloc: Global, units: &[u16]) -> Result<Option<Vec<u8>>, AllocError>
    ensures { IfOk result (λ found. MatchOption found (text_of units.now ≡ None) (λ text. text_of units.now ≡ Some text.items)) }
{
    match String::from_utf16(alloc, units)? {
        Ok(text) => Ok(Some(text.into_bytes())),
        Err(_) => Ok(None),
    }
}

/// The bytes with `,` for `/` and `/` for `,`.
fn all_swapped(alloc: Global, bytes: &[u8]) -> Result<Vec<u8>, AllocError>
    ensures { IfOk result (λ out. out.items ≡ map swapped bytes.now) }
{
    bytes.iter().map(|b| swapped(*b)).collect(alloc)
}

fn swapped(b: u8) -> u8
    ensures { result ≡ swapped b }
{
    match b {
        b',' => b'/',
        b'/' => b',',
        _ => b,
    }
}
