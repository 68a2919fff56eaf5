//! Tags of commands (RFC 9051, section 9: tag; here letters and digits alone).

ghost use Rattle.std.specs.Prelude.{◌≡◌, ◌≤◌, length, OnOk, OnErr};
ghost use Rattle.std.specs.List.{list_all};
ghost use Rattle.std.specs.Option.{SomeIff};
ghost use Rattle.wire_reader.specs.Given.{Gives};
ghost use Rattle.wire_tokens.specs.Atoms.{is_tag_byte, IsTag, TagText, tag_at};
ghost use Rattle.wire_tokens.specs.Writing.{Appended};

use std::alloc::AllocError;
use std::marker::Model;
use wire_reader::stop::{Kind, Stop};

/// The greatest number of bytes of a tag.
pub const TAG_MAX: usize = 32;

/// A tag: 1 to 32 letters of ASCII or digits. It is no `Copy` type, so that `?` may pass it on beside
/// the bytes that are left.
#[derive(Drop, PartialEq, Eq)]
pub struct Tag {
    // with zeros after the tag
    bytes: [u8; TAG_MAX],
    len: usize,
}

impl Model for Tag {
    ghost use Rattle.std.specs.Prelude.{ℕ, List, length, take};
    ghost use Rattle.wire_tokens.specs.Atoms.{padded, InTag};

    ghost Value = { List ℕ };

    ghost view = { λ t. take t.len t.bytes };

    ghost invariant = { λ t. InTag t.bytes t.len };

    ghost inverse = { λ a. record { bytes = padded a; len = length a } };
}

impl Tag {
    /// The tag that these bytes are, or none if they are none.
    pub fn read(bytes: &[u8]) -> Option<Tag>
        ensures { SomeIff result (IsTag bytes.now) bytes.now }
    {
        if !bytes.is_empty() && bytes.len() <= TAG_MAX && all_tag_bytes(bytes) {
            Some(Tag::of(bytes))
        } else {
            None
        }
    }

    /// The tag of these bytes.
    fn of(text: &[u8]) -> Tag
        requires { IsTag text.now }
        ensures { result ≡ text.now }
    {
        let mut bytes = [0; TAG_MAX];
        bytes[..text.len()].copy_from_slice(text);
        Tag {
            bytes,
            len: text.len(),
        }
    }

    /// Its bytes.
    pub fn text(&self) -> &[u8]
        ensures same { result.now ≡ self.now }
        ensures tag { IsTag result.now }
    {
        &self.bytes[..self.len]
    }

    /// Writes it at the end.
    ///
    /// `AllocError`: memory ran out, and nothing is written.
    pub fn write(&self, out: &mut Vec<u8>) -> Result<(), AllocError>
        ensures ok { OnOk result (Appended (TagText self.now) out.old.items out.new.items) }
        ensures err { OnErr result (out.new.items ≡ out.old.items) }
    {
        out.extend_from_slice(self.text())
    }
}

/// Reads a tag; gives it and the bytes after it, of which at least one is required.
pub fn read_tag(bytes: &[u8]) -> Result<(Tag, &[u8]), Stop>
    ensures { Gives (λ r. (r.0, r.1.now)) result (tag_at bytes.now) }
{
    for (i, b) in bytes.iter().enumerate() {
        if is_tag_byte(*b) {
            if i >= TAG_MAX {
                return Err(Stop::Fails(Kind::Syntax, bytes.len() - i));
            }
        } else if i == 0 {
            return Err(Stop::Fails(Kind::Syntax, bytes.len()));
        } else {
            let (text, rest) = bytes.split_at(i);
            return Ok((Tag::of(text), rest));
        }
    }
    Err(Stop::Ends(None))
}

fn all_tag_bytes(bytes: &[u8]) -> bool
    ensures { result ≡ list_all is_tag_byte bytes.now }
{
    bytes.iter().all(|&b| is_tag_byte(b))
}

fn is_tag_byte(b: u8) -> bool
    ensures { result ≡ is_tag_byte b }
{
    b.is_ascii_alphanumeric()
}
