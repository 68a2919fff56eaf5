//! Atoms (RFC 9051, section 9: atom).

ghost use Rattle.std.specs.Prelude.{◌≡◌, ◌≤◌, OnOk, OnErr};
ghost use Rattle.std.specs.Option.{SomeIff};
ghost use Rattle.wire_reader.specs.Given.{Gives};
ghost use Rattle.wire_tokens.specs.Atoms.{IsAtom, AtomText, atom_at};
ghost use Rattle.wire_tokens.specs.Writing.{Appended};

use mailcore::atom::are_atom_bytes;
pub use mailcore::atom::is_atom_byte;
use std::alloc::AllocError;
use std::marker::Model;
use wire_reader::stop::{Kind, Stop};

/// The greatest number of bytes of an atom.
pub const ATOM_MAX: usize = 255;

/// An atom: 1 to 255 bytes of 33 to 126 except `( ) { % * " \ ]`, lent.
#[derive(Drop)]
pub struct Atom<'a> {
    text: &'a [u8],
}

impl<'a> Model for Atom<'a> {
    ghost use Rattle.std.specs.Prelude.{ℕ, List};
    ghost use Rattle.wire_tokens.specs.Atoms.{IsAtom};

    ghost Value = { List ℕ };

    ghost view = { λ a. a.text.now };

    ghost invariant = { λ a. IsAtom a.text.now };
}

impl<'a> Atom<'a> {
    /// The atom that these bytes are, or none if they are none.
    pub fn read(bytes: &'a [u8]) -> Option<Atom<'a>>
        ensures { SomeIff result (IsAtom bytes.now) bytes.now }
    {
        if !bytes.is_empty() && bytes.len() <= ATOM_MAX && are_atom_bytes(bytes) {
            Some(Atom { text: bytes })
        } else {
            None
        }
    }

    /// Its bytes.
    pub fn text(&self) -> &'a [u8]
        ensures same { result.now ≡ self.now }
        ensures atom { IsAtom result.now }
    {
        self.text
    }

    /// Writes it at the end.
    ///
    /// `AllocError`: memory ran out, and nothing is written.
    pub fn write(&self, out: &mut Vec<u8>) -> Result<(), AllocError>
        ensures ok { OnOk result (Appended (AtomText self.now) out.old.items out.new.items) }
        ensures err { OnErr result (out.new.items ≡ out.old.items) }
    {
        out.extend_from_slice(self.text())
    }
}

/// Reads an atom; gives it and the bytes after it, of which at least one is required.
pub fn read_atom(bytes: &[u8]) -> Result<(Atom<'_>, &[u8]), Stop>
    ensures { Gives (λ r. (r.0, r.1.now)) result (atom_at bytes.now) }
{
    for (i, b) in bytes.iter().enumerate() {
        if is_atom_byte(*b) {
            if i >= ATOM_MAX {
                return Err(Stop::Fails(Kind::Syntax, bytes.len() - i));
            }
        } else if i == 0 {
            return Err(Stop::Fails(Kind::Syntax, bytes.len()));
        } else {
            let (text, rest) = bytes.split_at(i);
            return Ok((Atom { text }, rest));
        }
    }
    Err(Stop::Ends(None))
}
