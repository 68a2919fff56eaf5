//! Lists of atoms with one space between, as capabilities are listed (RFC 9051, section 9: capability-data, enable-data).

ghost use Rattle.std.specs.Prelude.{◌≡◌, [], ◌∷◌, IfOk, OnOk, OnErr};
ghost use Rattle.wire_reader.specs.Given.{Gives};
ghost use Rattle.wire_tokens.specs.Names.{NamesText, has_name, names_at};
ghost use Rattle.wire_tokens.specs.Writing.{Appended};

use crate::atom::Atom;
use crate::spaced::{NameKind, has_name, read_spaced};
use std::alloc::{AllocError, Global};
use std::marker::Model;
use wire_reader::stop::Stop;

/// One or more atoms, lent; clauses see the list of them.
#[derive(Drop)]
pub struct Names<'a> {
    text: &'a [u8],
}

impl<'a> Model for Names<'a> {
    ghost use Rattle.std.specs.Prelude.{ℕ, List};
    ghost use Rattle.wire_tokens.specs.Names.{NamesText, names_of};

    ghost Value = { List (List ℕ) };

    ghost view = { λ n. names_of n.text.now };

    ghost invariant = { λ n. NamesText (names_of n.text.now) n.text.now };
}

impl<'a> Names<'a> {
    /// One atom alone.
    pub fn one(atom: &Atom<'a>) -> Names<'a>
        ensures { result ≡ atom.now ∷ [] }
    {
        Names { text: atom.text() }
    }

    /// The text of all, with one space between.
    pub fn text(&self) -> &'a [u8]
        ensures { NamesText self.now result.now }
    {
        self.text
    }

    /// Whether one of the atoms is this name, without case.
    pub fn contains(&self, name: &[u8]) -> bool
        ensures { result ≡ has_name name.now self.now }
    {
        has_name(self.text, name)
    }

    /// Writes them at the end, with one space between.
    ///
    /// `AllocError`: memory ran out, and nothing is written.
    pub fn write(&self, out: &mut Vec<u8>) -> Result<(), AllocError>
        ensures ok { OnOk result (Appended (NamesText self.now) out.old.items out.new.items) }
        ensures err { OnErr result (out.new.items ≡ out.old.items) }
    {
        out.extend_from_slice(self.text())
    }
}

/// The same, owned; clauses see the list of the atoms.
#[derive(Drop)]
pub struct NameList {
    text: Vec<u8>,
}

impl Model for NameList {
    ghost use Rattle.std.specs.Prelude.{ℕ, List};
    ghost use Rattle.wire_tokens.specs.Names.{NamesText, names_of};

    ghost Value = { List (List ℕ) };

    ghost view = { λ n. names_of n.text.items };

    ghost invariant = { λ n. NamesText (names_of n.text.items) n.text.items };
}

impl NameList {
    /// A copy of these names.
    ///
    /// An error means that memory ran out.
    pub fn copy_of(alloc: Global, names: &Names<'_>) -> Result<NameList, AllocError>
        ensures { IfOk result (λ list. list ≡ names.now) }
    {
        let text = Vec::from_slice(alloc, names.text)?;
        Ok(NameList { text })
    }

    /// The names, lent.
    pub fn names(&self) -> Names<'_>
        ensures { result ≡ self.now }
    {
        Names { text: &self.text }
    }
}

/// Reads one or more atoms with one space between; gives them and the bytes after them, of which at least one is required.
pub fn read_names(bytes: &[u8]) -> Result<(Names<'_>, &[u8]), Stop>
    ensures { Gives (λ r. (r.0, r.1.now)) result (names_at bytes.now) }
{
    let (text, rest) = read_spaced(NameKind::Atom, bytes)?;
    Ok((Names { text }, rest))
}
