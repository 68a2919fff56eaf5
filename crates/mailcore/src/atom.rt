//! The bytes of atoms (RFC 9051, section 9).

ghost use Rattle.std.specs.Prelude.{◌≡◌};
ghost use Rattle.std.specs.List.{list_all};
ghost use Rattle.mailcore.specs.AtomBytes.{is_atom, is_atom_byte};

/// The most bytes of an atom.
const LONGEST: usize = 255;

/// Whether a byte can stand in an atom: a visible character of ASCII, and none of `"`, `%`, `(`, `)`, `*`, `\\`, `]` and `{`.
pub fn is_atom_byte(b: u8) -> bool
    ensures { result ≡ is_atom_byte b }
{
    matches!(b, 33..=126) && !matches!(b, b'"' | b'%' | b'(' | b')' | b'*' | b'\\' | b']' | b'{')
}

/// Whether this is an atom of at most 255 bytes.
pub fn is_atom(text: &[u8]) -> bool
    ensures { result ≡ is_atom text.now }
{
    !text.is_empty() && text.len() <= LONGEST && are_atom_bytes(text)
}

/// Whether all of these bytes can stand in an atom.
pub fn are_atom_bytes(bytes: &[u8]) -> bool
    ensures { result ≡ list_all is_atom_byte bytes.now }
{
    bytes.iter().all(|&b| is_atom_byte(b))
}
