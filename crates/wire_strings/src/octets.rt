//! The octets of literals (RFC 9051, section 9: literal).

ghost use Rattle.std.specs.Prelude.{◌≡◌};
ghost use Rattle.std.specs.List.{list_all};
ghost use Rattle.std.specs.Option.{SomeIff};
ghost use Rattle.wire_reader.specs.Given.{Gives};
ghost use Rattle.wire_reader.specs.Literal.{is_octet, literal_at};
ghost use Rattle.wire_strings.specs.Literals.{IsLiteral};

use std::marker::Model;
use wire_reader::limit::LITERAL_MAX;
use wire_reader::literal::literal;
use wire_reader::side::Speaker;
use wire_reader::stop::Stop;

/// The greatest number of octets of a literal.
pub const OCTETS_MAX: usize = LITERAL_MAX as usize;

/// The octets of a literal, lent: at most 16777238, none of them 0.
#[derive(Drop)]
pub struct LentOctets<'a> {
    bytes: &'a [u8],
}

impl<'a> Model for LentOctets<'a> {
    ghost use Rattle.std.specs.Prelude.{ℕ, List};
    ghost use Rattle.wire_strings.specs.Literals.{IsLiteral};

    ghost Value = { List ℕ };

    ghost view = { λ o. o.bytes.now };

    ghost invariant = { λ o. IsLiteral o.bytes.now };
}

impl<'a> LentOctets<'a> {
    /// These bytes as the octets of a literal, or none if there are too many or one is 0.
    pub fn read(bytes: &'a [u8]) -> Option<LentOctets<'a>>
        ensures { SomeIff result (IsLiteral bytes.now) bytes.now }
    {
        if bytes.len() <= OCTETS_MAX && all_octets(bytes) {
            Some(LentOctets { bytes })
        } else {
            None
        }
    }

    /// The octets, as bytes.
    pub fn bytes(&self) -> &'a [u8]
        ensures same { result.now ≡ self.now }
        ensures literal { IsLiteral result.now }
    {
        self.bytes
    }
}

/// Reads a literal; gives its octets and the bytes after them, of which at least one is required.
pub fn read_octets(side: Speaker, bytes: &[u8]) -> Result<(LentOctets<'_>, &[u8]), Stop>
    ensures { Gives (λ r. (r.0, r.1.now)) result (literal_at side bytes.now) }
{
    let (octets, rest) = literal(side, bytes)?;
    Ok((LentOctets { bytes: octets }, rest))
}

/// Whether no byte is 0.
pub(crate) fn all_octets(bytes: &[u8]) -> bool
    ensures { result ≡ list_all is_octet bytes.now }
{
    bytes.iter().all(|&b| b != 0)
}
