//! Where a byte stands in a line, as far as literals go, without the grammar.

ghost use Rattle.std.specs.Prelude.{◌≡◌};
ghost use Rattle.wire_reader.specs.Lexical.{next, is_in};

use crate::limit::LITERAL_MAX;

/// Where a byte stands in a line, as far as literals go.
#[derive(Clone, Copy, PartialEq, Eq)]
pub enum Phase {
    /// In no literal and no length of one.
    Plain,
    /// After `{`.
    Brace,
    /// After `{` and this number.
    Digits(u32),
    /// After `{`, this number and `+`.
    Plus(u32),
    /// After the `}` of this length; whether `+` stands before it.
    Close(u32, bool),
    /// After that and CR.
    Return(u32, bool),
    /// So many octets of a literal are still to come.
    In(u32),
}

/// Where the next byte stands.
pub(crate) fn next(phase: Phase, b: u8) -> Phase
    ensures { result ≡ next phase b }
{
    match phase {
        Phase::In(n) => {
            if n <= 1 {
                Phase::Plain
            } else {
                Phase::In(n - 1)
            }
        }
        Phase::Return(n, _) if b == b'\n' && n != 0 => Phase::In(n),
        Phase::Close(n, plus) if b == b'\r' => Phase::Return(n, plus),
        Phase::Plus(n) if b == b'}' => Phase::Close(n, true),
        Phase::Digits(n) if b == b'}' => Phase::Close(n, false),
        Phase::Digits(n) if b == b'+' => Phase::Plus(n),
        Phase::Digits(n) if b'0' <= b && b <= b'9' && n <= LITERAL_MAX => {
            Phase::Digits(10 * n + u32::from(b - 48))
        }
        Phase::Brace if b'0' <= b && b <= b'9' => Phase::Digits(u32::from(b - 48)),
        _ => {
            if b == b'{' {
                Phase::Brace
            } else {
                Phase::Plain
            }
        }
    }
}

/// Whether octets of a literal are still to come.
pub(crate) fn is_in(phase: Phase) -> bool
    ensures { result ≡ is_in phase }
{
    match phase {
        Phase::In(_) => true,
        _ => false,
    }
}
