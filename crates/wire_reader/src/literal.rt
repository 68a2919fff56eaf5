//! Literals: `{n}` or, in commands, `{n+}`, a line end, and then n octets (RFC 9051, section 4.3).

ghost use Rattle.std.specs.Prelude.{◌≡◌, ◌≤◌, false, Some};
ghost use Rattle.std.specs.Option.{ForSome};
ghost use Rattle.wire_reader.specs.Filled.{filled_literal_at};
ghost use Rattle.wire_reader.specs.Given.{Gives};
ghost use Rattle.wire_reader.specs.Literal.{Fits, step_of, length_step, plus_step, length_at, waits_for, octets_at, octets_of, literal_at};

use crate::answer::front;
use crate::limit::LITERAL_MAX;
use crate::punctuation::byte;
use crate::scanner::to_nul;
use crate::side::Speaker;
use crate::stop::{Kind, Stop};

/// What a byte does to the length so far: a number, and whether `+` follows it.
#[derive(Clone, Copy, PartialEq, Eq)]
pub enum LengthStep {
    /// The length goes on.
    On((u32, bool)),
    /// The byte closes it.
    Take((u32, bool)),
    /// The byte is refused.
    Odd(Kind),
}

/// Reads a literal; gives its octets and the bytes after them, of which at least one is required.
///
/// A length of more than 16777238, or of more than 4096 with `+`, is refused as too long.
pub fn literal(side: Speaker, bytes: &[u8]) -> Result<(&[u8], &[u8]), Stop>
    ensures { Gives (λ r. (r.0.now, r.1.now)) result (literal_at side bytes.now) }
{
    let rest = byte(b'{', bytes)?;
    let ((n, plus), rest) = length(side, rest)?;
    octets_of(side, n, plus, rest)
}

/// Reads a literal of at least one octet; gives its octets and the bytes after them, of which at least one is required. Its limits are
/// those of `literal`.
pub fn filled_literal(side: Speaker, bytes: &[u8]) -> Result<(&[u8], &[u8]), Stop>
    ensures { Gives (λ r. (r.0.now, r.1.now)) result (filled_literal_at side bytes.now) }
{
    let rest = byte(b'{', bytes)?;
    if let [b'0', ..] = rest {
        return Err(Stop::Fails(Kind::Syntax, rest.len()));
    }
    let ((n, plus), rest) = length(side, rest)?;
    octets_of(side, n, plus, rest)
}

/// The length of a literal after its `{`, up to and with `}`.
fn length(side: Speaker, bytes: &[u8]) -> Result<((u32, bool), &[u8]), Stop>
    ensures { Gives (λ r. (r.0, r.1.now)) result (length_at side bytes.now) }
{
    let mut read = None;
    for (i, b) in bytes.iter().enumerate() {
        match length_step(side, read, *b) {
            LengthStep::On(next) => read = Some(next),
            LengthStep::Take(found) => return Ok((found, &bytes[i + 1..])),
            LengthStep::Odd(kind) => return Err(Stop::Fails(kind, bytes.len() - i)),
        }
    }
    Err(Stop::Ends(None))
}

fn length_step(side: Speaker, read: Option<(u32, bool)>, b: u8) -> LengthStep
    requires limit { ForSome read (λ p. p.0 ≤ 16777238) }
    ensures step { step_of result ≡ length_step side read b }
    ensures kept { Fits result }
{
    match read {
        None => {
            if b'0' <= b && b <= b'9' {
                LengthStep::On((u32::from(b - 48), false))
            } else {
                LengthStep::Odd(Kind::Syntax)
            }
        }
        Some((n, true)) => {
            if b == b'}' {
                LengthStep::Take((n, true))
            } else {
                LengthStep::Odd(Kind::Syntax)
            }
        }
        Some((n, false)) => number_step(side, n, b),
    }
}

/// What a byte does after a number.
fn number_step(side: Speaker, n: u32, b: u8) -> LengthStep
    requires limit { n ≤ 16777238 }
    ensures step { step_of result ≡ length_step side (Some (n, false)) b }
    ensures kept { Fits result }
{
    if b == b'}' {
        LengthStep::Take((n, false))
    } else if b == b'+' {
        plus_step(side, n)
    } else if !(b'0' <= b && b <= b'9') || n == 0 {
        LengthStep::Odd(Kind::Syntax)
    } else {
        let more = 10 * n + u32::from(b - 48);
        if more <= LITERAL_MAX {
            LengthStep::On((more, false))
        } else {
            LengthStep::Odd(Kind::TooLong)
        }
    }
}

/// What `+` does after a number.
fn plus_step(side: Speaker, n: u32) -> LengthStep
    ensures step { step_of result ≡ plus_step side n }
    ensures kept { Fits result }
{
    match side {
        Speaker::Commands => {
            if n <= 4096 {
                LengthStep::On((n, true))
            } else {
                LengthStep::Odd(Kind::TooLong)
            }
        }
        Speaker::Replies => LengthStep::Odd(Kind::Syntax),
    }
}

/// The number of octets for which a literal's sender waits.
fn waits_for(side: Speaker, n: u32, plus: bool) -> Option<u32>
    ensures { result ≡ waits_for side (n, plus) }
{
    match side {
        Speaker::Commands => if plus { None } else { Some(n) },
        Speaker::Replies => None,
    }
}

/// The octets of a literal after the `}` of its length.
fn octets_of(side: Speaker, n: u32, plus: bool, bytes: &[u8]) -> Result<(&[u8], &[u8]), Stop>
    ensures { Gives (λ r. (r.0.now, r.1.now)) result (octets_of side (n, plus) bytes.now) }
{
    let rest = byte(b'\n', byte(b'\r', bytes)?)?;
    if rest.is_empty() {
        return Err(Stop::Ends(waits_for(side, n, plus)));
    }
    let (octets, rest) = octets(n, rest)?;
    if rest.is_empty() {
        return Err(Stop::Ends(None));
    }
    Ok((octets, rest))
}

/// So many octets, none of them 0.
fn octets(n: u32, bytes: &[u8]) -> Result<(&[u8], &[u8]), Stop>
    ensures { Gives (λ r. (r.0.now, r.1.now)) result (octets_at n bytes.now) }
{
    let (count, is_nul) = to_nul(front(n as usize, bytes));
    if is_nul {
        return Err(Stop::Fails(Kind::Syntax, bytes.len() - count + 1));
    }
    if count < n as usize {
        return Err(Stop::Ends(None));
    }
    Ok(bytes.split_at(n as usize))
}
