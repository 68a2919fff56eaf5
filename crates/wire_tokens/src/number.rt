//! Numbers: decimal, without a leading zero, up to 4294967295 (RFC 9051, section 9: number, nz-number).

ghost use Rattle.std.specs.Prelude.{◌≡◌, ◌<◌, ◌≤◌, OnOk, OnErr, IfOk, IfSome, SomeIff};
ghost use Rattle.std.specs.Option.{ForSome};
ghost use Rattle.wire_reader.specs.Given.{Gives};
ghost use Rattle.wire_tokens.specs.Writing.{Appended};
ghost use Rattle.wire_tokens.specs.Numbers.{NumberText, NzText, greatest, with_digit, digits_at, number_at, nz_at};

use itoa::Buffer;
use mailcore::uid::Uid;
use std::alloc::AllocError;
use std::marker::Model;
use wire_reader::stop::{Kind, Stop};

/// A number from 1 to 4294967295.
///
/// It is not `Copy`: the prover has no rule for `?` on a result that holds a `Copy` type with a model beside a slice.
#[derive(Drop, PartialEq, Eq, PartialOrd, Ord)]
pub struct NonZero {
    number: u32,
}

impl Model for NonZero {
    ghost use Rattle.std.specs.Prelude.{ℕ, ◌<◌};

    ghost Value = { ℕ };

    ghost view = { λ n. n.number };

    ghost invariant = { λ n. 0 < n.number };

    ghost inverse = { λ n. record { number = n } };
}

impl NonZero {
    /// The number, or none at 0.
    pub fn new(number: u32) -> Option<NonZero>
        ensures { SomeIff result (0 < number) number }
    {
        if number > 0 {
            Some(NonZero { number })
        } else {
            None
        }
    }

    /// The number.
    pub fn get(&self) -> u32
        ensures number { result ≡ self.now }
        ensures positive { 0 < result }
    {
        self.number
    }

    /// Appends the number. `AllocError`: memory ran out, and nothing was appended.
    pub fn write(&self, out: &mut Vec<u8>) -> Result<(), AllocError>
        ensures ok { OnOk result (Appended (NzText self.now) out.old.items out.new.items) }
        ensures err { OnErr result (out.new.items ≡ out.old.items) }
    {
        write_number(self.get(), out)
    }
}

impl From<Uid> for NonZero {
    ghost from_gives = { λ uid n. n ≡ uid };

    fn from(uid: Uid) -> NonZero {
        NonZero { number: uid.get() }
    }
}

/// Reads a number from 0 to 4294967295; gives it and the bytes after it, of which the first is no digit.
pub fn number(bytes: &[u8]) -> Result<(u32, &[u8]), Stop>
    ensures { Gives (λ r. (r.0, r.1.now)) result (number_at bytes.now) }
{
    digits(0, bytes)
}

/// Reads a number from 1 to 4294967295; gives it and the bytes after it, of which the first is no digit.
pub fn nz(bytes: &[u8]) -> Result<(NonZero, &[u8]), Stop>
    ensures { Gives (λ r. (r.0, r.1.now)) result (nz_at bytes.now) }
{
    let (number, rest) = digits(1, bytes)?;
    Ok((NonZero { number }, rest))
}

/// Reads a number from `least`, which is 0 or 1, to 4294967295.
fn digits(least: u32, bytes: &[u8]) -> Result<(u32, &[u8]), Stop>
    ensures read { Gives (λ r. (r.0, r.1.now)) result (digits_at least greatest bytes.now) }
    ensures least { IfOk result (λ r. least ≤ r.0) }
{
    let mut read = None;
    for (i, b) in bytes.iter().enumerate() {
        if !b.is_ascii_digit() {
            return match read {
                Some(number) => Ok((number, &bytes[i..])),
                None => Err(Stop::Fails(Kind::Syntax, bytes.len() - i)),
            };
        }
        match with_digit(least, read, u32::from(*b - b'0')) {
            Some(number) => read = Some(number),
            None => return Err(Stop::Fails(Kind::Syntax, bytes.len() - i)),
        }
    }
    Err(Stop::Ends(None))
}

/// The number so far with a digit more, or none where it has a leading zero or is out of range.
fn with_digit(least: u32, read: Option<u32>, digit: u32) -> Option<u32>
    requires digit { digit < 10 }
    requires least { ForSome read (λ n. least ≤ n) }
    ensures next { result ≡ with_digit least greatest read digit }
    ensures least { IfSome result (λ n. least ≤ n) }
{
    match read {
        None => if digit < least { None } else { Some(digit) },
        Some(0) => None,
        Some(n) => n.checked_mul(10)?.checked_add(digit),
    }
}

/// Appends the number. `AllocError`: memory ran out, and nothing was appended.
pub fn write_number(n: u32, out: &mut Vec<u8>) -> Result<(), AllocError>
    ensures ok { OnOk result (Appended (NumberText n) out.old.items out.new.items) }
    ensures err { OnErr result (out.new.items ≡ out.old.items) }
{
    let mut digits = Buffer::new();
    out.extend_from_slice(digits.format(n).as_bytes())
}
