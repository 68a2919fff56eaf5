//! The answer of a reader of whole lines.

ghost use Rattle.std.specs.Prelude.{◌≡◌, suc, take};
ghost use Rattle.wire_reader.specs.Answers.{stopped, answered, decisive, KeptOr, fault_within, within};

use crate::limit::limit_end;
use crate::stop::{Kind, ReadError, Stop};
use thiserror::Error;

/// What the bytes so far are.
#[derive(Drop)]
pub enum Read<T> {
    /// The first so many bytes are a spelling of the value.
    Whole(T, usize),
    /// They begin a command and end right after a literal's `{n}` and line end: its sender waits.
    WantsLiteral(u32),
    /// They begin a spelling otherwise.
    Partial,
}

/// Why the bytes are no spelling and begin none, or no answer can be given.
#[derive(Clone, Copy, Debug, PartialEq, Eq, Error)]
pub enum WireFault {
    /// So many bytes begin a spelling, and with the next one none begins.
    #[error("no spelling from byte {0} on")]
    Syntax(usize),
    /// More than 65536 bytes stand outside literals.
    #[error("the line is too long")]
    LineTooLong,
    /// The byte there puts a literal's length over its limit.
    #[error("the literal at byte {0} is too long")]
    LiteralTooLong(usize),
    /// A growth was refused.
    #[error("no memory")]
    NoMemory,
}

/// The answer on `len` bytes at which a reader stopped.
fn stopped<T>(stop: Stop, len: usize) -> Result<Read<T>, WireFault>
    ensures { result ≡ stopped len stop }
{
    match stop {
        Stop::Ends(Some(n)) => Ok(Read::WantsLiteral(n)),
        Stop::Ends(None) => Ok(Read::Partial),
        Stop::Fails(Kind::Syntax, left) => Err(WireFault::Syntax(len.saturating_sub(left))),
        Stop::Fails(Kind::TooLong, left) => Err(WireFault::LiteralTooLong(len.saturating_sub(
            left,
        ))),
    }
}

/// The answer on `len` bytes of which a reader gave this.
pub fn answered<T>(read: Result<(T, &[u8]), ReadError>, len: usize) -> Result<Read<T>, WireFault>
    ensures { result ≡ answered len read.entry }
{
    match read {
        Ok((value, rest)) => Ok(Read::Whole(value, len.saturating_sub(rest.len()))),
        Err(ReadError::Memory) => Err(WireFault::NoMemory),
        Err(ReadError::At(stop)) => stopped(stop, len),
    }
}

/// The answer on these bytes, where none of those that decide it is too many for a line; else the end of the bytes up to
/// and with the first one that is. So the limit is looked for in the line alone, and not in what follows it.
pub fn kept<T: Drop>(
    answer: Result<Read<T>, WireFault>,
    bytes: &[u8],
) -> Result<Result<Read<T>, WireFault>, usize>
    ensures { KeptOr answer bytes.now result }
{
    match limit_end(decisive(&answer, bytes)) {
        None => Ok(answer),
        Some(end) => Err(end),
    }
}

/// The bytes that decide the answer on these: those of the whole, those up to and with the one that is refused, or all.
fn decisive<'a, T>(answer: &Result<Read<T>, WireFault>, bytes: &'a [u8]) -> &'a [u8]
    ensures { result.now ≡ decisive answer.now bytes.now }
{
    match answer {
        Ok(Read::Whole(_, used)) => front(*used, bytes),
        Err(WireFault::Syntax(at)) => front_with(*at, bytes),
        Err(WireFault::LiteralTooLong(at)) => front_with(*at, bytes),
        _ => bytes,
    }
}

/// The first so many of the bytes, or all.
pub(crate) fn front(count: usize, bytes: &[u8]) -> &[u8]
    ensures { result.now ≡ take count bytes.now }
{
    if count < bytes.len() {
        &bytes[..count]
    } else {
        bytes
    }
}

/// The bytes up to and with the one at this place, or all.
fn front_with(at: usize, bytes: &[u8]) -> &[u8]
    ensures { result.now ≡ take (suc at) bytes.now }
{
    if at < bytes.len() {
        &bytes[..=at]
    } else {
        bytes
    }
}

/// What the answer on the bytes up to the first that is too many, which end there, is for all of them.
pub fn within<T: Drop>(answer: Result<Read<T>, WireFault>, end: usize) -> Result<Read<T>, WireFault>
    ensures { result ≡ within end answer }
{
    match answer {
        Ok(Read::Whole(value, used)) => {
            if used < end {
                Ok(Read::Whole(value, used))
            } else {
                Err(WireFault::LineTooLong)
            }
        }
        Ok(Read::WantsLiteral(_)) => Err(WireFault::LineTooLong),
        Ok(Read::Partial) => Err(WireFault::LineTooLong),
        Err(fault) => Err(fault_within(fault, end)),
    }
}

/// The fault in the bytes up to the first that is too many, as a fault of all of them.
fn fault_within(fault: WireFault, end: usize) -> WireFault
    ensures { result ≡ fault_within end fault }
{
    match fault {
        WireFault::Syntax(at) => {
            if at < end.saturating_sub(1) {
                WireFault::Syntax(at)
            } else {
                WireFault::LineTooLong
            }
        }
        WireFault::LineTooLong => WireFault::LineTooLong,
        WireFault::LiteralTooLong(at) => WireFault::LiteralTooLong(at),
        WireFault::NoMemory => WireFault::NoMemory,
    }
}
