//! The UIDVALIDITY of a mailbox that is new.

ghost use Rattle.std.specs.Prelude.{◌≡◌, ◌+◌, ◌%◌};
ghost use Rattle.std.specs.Int.NonZero.{non_zero_u32_get};

use std::num::NonZeroU32;

/// The UIDVALIDITY that a mailbox gets where it has none yet, so many seconds after the beginning of 1970: another one each second, for
/// more than 130 years.
pub fn fresh_validity(seconds: u64) -> NonZeroU32
    ensures { non_zero_u32_get result ≡ seconds % 4294967295 + 1 }
{
    let number = (seconds % u64::from(u32::MAX)) as u32 + 1;
    match NonZeroU32::new(number) {
        Some(validity) => validity,
        None => unreachable!(),
    }
}
