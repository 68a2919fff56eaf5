//! Which fault of several is reported.

ghost use Rattle.std.specs.Prelude.{◌≡◌, ℕ, List, IfSome, Some};
ghost use Rattle.config.specs.Lines.{IsUpTo};
ghost use Rattle.config.specs.Outlines.{Reports, earlier};
ghost use Rattle.config.specs.Readings.{IsLine};

use config_words::fault::{ConfigFault, FaultKind};

/// Which of two faults is reported: that of the lower line, and on one line the one with the lower number.
pub(crate) fn first_of(first: Option<ConfigFault>, fault: ConfigFault) -> ConfigFault
    ensures lines { (last : ℕ) → IfSome first (IsUpTo last) → IsUpTo last fault → IsUpTo last result }
    ensures earlier { result ≡ earlier first fault }
{
    match first {
        Some(first) if first.precedes(fault) => first,
        _ => fault,
    }
}

/// The first fault where a line names no channel.
pub(crate) fn unknown_first(first: Option<ConfigFault>, line: usize) -> ConfigFault
    ensures lines { (last : ℕ) → IfSome first (IsUpTo last) → IsLine last line → IsUpTo last result }
    ensures again { (again : List ConfigFault) → Reports again first → Reports again (Some result) }
{
    let kind = FaultKind::UnknownName;
    first_of(first, ConfigFault { line, kind })
}
