//! The lines of a state and of a journal: a start, and the spelling of a value.

ghost use Rattle.std.specs.Prelude.{◌≡◌, ◌+◌, ◌<◌, ◌++◌, ◌∷◌, [], length, IfSome, IfNone};
ghost use Rattle.sync_state.specs.Adding.{Adds};
ghost use Rattle.sync_state.specs.Lines.{HasLine, HasNoLine};

use crate::fields::Fields;
use std::alloc::AllocError;
use texts::cut::cut;
use texts::lines::Lines;

/// Takes the next line if it is whole and is `start` with the spelling of a value, and gives that value. Else takes nothing.
pub fn take<T: Fields>(lines: &mut Lines<'_>, start: &[u8]) -> Option<T>
    ensures some { IfSome result (λ value. HasLine start.now T.fits T.spelling value lines.old.rest.now lines.new.rest.now) }
    ensures taken { IfSome result (λ _. lines.new.taken ≡ lines.old.taken + 1) }
    ensures shorter { IfSome result (λ _. length lines.new.rest.now < length lines.old.rest.now) }
    ensures none { IfNone result (HasNoLine start.now T.fits T.spelling lines.old.rest.now) }
    ensures unchanged { IfNone result (lines.new ≡ lines.old) }
{
    let (line, rest) = cut(lines.rest, b'\n')?;
    let value = T::read(line.strip_prefix(start)?)?;
    lines.rest = rest;
    lines.taken += 1;
    Some(value)
}

/// Adds the line that is `start` with the spelling of a value.
pub(crate) fn push_line<T: Fields>(
    text: &mut Vec<u8>,
    start: &[u8],
    value: T,
) -> Result<(), AllocError>
    ensures { Adds result text.old.items ((start.now ++ T.spelling value) ++ 10 ∷ []) text.new.items }
{
    text.extend_from_slice(start)?;
    value.push_to(text)?;
    text.push(b'\n')?;
    Ok(())
}
