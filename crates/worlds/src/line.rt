//! The lines of a world: what each begins with, and whether what it gives may stand there.

ghost use Rattle.std.specs.Prelude.{◌≡◌, ◌↔◌, ℕ, List, ◌+◌, ◌≤◌, IfErr, IfOk, IsOk, OnErr};
ghost use Rattle.texts.specs.Lines.{IsLine, line_count};
ghost use Rattle.worlds.specs.Lines.{IsOf};

use crate::fault::WorldFault;
use mailcore::fault::PushFault;
use texts::lines::{Line, Lines};

/// Takes the next line, and gives what follows `start`. `Line`: it does not begin so, or is missing.
pub fn take_line<'a>(lines: &mut Lines<'a>, start: &[u8]) -> Result<Line<'a>, WorldFault>
    ensures line { IfOk result (λ line. IsLine start.now line.text.now lines.new.rest.now lines.old.rest.now) }
    ensures missing { OnErr result ((text following : List ℕ) → ¬ IsLine start.now text following lines.old.rest.now) }
    ensures taken { IfOk result (λ line. (line.number ≡ lines.old.taken + 1) × (lines.new.taken ≡ lines.old.taken + 1)) }
    ensures count { line_count lines.new ≤ line_count lines.old }
    ensures err { IfErr result (λ fault. fault ≡ WorldFault.Line (lines.old.taken + 1)) }
{
    lines.take_if(start).ok_or(WorldFault::of_next(lines))
}

/// What adding an element answered: this line is a bad one if what it gives may not stand there.
pub fn pushed(line: Line<'_>, reported: Result<(), PushFault>) -> Result<(), WorldFault>
    ensures ok { IsOk result ↔ IsOk reported }
    ensures fault { IfErr result (IsOf line.entry.number) }
{
    match reported {
        Ok(()) => Ok(()),
        Err(PushFault::OutOfOrder) => Err(WorldFault::of(line)),
        Err(PushFault::NoMemory) => Err(WorldFault::NoMemory),
    }
}
