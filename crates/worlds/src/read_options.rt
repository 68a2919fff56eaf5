//! The lines of a world that say what the run may do: `sync`, `expunge` and `keyword`.

ghost use Rattle.std.specs.Prelude.{◌≡◌, ◌+◌, ◌≤◌, IfErr, IfOk, IfSome, Ok};
ghost use Rattle.worlds.specs.OptionsText.{IsHead, cells_in, expunge_word};
ghost use Rattle.worlds.specs.Lines.{IsOf, IsUpTo};
ghost use Rattle.texts.specs.Lines.{line_count, line_ends};

use crate::fault::WorldFault;
use crate::line::take_line;
use crate::read_keywords::read_keywords;
use rules::options::{Cells, Options, Sides};
use rules::sync_words::sync_ops;
use std::alloc::{AllocError, Global};
use texts::lines::Lines;

/// What the run may do, from the next two lines and the keyword lines after them.
pub fn read_options(alloc: Global, lines: &mut Lines<'_>) -> Result<Options, WorldFault>
    ensures head { IfOk result (λ options. IsHead options lines.new.rest.now lines.old.rest.now) }
    ensures count { line_count lines.new ≤ line_count lines.old }
    ensures fault { IfErr result (IsUpTo (line_count lines.old + 1)) }
{
    let line = take_line(lines, b"sync ")?;
    let cells = read_cells(alloc, line.text)?.ok_or(WorldFault::of(line))?;
    let line = take_line(lines, b"expunge ")?;
    let expunge = read_sides(line.text).ok_or(WorldFault::of(line))?;
    let keywords = read_keywords(alloc, lines)?;
    Ok(Options {
        cells,
        expunge,
        keywords,
    })
}

/// The cells that Sync words with one space between choose, or none if they are no such words.
fn read_cells(alloc: Global, text: &[u8]) -> Result<Option<Cells>, AllocError>
    ensures { IfOk result (λ cells. IfSome cells (λ cells. cells_in text.now ≡ Ok cells)) }
{
    let words = text.split(|byte| *byte == b' ').collect::<Vec<_>>(alloc)?;
    Ok(sync_ops(&words).ok())
}

/// The sides that Expunge covers.
fn read_sides(word: &[u8]) -> Option<Sides>
    ensures { IfSome result (λ sides. word.now ≡ expunge_word sides) }
{
    let (far, near) = match word {
        b"None" => (false, false),
        b"Far" => (true, false),
        b"Near" => (false, true),
        b"Both" => (true, true),
        _ => return None,
    };
    Some(Sides { far, near })
}
