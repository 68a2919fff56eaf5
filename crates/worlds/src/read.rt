//! How a world is read from its text (docs/FORMATS.md, "World").

ghost use Rattle.std.specs.Prelude.{◌≡◌, ◌≢◌, ◌+◌, ◌≤◌, ◌++◌, ◌∷◌, ℕ, List, [], IfErr, IfOk, OnErr, OnOk, codes, map};
ghost use Rattle.std.specs.List.{flat_map};
ghost use Rattle.worlds.specs.OptionsText.{IsHead};
ghost use Rattle.worlds.specs.Lines.{IsUpTo};
ghost use Rattle.texts.specs.Lines.{line_count, line_ends};
ghost use Rattle.worlds.specs.WorldText.{line_of, mailbox_text, text_from_far, waiting_line};
ghost use Rattle.worlds.specs.Worlds.{AreNamed, IsNamed, store_of, waiting_of, world_of};

use crate::fault::WorldFault;
use crate::line::take_line;
use crate::read_mailbox::{read_mailbox, read_waiting};
use crate::read_options::read_options;
use crate::read_state::read_state;
use crate::world::{Waiting, WaitingFile, World};
use mailcore::keywords::Keywords;
use mailcore::mailbox::StoredMailbox;
use mailcore::side::Side;
use std::alloc::Global;
use texts::lines::Lines;

/// The world that a text gives. Nothing may follow its line `end`.
pub fn read_world(alloc: Global, text: &[u8], waiting: Waiting) -> Result<World, WorldFault>
    ensures head { IfOk result (λ w. (following : List ℕ) × IsHead w.options following text.now) }
    ensures text { waiting ≡ Waiting.Kept → IfOk result (λ w. IsHead w.options (text_from_far (world_of w)) text.now) }
    ensures named { IfOk result (λ w. IsNamed w.options.keywords (world_of w)) }
    ensures fault { IfErr result (IsUpTo (line_ends text.now + 1)) }
{
    let mut lines = Lines::new(text);
    let world = take_world(alloc, waiting, &mut lines)?;
    read_nothing(&lines)?;
    Ok(world)
}

/// That nothing follows the lines that are taken.
pub(crate) fn read_nothing(lines: &Lines<'_>) -> Result<(), WorldFault>
    ensures ok { OnOk result (lines.now.rest.now ≡ []) }
    ensures fault { IfErr result (λ fault. fault ≡ WorldFault.Line (lines.now.taken + 1)) }
    ensures more { OnErr result (lines.now.rest.now ≢ []) }
{
    if lines.rest.is_empty() {
        Ok(())
    } else {
        Err(WorldFault::of_next(lines))
    }
}

/// The world that the next lines give, with its line `end`, after which other lines may follow.
pub fn take_world(
    alloc: Global,
    waiting: Waiting,
    lines: &mut Lines<'_>,
) -> Result<World, WorldFault>
    ensures head { IfOk result (λ w. (following : List ℕ) × IsHead w.options following lines.old.rest.now) }
    ensures text { waiting ≡ Waiting.Kept → IfOk result (λ w.
        IsHead w.options (text_from_far (world_of w) ++ lines.new.rest.now) lines.old.rest.now) }
    ensures named { IfOk result (λ w. IsNamed w.options.keywords (world_of w)) }
    ensures count { line_count lines.new ≤ line_count lines.old }
    ensures fault { IfErr result (IsUpTo (line_count lines.old + 1)) }
{
    let options = read_options(alloc, lines)?;
    let (far, near, waiting) = read_mailboxes(alloc, waiting, &options.keywords, lines)?;
    let state = read_state(alloc, lines)?;
    read_end(lines)?;
    Ok(World {
        options,
        far,
        near,
        waiting,
        state,
    })
}

/// The far and the near mailbox, and the near files that stay waiting.
fn read_mailboxes(
    alloc: Global,
    waiting: Waiting,
    keywords: &Keywords,
    lines: &mut Lines<'_>,
) -> Result<(StoredMailbox, StoredMailbox, Vec<WaitingFile>), WorldFault>
    ensures text { waiting ≡ Waiting.Kept → IfOk result (λ parts. lines.old.rest.now ≡ mailbox_text Side.Far (store_of parts.0)
        ++ (mailbox_text Side.Near (store_of parts.1) ++ (flat_map waiting_line (map waiting_of parts.2.items) ++ lines.new.rest.now))) }
    ensures far { IfOk result (λ parts. AreNamed keywords.now parts.0.messages []) }
    ensures near { IfOk result (λ parts. AreNamed keywords.now parts.1.messages (map waiting_of parts.2.items)) }
    ensures count { line_count lines.new ≤ line_count lines.old }
    ensures fault { IfErr result (IsUpTo (line_count lines.old + 1)) }
{
    let far = read_mailbox(alloc, Side::Far, keywords, lines)?;
    let mut near = read_mailbox(alloc, Side::Near, keywords, lines)?;
    let waiting = read_waiting(alloc, waiting, &mut near, keywords, lines)?;
    Ok((far, near, waiting))
}

/// The line `end`.
pub(crate) fn read_end(lines: &mut Lines<'_>) -> Result<(), WorldFault>
    ensures text { OnOk result (lines.old.rest.now ≡ line_of (codes "end" ∷ []) ++ lines.new.rest.now) }
    ensures count { line_count lines.new ≤ line_count lines.old }
    ensures fault { IfErr result (IsUpTo (line_count lines.old + 1)) }
{
    let line = take_line(lines, b"end")?;
    if line.text.is_empty() {
        Ok(())
    } else {
        Err(WorldFault::of(line))
    }
}
