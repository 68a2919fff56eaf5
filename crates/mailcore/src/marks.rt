//! Marks for new copies, drawn from a generator.

ghost use Rattle.std.specs.Prelude.{◌≡◌, ◌≢◌, ◌+◌, All, AllPairs, IfNone, IfOk, IfSome, IsErr, IsErrOf, List, ◌<◌, ◌≤◌, ◌∷◌, [], ◌++◌, ℕ};
ghost use Rattle.std.specs.HashSet.{spare};
ghost use Rattle.mailcore.specs.Mark.{IsMark};
ghost use Rattle.mailcore.specs.Draws.{after_pair, after_pairs, Draws, GivesListed, GivesNew, is_listed, next_mark, Repeats, RUN_LENGTH};

use crate::fault::CoreFault;
use crate::tuid::Tuid;
use rand_core::Rng;
use std::alloc::Global;
use std::collections::HashSet;
use std::hash::{BuildHasherDefault, FoldHasher};

// How many draws in a row may give marks that are listed before a drawing is given up.
const MAX_DRAWS: usize = 64;

// The marks that are drawn, to find a repeat without a walk over them.
type Known = HashSet<Tuid, BuildHasherDefault<FoldHasher>, Global>;

/// Draws `count` marks from `rng`, all different.
///
/// A draw takes two words of `next_u64`: the bytes of its mark are the eight of the first, low byte
/// first, and the lowest byte of the second. A draw whose mark is listed already is thrown away.
///
/// Answers `NoMemory` before the first draw, where there is no room for `count` marks, and
/// `MarksRepeat` after 64 draws in a row whose marks were listed already.
pub fn draw_marks<R: Rng>(alloc: Global, rng: &mut R, count: usize) -> Result<Vec<Tuid>, CoreFault>
    // The marks are those that the generator gives, and it has moved by their pairs of words.
    ensures drawn { IfOk result (λ marks. (drawn : Draws (R.stream rng.old) count marks.items)
        × (R.stream rng.new ≡ after_pairs (R.stream rng.old) drawn.pairs)) }
    ensures no_others { (others : List (List ℕ)) → Draws (R.stream rng.old) count others
        → IfOk result (λ marks. marks.items ≡ others) }
    ensures are_marks { IfOk result (λ marks. All IsMark marks.items) }
    ensures distinct { IfOk result (λ marks. AllPairs (λ one other. one ≢ other) marks.items) }

    // A run of repeats is answered by the fault, unless memory ran out first.
    ensures repeats { IsErrOf result CoreFault.MarksRepeat → (repeats : Repeats (R.stream rng.old) count)
        × (R.stream rng.new ≡ after_pairs (R.stream rng.old) (repeats.pairs + RUN_LENGTH)) }
    ensures no_marks { Repeats (R.stream rng.old) count → IsErr result }

    // If memory runs out, it does so before the generator moves.
    ensures no_memory { IsErrOf result CoreFault.NoMemory → R.stream rng.new ≡ R.stream rng.old }
{
    let mut marks = Vec::with_capacity(alloc, count)?;
    let mut known = HashSet::with_capacity(alloc, count)?;
    'marks: for _ in 0..count {
        let Some(mark) = draw_new(rng, &known) else {
            return Err(CoreFault::MarksRepeat);
        };
        know(&mut known, mark);
        marks.push_reserved(mark);
    }
    Ok(marks)
}

// Adds a mark to the known ones, which have room for it.
fn know(known: &mut Known, mark: Tuid)
    requires room { 0 < spare known.old }
    ensures known { (other : List ℕ) → is_listed known.new.keys other ≡ is_listed (known.old.keys ++ mark ∷ []) other }
    ensures room { spare known.old ≤ spare known.new + 1 }
{
    // It is not refused, since there is room.
    let _ = known.insert(mark);
}

// The mark of the first draw that is not known, or none if as many as a drawing bears with are.
fn draw_new<R: Rng>(rng: &mut R, known: &Known) -> Option<Tuid>
    ensures new { IfSome result (λ mark. GivesNew (R.stream rng.old) known.now.keys mark (R.stream rng.new)) }
    ensures listed { IfNone result (GivesListed (R.stream rng.old) known.now.keys RUN_LENGTH (R.stream rng.new)) }
{
    'draws: for _ in 0..MAX_DRAWS {
        let mark = draw(rng);
        if !known.contains(&mark) {
            return Some(mark);
        }
    }
    None
}

// The mark of the next two words.
fn draw<R: Rng>(rng: &mut R) -> Tuid
    ensures mark { result ≡ next_mark (R.stream rng.old) }
    ensures moved { R.stream rng.new ≡ after_pair (R.stream rng.old) }
{
    let [b0, b1, b2, b3, b4, b5, b6, b7] = rng.next_u64().to_le_bytes();
    let [b8, ..] = rng.next_u64().to_le_bytes();
    Tuid::from_bytes(&[b0, b1, b2, b3, b4, b5, b6, b7, b8])
}
