//! Which entries of a plan that is given up lose a side: the plan has removed their message there, or found it removed, and their other one
//! was undeleted since.

ghost use Rattle.std.specs.Prelude.{◌≡◌, ◌==◌, ℕ, IfErr, IfOk, false};
ghost use Rattle.std.specs.List.{list_any};
ghost use Rattle.std.specs.List.Sorted.{IsNonDecreasing, IsPermutation};
ghost use Rattle.mailcore.specs.Listed.{IsRising};
ghost use Rattle.rules.specs.Scene.{flags_at};
ghost use Rattle.book.specs.LostSides.{AreRising};
ghost use Rattle.runner.specs.Before.{HasPlan};
ghost use Rattle.runner.specs.GivingUp.{Counted, KeepsAll, LosesBy, LosesListed, RemovesSome};
ghost use Rattle.runner.specs.Going.{AreOpen};
ghost use Rattle.runner.specs.HalfEntries.{expunged_on, far_items, gone_on, is_expunge, is_gone, lacks_mark, logged, loses, lost_among, lost_between, near_items, removed_on, removes_some, tried};
ghost use Rattle.runner.specs.Parts.{Never};

use crate::fault::{RunFault, call_fault};
use book::lost_sides::LostSides;
use mailcore::flags::Flag;
use mailcore::listing::{Item, Listing};
use mailcore::side::{Direction, Side};
use mailcore::spared::Spared;
use outside::outside::Outside;
use planner::searches::item_with;
use rules::entry::Entry;
use rules::plan::Step;
use rules::state::SyncState;
use std::alloc::{AllocError, Global};
use sync_state::journal::Journal;

/// Whether a step removes a message.
fn is_expunge(step: &Step) -> bool
    ensures { result ≡ is_expunge step.now }
{
    match *step {
        Step::Expunge { .. } => true,
        Step::New { .. } | Step::Gone { .. } | Step::Flags { .. } => false,
    }
}

/// Whether a step was called for since a message had gone.
fn is_gone(step: &Step) -> bool
    ensures { result ≡ is_gone step.now }
{
    match *step {
        Step::Gone { .. } => true,
        Step::New { .. } | Step::Flags { .. } | Step::Expunge { .. } => false,
    }
}

/// The message of this side that a step removes.
fn expunged_on(side: Side, step: &Step) -> Option<u32>
    ensures { result ≡ expunged_on side step.now }
{
    match side {
        Side::Far => match *step {
            Step::Expunge {
                side: Side::Far,
                uid,
            } => Some(uid.get()),
            _ => None,
        },
        Side::Near => match *step {
            Step::Expunge {
                side: Side::Near,
                uid,
            } => Some(uid.get()),
            _ => None,
        },
    }
}

/// The message of this side that had gone, since which a step was called for.
fn gone_on(side: Side, step: &Step) -> Option<u32>
    ensures { result ≡ gone_on side step.now }
{
    match side {
        Side::Far => match *step {
            Step::Gone {
                direction: Direction::Pull,
                far,
                ..
            } => Some(far.get()),
            _ => None,
        },
        Side::Near => match *step {
            Step::Gone {
                direction: Direction::Push,
                near,
                ..
            } => Some(near.get()),
            _ => None,
        },
    }
}

/// Whether a step that is logged, or the one after them, which may be done, removes a message.
fn tries_expunge(journal: &Journal) -> bool
    ensures { result ≡ list_any is_expunge (tried journal.now) }
{
    let count = journal.log.as_slice().len() + 1;
    let steps = journal.plan.steps.as_slice();
    steps.iter().take(count).any(|step| is_expunge(step))
}

/// Whether a step that is logged was called for since a message had gone.
fn logs_gone(journal: &Journal) -> bool
    ensures { result ≡ list_any is_gone (logged journal.now) }
{
    let count = journal.log.as_slice().len();
    let steps = journal.plan.steps.as_slice();
    steps.iter().take(count).any(|step| is_gone(step))
}

/// Whether the plan has removed a message, or found one removed.
fn removes_some(journal: &Journal) -> bool
    ensures { result ≡ removes_some journal.now }
{
    tries_expunge(journal) || logs_gone(journal)
}

/// The messages of this side that the plan has removed, or found removed, in the order of its steps.
fn removed_unsorted(alloc: Global, journal: &Journal, side: Side) -> Result<Vec<u32>, AllocError>
    ensures { IfOk result (λ removed. removed.items ≡ removed_on journal.now side) }
{
    let steps = journal.plan.steps.as_slice();
    let logged = journal.log.as_slice().len();
    let expunged = steps
        .iter()
        .take(logged + 1)
        .filter_map(|step| expunged_on(side, step));
    let gone = steps
        .iter()
        .take(logged)
        .filter_map(|step| gone_on(side, step));
    expunged.chain(gone).collect(alloc)
}

/// The messages of this side that the plan has removed, or found removed, by rising UIDs.
fn removed_on(alloc: Global, journal: &Journal, side: Side) -> Result<Vec<u32>, AllocError>
    ensures same { IfOk result (λ removed. IsPermutation (removed_on journal.now side) removed.items) }
    ensures in_order { IfOk result (λ removed. IsNonDecreasing removed.items) }
{
    let mut removed = removed_unsorted(alloc, journal, side)?;
    removed.sort_unstable();
    Ok(removed)
}

/// Whether a message is listed, and not marked as deleted.
fn lacks_mark(items: &[Item], uid: u32) -> bool
    requires rising { IsRising items.now }
    ensures { result ≡ lacks_mark (flags_at items.now uid) }
{
    match item_with(items, uid) {
        Some(item) => !item.flags.has(Flag::Deleted),
        None => false,
    }
}

/// Whether a UID is one of these, which rise.
fn is_among(uids: &[u32], uid: u32) -> bool
    requires { IsNonDecreasing uids.now }
    ensures { result ≡ list_any (λ u. u == uid) uids.now }
{
    uids.binary_search(&uid).is_ok()
}

/// Whether an entry loses this side: its message there is one of those that the plan has removed, or found removed, it is not listed, and the
/// other one is listed, and was undeleted.
fn loses(removed: &[u32], side: Side, own: &[Item], others: &[Item], entry: &Entry) -> bool
    requires removed { IsNonDecreasing removed.now }
    requires own { IsRising own.now }
    requires others { IsRising others.now }
    ensures { result ≡ loses removed.now side own.now others.now entry.now }
{
    entry.is_full()
        && item_with(own, entry.number(side)).is_none()
        && lacks_mark(others, entry.number(side.other()))
        && is_among(removed, entry.number(side))
}

/// The far UIDs of the entries that lose this side, by what the plan has removed there, and by the listing of this side and that of the
/// other one.
fn lost_among(
    alloc: Global,
    state: &SyncState,
    removed: &[u32],
    side: Side,
    own: &Listing,
    others: &Listing,
) -> Result<Vec<u32>, AllocError>
    requires removed { IsNonDecreasing removed.now }
    ensures lost { IfOk result (λ lost. lost.items ≡ lost_among removed.now side own.now.items others.now.items state.now.entries) }
    ensures rising { IfOk result (λ lost. IsNonDecreasing lost.items) }
{
    let (own, others) = (own.items.as_slice(), others.items.as_slice());
    let mut lost = Vec::new(alloc);
    for entry in state.entries.as_slice() {
        if loses(removed, side, own, others, entry) {
            lost.push(entry.number(Side::Far))?;
        }
    }
    Ok(lost)
}

/// The far UIDs of the entries that lose this side, by the listing of this side and that of the other one.
fn lost_on(
    alloc: Global,
    state: &SyncState,
    journal: &Journal,
    side: Side,
    own: &Listing,
    others: &Listing,
) -> Result<Vec<u32>, AllocError>
    ensures lost { IfOk result (λ lost. lost.items
        ≡ lost_among (removed_on journal.now side) side own.now.items others.now.items state.now.entries) }
    ensures rising { IfOk result (λ lost. IsNonDecreasing lost.items) }
{
    let removed = removed_on(alloc, journal, side)?;
    lost_among(alloc, state, &removed, side, own, others)
}

/// Lists the far mailbox.
fn list_far<O: Outside>(outside: &mut O) -> Result<Listing, RunFault>
    requires boxes { AreOpen (O.opened outside.old) }
    ensures was_honest { O.honest outside.new → O.honest outside.old }
    ensures keywords { O.keywords outside.new ≡ O.keywords outside.old }
    ensures opened { O.opened outside.new ≡ O.opened outside.old }
    ensures shows { IfOk result (λ far. O.honest outside.new → far.items ≡ far_items (O.seen outside.new).device) }
    ensures kept { O.honest outside.new → KeepsAll O.ours O.alone (O.seen outside.old).device (O.seen outside.new).device }
    ensures counted { Counted Never (O.honest outside.new) (O.seen outside.old) (O.seen outside.new) result }
    ensures asked { O.asked outside.new ≡ O.asked outside.old }
{
    match outside.look_far() {
        Ok(far) => Ok(far),
        Err(fault) => Err(call_fault(fault)),
    }
}

/// Lists the near mailbox, of which no message is read.
fn list_near<O: Outside>(alloc: Global, outside: &mut O) -> Result<Listing, RunFault>
    requires boxes { AreOpen (O.opened outside.old) }
    ensures was_honest { O.honest outside.new → O.honest outside.old }
    ensures keywords { O.keywords outside.new ≡ O.keywords outside.old }
    ensures opened { O.opened outside.new ≡ O.opened outside.old }
    ensures shows { IfOk result (λ near. O.honest outside.new → (uid : ℕ) → flags_at near.items uid
        ≡ flags_at (near_items (O.seen outside.new).device) uid) }
    ensures kept { O.honest outside.new → KeepsAll O.ours O.alone (O.seen outside.old).device (O.seen outside.new).device }
    ensures counted { Counted Never (O.honest outside.new) (O.seen outside.old) (O.seen outside.new) result }
    ensures asked { O.asked outside.new ≡ O.asked outside.old }
{
    let all = Spared::of(u32::MAX, Vec::new(alloc));
    match outside.look_near(&all) {
        Ok(near) => Ok(near),
        Err(fault) => Err(call_fault(fault)),
    }
}

/// The entries that lose a side, by both listings.
fn lost_between(
    alloc: Global,
    state: &SyncState,
    journal: &Journal,
    far: &Listing,
    near: &Listing,
) -> Result<LostSides, AllocError>
    ensures lost { IfOk result (λ lost. lost ≡ lost_between journal.now far.now.items near.now.items state.now.entries) }
    ensures rising { IfOk result AreRising }
{
    let lost_far = lost_on(alloc, state, journal, Side::Far, far, near)?;
    let lost_near = lost_on(alloc, state, journal, Side::Near, near, far)?;
    Ok(LostSides::new(lost_far, lost_near))
}

/// The entries that lose a side, by what was read, and by these listings.
fn lost_by<O: Outside>(
    alloc: Global,
    outside: &O,
    far: &Listing,
    near: &Listing,
) -> Result<LostSides, RunFault>
    requires plan { HasPlan (O.opened outside.now) }
    ensures lost { IfOk result (λ lost. LosesListed (O.opened outside.now) far.now.items near.now.items lost) }
    ensures rising { IfOk result AreRising }
    ensures fault { IfErr result (λ fault. fault ≡ RunFault.NoMemory) }
{
    let Some(journal) = outside.pending() else {
        return Ok(LostSides::none(alloc));
    };
    match lost_between(alloc, outside.state(), journal, far, near) {
        Ok(lost) => Ok(lost),
        Err(_) => Err(RunFault::NoMemory),
    }
}

/// Whether the plan that is pending has removed a message, or found one removed.
fn has_removed_some<O: Outside>(outside: &O) -> bool
    requires plan { HasPlan (O.opened outside.now) }
    ensures { RemovesSome (O.opened outside.now) result }
{
    match outside.pending() {
        Some(journal) => removes_some(journal),
        None => false,
    }
}

/// Lists both mailboxes, and answers the entries that lose a side, in rising order.
fn look_for_lost<O: Outside>(alloc: Global, outside: &mut O) -> Result<LostSides, RunFault>
    requires plan { HasPlan (O.opened outside.old) }
    requires boxes { AreOpen (O.opened outside.old) }
    ensures was_honest { O.honest outside.new → O.honest outside.old }
    ensures keywords { O.keywords outside.new ≡ O.keywords outside.old }
    ensures opened { O.opened outside.new ≡ O.opened outside.old }
    ensures lost { IfOk result (λ lost. O.honest outside.new → LosesBy O.ours O.alone (O.opened outside.old) (O.seen outside.old).device
        lost) }
    ensures rising { IfOk result AreRising }
    ensures kept { O.honest outside.new → KeepsAll O.ours O.alone (O.seen outside.old).device (O.seen outside.new).device }
    ensures counted { Counted Never (O.honest outside.new) (O.seen outside.old) (O.seen outside.new) result }
    ensures asked { O.asked outside.new ≡ O.asked outside.old }
{
    let far = list_far(outside)?;
    let near = list_near(alloc, outside)?;
    lost_by(alloc, outside, &far, &near)
}

/// The entries that lose a side, in rising order. Nothing is listed where the plan has removed no message and found none removed.
pub(crate) fn lost_sides<O: Outside>(alloc: Global, outside: &mut O) -> Result<LostSides, RunFault>
    requires plan { HasPlan (O.opened outside.old) }
    requires boxes { AreOpen (O.opened outside.old) }
    requires whole { (O.seen outside.old).is_broken ≡ false }
    ensures was_honest { O.honest outside.new → O.honest outside.old }
    ensures keywords { O.keywords outside.new ≡ O.keywords outside.old }
    ensures opened { O.opened outside.new ≡ O.opened outside.old }
    ensures lost { IfOk result (λ lost. O.honest outside.new → LosesBy O.ours O.alone (O.opened outside.old) (O.seen outside.old).device
        lost) }
    ensures rising { IfOk result AreRising }
    ensures kept { O.honest outside.new → KeepsAll O.ours O.alone (O.seen outside.old).device (O.seen outside.new).device }
    ensures counted { Counted Never (O.honest outside.new) (O.seen outside.old) (O.seen outside.new) result }
    ensures asked { O.asked outside.new ≡ O.asked outside.old }
{
    if has_removed_some(outside) {
        look_for_lost(alloc, outside)
    } else {
        Ok(LostSides::none(alloc))
    }
}
