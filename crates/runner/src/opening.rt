//! What a run does before its steps: it reads the shelf, opens both boxes, clears the journal away, and lists both mailboxes.

ghost use Rattle.std.specs.Prelude.{◌≡◌, None, Some, OnOk, IfOk, true, false};
ghost use Rattle.book.specs.declared.book.Pending.TheVariants.{Missing};
ghost use Rattle.book.specs.Books.{mended};
ghost use Rattle.book.specs.BookLogs.{begun};
ghost use Rattle.outside.specs.MailboxOperations.{HasNumbers};
ghost use Rattle.mailcore.specs.Spared.{spares};
ghost use Rattle.outside.specs.Asked.{Begun, Read};
ghost use Rattle.outside.specs.Opened.{IsBook, IsHeld, IsOpen, IsRead, TakesPlan, journal_of, shown_far, state_of, turned, with_listing};
ghost use Rattle.run_states.specs.Conditions.{Underway};
ghost use Rattle.run_states.specs.Openings.{Opening, once_listed};
ghost use Rattle.runner.specs.Faults.{ReportsUnread, because, or_unread};
ghost use Rattle.runner.specs.Parts.{IsStuck, Part, PartOr, Never};
ghost use Rattle.runner.specs.Validities.{AnswersChanged, BothSame, HasSame, HaveValidities, IsKept, IsOther, IsSame, KeepsValidities, LeavesBoxes, OpensBoth, OpensBox, ReportsChange, ReportsOther, recorded_in};
ghost use Rattle.runner.specs.Going.{AreOpen, BeforeStep};
ghost use Rattle.runner.specs.Finding.{FindsSame};
ghost use Rattle.runner.specs.Before.{BothListed, FarListed, SparesOld, HasNoJournal, HasNoPlan, HasNone, HasPlan, IsClear, IsEmptied, ReadUnderway, IsMade, Resumed, world_shown};
ghost use Rattle.outside.specs.Devices.{Device};

use crate::fault::{RunFault, call_fault};
use crate::old_messages::old_messages;
use mailcore::listing::Listing;
use mailcore::side::Side;
use mailcore::spared::Spared;
use outside::outside::Outside;
use rules::plan::Plan;
use std::alloc::Global;

/// Reads the shelf.
pub(crate) fn recall<O: Outside>(outside: &mut O) -> Result<(), RunFault>
    ghost opening: { Opening O.ours O.alone }
    ensures was_honest { O.honest outside.new → O.honest outside.old }
    ensures keywords { O.keywords outside.new ≡ O.keywords outside.old }
    ensures book { OnOk result (IsBook (O.opened outside.new)) }
    ensures held { OnOk result (O.honest outside.new → IsHeld (O.opened outside.new) (O.seen outside.old).device) }
    ensures kept { O.honest outside.new → IsKept O.alone (O.seen outside.old).device (O.seen outside.new).device }
    ensures stuck { IsStuck (O.seen outside.old) (O.seen outside.new) result }
    ensures same { OnOk result (O.honest outside.new → FindsSame O.ours (O.seen outside.old).device (O.seen outside.new).device) }
    ensures part { PartOr (or_unread (ReportsUnread (O.honest outside.new) (O.seen outside.new).device) Never) (O.honest outside.new)
        (Underway opening) (Underway opening)
        (λ _. 0) (λ _. ReadUnderway opening (O.opened outside.new)) (O.seen outside.old) (O.seen outside.new) result }
    ensures asked { O.asked outside.new ≡ O.noted (O.asked outside.old) (Read (journal_of (O.opened outside.new))) }
{
    match outside.open_book() {
        Ok(()) => Ok(()),
        Err(fault) => Err(call_fault(fault)),
    }
}

/// The journal goes, unless it holds a plan of the next run.
pub(crate) fn forget<O: Outside>(outside: &mut O) -> Result<(), RunFault>
    ghost opening: { Opening O.ours O.alone }
    requires read { IsRead (O.opened outside.old) }
    requires whole { (O.seen outside.old).is_broken ≡ false }
    ensures was_honest { O.honest outside.new → O.honest outside.old }
    ensures keywords { O.keywords outside.new ≡ O.keywords outside.old }
    ensures state { OnOk result (state_of (O.opened outside.new) ≡ state_of (O.opened outside.old)) }
    ensures gone { OnOk result (HasNoPlan (O.opened outside.old) → HasNoJournal (O.opened outside.new)) }
    ensures emptied { OnOk result (O.honest outside.new → IsHeld (O.opened outside.old) (O.seen outside.old).device
        → IsEmptied (O.opened outside.old) (O.seen outside.new).device) }
    ensures stores { OnOk result (LeavesBoxes (O.honest outside.new) O.alone (O.seen outside.old).device (O.seen outside.new).device) }
    ensures part { Part (O.honest outside.new) (ReadUnderway opening (O.opened outside.old)) (Underway opening)
        (λ _. 0) (λ _. ReadUnderway opening (O.opened outside.new)) (O.seen outside.old) (O.seen outside.new) result }
    ensures asked { O.asked outside.new ≡ O.asked outside.old }
{
    if outside.pending().is_some() {
        return Ok(());
    }
    match outside.discard() {
        Ok(()) => Ok(()),
        Err(fault) => Err(call_fault(fault)),
    }
}

/// Takes a torn line off the journal, so that steps can be logged after it.
pub(crate) fn untear<O: Outside>(outside: &mut O) -> Result<(), RunFault>
    ghost opening: { Opening O.ours O.alone }
    requires plan { HasPlan (O.opened outside.old) }
    ensures was_honest { O.honest outside.new → O.honest outside.old }
    ensures keywords { O.keywords outside.new ≡ O.keywords outside.old }
    ensures opened { OnOk result (O.opened outside.new ≡ turned mended (O.opened outside.old)) }
    ensures same { OnOk result (O.honest outside.new → FindsSame O.ours (O.seen outside.old).device (O.seen outside.new).device) }
    ensures part { Part (O.honest outside.new) (Resumed opening (O.opened outside.old)) (Underway opening)
        (λ _. 0) (λ _. BeforeStep opening (O.opened outside.new) true) (O.seen outside.old) (O.seen outside.new) result }
    ensures asked { O.asked outside.new ≡ O.asked outside.old }
{
    match outside.mend() {
        Ok(()) => Ok(()),
        Err(fault) => Err(call_fault(fault)),
    }
}

/// Removes a journal without a plan of the next run.
fn empty<O: Outside>(outside: &mut O) -> Result<(), RunFault>
    ghost opening: { Opening O.ours O.alone }
    requires none { HasNoPlan (O.opened outside.old) }
    ensures was_honest { O.honest outside.new → O.honest outside.old }
    ensures keywords { O.keywords outside.new ≡ O.keywords outside.old }
    ensures opened { OnOk result (O.opened outside.new ≡ turned (λ _. Missing) (O.opened outside.old)) }
    ensures validities { OnOk result (O.honest outside.new → KeepsValidities (O.seen outside.old).device (O.seen outside.new).device) }
    ensures part { Part (O.honest outside.new) (HasNone opening (O.opened outside.old)) (Underway opening) (λ _. 0)
        (λ _. IsClear opening (O.opened outside.new) false) (O.seen outside.old) (O.seen outside.new) result }
    ensures asked { O.asked outside.new ≡ O.asked outside.old }
{
    match outside.discard() {
        Ok(()) => Ok(()),
        Err(fault) => Err(call_fault(fault)),
    }
}

/// Gives waiting files their UIDs.
fn admit<O: Outside>(outside: &mut O) -> Result<(), RunFault>
    ghost opening: { Opening O.ours O.alone }
    requires is_open { IsOpen Side.Near (O.opened outside.old) }
    ensures was_honest { O.honest outside.new → O.honest outside.old }
    ensures keywords { O.keywords outside.new ≡ O.keywords outside.old }
    ensures opened { O.opened outside.new ≡ O.opened outside.old }
    ensures validities { OnOk result (O.honest outside.new → KeepsValidities (O.seen outside.old).device (O.seen outside.new).device) }
    ensures part { Part (O.honest outside.new) (IsClear opening (O.opened outside.old) false) (Underway opening)
        (λ _. 0) (λ _. IsClear opening (O.opened outside.new) true) (O.seen outside.old) (O.seen outside.new) result }
    ensures asked { O.asked outside.new ≡ O.asked outside.old }
{
    match outside.admit() {
        Ok(()) => Ok(()),
        Err(fault) => Err(call_fault(fault)),
    }
}

/// Removes a journal without a plan of the next run, and gives waiting files their UIDs.
pub(crate) fn clear<O: Outside>(outside: &mut O) -> Result<(), RunFault>
    ghost opening: { Opening O.ours O.alone }
    requires none { HasNoPlan (O.opened outside.old) }
    requires boxes { AreOpen (O.opened outside.old) }
    ensures was_honest { O.honest outside.new → O.honest outside.old }
    ensures keywords { O.keywords outside.new ≡ O.keywords outside.old }
    ensures opened { OnOk result (O.opened outside.new ≡ turned (λ _. Missing) (O.opened outside.old)) }
    ensures validities { OnOk result (O.honest outside.new → KeepsValidities (O.seen outside.old).device (O.seen outside.new).device) }
    ensures part { Part (O.honest outside.new) (HasNone opening (O.opened outside.old)) (Underway opening) (λ _. 0)
        (λ _. IsClear opening (O.opened outside.new) true) (O.seen outside.old) (O.seen outside.new) result }
    ensures asked { O.asked outside.new ≡ O.asked outside.old }
{
    empty(outside)?;
    admit(outside)
}

/// Lists the far mailbox.
fn list_far<O: Outside>(outside: &mut O) -> Result<Listing, RunFault>
    ghost opening: { Opening O.ours O.alone }
    requires boxes { AreOpen (O.opened outside.old) }
    requires map { opening.options.keywords ≡ O.keywords outside.old }
    ensures was_honest { O.honest outside.new → O.honest outside.old }
    ensures keywords { O.keywords outside.new ≡ O.keywords outside.old }
    ensures opened { IfOk result (λ far. O.opened outside.new ≡ with_listing Side.Far far.validity
        (shown_far far.next (O.seen outside.new).device) (O.opened outside.old)) }
    ensures numbers { IfOk result HasNumbers }
    ensures validities { OnOk result (O.honest outside.new → KeepsValidities (O.seen outside.old).device (O.seen outside.new).device) }
    ensures validity { IfOk result (λ far. O.honest outside.new → far.validity ≡ (O.seen outside.new).device.far.validity) }
    ensures part { Part (O.honest outside.new) (IsClear opening (O.opened outside.old) true) (Underway opening)
        (λ _. 0) (λ far. FarListed opening (O.opened outside.new) far) (O.seen outside.old) (O.seen outside.new) result }
    ensures asked { O.asked outside.new ≡ O.asked outside.old }
{
    match outside.list_far() {
        Ok(far) => Ok(far),
        Err(fault) => Err(call_fault(fault)),
    }
}

/// Lists the near mailbox, after the far one. Messages that are spared, since they cannot be new, are not read.
fn list_near<O: Outside>(
    outside: &mut O,
    far: &Listing,
    spared: &Spared,
) -> Result<Listing, RunFault>
    ghost opening: { Opening O.ours O.alone }
    requires spared { SparesOld (O.opened outside.old) (spares spared.now) }
    requires boxes { AreOpen (O.opened outside.old) }
    requires map { opening.options.keywords ≡ O.keywords outside.old }
    ensures was_honest { O.honest outside.new → O.honest outside.old }
    ensures keywords { O.keywords outside.new ≡ O.keywords outside.old }
    ensures opened { IfOk result (λ near. O.opened outside.new ≡ with_listing Side.Near near.validity (O.seen outside.new).device
        (O.opened outside.old)) }
    ensures numbers { IfOk result HasNumbers }
    ensures validities { OnOk result (O.honest outside.new → KeepsValidities (O.seen outside.old).device (O.seen outside.new).device) }
    ensures validity { IfOk result (λ near. O.honest outside.new → near.validity ≡ (O.seen outside.new).device.near.store.validity) }
    ensures part { Part (O.honest outside.new) (FarListed opening (O.opened outside.old) far.now) (Underway opening)
        (λ _. 0) (λ near. BothListed opening (O.opened outside.new) far.now near) (O.seen outside.old) (O.seen outside.new)
        result }
    ensures asked { O.asked outside.new ≡ O.asked outside.old }
{
    match outside.list_near(spared) {
        Ok(near) => Ok(near),
        Err(fault) => Err(call_fault(fault)),
    }
}

/// What both mailboxes list.
#[derive(Drop)]
pub(crate) struct Listings {
    /// The far one.
    pub far: Listing,
    /// The near one, later.
    pub near: Listing,
}

/// Lists the far mailbox, and then the near one.
pub(crate) fn list_both<O: Outside>(alloc: Global, outside: &mut O) -> Result<Listings, RunFault>
    ghost opening: { Opening O.ours O.alone }
    requires read { IsRead (O.opened outside.old) }
    requires boxes { AreOpen (O.opened outside.old) }
    requires map { opening.options.keywords ≡ O.keywords outside.old }
    ensures was_honest { O.honest outside.new → O.honest outside.old }
    ensures keywords { O.keywords outside.new ≡ O.keywords outside.old }
    ensures opened { IfOk result (λ both. (far near : Device) × (O.opened outside.new ≡ with_listing Side.Near both.near.validity near
        (with_listing Side.Far both.far.validity far (O.opened outside.old)))) }
    ensures far_numbers { IfOk result (λ both. HasNumbers both.far) }
    ensures near_numbers { IfOk result (λ both. HasNumbers both.near) }
    ensures validities { IfOk result (λ both. O.honest outside.new → HaveValidities both.far both.near (O.seen outside.old).device) }
    ensures part { Part (O.honest outside.new) (IsClear opening (O.opened outside.old) true) (Underway opening)
        (λ _. 0) (λ both. BothListed opening (O.opened outside.new) both.far both.near) (O.seen outside.old)
        (O.seen outside.new) result }
    ensures asked { O.asked outside.new ≡ O.asked outside.old }
{
    let far = list_far(outside)?;
    let Ok(spared) = old_messages(alloc, outside.state()) else {
        return Err(RunFault::NoMemory);
    };
    let near = list_near(outside, &far, &spared)?;
    Ok(Listings { far, near })
}

/// Writes the whole plan into the journal.
pub(crate) fn write_plan<O: Outside>(outside: &mut O, plan: Plan) -> Result<(), RunFault>
    ghost opening: { Opening O.ours O.alone }
    requires takes { TakesPlan (O.opened outside.old) plan }
    ensures was_honest { O.honest outside.new → O.honest outside.old }
    ensures keywords { O.keywords outside.new ≡ O.keywords outside.old }
    ensures opened { OnOk result (O.opened outside.new ≡ turned (λ _. begun plan) (O.opened outside.old)) }
    ensures part { Part (O.honest outside.new) (IsMade opening (O.opened outside.old) plan) (Underway opening) (λ _. 0)
        (λ _. BeforeStep (once_listed opening (world_shown (O.opened outside.new))) (O.opened outside.new) false)
        (O.seen outside.old) (O.seen outside.new) result }
    ensures asked { O.asked outside.new ≡ O.noted (O.asked outside.old) (Begun plan) }
{
    match outside.begin(plan) {
        Ok(()) => Ok(()),
        Err(fault) => Err(call_fault(fault)),
    }
}

/// The UIDVALIDITY of a side that the run goes by: the journal's, or else, after a first run, the state's.
pub(crate) fn recorded_validity<O: Outside>(outside: &O, side: Side) -> Option<u32>
    requires read { IsRead (O.opened outside.now) }
    ensures { result ≡ recorded_in (O.opened outside.now) side }
{
    if let Some(journal) = outside.pending() {
        return Some(match side {
            Side::Far => journal.plan.far.validity,
            Side::Near => journal.plan.near.validity,
        });
    }
    let state = outside.state();
    if state.run == 0 {
        return None;
    }
    Some(match side {
        Side::Far => state.far_validity,
        Side::Near => state.near_validity,
    })
}

/// Opens a box, whose UIDVALIDITY has to be the recorded one.
fn open_one<O: Outside>(outside: &mut O, side: Side) -> Result<(), RunFault>
    ghost opening: { Opening O.ours O.alone }
    requires read { IsRead (O.opened outside.old) }
    ensures was_honest { O.honest outside.new → O.honest outside.old }
    ensures keywords { O.keywords outside.new ≡ O.keywords outside.old }
    ensures opened { OnOk result (OpensBox IsSame side (O.opened outside.old) (O.opened outside.new)) }
    ensures kept { OnOk result (O.honest outside.new → HasSame (O.opened outside.old) side (O.seen outside.new).device × IsKept O.alone
        (O.seen outside.old).device (O.seen outside.new).device) }
    ensures same { OnOk result (O.honest outside.new → FindsSame O.ours (O.seen outside.old).device (O.seen outside.new).device) }
    ensures part { PartOr (because (λ at. ReportsOther (O.honest outside.new) O.alone (O.opened outside.old) side (O.seen outside.old).device
        (O.seen outside.new).device at × OpensBox IsOther side (O.opened outside.old) (O.opened outside.new)) ⊥)
        (O.honest outside.new) (ReadUnderway opening (O.opened outside.old))
        (Underway opening) (λ _. 0) (λ _. ReadUnderway opening (O.opened outside.new)) (O.seen outside.old)
        (O.seen outside.new) result }
    ensures asked { O.asked outside.new ≡ O.asked outside.old }
{
    let recorded = recorded_validity(outside, side);
    match outside.open_box(side) {
        Ok(validity) => match recorded {
            Some(before) => {
                if before == validity {
                    Ok(())
                } else {
                    Err(RunFault::ValidityChanged(side))
                }
            }
            None => Ok(()),
        },
        Err(fault) => Err(call_fault(fault)),
    }
}

/// Opens both boxes, the far one first.
pub(crate) fn open_boxes<O: Outside>(outside: &mut O) -> Result<(), RunFault>
    ghost opening: { Opening O.ours O.alone }
    requires read { IsRead (O.opened outside.old) }
    ensures was_honest { O.honest outside.new → O.honest outside.old }
    ensures keywords { O.keywords outside.new ≡ O.keywords outside.old }
    ensures opened { OnOk result (OpensBoth (O.opened outside.old) (O.opened outside.new)) }
    ensures kept { OnOk result (O.honest outside.new → BothSame (O.opened outside.old) (O.seen outside.new).device × IsKept O.alone
        (O.seen outside.old).device (O.seen outside.new).device) }
    ensures same { OnOk result (O.honest outside.new → FindsSame O.ours (O.seen outside.old).device (O.seen outside.new).device) }
    ensures part { PartOr (because (λ at. ReportsChange (O.honest outside.new) O.alone (O.opened outside.old) (O.seen outside.old).device
        (O.seen outside.new).device at × AnswersChanged (O.opened outside.new) at) ⊥)
        (O.honest outside.new) (ReadUnderway opening (O.opened outside.old))
        (Underway opening) (λ _. 0) (λ _. ReadUnderway opening (O.opened outside.new)) (O.seen outside.old)
        (O.seen outside.new) result }
    ensures asked { O.asked outside.new ≡ O.asked outside.old }
{
    open_one(outside, Side::Far)?;
    open_one(outside, Side::Near)
}
