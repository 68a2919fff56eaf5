//! The devices of a trial, and a run over them.

ghost use Rattle.std.specs.Prelude.{◌≡◌, IfErr, IfOk, IsErrOf, OnOk, string_bytes, true};
ghost use Rattle.std.proofs.Props.{props};
ghost use Rattle.rules.specs.Opening.{IsOpening};
ghost use Rattle.rules.specs.World.{World};
ghost use Rattle.book.specs.MemShelves.{files_of};
ghost use Rattle.imap_client.specs.Seen.{HasMap};
ghost use Rattle.run_pair.specs.Pairs.{seen_of};
ghost use Rattle.run_pair.specs.Tallies.{seen_with, untouched};
ghost use Rattle.run_states.specs.Conditions.{IsOver, Underway};
ghost use Rattle.run_states.specs.Endings.{IsDone};
ghost use Rattle.run_states.specs.Openings.{Opening};
ghost use Rattle.run_states.specs.Beginnings.{Begins, opening_of};
ghost use Rattle.run_states.specs.Others.{HasOrder, OthersLeft};
ghost use Rattle.runner.specs.Attempts.{HasNoNext, MetStops};
ghost use Rattle.runner.specs.Faults.{LeavesRun};
ghost use Rattle.run_trial.specs.Openings.{AreOurs, StandsAt};
ghost use Rattle.run_trial.specs.Printed.{Prints};
ghost use Rattle.run_trial.specs.Settings.{device_at};

use crate::attempts::settle_trial;
use crate::contents::contents_of;
use crate::failure::TrialError;
use crate::server::{TrialLink, account_of, mailbox_named, seen_messages};
use crate::shelf::state_in;
use book::mem_shelf::MemShelf;
use book::shelf::Shelf;
use mail_sides::account::Account;
use mail_sides::both::Both;
use mail_sides::far_side::FarSide;
use mail_sides::sides::BothSides;
use mailcore::keywords::Keywords;
use mailcore::others::Others;
use maildir::acted_folder::ActedFolder;
use maildir::folder::Folder;
use maildir::mem_folder::MemFolder;
use maildir::visited_folder::VisitedFolder;
use outside::outside::Outside;
use rules::options::Options;
use rules::state::SyncState;
use runner::fault::RunFault;
use runner::pass::Settled;
use std::alloc::Global;
use std::num::NonZeroU32;
use worlds::write::{WrittenMailbox, WrittenWorld, write_parts};

/// Makes one run over an outside whose shelf holds this state, by the map of its options, and gives it back beside what the run came to.
///
/// Where the outside has behaved as specified: from a world that a run may begin with, where nobody else adds messages, an answer leaves
/// both mailboxes and the state alike to the outcome that the rules name for it. Where others add messages under no mark of the run, it is
/// over, and what they added is left to the next run (docs/GUARANTEES.md). A fault leaves it underway. After the greatest run number there
/// is no other run. It is reported as stopped only where each attempt met a stop.
pub fn settle_all<O: Outside>(
    alloc: Global,
    outside: O,
    options: &Options,
    tries: u32,
    state: &SyncState,
) -> (O, Result<Settled, RunFault>)
    requires map { O.keywords outside ≡ options.now.keywords }
    ensures done { (start : World) → start.state ≡ state.now → O.honest result.0 → O.alone ≡ true → AreOurs O.ours
        → Begins start (O.seen outside).device → OnOk result.1 (IsDone start options.now (O.seen result.0).device) }
    ensures over { (start : World) → start.state ≡ state.now → O.honest result.0 → AreOurs O.ours → Begins start (O.seen outside).device
        → OnOk result.1 (IsOver (opening_of O.ours O.alone start options.now) (O.seen result.0).device) }
    ensures others { (start : World) → start.state ≡ state.now → O.honest result.0 → AreOurs O.ours → Begins start (O.seen outside).device
        → OnOk result.1 (OthersLeft (opening_of O.ours O.alone start options.now) (O.seen result.0).device) }
    ensures left { (start : World) → start.state ≡ state.now → O.honest result.0 → AreOurs O.ours → Begins start (O.seen outside).device
        → IfErr result.1 (λ fault. LeavesRun (Underway (opening_of O.ours O.alone start options.now)) fault (O.seen outside) (O.seen result.0)) }
    ensures keywords { O.keywords result.0 ≡ O.keywords outside }
    ensures greatest { HasNoNext (O.honest result.0) O.alone (O.seen outside).device (O.seen result.0).device result.1 }
    ensures stopped { IsErrOf result.1 RunFault.Stopped → MetStops tries (O.seen outside) (O.seen result.0) }
{
    settle_world(alloc, outside, options, tries, state)
}

/// The same from one world. The state is there for the contract alone, which names the world by it.
fn settle_world<O: Outside>(
    alloc: Global,
    outside: O,
    options: &Options,
    tries: u32,
    _state: &SyncState,
) -> (O, Result<Settled, RunFault>)
    ghost start: { World }
    requires map { O.keywords outside ≡ options.now.keywords }
    ensures done { O.honest result.0 → O.alone ≡ true → AreOurs O.ours → Begins start (O.seen outside).device
        → OnOk result.1 (IsDone start options.now (O.seen result.0).device) }
    ensures over { O.honest result.0 → AreOurs O.ours → Begins start (O.seen outside).device
        → OnOk result.1 (IsOver (opening_of O.ours O.alone start options.now) (O.seen result.0).device) }
    ensures others { O.honest result.0 → AreOurs O.ours → Begins start (O.seen outside).device
        → OnOk result.1 (OthersLeft (opening_of O.ours O.alone start options.now) (O.seen result.0).device) }
    ensures left { O.honest result.0 → AreOurs O.ours → Begins start (O.seen outside).device
        → IfErr result.1 (λ fault. LeavesRun (Underway (opening_of O.ours O.alone start options.now)) fault (O.seen outside) (O.seen result.0)) }
    ensures keywords { O.keywords result.0 ≡ O.keywords outside }
    ensures greatest { HasNoNext (O.honest result.0) O.alone (O.seen outside).device (O.seen result.0).device result.1 }
    ensures stopped { IsErrOf result.1 RunFault.Stopped → MetStops tries (O.seen outside) (O.seen result.0) }
{
    settle_from(alloc, outside, options, tries)
}

/// Makes one run from an opening, and gives its outside back beside what the run came to, as `settle_all`. So it resumes a run, too,
/// whose plan is pending: from an earlier run that was interrupted, or from a journal that was there.
pub fn settle_from<O: Outside>(
    alloc: Global,
    outside: O,
    options: &Options,
    tries: u32,
) -> (O, Result<Settled, RunFault>)
    ghost opening: { Opening O.ours O.alone }
    requires map { O.keywords outside ≡ options.now.keywords }
    ensures done { O.honest result.0 → O.alone ≡ true → AreOurs O.ours → StandsAt opening options.now (O.seen outside).device
        → IsOpening opening.world → OnOk result.1 (IsDone opening.world opening.options (O.seen result.0).device) }
    ensures over { O.honest result.0 → AreOurs O.ours → StandsAt opening options.now (O.seen outside).device
        → OnOk result.1 (IsOver opening (O.seen result.0).device) }
    ensures others { O.honest result.0 → AreOurs O.ours → StandsAt opening options.now (O.seen outside).device
        → HasOrder (O.seen outside).device → OnOk result.1 (OthersLeft opening (O.seen result.0).device) }
    ensures left { O.honest result.0 → AreOurs O.ours → StandsAt opening options.now (O.seen outside).device
        → IfErr result.1 (λ fault. LeavesRun (Underway opening) fault (O.seen outside) (O.seen result.0)) }
    ensures keywords { O.keywords result.0 ≡ O.keywords outside }
    ensures greatest { HasNoNext (O.honest result.0) O.alone (O.seen outside).device (O.seen result.0).device result.1 }
    ensures stopped { IsErrOf result.1 RunFault.Stopped → MetStops tries (O.seen outside) (O.seen result.0) }
{
    let mut outside = outside;
    let settled = settle_trial(alloc, &mut outside, options, tries);
    (outside, settled)
}

/// The outside of a run, beside what the run came to.
pub type Run<L, F> = (Both<L, F, MemShelf>, Result<Settled, RunFault>);

/// The outside of a run over this link, this folder and this shelf, by this map of keywords. Nothing is open, and no call was made.
pub fn together<L: TrialLink + Drop, F: Folder + Drop>(
    alloc: Global,
    link: L,
    folder: F,
    shelf: MemShelf,
    keywords: &Keywords,
) -> Result<Both<L, F, MemShelf>, TrialError>
    requires letters { L.honest link → HasMap keywords.now (L.line link).end.server }
    ensures seen { IfOk result (λ both. seen_of both
        ≡ seen_with (device_at keywords.now (L.line link).end.server (F.seen folder).stored (files_of shelf)) untouched) }
    ensures keywords { IfOk result (λ both. both.far.far.keywords ≡ keywords.now) }
{
    let account = account_of(alloc)?;
    let far_map = keywords.try_clone(alloc)?;
    let near_map = keywords.try_clone(alloc)?;
    let sides = BothSides {
        far: FarSide::new(alloc, account, link, far_map),
        folder,
        shelf,
    };
    // The folder of a trial has a meta file, so that this is of no use.
    Ok(sides.together(alloc, NonZeroU32::MIN, near_map))
}

/// The far mailbox's account and its link, the near mailbox's folder, and the shelf.
#[derive(Drop)]
pub struct Devices<L: TrialLink + Drop> {
    /// Whose the far mailbox is.
    pub account: Account,
    /// The link to the server of the far mailbox.
    pub link: L,
    /// The folder of the near mailbox.
    pub folder: MemFolder,
    /// The UIDVALIDITY of the near mailbox where its folder has no meta file.
    pub fresh: NonZeroU32,
    /// The state, and the journal.
    pub shelf: MemShelf,
    /// The map of keywords, which is the server's.
    pub keywords: Keywords,
    pub ghost letters: { L.honest link → HasMap keywords (L.line link).end.server } by { Prim.hlevel props },
}

impl<L: TrialLink + Drop> Devices<L> {
    ghost use Rattle.std.specs.Prelude.{[]};
    ghost use Rattle.maildir.specs.MemFolders.{seen_of as seen_in};
    ghost use Rattle.maildir.specs.VisitedFolders.{AddsAlone};
    ghost use Rattle.run_pair.specs.BookParts.{files_of as files_in};
    ghost use Rattle.mailcore.specs.Visitors.{others_but};
    ghost use Rattle.run_trial.specs.Among.{HoldsAll};
    ghost use Rattle.run_trial.specs.Held.{held_in};

    /// What the outside of a run stands on: another run over it finds what that one has left.
    pub fn of(outside: Both<L, MemFolder, MemShelf>) -> Self
        ensures account { result.account ≡ outside.far.account }
        ensures link { result.link ≡ outside.far.far.session.wire.link }
        ensures folder { result.folder ≡ outside.near.near.folder }
        ensures fresh { result.fresh ≡ outside.near.fresh }
        ensures shelf { files_of result.shelf ≡ files_in outside.book }
        ensures map { result.keywords ≡ outside.far.far.keywords }
        ensures seen { held_in result ≡ record (seen_of outside).device { named = [] } }
    {
        let (BothSides { far, folder, shelf }, fresh) = BothSides::apart(outside);
        Devices::over(far, folder, fresh, shelf)
    }

    /// The same where others add files to the folder: it has all that has come.
    pub(crate) fn among<O: Others>(
        outside: Both<L, VisitedFolder<O>, MemShelf>,
    ) -> Result<Self, TrialError>
        ensures account { IfOk result (λ devices. devices.account ≡ outside.far.account) }
        ensures link { IfOk result (λ devices. devices.link ≡ outside.far.far.session.wire.link) }
        ensures folder { IfOk result (λ devices. AddsAlone (others_but O.ours) (seen_in outside.near.near.folder.folder) (seen_in devices.folder)) }
        ensures fresh { IfOk result (λ devices. devices.fresh ≡ outside.near.fresh) }
        ensures shelf { IfOk result (λ devices. files_of devices.shelf ≡ files_in outside.book) }
        ensures map { IfOk result (λ devices. devices.keywords ≡ outside.far.far.keywords) }
        ensures seen { IfOk result (λ devices. HoldsAll O.ours (seen_of outside).device (held_in devices)) }
    {
        let (BothSides { far, folder, shelf }, fresh) = BothSides::apart(outside);
        let folder = folder.into_folder()?;
        Ok(Devices::over(far, folder, fresh, shelf))
    }

    /// The same where other programs change files too: the folder has all that has come.
    pub(crate) fn acted(outside: Both<L, ActedFolder, MemShelf>) -> Result<Self, TrialError>
        ensures account { IfOk result (λ devices. devices.account ≡ outside.far.account) }
        ensures link { IfOk result (λ devices. devices.link ≡ outside.far.far.session.wire.link) }
        ensures fresh { IfOk result (λ devices. devices.fresh ≡ outside.near.fresh) }
        ensures shelf { IfOk result (λ devices. files_of devices.shelf ≡ files_in outside.book) }
        ensures map { IfOk result (λ devices. devices.keywords ≡ outside.far.far.keywords) }
    {
        let (BothSides { far, folder, shelf }, fresh) = BothSides::apart(outside);
        let folder = folder.into_folder()?;
        Ok(Devices::over(far, folder, fresh, shelf))
    }

    /// The account and the link of this far mailbox, this folder and this shelf.
    fn over(far: FarSide<L>, folder: MemFolder, fresh: NonZeroU32, shelf: MemShelf) -> Self
        ensures account { result.account ≡ far.account }
        ensures link { result.link ≡ far.far.session.wire.link }
        ensures folder { result.folder ≡ folder }
        ensures fresh { result.fresh ≡ fresh }
        ensures shelf { result.shelf ≡ shelf }
        ensures map { result.keywords ≡ far.far.keywords }
    {
        let (account, link, keywords) = far.into_parts();
        Devices {
            account,
            link,
            folder,
            fresh,
            shelf,
            keywords,
        }
    }

    /// The outside of another run over these devices, which are reopened: over the same mailboxes. All that the run before left stands
    /// there, the journal too.
    pub fn again(self, alloc: Global) -> Result<Both<L, MemFolder, MemShelf>, TrialError>
        ensures seen { IfOk result (λ both. seen_of both ≡ seen_with (held_in self) untouched) }
        ensures keywords { IfOk result (λ both. both.far.far.keywords ≡ self.keywords) }
    {
        let Devices {
            account,
            link,
            mut folder,
            fresh,
            mut shelf,
            keywords,
        } = self;
        folder.reopen();
        shelf.reopen();
        let near_map = keywords.try_clone(alloc)?;
        let sides = BothSides {
            far: FarSide::new(alloc, account, link, keywords),
            folder,
            shelf,
        };
        Ok(sides.together(alloc, fresh, near_map))
    }

    /// How many calls have stopped.
    pub fn stops(&self) -> usize {
        self.link
            .stops()
            .saturating_add(self.folder.stops())
            .saturating_add(self.shelf.stops())
    }

    /// Adds the text of the world that stands in them, from its line `far` on: what another run over them would find, without the journal.
    ///
    /// `NoWorld`: what a device holds is none, and nothing was added. This does not come of a trial. `NoMemory`: a part may have been added.
    pub fn write(&self, alloc: Global, text: &mut String) -> Result<(), TrialError>
        ensures text { OnOk result (Prints (held_in self.now) (string_bytes text.old) (string_bytes text.new)) }
    {
        let name = self.account.mailbox();
        let Some(far) = mailbox_named(self.link.server().mailboxes(), name) else {
            return Err(TrialError::NoWorld);
        };
        let messages = seen_messages(alloc, far.messages.as_slice(), &self.keywords)?;
        let near = contents_of(alloc, &self.folder, &self.keywords)?;
        let state = state_in(alloc, &self.shelf)?;
        let world = WrittenWorld {
            far: WrittenMailbox {
                validity: far.validity,
                next: far.next,
                messages: &messages,
            },
            near: WrittenMailbox {
                validity: near.meta.validity,
                next: near.meta.next,
                messages: &near.messages,
            },
            waiting: &near.waiting,
            state: &state,
        };
        Ok(write_parts(text, &world)?)
    }
}
