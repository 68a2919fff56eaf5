//! A run over any link to a server in this process, and over a folder and a shelf in memory, while others add messages: what it leaves
//! where the link has behaved as specified.

ghost use Rattle.std.specs.Prelude.{◌≡◌, IfErr, IfOk, IsErrOf, OnOk, false};
ghost use Rattle.book.specs.MemShelves.{files_of};
ghost use Rattle.imap_client.specs.Seen.{HasMap};
ghost use Rattle.run_states.specs.Beginnings.{Begins};
ghost use Rattle.maildir.specs.MemFolders.{stored_in};
ghost use Rattle.rules.specs.World.{World};
ghost use Rattle.run_pair.specs.Pairs.{seen_of};
ghost use Rattle.run_trial.specs.Among.{IsOverAmong, LeavesAmong, OthersLeftAmong};
ghost use Rattle.run_trial.specs.Openings.{AreOurs};
ghost use Rattle.run_trial.specs.Settings.{device_at};
ghost use Rattle.runner.specs.Attempts.{HasNoNext};
ghost use Rattle.mailcore.specs.Visitors.{others_but};

use crate::devices::{Run, settle_all, together};
use crate::failure::TrialError;
use crate::server::TrialLink;
use crate::visited::NearSetting;
use mailcore::others::Others;
use maildir::visited_folder::VisitedFolder;
use rules::options::Options;
use runner::fault::RunFault;
use std::alloc::Global;

/// Makes one run over this link, the folder and the shelf, and gives its outside beside what it came to.
///
/// Where the link has behaved as specified, as one through a face has that rewrote nothing, and the same others add messages at both sides: it
/// is as of `run_among`, from a world that a run may begin with. It is reported as stopped only where as many calls stopped as there were
/// attempts.
pub(crate) fn run_linked<L: TrialLink + Drop, O: Others>(
    alloc: Global,
    link: L,
    near: NearSetting<O>,
    options: &Options,
    tries: u32,
) -> Result<Run<L, VisitedFolder<O>>, TrialError>
    requires letters { L.honest link → HasMap options.now.keywords (L.line link).end.server }
    ensures over { L.visitors ≡ others_but O.ours → AreOurs O.ours → (start : World) → (let there = near in
        let d = device_at options.now.keywords (L.line link).end.server (stored_in there.folder.folder) (files_of there.shelf) in
        start.state ≡ there.state → Begins start d → IfOk result (λ run. L.honest run.0.far.far.session.wire.link
        → OnOk run.1 (IsOverAmong O.ours start options.now (seen_of run.0).device))) }
    ensures others { L.visitors ≡ others_but O.ours → AreOurs O.ours → (start : World) → (let there = near in
        let d = device_at options.now.keywords (L.line link).end.server (stored_in there.folder.folder) (files_of there.shelf) in
        start.state ≡ there.state → Begins start d → IfOk result (λ run. L.honest run.0.far.far.session.wire.link
        → OnOk run.1 (OthersLeftAmong O.ours start options.now (seen_of run.0).device))) }
    ensures left { L.visitors ≡ others_but O.ours → AreOurs O.ours → (start : World) → (let there = near in
        let d = device_at options.now.keywords (L.line link).end.server (stored_in there.folder.folder) (files_of there.shelf) in
        start.state ≡ there.state → Begins start d → IfOk result (λ run. L.honest run.0.far.far.session.wire.link
        → IfErr run.1 (λ fault. LeavesAmong O.ours start options.now d fault (seen_of run.0)))) }
    ensures greatest { L.visitors ≡ others_but O.ours → (let there = near in
        let d = device_at options.now.keywords (L.line link).end.server (stored_in there.folder.folder) (files_of there.shelf) in
        IfOk result (λ run. HasNoNext (L.honest run.0.far.far.session.wire.link) false d (seen_of run.0).device run.1)) }
    ensures stopped { IfOk result (λ run. IsErrOf run.1 RunFault.Stopped → (seen_of run.0).stops ≡ tries) }
    ensures map { IfOk result (λ run. run.0.far.far.keywords ≡ options.now.keywords) }
{
    let NearSetting {
        folder,
        shelf,
        state,
    } = near;
    let outside = together(alloc, link, folder, shelf, &options.keywords)?;
    Ok(settle_all(alloc, outside, options, tries, &state))
}
