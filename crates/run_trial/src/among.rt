//! A run over a server, a folder and a shelf in memory, to which others add messages: what it leaves of a world, with no word of a
//! device to rely on.

ghost use Rattle.std.specs.Prelude.{◌≡◌, All, IfErr, IfOk, IsErrAnd, IsErrOf, OnOk, false};
ghost use Rattle.mailcore.specs.Content.{mark_of};
ghost use Rattle.rules.specs.World.{World};
ghost use Rattle.imap_client.specs.Seen.{HasMap};
ghost use Rattle.imap_server.specs.Boxes.{AreServed};
ghost use Rattle.mem_link.specs.Others.{AreForeign};
ghost use Rattle.maildir.specs.MemFolders.{stored_in};
ghost use Rattle.book.specs.MemShelves.{files_of};
ghost use Rattle.run_pair.specs.Pairs.{seen_of};
ghost use Rattle.run_states.specs.Beginnings.{Begins};
ghost use Rattle.runner.specs.Attempts.{HasNoNext, ReportsNoNext};
ghost use Rattle.runner.specs.Validities.{IsKept};
ghost use Rattle.run_trial.specs.Trials.{HasNext, IsLast, IsStart};
ghost use Rattle.run_trial.specs.Openings.{AreOurs};
ghost use Rattle.mailcore.specs.Visitors.{IsForeign};
ghost use Rattle.run_trial.specs.Worlds.{device_of, world_of};
ghost use Rattle.run_trial.specs.Among.{IsOverAmong, LeavesAmong, OthersLeftAmong};
ghost use Rattle.run_trial.specs.Settings.{device_at};

use crate::devices::{Run, settle_all, together};
use crate::failure::TrialError;
use crate::setting::setting_of;
use crate::trial::Trial;
use crate::visited::{NearSetting, VisitedSetting, visited};
use mailcore::others::Others;
use maildir::visited_folder::VisitedFolder;
use mem_link::mem_link::MemLink;
use mem_link::visited_link::VisitedLink;
use runner::fault::RunFault;
use std::alloc::Global;

/// Makes the run of a trial to which others add messages, and gives its outside beside what it came to.
///
/// From the start, with no journal, where none of their messages bears a mark that the generator of trials gives: an answer leaves the run
/// over, and each message that others added after the listings to the next run (docs/GUARANTEES.md); a fault leaves it underway, whatever
/// the attempts, the stops and the arrivals.
/// After the greatest run number there is no other run: a fault says so, or a call stopped before, and the run has changed nothing. It is
/// reported as stopped only where as many calls stopped as there were attempts.
pub(crate) fn run_among<O: Others>(
    alloc: Global,
    trial: Trial,
) -> Result<Run<VisitedLink<O>, VisitedFolder<O>>, TrialError>
    requires foreign { All (λ a. IsForeign O.ours (mark_of a.bytes)) trial.course.arrivals.far.items }
    ensures over { AreOurs O.ours → IsStart trial → HasNext trial
        → IfOk result (λ run. OnOk run.1 (IsOverAmong O.ours (world_of trial.world) trial.world.options (seen_of run.0).device)) }
    ensures others { AreOurs O.ours → IsStart trial → HasNext trial
        → IfOk result (λ run. OnOk run.1 (OthersLeftAmong O.ours (world_of trial.world) trial.world.options (seen_of run.0).device)) }
    ensures left { AreOurs O.ours → IsStart trial → HasNext trial → (let w = world_of trial.world in
        IfOk result (λ run. IfErr run.1 (λ fault. LeavesAmong O.ours w trial.world.options (device_of w) fault (seen_of run.0)))) }
    ensures greatest { IsStart trial → IsLast trial
        → IfOk result (λ run. IsErrAnd run.1 ReportsNoNext × IsKept false (device_of (world_of trial.world)) (seen_of run.0).device) }
    ensures stopped { IfOk result (λ run. IsErrOf run.1 RunFault.Stopped → (seen_of run.0).stops ≡ trial.course.tries) }
    ensures map { IfOk result (λ run. run.0.far.far.keywords ≡ trial.world.options.keywords) }
{
    let tries = trial.course.tries;
    let setting = setting_of(alloc, trial)?;
    let among = visited(alloc, setting)?;
    run_visited(alloc, among, tries)
}

/// Makes one run over a setting to which others add messages, and gives its outside beside what it came to, as `run_among`.
fn run_visited<O: Others>(
    alloc: Global,
    setting: VisitedSetting<O>,
    tries: u32,
) -> Result<Run<VisitedLink<O>, VisitedFolder<O>>, TrialError>
    requires served { AreServed setting.far.server.server.mailboxes }
    requires letters { HasMap setting.options.keywords setting.far.server.server }
    requires foreign { AreForeign O.ours setting.arrivals.list.items }
    ensures over { AreOurs O.ours → (start : World) → (let near = setting.near in
        let map = setting.options.keywords in
        let d = device_at map setting.far.server.server (stored_in near.folder.folder) (files_of near.shelf) in
        start.state ≡ near.state → Begins start d
        → IfOk result (λ run. OnOk run.1 (IsOverAmong O.ours start setting.options (seen_of run.0).device))) }
    ensures others { AreOurs O.ours → (start : World) → (let near = setting.near in
        let map = setting.options.keywords in
        let d = device_at map setting.far.server.server (stored_in near.folder.folder) (files_of near.shelf) in
        start.state ≡ near.state → Begins start d
        → IfOk result (λ run. OnOk run.1 (OthersLeftAmong O.ours start setting.options (seen_of run.0).device))) }
    ensures left { AreOurs O.ours → (start : World) → (let near = setting.near in
        let map = setting.options.keywords in
        let d = device_at map setting.far.server.server (stored_in near.folder.folder) (files_of near.shelf) in
        start.state ≡ near.state → Begins start d
        → IfOk result (λ run. IfErr run.1 (λ fault. LeavesAmong O.ours start setting.options d fault (seen_of run.0)))) }
    ensures greatest { (let near = setting.near in
        let map = setting.options.keywords in
        let d = device_at map setting.far.server.server (stored_in near.folder.folder) (files_of near.shelf) in
        IfOk result (λ run. HasNoNext (Unit {0}) false d (seen_of run.0).device run.1)) }
    ensures stopped { IfOk result (λ run. IsErrOf run.1 RunFault.Stopped → (seen_of run.0).stops ≡ tries) }
    ensures map { IfOk result (λ run. run.0.far.far.keywords ≡ setting.options.keywords) }
{
    let VisitedSetting {
        far,
        arrivals,
        near,
        options,
    } = setting;
    let NearSetting {
        folder,
        shelf,
        state,
    } = near;
    let link = VisitedLink::new(MemLink::new(alloc, far.server, far.schedule), arrivals);
    let outside = together(alloc, link, folder, shelf, &options.keywords)?;
    Ok(settle_all(alloc, outside, &options, tries, &state))
}
