//! A run over a server, a folder and a shelf in memory: what it leaves of a world, with no word of a device to rely on.

ghost use Rattle.std.specs.Prelude.{◌≡◌, ◌⊎◌, IfErr, IfOk, IsErrAnd, IsErrOf, OnOk, true};
ghost use Rattle.maildir.specs.Gains.{nobody};
ghost use Rattle.outside.specs.Devices.{Device};
ghost use Rattle.imap_client.specs.Seen.{HasMap};
ghost use Rattle.imap_server.specs.Boxes.{AreServed};
ghost use Rattle.run_pair.specs.Pairs.{seen_of};
ghost use Rattle.run_states.specs.Conditions.{IsOver};
ghost use Rattle.run_states.specs.Endings.{IsDone};
ghost use Rattle.run_states.specs.Openings.{Opening};
ghost use Rattle.runner.specs.Attempts.{HasNoNext, ReportsNoNext};
ghost use Rattle.run_trial.specs.Openings.{StandsAt};
ghost use Rattle.run_trial.specs.Trials.{HasNext, IsLast, IsStart, Resumes, devices_of};
ghost use Rattle.run_trial.specs.Worlds.{device_of, world_of};
ghost use Rattle.run_trial.specs.Memory.{EndsRun, Interrupted, LeavesOpening, LeavesWorld};
ghost use Rattle.run_trial.specs.Held.{held_in};
ghost use Rattle.run_trial.specs.Settings.{device_in};

use crate::devices::{Devices, Run, settle_from, together};
use crate::failure::TrialError;
use crate::setting::{FarSetting, TrialSetting, setting_of};
use crate::trial::Trial;
use maildir::mem_folder::MemFolder;
use mem_link::mem_link::MemLink;
use rules::options::Options;
use runner::fault::RunFault;
use std::alloc::Global;

/// Makes the run of a trial to which others add no message, and gives its outside beside what it came to. If its lines say that some
/// come, they do not.
///
/// From the start, with no journal: an answer leaves both mailboxes and the state alike to the outcome that the rules name for the world
/// of the trial, and a fault leaves the run underway, whatever the attempts and the stops. After the greatest run number there is no
/// other run: a fault says so, or a call stopped before, and nothing has changed.
///
/// With a journal the run is resumed: for each opening at which the devices of the trial stand, an answer leaves the run over that began
/// there, all alike to the outcome of its world, and a fault leaves it underway.
///
/// It is reported as stopped only where as many calls stopped as there were attempts.
pub fn run_in_memory(alloc: Global, trial: Trial) -> Result<Run<MemLink, MemFolder>, TrialError>
    ghost opening: { Opening nobody.ours nobody.alone }
    ensures done { IsStart trial
        → IfOk result (λ run. OnOk run.1 (IsDone (world_of trial.world) trial.world.options (seen_of run.0).device)) }
    ensures left { IsStart trial → HasNext trial → (let w = world_of trial.world in
        IfOk result (λ run. IfErr run.1 (λ fault. LeavesWorld w trial.world.options (device_of w) fault (seen_of run.0)))) }
    ensures greatest { IsStart trial → IsLast trial
        → IfOk result (λ run. IsErrAnd run.1 ReportsNoNext × ((seen_of run.0).device ≡ device_of (world_of trial.world))) }
    ensures resumed { Resumes opening trial → IfOk result (λ run. OnOk run.1 (EndsRun opening (seen_of run.0).device)) }
    ensures pending { Resumes opening trial
        → IfOk result (λ run. IfErr run.1 (λ fault. LeavesOpening opening (devices_of trial) fault (seen_of run.0))) }
    ensures stopped { IfOk result (λ run. IsErrOf run.1 RunFault.Stopped → (seen_of run.0).stops ≡ trial.course.tries) }
    ensures map { IfOk result (λ run. run.0.far.far.keywords ≡ trial.world.options.keywords) }
{
    let tries = trial.course.tries;
    let setting = setting_of(alloc, trial)?;
    run_over(alloc, setting, tries)
}

/// Makes another run over the devices that an error has left, and gives its outside beside what it came to. Nothing else is known of the
/// run before.
///
/// Let that run be underway, from an opening where no call had named a message. Then it is over already, or it is resumed: an answer leaves
/// it over, all alike to the outcome of the world with which the first run began, and a fault leaves it underway. The greatest run number,
/// and what is reported as stopped, are as of `run_in_memory`.
pub fn run_again(
    alloc: Global,
    devices: Devices<MemLink>,
    options: Options,
    tries: u32,
) -> Result<Run<MemLink, MemFolder>, TrialError>
    ghost opening: { Opening nobody.ours nobody.alone }
    requires map { devices.keywords ≡ options.keywords }
    ensures resumed { (left : Device) → Interrupted opening options left (held_in devices)
        → IsOver opening left ⊎ IfOk result (λ run. OnOk run.1 (EndsRun opening (seen_of run.0).device)) }
    ensures pending { (left : Device) → Interrupted opening options left (held_in devices)
        → IsOver opening left ⊎ IfOk result (λ run. IfErr run.1 (λ fault. LeavesOpening opening (held_in devices) fault (seen_of run.0))) }
    ensures greatest { IfOk result (λ run. HasNoNext (Unit {0}) true (held_in devices) (seen_of run.0).device run.1) }
    ensures stopped { IfOk result (λ run. IsErrOf run.1 RunFault.Stopped → (seen_of run.0).stops ≡ tries) }
    ensures map { IfOk result (λ run. run.0.far.far.keywords ≡ devices.keywords) }
{
    let outside = devices.again(alloc)?;
    Ok(settle_from(alloc, outside, &options, tries))
}

/// Makes one run over a setting, from an opening at which its devices stand, and gives its outside beside what it came to.
fn run_over(
    alloc: Global,
    setting: TrialSetting,
    tries: u32,
) -> Result<Run<MemLink, MemFolder>, TrialError>
    ghost opening: { Opening nobody.ours nobody.alone }
    requires served { AreServed setting.far.server.server.mailboxes }
    requires letters { HasMap setting.options.keywords setting.far.server.server }
    ensures ends { StandsAt opening setting.options (device_in setting)
        → IfOk result (λ run. OnOk run.1 (EndsRun opening (seen_of run.0).device)) }
    ensures left { StandsAt opening setting.options (device_in setting)
        → IfOk result (λ run. IfErr run.1 (λ fault. LeavesOpening opening (device_in setting) fault (seen_of run.0))) }
    ensures greatest { IfOk result (λ run. HasNoNext (Unit {0}) true (device_in setting) (seen_of run.0).device run.1) }
    ensures stopped { IfOk result (λ run. IsErrOf run.1 RunFault.Stopped → (seen_of run.0).stops ≡ tries) }
    ensures map { IfOk result (λ run. run.0.far.far.keywords ≡ setting.options.keywords) }
{
    let TrialSetting {
        far,
        folder,
        shelf,
        state: _,
        arrivals: _,
        acts: _,
        options,
    } = setting;
    let FarSetting { server, schedule } = far;
    let link = MemLink::new(alloc, server, schedule);
    let outside = together(alloc, link, folder, shelf, &options.keywords)?;
    Ok(settle_from(alloc, outside, &options, tries))
}
