//! The program `mbtrial`, over readers and writers.

ghost use Rattle.std.specs.Prelude.{◌≡◌, ◌≤◌, true, ℕ, List, All, IfOk, IfSome, IsErr, OnOk, string_bytes};
ghost use Rattle.std.specs.Io.KnownBytes.{Appends};
ghost use Rattle.imap_server.specs.Boxes.{AreServed};
ghost use Rattle.mailcore.specs.Content.{mark_of};
ghost use Rattle.mailcore.specs.Visitors.{IsForeign};
ghost use Rattle.imap_client.specs.Seen.{HasMap};
ghost use Rattle.run_trial.specs.Acting.{NobodyActs};
ghost use Rattle.run_trial.specs.Arriving.{AreNone, are_foreign};
ghost use Rattle.run_trial.specs.FromText.{Reports, ReportsAmong, ReportsText};
ghost use Rattle.run_trial.specs.Held.{held_in};
ghost use Rattle.run_trial.specs.Openings.{AreOurs};
ghost use Rattle.run_trial.specs.Printed.{Prints};
ghost use Rattle.run_trial.specs.Reports.{status_of};
ghost use Rattle.run_trial.specs.Trials.{IsStart};
ghost use Rattle.run_trial.specs.Worlds.{world_of};
ghost use Rattle.worlds.specs.Trial.{is_counted};

use crate::acted::reported_acted;
use crate::among::run_among;
use crate::devices::Devices;
use crate::failure::TrialError;
use crate::linked::run_linked;
use crate::memory::run_in_memory;
use crate::other_marks::OtherMarks;
use crate::read::read_trial;
use crate::report::Ending;
use crate::server::TrialLink;
use crate::setting::{TrialSetting, setting_of};
use crate::trial::Trial;
use crate::visited::{NearSetting, VisitedSetting, visited};
use link_face::face_link::FaceLink;
use link_face::words::Words;
use mailcore::others::{AnyMarks, Others};
use mem_link::loop_link::LoopLink;
use mem_link::mem_link::MemLink;
use mem_link::visited_link::VisitedLink;
use rules::options::Options;
use runner::fault::RunFault;
use runner::pass::Settled;
use std::alloc::Global;
use std::io;
use std::io::{Read, Write};
use std::net::Net;
use std::rc::Rc;

/// What a program is asked for by its arguments.
#[derive(Clone, Copy, PartialEq, Eq)]
pub enum TrialRequest {
    /// A trial whose far mailbox is reached in memory: there are no arguments.
    Memory,
    /// The same, where at most so many bytes are received at once. No argument asks for it.
    Pieces(usize),
    /// The same as `Memory` after a face, as `mbsync` hears real servers: `--face`.
    Face,
    /// One whose far mailbox is reached over a loopback connection: `--tcp`.
    Loopback,
    /// Nothing: there are other arguments.
    Unknown,
}

/// Reads a trial from `input`, makes its run, and writes to `out` what it came to and what it left (docs/FORMATS.md, "Trial"). It gives
/// the program's exit status: 0 where the run was settled, and 1 where it ended with a fault.
///
/// Else `err` gets the reason: status 2 for other arguments and for a bad text, status 1 for lack of memory, and where
/// reading or writing failed.
///
/// With status 0, of a trial in memory that begins anew, where others add nothing and do nothing to messages: after what the run came to, the world is printed
/// that stands in the devices, and it is alike to the outcome that the rules name for the world which the text gives.
pub fn run_trial<R: Net + AllocGlobal + Clone + Drop, I: Read, O: Write, E: Write>(
    rt: R,
    request: TrialRequest,
    input: &mut I,
    out: &mut O,
    err: &mut E,
) -> u8
    ensures at_most { result ≤ 2 }
    ensures asked { request ≡ TrialRequest.Unknown → 1 ≤ result }
    ensures text { request ≡ TrialRequest.Memory → result ≡ 0 → IfSome (I.remaining input.old) (λ text. (printed : List ℕ)
        × ReportsText text printed 0 × Appends (O.contents out.old) (O.contents out.new) printed) }
{
    match reported(rt, request, input) {
        Ok((text, status)) => match print(out, text.as_bytes()) {
            Ok(()) => status,
            Err(_) => 1,
        },
        Err(failure) => match writeln!(err, "mbtrial: {failure}") {
            Ok(()) => failure.status(),
            Err(_) => 1,
        },
    }
}

fn print<O: Write>(out: &mut O, text: &[u8]) -> io::Result<()>
    ensures { OnOk result (Appends (O.contents out.old) (O.contents out.new) text.now) }
{
    out.write_all(text)?;
    out.flush()
}

/// What is reported of the trial that is read, and the exit status.
fn reported<R: Net + AllocGlobal + Clone + Drop, I: Read>(
    rt: R,
    request: TrialRequest,
    input: &mut I,
) -> Result<(String, u8), TrialError>
    ensures status { IfOk result (λ reported. reported.1 ≤ 1) }
    ensures asked { request ≡ TrialRequest.Unknown → IsErr result }
    ensures text { request ≡ TrialRequest.Memory → IfOk result (λ reported.
        IfSome (I.remaining input.old) (λ text. ReportsText text (string_bytes reported.0) reported.1)) }
{
    if request == TrialRequest::Unknown {
        return Err(TrialError::Usage);
    }
    let mut text = Vec::new(rt.alloc());
    input.read_to_end(&mut text)?;
    reported_of_text(rt, request, &text)
}

/// What is reported of the trial that a text gives, and the exit status.
fn reported_of_text<R: Net + AllocGlobal + Clone + Drop>(
    rt: R,
    request: TrialRequest,
    text: &[u8],
) -> Result<(String, u8), TrialError>
    ensures at_most { IfOk result (λ reported. reported.1 ≤ 1) }
    ensures text { request ≡ TrialRequest.Memory → IfOk result (λ reported. ReportsText text.now (string_bytes reported.0) reported.1) }
{
    let trial = read_trial(rt.alloc(), text)?;
    reported_of_trial(rt, request, trial)
}

/// What is reported of this trial, and the exit status.
fn reported_of_trial<R: Net + AllocGlobal + Clone + Drop>(
    rt: R,
    request: TrialRequest,
    trial: Trial,
) -> Result<(String, u8), TrialError>
    ensures at_most { IfOk result (λ reported. reported.1 ≤ 1) }
    ensures alone { request ≡ TrialRequest.Memory → AreNone trial.course.arrivals → NobodyActs trial.course.acts → IsStart trial
        → IfOk result (λ reported. Reports (world_of trial.world) trial.world.options (string_bytes reported.0) reported.1) }
    ensures among { request ≡ TrialRequest.Memory → ¬ AreNone trial.course.arrivals → are_foreign is_counted trial.course.arrivals ≡ true
        → NobodyActs trial.course.acts → IsStart trial → IfOk result (λ reported. ReportsAmong is_counted (world_of trial.world) trial.world.options
        (string_bytes reported.0) reported.1) }
{
    if !trial.course.acts.is_empty() {
        return reported_acted(rt, request, trial);
    }
    let alloc = rt.alloc();
    match request {
        TrialRequest::Memory | TrialRequest::Unknown if trial.course.arrivals.is_empty() => {
            reported_alone(alloc, trial)
        }
        TrialRequest::Memory | TrialRequest::Unknown => reported_among(alloc, trial),
        TrialRequest::Pieces(piece) => reported_in_pieces(alloc, trial, piece),
        TrialRequest::Face => reported_over_face(alloc, trial),
        TrialRequest::Loopback => reported_over_loopback(rt, trial),
    }
}

/// What is reported of this trial in memory, to which others add nothing.
fn reported_alone(alloc: Global, trial: Trial) -> Result<(String, u8), TrialError>
    ensures at_most { IfOk result (λ reported. reported.1 ≤ 1) }
    ensures reports { IsStart trial
        → IfOk result (λ reported. Reports (world_of trial.world) trial.world.options (string_bytes reported.0) reported.1) }
{
    let (outside, settled) = run_in_memory(alloc, trial)?;
    reported_of(alloc, Devices::of(outside), settled)
}

/// What is reported of this trial, in which others add messages.
#[tactic(auto, using(mailcore::proofs::Foreign::any_foreign))]
fn reported_among(alloc: Global, trial: Trial) -> Result<(String, u8), TrialError>
    ensures at_most { IfOk result (λ reported. reported.1 ≤ 1) }
    ensures reports { are_foreign is_counted trial.course.arrivals ≡ true → IsStart trial → IfOk result (λ reported.
        ReportsAmong is_counted (world_of trial.world) trial.world.options (string_bytes reported.0) reported.1) }
{
    if trial.course.arrivals.are_of::<OtherMarks>() {
        reported_beside::<OtherMarks>(alloc, trial)
    } else {
        reported_beside::<AnyMarks>(alloc, trial)
    }
}

/// What is reported of this trial, in which these others add messages.
fn reported_beside<O: Others>(alloc: Global, trial: Trial) -> Result<(String, u8), TrialError>
    requires foreign { All (λ a. IsForeign O.ours (mark_of a.bytes)) trial.course.arrivals.far.items }
    ensures at_most { IfOk result (λ reported. reported.1 ≤ 1) }
    ensures reports { AreOurs O.ours → IsStart trial → IfOk result (λ reported.
        ReportsAmong O.ours (world_of trial.world) trial.world.options (string_bytes reported.0) reported.1) }
{
    let (outside, settled) = run_among::<O>(alloc, trial)?;
    reported_of(alloc, Devices::among(outside)?, settled)
}

/// What is reported of this trial where at most so many bytes are received at once.
#[tactic(auto, using(mailcore::proofs::Foreign::any_foreign))]
fn reported_in_pieces(alloc: Global, trial: Trial, piece: usize) -> Result<(String, u8), TrialError>
    ensures { IfOk result (λ reported. reported.1 ≤ 1) }
{
    let tries = trial.course.tries;
    let VisitedSetting::<AnyMarks> {
        far,
        arrivals,
        near,
        options,
    } = visited(alloc, setting_of(alloc, trial)?)?;
    let link = MemLink::new(alloc, far.server, far.schedule).in_pieces(piece);
    let link = VisitedLink::<AnyMarks>::new(link, arrivals);
    reported_over(alloc, link, near, &options, tries)
}

/// What is reported of this trial through a face.
#[tactic(auto, using(mailcore::proofs::Foreign::any_foreign))]
fn reported_over_face(alloc: Global, trial: Trial) -> Result<(String, u8), TrialError>
    ensures { IfOk result (λ reported. reported.1 ≤ 1) }
{
    let tries = trial.course.tries;
    let setting = setting_of(alloc, trial)?;
    if setting.arrivals.are_of::<OtherMarks>() {
        reported_through_face::<OtherMarks>(alloc, setting, tries)
    } else {
        reported_through_face::<AnyMarks>(alloc, setting, tries)
    }
}

/// What is reported of a run over this setting through a face, while these others add messages.
fn reported_through_face<O: Others>(
    alloc: Global,
    setting: TrialSetting,
    tries: u32,
) -> Result<(String, u8), TrialError>
    requires served { AreServed setting.far.server.server.mailboxes }
    requires letters { HasMap setting.options.keywords setting.far.server.server }
    requires foreign { All (λ a. IsForeign O.ours (mark_of a.bytes)) setting.arrivals.far.items }
    ensures { IfOk result (λ reported. reported.1 ≤ 1) }
{
    let VisitedSetting::<O> {
        far,
        arrivals,
        near,
        options,
    } = visited(alloc, setting)?;
    let words = Rc::new(alloc, Words::new(alloc))?;
    let link = VisitedLink::<O>::new(MemLink::new(alloc, far.server, far.schedule), arrivals);
    reported_over(
        alloc,
        FaceLink::new(alloc, link, words),
        near,
        &options,
        tries,
    )
}

/// What is reported of this trial over a loopback connection.
fn reported_over_loopback<R: Net + AllocGlobal + Clone + Drop>(
    rt: R,
    trial: Trial,
) -> Result<(String, u8), TrialError>
    ensures { IfOk result (λ reported. reported.1 ≤ 1) }
{
    let alloc = rt.alloc();
    let tries = trial.course.tries;
    let VisitedSetting::<AnyMarks> {
        far,
        arrivals,
        near,
        options,
    } = visited(alloc, setting_of(alloc, trial)?)?;
    let link = LoopLink::new(rt, far.server, far.schedule).among(arrivals);
    reported_over(alloc, link, near, &options, tries)
}

/// What is reported of a run over this link and what stands near, while others add files to the folder.
fn reported_over<L: TrialLink + Drop, O: Others>(
    alloc: Global,
    link: L,
    near: NearSetting<O>,
    options: &Options,
    tries: u32,
) -> Result<(String, u8), TrialError>
    requires { L.honest link → HasMap options.now.keywords (L.line link).end.server }
    ensures { IfOk result (λ reported. reported.1 ≤ 1) }
{
    let (outside, settled) = run_linked(alloc, link, near, options, tries)?;
    reported_of(alloc, Devices::among(outside)?, settled)
}

/// What is reported of a run, by what it left, and the exit status.
pub(crate) fn reported_of<L: TrialLink + Drop>(
    alloc: Global,
    devices: Devices<L>,
    settled: Result<Settled, RunFault>,
) -> Result<(String, u8), TrialError>
    ensures at_most { IfOk result (λ reported. reported.1 ≤ 1) }
    ensures status { IfOk result (λ reported. reported.1 ≡ status_of settled) }
    ensures prints { IfOk result (λ reported. (ending : List ℕ) × Prints (held_in devices) ending (string_bytes reported.0)) }
{
    let ending = Ending {
        settled,
        stops: devices.stops(),
    };
    let mut text = ending.text(alloc)?;
    devices.write(alloc, &mut text)?;
    Ok((text, ending.status()))
}
