//! Runs that end with a fault, and another one over the same devices, which are reopened: over a server, a folder and a shelf in memory
//! (docs/FORMATS.md, "Trial"). Where an allocation is refused (tests/refused_allocations.py), the fault is want of memory.
//!
//! | Line | Meaning |
//! |---|---|
//! | `trial` | the text of a trial up to a line `.` |
//! | `settle` | its run is made, and reported as `mbtrial` prints it; where that is a fault, the same of another run stands after `again` |
//!
//! The journal that the first run left stands there for the second one.

use mem_link::mem_link::MemLink;
use run_trial::devices::Devices;
use run_trial::failure::TrialError as TrialFailure;
use run_trial::memory::{run_again, run_in_memory};
use run_trial::read::read_trial;
use run_trial::report::Ending;
use runner::fault::RunFault;
use runner::pass::Settled;
use std::alloc::Global;
use test_scripts::failure::Failure;
use test_scripts::play::{Player, play_all};
use test_scripts::reported::Reported;
use test_scripts::script::Script;
use test_scripts::words::Words;

/// Plays the trials of a script.
pub fn run(rt: &HostRuntime, script: &mut Script<'_>) -> Result<(), Failure> {
    let alloc = rt.alloc();
    let text = Vec::new(alloc);
    play_all(rt, &mut Trials { alloc, text }, script)
}

/// The trial that is played.
#[derive(Drop)]
struct Trials {
    alloc: Global,
    /// Its text.
    text: Vec<u8>,
}

impl Player for Trials {
    fn begin(&mut self) -> Result<(), Failure> {
        self.text.clear();
        Ok(())
    }

    fn play(&mut self, line: &mut Words<'_>, script: &mut Script<'_>) -> Result<(), Failure> {
        match line.word() {
            "trial" => self.set_text(script.block(b".")?),
            "settle" => match settle(self.alloc, &self.text, &mut script.reported) {
                Ok(()) => Ok(()),
                Err(failure) => Err(failure_of(failure)),
            },
            _ => Err(Failure::Script),
        }
    }
}

impl Trials {
    fn set_text(&mut self, text: &[u8]) -> Result<(), Failure> {
        self.text.clear();
        Ok(self.text.extend_from_slice(text)?)
    }
}

fn failure_of(failure: TrialFailure) -> Failure {
    match failure {
        TrialFailure::NoMemory => Failure::NoMemory,
        TrialFailure::Usage | TrialFailure::World(_) => Failure::Script,
        TrialFailure::Input | TrialFailure::NoWorld => Failure::Device,
    }
}

/// Makes the run of a trial, and another one where it ends with a fault.
fn settle(alloc: Global, text: &[u8], reported: &mut Reported) -> Result<(), TrialFailure> {
    let trial = read_trial(alloc, text)?;
    let options = trial.world.options.try_clone(alloc)?;
    let tries = trial.course.tries;
    let (outside, settled) = run_in_memory(alloc, trial)?;
    let devices = Devices::of(outside);
    let is_over = settled.is_ok();
    report(alloc, &devices, settled, reported)?;
    if is_over {
        return Ok(());
    }
    reported.answer("again");
    let (outside, settled) = run_again(alloc, devices, options, tries)?;
    report(alloc, &Devices::of(outside), settled, reported)
}

/// Reports what a run came to and what stands in the devices, as `mbtrial` prints it. Stops are counted from the first run on.
fn report(
    alloc: Global,
    devices: &Devices<MemLink>,
    settled: Result<Settled, RunFault>,
    reported: &mut Reported,
) -> Result<(), TrialFailure> {
    let ending = Ending {
        settled,
        stops: devices.stops(),
    };
    let mut text = ending.text(alloc)?;
    devices.write(alloc, &mut text)?;
    reported.lines(&text);
    Ok(())
}
