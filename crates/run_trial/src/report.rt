//! What is reported of a trial.

ghost use Rattle.std.specs.Prelude.{◌≡◌};
ghost use Rattle.run_trial.specs.Reports.{fault_number, status_of};

use reports::performed::PerformedLine;
use runner::fault::RunFault;
use runner::pass::{Pass, Settled};
use runner::performed::Performed;
use std::alloc::{AllocError, Global};

/// What a trial came to.
#[derive(Drop)]
pub struct Ending {
    /// What the run answered, or why it was not finished.
    pub settled: Result<Settled, RunFault>,
    /// How many stops the devices met.
    pub stops: usize,
}

impl Ending {
    /// The exit status of a program that reports it.
    pub fn status(&self) -> u8
        ensures { result ≡ status_of self.now.settled }
    {
        match &self.settled {
            Ok(_) => 0,
            Err(_) => 1,
        }
    }

    /// Its lines, after which those of the world stand.
    pub fn text(&self, alloc: Global) -> Result<String, AllocError> {
        let mut text = String::new(alloc);
        match self.write(&mut text) {
            Ok(()) => Ok(text),
            Err(fault) => Err(fault),
        }
    }

    fn write(&self, text: &mut String) -> Result<(), AllocError> {
        let stops = self.stops;
        match &self.settled {
            Ok(settled) => {
                writeln!(text, "settled {} {stops}", pass_word(&settled.last))?;
                write_performed(text, performed_in(&settled.last))
            }
            Err(fault) => writeln!(text, "fault {} {stops}", fault_number(*fault)),
        }
    }
}

/// How an answer is reported.
fn pass_word(pass: &Pass) -> &'static str {
    match pass {
        Pass::Already => "already",
        Pass::Ran(_, _) => "ran",
        Pass::Finished(_) => "finished",
    }
}

/// The steps that were performed.
fn performed_in(pass: &Pass) -> &[Performed] {
    match pass {
        Pass::Already => &[],
        Pass::Ran(performed, _) | Pass::Finished(performed) => performed,
    }
}

fn write_performed(text: &mut String, performed: &[Performed]) -> Result<(), AllocError> {
    for one in performed {
        writeln!(text, "{}", PerformedLine(one))?;
    }
    Ok(())
}

/// How a fault is numbered.
fn fault_number(fault: RunFault) -> u8
    ensures { result ≡ fault_number fault }
{
    match fault {
        RunFault::Stopped => 1,
        RunFault::Refused(_) => 2,
        RunFault::ValidityChanged(_) => 3,
        RunFault::BadState(_) => 4,
        RunFault::BadJournal(_) => 5,
        RunFault::StoreFault(_, _) => 6,
        RunFault::MarksRepeat => 7,
        RunFault::NoMemory => 8,
        RunFault::KeywordsChanged => 9,
    }
}
