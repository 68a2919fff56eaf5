//! How the lines of a case are played.

use crate::calls::Schedule;
use crate::stage::{Stage, left_in, stage_of};
use book::shelf::ShelfFile;
use run_trial::report::Ending;
use std::alloc::Global;
use test_scripts::failure::Failure;
use test_scripts::play::{Player, play_all};
use test_scripts::reported::Reported;
use test_scripts::script::Script;
use test_scripts::words::Words;

/// Plays the runs of a script.
pub fn run(rt: &HostRuntime, script: &mut Script<'_>) -> Result<(), Failure> {
    let alloc = rt.alloc();
    let mut runs = Runs {
        alloc,
        world: Vec::new(alloc),
        journal: None,
        schedule: Schedule::new(alloc),
        stage: None,
    };
    play_all(rt, &mut runs, script)
}

/// What a case has said, and what its runs have left.
#[derive(Drop)]
struct Runs {
    alloc: Global,
    /// The text of its world.
    world: Vec<u8>,
    /// The journal before the first run.
    journal: Option<Vec<u8>>,
    /// Which calls stop or are refused, until the first run.
    schedule: Schedule,
    /// What the last run left.
    stage: Option<Stage>,
}

impl Player for Runs {
    fn begin(&mut self) -> Result<(), Failure> {
        self.world.clear();
        self.journal = None;
        self.schedule = Schedule::new(self.alloc);
        self.stage = None;
        Ok(())
    }

    fn play(&mut self, line: &mut Words<'_>, script: &mut Script<'_>) -> Result<(), Failure> {
        match line.word() {
            "world" => self.set_world(script.block(b"end")?),
            "journal" => self.set_journal(line),
            "stop" => self.schedule.read_stop(line),
            "refuse" => self.schedule.read_refusal(line),
            "run" => self.run(line.number(), &mut script.reported),
            _ => Err(Failure::Script),
        }
    }
}

impl Runs {
    fn set_world(&mut self, text: &[u8]) -> Result<(), Failure> {
        self.world.clear();
        self.world.extend_from_slice(text)?;
        Ok(self.world.extend_from_slice(b"end\n")?)
    }

    fn set_journal(&mut self, line: &mut Words<'_>) -> Result<(), Failure> {
        self.journal = Some(line.bytes(self.alloc)?);
        Ok(())
    }

    /// Makes a run, and prints what came of it.
    fn run(&mut self, tries: u32, reported: &mut Reported) -> Result<(), Failure> {
        let stage = match self.stage.take() {
            Some(stage) => Ok(stage),
            None => self.first_stage(),
        };
        let (stage, ending) = stage?.run(self.alloc, tries);
        let ended = print_run(self.alloc, reported, &stage, &ending);
        self.stage = Some(stage);
        ended
    }

    /// The world before the first run.
    fn first_stage(&mut self) -> Result<Stage, Failure> {
        let schedule = std::mem::replace(&mut self.schedule, Schedule::new(self.alloc));
        match stage_of(self.alloc, &self.world, schedule) {
            Ok(stage) => {
                let Stage { options, mut parts } = stage;
                parts.shelf.put(ShelfFile::Journal, self.journal.take());
                Ok(Stage { options, parts })
            }
            Err(failure) => Err(failure),
        }
    }
}

/// Prints what a run came to, and what it left.
fn print_run(
    alloc: Global,
    reported: &mut Reported,
    stage: &Stage,
    ending: &Ending,
) -> Result<(), Failure> {
    reported.lines(&ending.text(alloc)?);
    reported.lines(&left_in(alloc, &stage.parts)?);
    Ok(())
}
