//! How the lines of a case are played.

use crate::broken::break_each;
use crate::facts::Facts;
use crate::lent_box::show;
use crate::run_line::request_of;
use crate::work::{Played, Work};
use config::config::Config;
use config::read::read_config;
use config::request::RunRequest;
use config_words::fault::{ConfigFault, FaultKind};
use std::alloc::Global;
use test_scripts::failure::Failure;
use test_scripts::play::{Player, play_all};
use test_scripts::reported::Reported;
use test_scripts::script::Script;
use test_scripts::words::Words;

/// Plays the command lines of a script.
pub fn run(rt: &HostRuntime, script: &mut Script<'_>) -> Result<(), Failure> {
    let alloc = rt.alloc();
    let mut lines = CommandLines {
        alloc,
        config: Config::new(alloc),
        facts: Facts::new(alloc),
        request: None,
    };
    play_all(rt, &mut lines, script)
}

/// What a case has said.
#[derive(Drop)]
struct CommandLines {
    alloc: Global,
    /// The last configuration.
    config: Config,
    /// What there is before the run.
    facts: Facts,
    /// What the last line `run` asked for.
    request: Option<RunRequest>,
}

impl Player for CommandLines {
    fn begin(&mut self) -> Result<(), Failure> {
        self.facts = Facts::new(self.alloc);
        self.request = None;
        Ok(())
    }

    fn play(&mut self, line: &mut Words<'_>, script: &mut Script<'_>) -> Result<(), Failure> {
        match line.word() {
            "config" => self.set_config(script.block(b".")?),
            "run" => self.run(line.text(), &mut script.reported),
            "each" => self.break_each(line.word(), &mut script.reported),
            word => self.facts.add(word, line),
        }
    }
}

impl CommandLines {
    fn set_config(&mut self, text: &[u8]) -> Result<(), Failure> {
        match read_config(self.alloc, text) {
            Ok(config) => {
                self.config = config;
                Ok(())
            }
            Err(fault) => Err(failure_of(fault)),
        }
    }

    /// Makes a run, and prints what came of it.
    fn run(&mut self, words: &str, reported: &mut Reported) -> Result<(), Failure> {
        self.request = Some(request_of(self.alloc, words)?);
        let played = self.work()?.played(usize::MAX, usize::MAX)?;
        played.report(reported);
        let Played { stores, .. } = played;
        show(self.alloc, reported, &self.facts, stores.boxes);
        Ok(())
    }

    /// `break`: makes the last run again with streams that fail.
    fn break_each(&mut self, word: &str, reported: &mut Reported) -> Result<(), Failure> {
        if word != "break" {
            return Err(Failure::Script);
        }
        break_each(self.work()?, reported)
    }

    /// The run that the last line `run` asked for.
    fn work(&self) -> Result<Work<'_>, Failure> {
        match &self.request {
            Some(request) => Ok(Work {
                alloc: self.alloc,
                config: &self.config,
                request,
                facts: &self.facts,
            }),
            None => Err(Failure::Script),
        }
    }
}

fn failure_of(fault: ConfigFault) -> Failure {
    match fault.kind {
        FaultKind::NoMemory => Failure::NoMemory,
        _ => Failure::Script,
    }
}
