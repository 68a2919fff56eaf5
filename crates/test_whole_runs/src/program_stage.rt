//! A scene on which the program runs.

use crate::calls::{Calls, Stop};
use crate::found::FoundMessages;
use crate::home::new_disk;
use crate::machine::{Host, Machine};
use crate::scene::Scene;
use command_line::read::read_words;
use mail_run::run::run_mail;
use std::cell::RefCell;
use std::rt::Stderr;
use test_scripts::failure::Failure;
use test_scripts::reported::Reported;

/// A scene, as it stands after the runs so far.
#[derive(Drop)]
pub struct ProgramStage {
    rt: HostRuntime,
    host: Host,
}

/// What a run came to.
#[derive(Drop)]
pub struct Ran {
    /// The exit status.
    pub status: u8,
    /// What was printed on standard output.
    pub out: Vec<u8>,
    /// What was printed on standard error.
    pub err: Vec<u8>,
    /// How many calls of the system there were.
    pub calls: u32,
    /// How many of them had an effect that outlasts the run.
    pub changes: u32,
    /// Whether the one at which it was interrupted writes.
    pub was_write: bool,
}

impl ProgramStage {
    /// A scene, as it stands at first.
    pub fn new(rt: &HostRuntime, scene: &Scene) -> Result<ProgramStage, Failure> {
        let disk = new_disk(rt)?;
        let server = scene.stand(&disk)?;
        Ok(ProgramStage {
            rt: *rt,
            host: Host {
                disk,
                calls: Calls::new(),
                server: RefCell::new(server),
            },
        })
    }

    /// Runs the program with these words, of which the first is its name. `Script`: they are no command line.
    pub fn run(&self, words: &[String], stop: Option<Stop>) -> Result<Ran, Failure> {
        let alloc = self.rt.alloc();
        let Ok(request) = read_words(alloc, words) else {
            return Err(Failure::Script);
        };
        self.host.calls.restart(stop);
        let machine = Machine {
            rt: self.rt,
            host: &self.host,
        };
        let (mut out, mut err) = (Vec::new(alloc), Vec::new(alloc));
        let terminal: Option<Stderr> = None;
        let status = run_mail(machine, &request, terminal, &mut out, &mut err);
        Ok(Ran {
            status,
            out,
            err,
            calls: self.host.calls.count(),
            changes: self.host.calls.changes(),
            was_write: self.host.calls.is_write(),
        })
    }

    /// The messages of both sides.
    pub fn found(&self, scene: &Scene) -> Result<FoundMessages, Failure> {
        match self.host.server.try_borrow() {
            Ok(server) => FoundMessages::read(&self.host.disk, &server, &scene.folders),
            Err(_) => Err(Failure::Device),
        }
    }
}

impl Ran {
    /// Answers the exit status, and what was printed.
    pub fn print(&self, reported: &mut Reported) {
        reported.begin();
        reported.text("status ");
        reported.number(u64::from(self.status));
        reported.end();
        reported.lines_after("", &self.out);
        reported.lines_after("err: ", &self.err);
    }
}
