//! How the lines of a case are played.

use crate::cuts::print_cuts;
use crate::lying_stage::Stage;
use std::alloc::Global;
use std::cell::RefCell;
use test_client::tape::Tape;
use test_scripts::failure::Failure;
use test_scripts::play::{Player, play_all};
use test_scripts::reported::Reported;
use test_scripts::script::Script;
use test_scripts::words::Words;

/// Plays the runs of a script.
pub fn run(rt: &HostRuntime, script: &mut Script<'_>) -> Result<(), Failure> {
    let alloc = rt.alloc();
    let tape = RefCell::new(Tape::new(alloc, usize::MAX));
    let mut runs = Runs {
        alloc,
        tape: &tape,
        stage: Stage::new(alloc, &tape),
        lines: Reported::new(alloc),
    };
    play_all(rt, &mut runs, script)
}

/// What a case has said.
#[derive(Drop)]
struct Runs<'t> {
    alloc: Global,
    tape: &'t RefCell<Tape>,
    stage: Stage<'t>,
    lines: Reported,
}

impl Player for Runs<'_> {
    fn begin(&mut self) -> Result<(), Failure> {
        if let Ok(mut tape) = self.tape.try_borrow_mut() {
            tape.begin_anew();
        }
        self.stage = Stage::new(self.alloc, self.tape);
        self.lines = Reported::new(self.alloc);
        Ok(())
    }

    fn play(&mut self, line: &mut Words<'_>, script: &mut Script<'_>) -> Result<(), Failure> {
        let mut whole = *line;
        match line.word() {
            "cut" => self.cut(line, &mut script.reported),
            word => {
                self.lines.text(whole.text());
                self.lines.end();
                self.play_line(word, line, &mut script.reported)
            }
        }
    }
}

impl Runs<'_> {
    fn cut(&self, line: &mut Words<'_>, reported: &mut Reported) -> Result<(), Failure> {
        if line.word() != "everywhere" {
            line.refuse();
        }
        if self.lines.is_lost() {
            return Err(Failure::NoMemory);
        }
        print_cuts(self.alloc, self.lines.as_str(), reported)
    }

    fn play_line(
        &mut self,
        word: &str,
        line: &mut Words<'_>,
        reported: &mut Reported,
    ) -> Result<(), Failure> {
        if self.stage.play(word, line, reported)? {
            self.stage.end_run(reported)?;
        }
        Ok(())
    }
}
