//! What stands near, and a server that says what a script says.

use crate::near::{Devices, Near};
use crate::whole_run::{account, settle};
use book::shelf::ShelfFile;
use mail_sides::far_side::FarSide;
use mailcore::keywords::Keywords;
use std::alloc::Global;
use std::cell::RefCell;
use std::mem;
use test_client::script_link::ScriptLink;
use test_client::tape::Tape;
use test_scripts::failure::Failure;
use test_scripts::reported::Reported;
use test_scripts::words::Words;

/// The tape that a run's link goes over, and what stands near.
#[derive(Drop)]
pub(crate) struct Stage<'t> {
    alloc: Global,
    tape: &'t RefCell<Tape>,
    near: Near,
}

impl<'t> Stage<'t> {
    /// Nothing near.
    pub(crate) fn new(alloc: Global, tape: &'t RefCell<Tape>) -> Stage<'t> {
        Stage {
            alloc,
            tape,
            near: Near::Nothing,
        }
    }

    /// Plays a line that begins with this word, and reports the answer. Returns whether it was a run. `Script`: it has no meaning here.
    pub(crate) fn play(
        &mut self,
        word: &str,
        line: &mut Words<'_>,
        reported: &mut Reported,
    ) -> Result<bool, Failure> {
        match word {
            "near" => self.near = Near::read(self.alloc, line)?,
            "message" => self.near.push(self.alloc, line)?,
            "settle" => self.settle(reported)?,
            "state" => self.print_file(ShelfFile::State, reported)?,
            "journal" => self.print_file(ShelfFile::Journal, reported)?,
            _ => self.talk(word, line)?,
        }
        Ok(word == "settle")
    }

    /// A line of what goes over the link in the next run.
    fn talk(&self, word: &str, line: &mut Words<'_>) -> Result<(), Failure> {
        let is_talk = match self.tape.try_borrow_mut() {
            Ok(mut tape) => tape.talk(word, line)?,
            Err(_) => false,
        };
        if is_talk {
            Ok(())
        } else {
            Err(Failure::Script)
        }
    }

    fn settle(&mut self, reported: &mut Reported) -> Result<(), Failure> {
        let near = mem::replace(&mut self.near, Near::Nothing);
        let devices = near.devices(self.alloc)?;
        reported.begin();
        self.near = Near::Left(self.run_over(devices, reported)?);
        reported.end();
        Ok(())
    }

    /// Makes a run over a new link.
    fn run_over(&self, devices: Devices, reported: &mut Reported) -> Result<Devices, Failure> {
        let account = account(self.alloc)?;
        let link = ScriptLink::new(self.tape);
        let far = FarSide::new(self.alloc, account, link, Keywords::new(self.alloc));
        Ok(settle(self.alloc, far, devices, reported))
    }

    fn print_file(&self, file: ShelfFile, reported: &mut Reported) -> Result<(), Failure> {
        reported.begin();
        self.near.print_file(file, reported)?;
        reported.end();
        Ok(())
    }

    /// Ends a run. Reports what was sent in it though the script does not say so, and what was not, though it does.
    pub(crate) fn end_run(&self, reported: &mut Reported) -> Result<(), Failure> {
        match self.tape.try_borrow_mut() {
            Ok(tape) if tape.is_lost() => Err(Failure::NoMemory),
            Ok(mut tape) => {
                tape.end_call(reported);
                Ok(())
            }
            Err(_) => Err(Failure::Script),
        }
    }
}
