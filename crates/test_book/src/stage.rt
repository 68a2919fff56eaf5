//! What a case has so far, and how its lines are played.

use crate::desk::Desk;
use crate::files::{print_file, print_files, read_file, shelf_with};
use crate::folder;
use crate::plan_text::Draft;
use crate::readings::{print_beginnings, print_disagreement, print_reading};
use crate::rule::Rule;
use crate::stops::Trial;
use book::disk_shelf::DiskShelf;
use book::mem_shelf::{MemShelf, ShelfCall};
use book::shelf::ShelfFile;
use device::schedule::CallStop;
use rules::plan::Plan;
use std::{fs, mem};
use sync_state::has_text::has_text;
use test_scripts::failure::Failure;
use test_scripts::play::Player;
use test_scripts::reported::Reported;
use test_scripts::script::Script;
use test_scripts::words::Words;

/// What a case has so far.
#[derive(Drop)]
pub struct Stage<'a> {
    rt: &'a HostRuntime,
    /// Its files, which the next shelf has.
    files: MemShelf,
    plan: Option<Plan>,
    /// Where the next shelf in memory stops.
    schedule: Vec<CallStop<ShelfCall>>,
    is_on_disk: bool,
    memory: Desk<MemShelf>,
    disk: Desk<DiskShelf<HostRuntime>>,
}

impl Player for Stage<'_> {
    fn begin(&mut self) -> Result<(), Failure> {
        folder::clear(self.rt)?;
        let empty = Stage::new(self.rt);
        drop(mem::replace(self, empty));
        Ok(())
    }

    fn play(&mut self, line: &mut Words<'_>, script: &mut Script<'_>) -> Result<(), Failure> {
        match line.word() {
            "state" => self.take_file(ShelfFile::State, line, script),
            "journal" => self.take_file(ShelfFile::Journal, line, script),
            "plan" => {
                self.take_plan(script.block(b".")?, line);
                Ok(())
            }
            "beginnings" => self.print_beginnings(line, script),
            "shelf" => self.stand(line, &mut script.reported),
            "folder" => Ok(folder::change(self.rt, line)?),
            "mode" => self.print_mode(line, &mut script.reported),
            "show" => self.print_shelf(&mut script.reported),
            word => {
                self.ask(word, line, &mut script.reported);
                Ok(())
            }
        }
    }
}

impl<'a> Stage<'a> {
    /// Without files, plan, stops and shelf.
    pub fn new(rt: &'a HostRuntime) -> Stage<'a> {
        Stage {
            rt,
            files: MemShelf::new(rt.alloc(), Vec::new(rt.alloc())),
            plan: None,
            schedule: Vec::new(rt.alloc()),
            is_on_disk: false,
            memory: Desk::new(None),
            disk: Desk::new(None),
        }
    }

    fn take_file(
        &mut self,
        file: ShelfFile,
        line: &mut Words<'_>,
        script: &mut Script<'_>,
    ) -> Result<(), Failure> {
        let how = if line.is_over() { "" } else { line.word() };
        match how {
            "" => self.put(file, script.block(b".")?),
            "torn" => {
                let text = script.block(b".")?;
                self.put(file, text.strip_suffix(b"\n").unwrap_or(text))
            }
            "from" => {
                let bytes = fs::read(self.rt, line.text())?;
                self.files.put(file, Some(bytes));
                Ok(())
            }
            "missing" => {
                self.files.put(file, None);
                Ok(())
            }
            _ => Err(Failure::Script),
        }
    }

    fn put(&mut self, file: ShelfFile, text: &[u8]) -> Result<(), Failure> {
        let bytes = Vec::from_slice(self.rt.alloc(), text)?;
        self.files.put(file, Some(bytes));
        Ok(())
    }

    fn take_plan(&mut self, text: &[u8], line: &mut Words<'_>) {
        let mut draft = Draft::new(self.rt.alloc());
        draft.read(text, line);
        self.plan = Some(draft.finish());
    }

    fn add_stop(&mut self, line: &mut Words<'_>) {
        let moment = line.moment();
        let call = read_call(line);
        let stop = CallStop {
            call,
            number: line.long_number(),
            moment,
        };
        if self.schedule.push(stop).is_err() {
            line.fail(Failure::NoMemory);
        }
    }

    /// `memory` or `disk`: stands at such a shelf. Another word: makes that call of the shelf.
    fn stand(&mut self, line: &mut Words<'_>, reported: &mut Reported) -> Result<(), Failure> {
        match line.word() {
            "memory" => self.stand_in_memory(),
            "disk" => self.stand_on_disk(),
            word => {
                self.use_shelf(word, line, reported);
                Ok(())
            }
        }
    }

    fn use_shelf(&mut self, word: &str, line: &mut Words<'_>, reported: &mut Reported) {
        let alloc = self.rt.alloc();
        if self.is_on_disk {
            self.disk.use_shelf(alloc, word, line, reported);
        } else {
            self.memory.use_shelf(alloc, word, line, reported);
        }
    }

    fn stand_in_memory(&mut self) -> Result<(), Failure> {
        let alloc = self.rt.alloc();
        let schedule = mem::replace(&mut self.schedule, Vec::new(alloc));
        let shelf = shelf_with(alloc, &self.files, schedule)?;
        self.is_on_disk = false;
        drop(mem::replace(&mut self.memory, Desk::new(Some(shelf))));
        Ok(())
    }

    fn stand_on_disk(&mut self) -> Result<(), Failure> {
        folder::fill(self.rt, &self.files)?;
        let shelf = DiskShelf::new(*self.rt, folder::PATH)?;
        self.is_on_disk = true;
        drop(mem::replace(&mut self.disk, Desk::new(Some(shelf))));
        Ok(())
    }

    fn print_mode(&self, line: &mut Words<'_>, reported: &mut Reported) -> Result<(), Failure> {
        let mode = folder::mode_of(self.rt, line)?;
        reported.say(&format_args!("{mode:o}"));
        Ok(())
    }

    /// Prints both files of the shelf, and how many calls of a shelf in memory have stopped.
    fn print_shelf(&self, reported: &mut Reported) -> Result<(), Failure> {
        if self.is_on_disk {
            self.print_disk_file(reported, "state", folder::STATE)?;
            return self.print_disk_file(reported, "journal", folder::JOURNAL);
        }
        let Some(shelf) = self.memory.shelf() else {
            return Err(Failure::Script);
        };
        print_files(reported, shelf);
        reported.begin();
        reported.number(shelf.stops() as u64);
        reported.text(" calls have stopped");
        reported.end();
        Ok(())
    }

    fn print_disk_file(
        &self,
        reported: &mut Reported,
        word: &str,
        path: &str,
    ) -> Result<(), Failure> {
        match folder::read(self.rt, path)? {
            Some(bytes) => print_file(reported, word, Some(&bytes)),
            None => print_file(reported, word, None),
        }
        Ok(())
    }

    /// Plays a line that asks about the files and the plan, or one for the desk.
    fn ask(&mut self, word: &str, line: &mut Words<'_>, reported: &mut Reported) {
        match word {
            "stop" => self.add_stop(line),
            "read" => self.print_reading(line, reported),
            "disagreement" => self.print_both(line, reported),
            "has_text" => self.print_has_text(line, reported),
            "stops" => self.print_stops(line, reported),
            _ => {
                let (alloc, plan) = (self.rt.alloc(), self.plan.as_ref());
                if self.is_on_disk {
                    self.disk.play(alloc, word, line, reported, plan);
                } else {
                    self.memory.play(alloc, word, line, reported, plan);
                }
            }
        }
    }

    /// The text of a file. The line is bad where it is missing.
    fn text(&self, file: ShelfFile, line: &mut Words<'_>) -> &[u8] {
        match self.files.bytes(file) {
            Some(text) => text,
            None => {
                line.refuse();
                &[]
            }
        }
    }

    fn print_reading(&self, line: &mut Words<'_>, reported: &mut Reported) {
        let file = read_file(line);
        reported.begin();
        print_reading(self.rt.alloc(), reported, file, self.text(file, line));
        reported.end();
    }

    /// `FILE`, and a rule in the lines after it.
    fn print_beginnings(
        &self,
        line: &mut Words<'_>,
        script: &mut Script<'_>,
    ) -> Result<(), Failure> {
        let file = read_file(line);
        let rule = Rule::read(script.block(b".")?)?;
        let text = self.text(file, line);
        let reported = &mut script.reported;
        print_beginnings(self.rt.alloc(), reported, file, text, rule, line);
        Ok(())
    }

    fn print_both(&self, line: &mut Words<'_>, reported: &mut Reported) {
        let state = self.text(ShelfFile::State, line);
        let journal = self.text(ShelfFile::Journal, line);
        print_disagreement(self.rt.alloc(), reported, state, journal);
    }

    fn print_has_text(&self, line: &mut Words<'_>, reported: &mut Reported) {
        match &self.plan {
            Some(plan) if has_text(plan) => reported.answer("it has a text"),
            Some(_) => reported.answer("it has no text"),
            None => line.refuse(),
        }
    }

    fn print_stops(&self, line: &mut Words<'_>, reported: &mut Reported) {
        let trial = Trial {
            alloc: self.rt.alloc(),
            before: &self.files,
            plan: self.plan.as_ref(),
            call: *line,
        };
        line.rest();
        trial.report(line, reported);
    }
}

/// The call of a shelf that a word means.
fn read_call(line: &mut Words<'_>) -> ShelfCall {
    match line.word() {
        "read" => ShelfCall::Read,
        "append" => ShelfCall::Append,
        "replace" => ShelfCall::Replace,
        "remove" => ShelfCall::Remove,
        _ => {
            line.refuse();
            ShelfCall::Read
        }
    }
}
