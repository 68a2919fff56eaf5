//! Folders in memory to which others add files.

use crate::files::print_files_in;
use crate::noted_folder::NotedFolder;
use crate::operation::octets_of;
use crate::seat::Seat;
use crate::stop::read_call;
use mailcore::octets::Octets;
use mailcore::others::NoMarks;
use maildir::mem_folder::MemFolder;
use maildir::visited_folder::{ArrivingFile, VisitedFolder};
use std::alloc::Global;
use std::mem;
use test_scripts::failure::Failure;
use test_scripts::play::Player;
use test_scripts::reported::Reported;
use test_scripts::script::Script;
use test_scripts::words::Words;

/// An empty folder, which is made when it is first called, and the files that come to it.
#[derive(Drop)]
pub struct Visited {
    rt: HostRuntime,
    arrivals: Vec<ArrivingFile>,
    seat: Seat<NotedFolder<VisitedFolder<NoMarks>>>,
}

impl Player for Visited {
    fn begin(&mut self) -> Result<(), Failure> {
        Ok(())
    }

    fn play(&mut self, line: &mut Words<'_>, script: &mut Script<'_>) -> Result<(), Failure> {
        let word = line.word();
        if word == "comes" {
            self.keep(line);
        } else {
            self.make();
            self.ask(word, line, &mut script.reported);
        }
        Ok(())
    }
}

impl Visited {
    /// No file comes yet.
    pub fn new(rt: &HostRuntime) -> Self {
        Visited {
            rt: *rt,
            arrivals: Vec::new(rt.alloc()),
            seat: Seat::Empty,
        }
    }

    /// `CALL K NAME "BYTES"`: a file that comes before the K-th call of this name.
    fn keep(&mut self, line: &mut Words<'_>) {
        let alloc = self.rt.alloc();
        let call = read_call(line);
        let number = line.long_number();
        let name = octets_of(alloc, line.word().as_bytes(), line);
        let bytes = Octets::from_vec(line.said(alloc));
        let file = ArrivingFile {
            call,
            number,
            name,
            bytes,
        };
        if self.arrivals.push(file).is_err() {
            line.fail(Failure::NoMemory);
        }
    }

    /// Makes the folder, if it is not there yet.
    fn make(&mut self) {
        if self.seat.is_empty() {
            let alloc = self.rt.alloc();
            let arrivals = mem::replace(&mut self.arrivals, Vec::new(alloc));
            let folder = NotedFolder::new(alloc, folder_with(alloc, arrivals));
            drop(mem::replace(&mut self.seat, Seat::Folder(folder)));
        }
    }

    fn ask(&mut self, word: &str, line: &mut Words<'_>, reported: &mut Reported) {
        if word != "leave" {
            self.seat.play(&self.rt, word, line, reported);
        } else if let Some(noted) = self.seat.close() {
            print_left(&self.rt, noted, line, reported);
        }
    }
}

/// Prints the files of the folder with all that has come, and leaves an empty one.
fn print_left(
    rt: &HostRuntime,
    noted: &mut NotedFolder<VisitedFolder<NoMarks>>,
    line: &mut Words<'_>,
    reported: &mut Reported,
) {
    let empty = folder_with(rt.alloc(), Vec::new(rt.alloc()));
    match mem::replace(&mut noted.folder, empty).into_folder() {
        Ok(folder) => {
            print_files_in(rt, &folder, line, reported);
            drop(folder);
        }
        Err(_) => line.fail(Failure::NoMemory),
    }
}

/// An empty folder to which these files come.
fn folder_with(alloc: Global, arrivals: Vec<ArrivingFile>) -> VisitedFolder<NoMarks> {
    VisitedFolder::new(alloc, MemFolder::new(alloc, Vec::new(alloc)), arrivals)
}
