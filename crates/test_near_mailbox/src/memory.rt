//! Folders in memory.

use crate::noted_folder::NotedFolder;
use crate::operation::{octets_of, print_device};
use crate::seat::Seat;
use crate::stop::read_stop;
use crate::trial::try_stops;
use device::schedule::CallStop;
use mailcore::octets::Octets;
use maildir::folder::{File, Place};
use maildir::mem_folder::{FolderCall, MemFolder};
use std::alloc::Global;
use std::mem;
use test_scripts::failure::Failure;
use test_scripts::play::Player;
use test_scripts::reported::Reported;
use test_scripts::script::Script;
use test_scripts::words::Words;

/// A folder in memory, and what further ones are made of: each has the same files, and a stop of its own.
#[derive(Drop)]
pub struct Memory {
    rt: HostRuntime,
    // The lines that say what stands in a new folder.
    lines: Reported,
    stop: Option<CallStop<FolderCall>>,
    seat: Seat<NotedFolder<MemFolder>>,
}

impl Player for Memory {
    fn begin(&mut self) -> Result<(), Failure> {
        Ok(())
    }

    fn play(&mut self, line: &mut Words<'_>, script: &mut Script<'_>) -> Result<(), Failure> {
        let word = line.word();
        let reported = &mut script.reported;
        match word {
            "put" | "hide" if self.seat.is_empty() => self.keep(word, line),
            "try" => try_stops(&self.rt, self, line, reported),
            _ => {
                self.make(line);
                if word == "arrive" {
                    self.arrive(line, reported);
                } else {
                    self.seat.play(&self.rt, word, line, reported);
                }
            }
        }
        Ok(())
    }
}

impl Memory {
    /// `stops STOP`, or nothing: an empty folder, which is made when it is first called.
    pub fn read(rt: &HostRuntime, line: &mut Words<'_>) -> Self {
        let mut stop = None;
        if !line.is_over() {
            line.expect("stops");
            stop = Some(read_stop(line));
        }
        Memory {
            rt: *rt,
            lines: Reported::new(rt.alloc()),
            stop,
            seat: Seat::Empty,
        }
    }

    /// Keeps a line that says what stands in a new folder.
    fn keep(&mut self, word: &str, line: &mut Words<'_>) {
        self.lines.text(word);
        if !line.is_over() {
            self.lines.text(" ");
            self.lines.text(line.text());
        }
        self.lines.end();
    }

    /// `NAME "BYTES"`: a file comes to `cur`.
    fn arrive(&mut self, line: &mut Words<'_>, reported: &mut Reported) {
        let alloc = self.rt.alloc();
        let name = octets_of(alloc, line.word().as_bytes(), line);
        let bytes = Octets::from_vec(line.said(alloc));
        if let Some(noted) = self.seat.close() {
            reported.begin();
            print_device(reported, noted.folder.arrive(name, bytes));
            reported.end();
        }
    }

    /// Makes the folder, if it is not there yet.
    fn make(&mut self, line: &mut Words<'_>) {
        if self.seat.is_empty() {
            let seat = self.new_seat(self.stop, line);
            drop(mem::replace(&mut self.seat, seat));
        }
    }

    /// A new folder, with this stop.
    pub fn new_seat(
        &self,
        stop: Option<CallStop<FolderCall>>,
        line: &mut Words<'_>,
    ) -> Seat<NotedFolder<MemFolder>> {
        let alloc = self.rt.alloc();
        let mut schedule = Vec::new(alloc);
        if let Some(stop) = stop {
            if schedule.push(stop).is_err() {
                line.fail(Failure::NoMemory);
            }
        }
        let mut folder = MemFolder::new(alloc, schedule);
        self.fill(&mut folder, line);
        Seat::Folder(NotedFolder::new(alloc, folder))
    }

    /// Puts into a folder what the lines say.
    fn fill(&self, folder: &mut MemFolder, line: &mut Words<'_>) {
        if self.lines.is_lost() {
            line.fail(Failure::NoMemory);
        }
        for text in self.lines.as_str().lines() {
            let mut words = Words::new(text.as_bytes());
            match words.word() {
                "put" => put(self.rt.alloc(), folder, &mut words),
                _ => folder.hide(),
            }
            line.note(words.end());
        }
    }
}

/// `PATH "BYTES"`: puts a file there.
fn put(alloc: Global, folder: &mut MemFolder, line: &mut Words<'_>) {
    let path = line.word();
    if path == ".uidvalidity" {
        folder.put_meta(Octets::from_vec(line.said(alloc)));
        return;
    }
    let (place, name) = match path.split_once('/') {
        Some(("cur", name)) => (Place::Cur, name),
        Some(("new", name)) => (Place::New, name),
        _ => {
            line.refuse();
            (Place::Cur, path)
        }
    };
    let name = octets_of(alloc, name.as_bytes(), line);
    let bytes = Octets::from_vec(line.said(alloc));
    if folder.put(File { place, name, bytes }).is_err() {
        line.fail(Failure::NoMemory);
    }
}
