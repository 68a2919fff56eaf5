//! A folder or the mailbox on it, and what is asked of both.

use crate::noted_folder::Noted;
use crate::operation::{perform, print_device, report_fault};
use device::whose::Whose;
use mailcore::keywords::Keywords;
use near_box::{NearBox, NearFault};
use std::alloc::Global;
use std::mem;
use std::num::NonZeroU32;
use test_scripts::mail::print_numbers;
use test_scripts::reported::Reported;
use test_scripts::words::Words;

/// A folder, or the mailbox that was opened on it.
#[derive(Drop)]
pub enum Seat<N: Noted> {
    /// Neither.
    Empty,
    /// The folder, whose mailbox is closed.
    Folder(N),
    /// The mailbox.
    Mailbox(NearBox<N>),
}

impl<N: Noted> Seat<N> {
    /// Whether nothing is there.
    pub fn is_empty(&self) -> bool {
        matches!(self, Seat::Empty)
    }

    /// Takes the folder, without the mailbox on it.
    fn take(&mut self) -> Option<N> {
        match mem::replace(self, Seat::Empty) {
            Seat::Empty => None,
            Seat::Folder(folder) => Some(folder),
            Seat::Mailbox(near) => Some(near.into_folder()),
        }
    }

    /// The folder, whose mailbox is closed.
    pub fn close(&mut self) -> Option<&mut N> {
        if let Some(folder) = self.take() {
            drop(mem::replace(self, Seat::Folder(folder)));
        }
        match self {
            Seat::Folder(folder) => Some(folder),
            _ => None,
        }
    }

    /// Opens the mailbox, with this validity where it has no meta file. `Absent` where no folder is.
    pub fn open(
        &mut self,
        alloc: Global,
        fresh: NonZeroU32,
        keywords: Keywords,
    ) -> Result<(), NearFault> {
        match self.take() {
            Some(mut folder) => {
                folder.forget();
                let (seat, opened) = match NearBox::open(alloc, folder, fresh, keywords) {
                    Ok(near) => (Seat::Mailbox(near), Ok(())),
                    Err((fault, folder)) => (Seat::Folder(folder), Err(fault)),
                };
                drop(mem::replace(self, seat));
                opened
            }
            None => {
                drop(keywords);
                Err(NearFault::Absent)
            }
        }
    }

    /// The same, and prints its validity and next UID, or the fault.
    pub fn print_opened(
        &mut self,
        alloc: Global,
        fresh: NonZeroU32,
        keywords: Keywords,
        reported: &mut Reported,
    ) {
        if let Err(fault) = self.open(alloc, fresh, keywords) {
            report_fault(reported, fault);
        }
        if let Seat::Mailbox(near) = self {
            let meta = near.meta();
            print_numbers(reported, meta.validity, meta.next);
        }
    }

    /// Does what a line with this first word asks of the mailbox, prints the answer or the fault, and gives the fault.
    pub fn perform(
        &mut self,
        alloc: Global,
        word: &str,
        line: &mut Words<'_>,
        reported: &mut Reported,
    ) -> Option<NearFault> {
        if let Seat::Mailbox(near) = self {
            return perform(alloc, near, word, line, reported);
        }
        line.refuse();
        None
    }

    /// Plays a line with this first word.
    pub fn play(
        &mut self,
        rt: &HostRuntime,
        word: &str,
        line: &mut Words<'_>,
        reported: &mut Reported,
    ) {
        match word {
            "reopen" | "show" | "sync" => match self.close() {
                Some(folder) => ask_folder(rt, folder, word, line, reported),
                None => line.refuse(),
            },
            _ => {
                reported.begin();
                self.ask(rt.alloc(), word, line, reported);
                reported.end();
            }
        }
    }

    fn ask(&mut self, alloc: Global, word: &str, line: &mut Words<'_>, reported: &mut Reported) {
        if word == "open" {
            let fresh = read_validity(line);
            let keywords = read_keywords(alloc, line);
            self.print_opened(alloc, fresh, keywords, reported);
        } else {
            self.perform(alloc, word, line, reported);
        }
    }
}

/// Does what a line with this first word asks of a folder whose mailbox is closed.
fn ask_folder<N: Noted>(
    rt: &HostRuntime,
    folder: &mut N,
    word: &str,
    line: &mut Words<'_>,
    reported: &mut Reported,
) {
    match word {
        "reopen" => folder.reopen(),
        "show" => folder.print(rt, line, reported),
        _ => {
            reported.begin();
            print_device(reported, folder.sync(Whose::All));
            reported.end();
        }
    }
}

/// Reads a UIDVALIDITY.
pub fn read_validity(line: &mut Words<'_>) -> NonZeroU32 {
    match NonZeroU32::new(line.number()) {
        Some(validity) => validity,
        None => {
            line.refuse();
            NonZeroU32::new(1).unwrap()
        }
    }
}

/// Reads pairs of a letter and a name, up to the end of the line.
fn read_keywords(alloc: Global, line: &mut Words<'_>) -> Keywords {
    let mut keywords = Keywords::new(alloc);
    for _ in b'a'..=b'z' {
        if line.is_over() {
            break;
        }
        line.keyword(&mut keywords);
    }
    keywords
}
