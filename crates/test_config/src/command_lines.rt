//! How a script of command lines is played.

use crate::requests::print_request;
use command_line::fault::UsageFault;
use command_line::read::read_words;
use command_line::report::report;
use std::alloc::Global;
use test_scripts::failure::Failure;
use test_scripts::play::{Player, play_all};
use test_scripts::reported::Reported;
use test_scripts::script::Script;
use test_scripts::words::Words;

/// Plays a script of command lines.
pub fn run_words(rt: &HostRuntime, script: &mut Script<'_>) -> Result<(), Failure> {
    play_all(rt, &mut Shell(rt.alloc()), script)
}

/// Where command lines are read, with its memory.
#[derive(Drop)]
struct Shell(Global);

impl Player for Shell {
    fn begin(&mut self) -> Result<(), Failure> {
        Ok(())
    }

    fn play(&mut self, line: &mut Words<'_>, script: &mut Script<'_>) -> Result<(), Failure> {
        let text = line.text();
        let (text, is_closed) = match text.strip_prefix("closed ") {
            Some(text) => (text, true),
            None => (text, false),
        };
        if text == "mbsync" || text.starts_with("mbsync ") {
            print_line(self.0, &mut script.reported, text, is_closed);
        } else {
            line.refuse();
        }
        Ok(())
    }
}

/// Prints what a command line asks for, or why it asks for nothing. Where all is closed nothing can be written of it.
fn print_line(alloc: Global, reported: &mut Reported, line: &str, is_closed: bool) {
    let mut words = Vec::new(alloc);
    for word in line.split(' ') {
        if words.push(word_of(word)).is_err() {
            reported.lose();
        }
    }
    match read_words(alloc, &words) {
        Ok(request) => {
            print_request(alloc, reported, &request);
            drop(request);
        }
        Err(fault) => {
            report_fault(alloc, reported, &fault, is_closed);
            drop(fault);
        }
    }
}

/// The word that is written so.
fn word_of(word: &str) -> &str {
    if word == "''" { "" } else { word }
}

/// Prints what is written of words that name no request, and the status. Want of memory counts as a loss.
fn report_fault(alloc: Global, reported: &mut Reported, fault: &UsageFault, is_closed: bool) {
    let mut out = Vec::new(alloc);
    let mut err = Vec::new(alloc);
    let status = if is_closed {
        report(fault, &mut [].as_mut_slice(), &mut [].as_mut_slice())
    } else {
        report(fault, &mut out, &mut err)
    };
    print_lines(reported, "out:", &out);
    print_lines(reported, "err:", &err);
    reported.begin();
    reported.text("status ");
    reported.number(u64::from(status));
    reported.end();
    if matches!(fault, UsageFault::NoMemory) {
        reported.lose();
    }
}

/// Prints each line that was written, after the name of where it was.
fn print_lines(reported: &mut Reported, name: &str, bytes: &[u8]) {
    let text = str::from_utf8(bytes).unwrap_or("(no text)");
    for line in text.lines() {
        reported.begin();
        reported.text(name);
        reported.text(if line.is_empty() { "" } else { " " });
        reported.text(line);
        reported.end();
    }
}
