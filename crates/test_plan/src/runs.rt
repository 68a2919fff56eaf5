//! Runs of `mbplan`, and what they give.

use crate::devices::{Devices, SOUND, Sink, Source};
use run_plan::run::run_plan;
use std::alloc::Global;
use test_scripts::reported::Reported;

/// What standard error gets where memory runs out.
const NO_MEMORY: &[u8] = b"mbplan: no memory\n";

/// Prints what a run on this world writes to standard output and standard error, how many bytes it leaves unread, and its status.
/// Want of memory counts as a loss, also where the run reports it; a writer that cuts this short hides it.
pub fn print_run(alloc: Global, reported: &mut Reported, devices: Devices, world: &[u8]) {
    let mut input = Source {
        rest: world,
        fails: devices.reader_fails,
    };
    let mut out = Sink {
        bytes: Vec::new(alloc),
        wants_memory: false,
        most: devices.out,
        is_flushed: devices.is_flushed,
    };
    let mut err = Sink {
        bytes: Vec::new(alloc),
        wants_memory: false,
        most: devices.err,
        is_flushed: true,
    };
    let status = run_plan(alloc, devices.arguments, &mut input, &mut out, &mut err);
    print_lines(reported, "", &out.bytes);
    print_lines(reported, "error: ", &err.bytes);
    if !input.rest.is_empty() {
        print_number(reported, "unread: ", input.rest.len() as u64, " bytes");
    }
    print_number(reported, "status ", u64::from(status), "");
    if out.wants_memory || err.wants_memory || err.bytes.as_slice() == NO_MEMORY {
        reported.lose();
    }
}

fn print_number(reported: &mut Reported, before: &str, number: u64, following: &str) {
    reported.begin();
    reported.text(before);
    reported.number(number);
    reported.text(following);
    reported.end();
}

/// Prints each line of a text, after the name of the text. A line that has no end says so.
pub fn print_lines(reported: &mut Reported, name: &str, text: &[u8]) {
    for line in text.split_inclusive(|byte| *byte == b'\n') {
        reported.begin();
        reported.text(name);
        match line {
            [line @ .., b'\n'] => reported.bytes(line),
            _ => {
                reported.bytes(line);
                reported.text(" (no line end)");
            }
        }
        reported.end();
    }
}

/// Prints what a run gives on each beginning of a world but the whole. Beginnings with one answer stand together.
pub fn print_beginnings(alloc: Global, reported: &mut Reported, world: &[u8]) {
    let mut first = 0;
    let mut common = Reported::new(alloc);
    for length in 0..world.len() {
        let mut answer = Reported::new(alloc);
        print_run(alloc, &mut answer, SOUND, &world[..length]);
        if answer.is_lost() {
            reported.lose();
        }
        if answer.as_str() != common.as_str() {
            print_range(reported, first, length, common.as_str());
            first = length;
            common = answer;
        }
    }
    print_range(reported, first, world.len(), common.as_str());
}

/// Prints what the beginnings of these lengths give, up to the second length and without it.
fn print_range(reported: &mut Reported, first: usize, end: usize, answer: &str) {
    if first < end {
        reported.begin();
        reported.number(first as u64);
        reported.text(" to ");
        reported.number((end - 1) as u64);
        reported.text(" bytes:");
        reported.end();
        reported.text(answer);
    }
}
